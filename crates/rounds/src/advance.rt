// One round over a right area: what the pairs with the word r lead to, and no chain has reached, becomes r + 1.

ghost use Rattle.std.specs.Prelude.{◌+◌, ◌*◌, ◌≤◌, ◌<◌, length};
ghost use Rattle.walk.specs.Ceilings.{ceilings};
ghost use Rattle.rows.specs.Offers.{AllLiving};
ghost use Rattle.rounds.specs.Judged.{IsRight, Advances, RowOffered};

use crate::lent::Lent;
use rows::Words;
use rows::offers::Offers;
use std::ops::Range;
use tables::numbers::Mark;
use tables::runs::Runs;
use walk::{Condition, Network};

// The right area for r rounds becomes the right one for r + 1.
pub fn advance(lent: &Lent, r: u16, area: &mut [u16])
    requires { (lent.now.question.network.marks * lent.now.question.condition.states ≤ length area.old)
        × (r + 1 < ceilings.unreached) × IsRight lent.now.question lent.now.steps.now.table r area.old }
    ensures { Advances lent.now.question lent.now.steps.now.table r area.old area.new }
{
    let question = lent.question;
    let marks = question.network.marks;
    let states = question.condition.states;
    let words = Words::of(area, question.network, question.condition);
    let mut live = [0u32; Network::MARKS];
    words.alive(r, r + 1, &mut live);
    let runs = Runs {
        to: question.to,
        marks,
    };
    let mut first = 0;
    for v in 0..marks {
        let m = Mark::tested(v, marks);
        let end = runs.end(m, first);
        let row = offered(&*lent, area, &live, m, first..end);
        rows::write(area, rows::place(m, states, marks), &row, states);
        first = end;
    }
}

// The row of mark v as it stands, lowered by what its ties offer.
fn offered<'a>(
    lent: &'a Lent<'a, 'a>,
    area: &'a [u16],
    live: &'a [u32; Network::MARKS],
    v: Mark,
    ties: Range<usize>,
) -> [u16; Condition::STATES]
    requires { (lent.now.question.network.marks * lent.now.question.condition.states ≤ length area.now)
        × AllLiving live.now area.now lent.now.question.network.marks lent.now.question.condition.states
        × (v.0 < lent.now.question.network.marks) × (ties.start ≤ ties.end) × (ties.end ≤ length lent.now.question.from.now) }
    ensures { RowOffered lent.now.question lent.now.steps.now.table lent.now.steps.now.sources live.now area.now v.0 ties.start ties.end result }
{
    let question = lent.question;
    let marks = question.network.marks;
    let states = question.condition.states;
    let words = Words::of(area, question.network, question.condition);
    let offers = Offers {
        words,
        live,
        from: question.from,
        sets: question.kinds,
        kinds: question.network.kinds,
        steps: lent.steps,
    };
    let mut row = rows::fetch(area, rows::place(v, states, marks), states);
    offers.lower_row(&mut row, ties);
    row
}
