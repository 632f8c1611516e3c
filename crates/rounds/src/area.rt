// The test of the area, refusal 8: mark by mark the row must be the least that the words below r offer it.

ghost use Rattle.std.specs.Prelude.{◌*◌, ◌≤◌, ◌<◌, length};
ghost use Rattle.walk.specs.Ceilings.{ceilings};
ghost use Rattle.rounds.specs.Judged.{Tells};

use crate::lent::Lent;
use rows::Words;
use rows::offers::Offers;
use tables::numbers::Mark;
use tables::runs::Runs;
use walk::Network;

// The area is the right one for r rounds.
pub fn right(lent: &Lent, r: u16, area: &[u16]) -> bool
    requires { (lent.now.question.network.marks * lent.now.question.condition.states ≤ length area.now)
        × (lent.now.question.ask.from < lent.now.question.network.marks) × (r < ceilings.unreached) }
    ensures { Tells lent.now.question lent.now.steps.now.table result r area.now }
{
    let question = lent.question;
    let marks = question.network.marks;
    let s = Mark::tested(question.ask.from, marks);
    let words = Words::of(area, question.network, question.condition);
    let mut live = [0u32; Network::MARKS];
    words.alive(0, r, &mut live);
    let offers = Offers {
        words,
        live: &live,
        from: question.from,
        sets: question.kinds,
        kinds: question.network.kinds,
        steps: lent.steps,
    };
    let runs = Runs {
        to: question.to,
        marks,
    };
    let mut first = 0;
    for v in 0..marks {
        let m = Mark::tested(v, marks);
        let end = runs.end(m, first);
        let mut row = rows::opening(m, s, question.condition);
        offers.lower_row(&mut row, first..end);
        if rows::differs(words.row(m), &row) {
            return false;
        }
        first = end;
    }
    true
}
