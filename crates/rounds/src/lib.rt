// Preparing by rounds: start and round. Refusals 1 to 7 are the tests of `tables`, refusals 1 to 8 those of `tests`, and a round over a right area is
// `advance::advance`.

#![tactic(auto)]

pub mod advance;
pub mod area;
pub mod lent;
pub mod status;
pub mod tests;

ghost use Rattle.std.specs.Prelude.{◌≡◌, ◌*◌, ◌≤◌, ◌<◌, length};
ghost use Rattle.walk.specs.Question.{status};
ghost use Rattle.walk.specs.Refusals.{is_going};
ghost use Rattle.walk.specs.Calls.{start, round};
ghost use Rattle.walk.specs.Answers.{asked, Meets};
ghost use Rattle.tables.specs.Lent.{moves_of};
ghost use Rattle.rounds.specs.Answers.{said_prepared};
ghost use Rattle.rounds.specs.Judged.{Every, IsRight, Turns};

use crate::lent::Lent;
use crate::status::status;
use rows::Words;
use tables::gathered::Gathered;
use tables::numbers::Mark;
use tables::steps::Steps;
use walk::{Question, Refused, Status};

// "Start writes the right area for 0 rounds and hands back the count 0." The count stands beside the status.
pub fn start(
    question: &Question,
    moves: &Gathered,
    area: &mut [u16],
) -> Result<(usize, Status), Refused>
    ensures { Meets (start (asked question.now (moves_of moves.now.count moves.now.numbers)) area.old) (said_prepared result) area.new }
{
    tables::tests::tested(question, moves, area)?;
    let marks = question.network.marks;
    let s = Mark::tested(question.ask.from, marks);
    rows::open(area, marks, question.condition, s);
    let words = Words::of(area, question.network, question.condition);
    let t = Mark::tested(question.ask.to, marks);
    Ok((0, status(&words, question.condition.accept, t, 0)))
}

// "A round takes the count of rounds done and hands back the next, moving the area from the right one for r to the right one for r + 1."
// The count comes from the caller, so it can be any.
pub fn round(
    done: usize,
    question: &Question,
    moves: &Gathered,
    area: &mut [u16],
) -> Result<(usize, Status), Refused>
    ensures { Meets (round (asked question.now (moves_of moves.now.count moves.now.numbers)) done area.old) (said_prepared result) area.new }
{
    let mut steps = Steps::empty();
    let (lent, found) = tests::tested(done, question, moves, area, &mut steps)?;
    Ok(turn(done, found, &lent, area))
}

fn going(found: Status) -> bool
    ensures { result ≡ is_going found }
{
    matches!(found, Status::Going)
}

// A round on what passed refusals 1 to 8, with the status found.
fn turn(done: usize, found: Status, lent: &Lent, area: &mut [u16]) -> (usize, Status)
    requires { (lent.now.question.network.marks * lent.now.question.condition.states ≤ length area.old)
        × (lent.now.question.ask.to < lent.now.question.network.marks)
        × (done ≤ lent.now.question.network.marks * lent.now.question.condition.states)
        × IsRight lent.now.question lent.now.steps.now.table done area.old
        × Every lent.now.question lent.now.steps.now.table (λ D. found ≡ status D done) }
    ensures { Turns lent.now.question lent.now.steps.now.table done area.old result area.new }
{
    if !going(found) {
        return (done, found);
    }
    let r = done as u16;
    advance::advance(lent, r, area);
    let question = lent.question;
    let marks = question.network.marks;
    let words = Words::of(area, question.network, question.condition);
    let t = Mark::tested(question.ask.to, marks);
    (
        done + 1,
        status(&words, question.condition.accept, t, r + 1),
    )
}
