// The tests behind refusals 1 to 8, which a round and the calls of the listing share: those of `tables`, then the count and the area.

ghost use Rattle.std.specs.Prelude.{◌*◌, ◌≤◌, ◌<◌, length};
ghost use Rattle.walk.specs.Ceilings.{ceilings};
ghost use Rattle.walk.specs.Answers.{asked};
ghost use Rattle.tables.specs.Lent.{moves_of};
ghost use Rattle.tables.specs.Steps.{Clear};
ghost use Rattle.rounds.specs.Judged.{Stood, Judges};

use crate::area::right;
use crate::lent::Lent;
use crate::status::status;
use rows::Words;
use tables::gathered::Gathered;
use tables::numbers::Mark;
use tables::steps::Steps;
use tables::tests::pairs;
use walk::{Question, Refusal, Refused, Status};

// Refusal 8, the count and the area, on what passed refusals 1 to 7; or the status of the right area.
fn of_area(done: usize, lent: &Lent, area: &[u16]) -> Result<Status, Refused>
    requires { (lent.now.question.network.marks * lent.now.question.condition.states ≤ length area.now)
        × (lent.now.question.ask.from < lent.now.question.network.marks) × (lent.now.question.ask.to < lent.now.question.network.marks) }
    ensures { Stood lent.now.question lent.now.steps.now.table done area.now result }
{
    let question = lent.question;
    let marks = question.network.marks;
    if done > pairs(marks, question.condition.states) || !right(lent, done as u16, area) {
        return Err(Refused {
            refusal: Refusal::WrongArea,
            place: 0,
        });
    }
    let words = Words::of(area, question.network, question.condition);
    let t = Mark::tested(question.ask.to, marks);
    Ok(status(&words, question.condition.accept, t, done as u16))
}

// Refusals 1 to 8. Where 1 to 7 pass, the moves are brought into the step table.
pub fn tested<'a, 'b>(
    done: usize,
    question: &Question<'a>,
    moves: &Gathered,
    area: &[u16],
    steps: &'b mut Steps,
) -> Result<(Lent<'a, 'b>, Status), Refused>
    requires { Clear steps.old.table (ceilings.kinds * ceilings.states) × Clear steps.old.sources ceilings.kinds }
    ensures { Judges question.now (asked question.now (moves_of moves.now.count moves.now.numbers)) done area.now result }
{
    tables::tests::tested(question, moves, area)?;
    steps.fill(question.condition, question.network.kinds, moves);
    let lent = Lent {
        question: *question,
        steps: &*steps,
    };
    let found = of_area(done, &lent, area)?;
    Ok((lent, found))
}
