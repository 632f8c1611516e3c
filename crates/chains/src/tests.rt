// The tests of first and next: refusals 1 to 8 as a round has them, then 9 and 10.

ghost use Rattle.std.specs.Prelude.{◌≡◌, ◌*◌};
ghost use Rattle.walk.specs.Ceilings.{ceilings};
ghost use Rattle.walk.specs.Answers.{asked};
ghost use Rattle.tables.specs.Lent.{moves_of};
ghost use Rattle.tables.specs.Steps.{Clear};
ghost use Rattle.chains.specs.Asking.{by_status, Asks};

use rounds::lent::Lent;
use tables::gathered::Gathered;
use tables::steps::Steps;
use walk::{Question, Refusal, Refused, Status};

// Refusals 9 and 10, for a chain buffer with so much room; or the least length, if there is a chain.
fn by_status(found: Status, room: usize) -> Result<Option<usize>, Refused>
    ensures { result ≡ by_status found room }
{
    match found {
        Status::Going => Err(Refused {
            refusal: Refusal::Unfinished,
            place: 0,
        }),
        Status::None => Ok(None),
        Status::Found(n) => {
            if room < n {
                return Err(Refused {
                    refusal: Refusal::ShortChain,
                    place: n,
                });
            }
            Ok(Some(n))
        }
    }
}

// Refusals 1 to 10; the moves are brought into the step table.
pub fn tested<'a, 'b>(
    done: usize,
    question: &Question<'a>,
    moves: &Gathered,
    area: &[u16],
    room: usize,
    steps: &'b mut Steps,
) -> Result<(Lent<'a, 'b>, Option<usize>), Refused>
    requires { Clear steps.old.table (ceilings.kinds * ceilings.states) × Clear steps.old.sources ceilings.kinds }
    ensures { Asks question.now (asked question.now (moves_of moves.now.count moves.now.numbers)) done area.now room result }
{
    let (lent, found) = rounds::tests::tested(done, question, moves, area, steps)?;
    let length = by_status(found, room)?;
    Ok((lent, length))
}
