// The calls for a caller that holds its moves in an array of its own: the first so many rows of it are lent. One row more than the ceiling, so that
// a list that is too long is lent as such; past the array's end only the number of moves counts.

ghost use Rattle.std.specs.Prelude.{◌≡◌, suc, min};
ghost use Rattle.walk.specs.Ceilings.{ceilings};
ghost use Rattle.walk.specs.Calls.{start, round, first, next};
ghost use Rattle.walk.specs.Answers.{asked, said_first, said_next, Meets};
ghost use Rattle.desk.specs.Answers.{said_prepared};
ghost use Rattle.desk.specs.Held.{rows_of};

use crate::{Prepared, Rounds};
use walk::{Condition, First, Move, Next, Question, Refused};

#[derive(Clone, Copy)]
pub struct Held {}

impl Held {
    pub const ROWS: usize = Condition::MOVES + 1;
}

// How many rows are lent, where there are so many moves: no more than there are rows.
fn lent(moves: usize) -> usize
    ensures { result ≡ min moves (suc ceilings.moves) }
{
    moves.min(Held::ROWS)
}

pub fn start(
    question: &Question,
    rows: [Move; Held::ROWS],
    moves: usize,
    area: &mut [u16],
) -> Result<Prepared, Refused>
    ensures { Meets (start (asked question.now (rows_of moves rows)) area.old) (said_prepared result) area.new }
{
    Rounds::start(question, &rows[..lent(moves)], area)
}

pub fn round(
    before: Rounds,
    question: &Question,
    rows: [Move; Held::ROWS],
    moves: usize,
    area: &mut [u16],
) -> Result<Prepared, Refused>
    ensures { Meets (round (asked question.now (rows_of moves rows)) before.done area.old) (said_prepared result) area.new }
{
    before.round(question, &rows[..lent(moves)], area)
}

pub fn first(
    after: Rounds,
    question: &Question,
    rows: [Move; Held::ROWS],
    moves: usize,
    area: &[u16],
    chain: &mut [u16],
) -> Result<First, Refused>
    ensures { Meets (first (asked question.now (rows_of moves rows)) after.done area.now chain.old) (said_first result) chain.new }
{
    after.first(question, &rows[..lent(moves)], area, chain)
}

pub fn next(
    after: Rounds,
    question: &Question,
    rows: [Move; Held::ROWS],
    moves: usize,
    area: &[u16],
    chain: &mut [u16],
) -> Result<Next, Refused>
    ensures { Meets (next (asked question.now (rows_of moves rows)) after.done area.now chain.old) (said_next result) chain.new }
{
    after.next(question, &rows[..lent(moves)], area, chain)
}
