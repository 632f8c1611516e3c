// The public desk: start, round, first and next, in the form that the rule book names. Each has one promise, an equation with the call's definition
// in walk/specs/Calls.antt, for every input; docs/PROMISES.md says it in words. A call brings the moves into one array (`moves::gather`) and hands on
// to the inner crates.

#![tactic(auto)]

pub mod held;

ghost use Rattle.std.specs.Prelude.{◌≡◌};
ghost use Rattle.walk.specs.Calls.{start, round, first, next};
ghost use Rattle.walk.specs.Answers.{asked, said_first, said_next, Meets};
ghost use Rattle.rounds.specs.Answers as inner;
ghost use Rattle.desk.specs.Answers.{said_prepared};

use moves::gather;
use walk::{First, Move, Next, Question, Refused, Status};

// How many rounds were done. It comes from the caller, so any count can stand in it.
#[derive(Clone, Copy)]
pub struct Rounds {
    pub done: usize,
}

// The answer of start and of a round.
#[derive(Clone, Copy)]
pub struct Prepared {
    pub rounds: Rounds,
    pub status: Status,
}

impl Rounds {
    // "Start writes the right area for 0 rounds and hands back the count 0."
    pub fn start(question: &Question, moves: &[Move], area: &mut [u16]) -> Result<Prepared, Refused>
        ensures { Meets (start (asked question.now moves.now) area.old) (said_prepared result) area.new }
    {
        counted(rounds::start(question, &gather(moves), area))
    }

    // "A round takes the count of rounds done and hands back the next, moving the area from the right one for r to the right one for r + 1."
    pub fn round(
        self,
        question: &Question,
        moves: &[Move],
        area: &mut [u16],
    ) -> Result<Prepared, Refused>
        ensures { Meets (round (asked question.now moves.now) self.done area.old) (said_prepared result) area.new }
    {
        counted(rounds::round(self.done, question, &gather(moves), area))
    }

    // "First gives the earliest chain in the order, or says None and writes nothing."
    pub fn first(
        self,
        question: &Question,
        moves: &[Move],
        area: &[u16],
        chain: &mut [u16],
    ) -> Result<First, Refused>
        ensures { Meets (first (asked question.now moves.now) self.done area.now chain.old) (said_first result) chain.new }
    {
        chains::first(self.done, question, &gather(moves), area, chain)
    }

    // "Next reads a chain from the front of the chain buffer (16-bit words, as many as the least length) and puts the chain after it in its place, or
    // says End and writes nothing."
    pub fn next(
        self,
        question: &Question,
        moves: &[Move],
        area: &[u16],
        chain: &mut [u16],
    ) -> Result<Next, Refused>
        ensures { Meets (next (asked question.now moves.now) self.done area.now chain.old) (said_next result) chain.new }
    {
        chains::next(self.done, question, &gather(moves), area, chain)
    }
}

// The count that was handed back, as `Rounds`.
fn counted(answer: Result<(usize, Status), Refused>) -> Result<Prepared, Refused>
    ensures { said_prepared result ≡ inner.said_prepared answer }
{
    let (done, status) = answer?;
    Ok(Prepared {
        rounds: Rounds { done },
        status,
    })
}
