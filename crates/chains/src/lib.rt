// Listing: first and next. Refusals 1 to 8 are the tests of `rounds`, 9 and 10 those of `tests`; the chains themselves are found by going `back`.

#![tactic(auto)]

mod tests;

ghost use Rattle.std.specs.Prelude.{true, ◌≡◌, ◌*◌, ◌≤◌, ◌<◌, length};
ghost use Rattle.walk.specs.Ceilings.{ceilings};
ghost use Rattle.walk.specs.Calls.{first, next};
ghost use Rattle.walk.specs.Answers.{asked, said_first, said_next, Meets};
ghost use Rattle.walk.proofs.Sets.{nonempty};
ghost use Rattle.tables.specs.Lent.{moves_of};
ghost use Rattle.tables.specs.Entries.{Entered};
ghost use Rattle.rows.specs.Rows.{Sized};
ghost use Rattle.back.specs.Over.{ends_at};
ghost use Rattle.back.specs.Ground.{net, back};
ghost use Rattle.chains.specs.Following.{Over, raised_in, Raises, Raisable, seen_in, Followed};

use back::ground::{At, Ground};
use back::look::Raised;
use back::step::{Step, ends};
use rounds::lent::Lent;
use rows::Words;
use tables::gathered::Gathered;
use tables::numbers::Mark;
use tables::steps::Steps;
use walk::{First, Next, Question, Refusal, Refused};

// "First gives the earliest chain in the order, or says None and writes nothing."
pub fn first(
    done: usize,
    question: &Question,
    moves: &Gathered,
    area: &[u16],
    chain: &mut [u16],
) -> Result<First, Refused>
    ensures { Meets (first (asked question.now (moves_of moves.now.count moves.now.numbers)) done area.now chain.old) (said_first result)
        chain.new }
{
    let mut steps = Steps::empty();
    let (lent, found) = tests::tested(done, question, moves, area, chain.len(), &mut steps)?;
    let Some(n) = found else {
        return Ok(First::None);
    };
    let end = at_end(question, area, n);
    ground(&lent, area).before(n, end, chain);
    Ok(First::Chain)
}

// "Next reads a chain from the front of the chain buffer (16-bit words, as many as the least length) and puts the chain after it in its place, or
// says End and writes nothing."
pub fn next(
    done: usize,
    question: &Question,
    moves: &Gathered,
    area: &[u16],
    chain: &mut [u16],
) -> Result<Next, Refused>
    ensures { Meets (next (asked question.now (moves_of moves.now.count moves.now.numbers)) done area.now chain.old) (said_next result)
        chain.new }
{
    let mut steps = Steps::empty();
    let (lent, found) = tests::tested(done, question, moves, area, chain.len(), &mut steps)?;
    let Some(n) = found else {
        return Err(Refused {
            refusal: Refusal::NotListed,
            place: 0,
        });
    };
    let end = at_end(question, area, n);
    later(&ground(&lent, area), end, n, chain)
}

// The end of the chains of length n.
fn at_end(question: &Question, area: &[u16], n: usize) -> At
    requires { Sized question.now.network.marks question.now.network.kinds question.now.condition.states area.now
        × (question.now.ask.from < question.now.network.marks) × (question.now.ask.to < question.now.network.marks) × (n < ceilings.unreached) }
    ensures { Entered result.mark.0 question.now.ask.to question.now.network.marks
        × (result.alive ≡ ends_at area.now question.now.condition.states question.now.ask.to question.now.condition.accept n) }
{
    let words = Words::of(area, question.network, question.condition);
    let mark = Mark::tested(question.ask.to, words.marks);
    At {
        mark,
        alive: ends(&words, question.condition.accept, mark, n as u16),
    }
}

// What the chains are found over: what is lent, with the area that was tested.
fn ground<'a>(lent: &'a Lent<'a, 'a>, area: &'a [u16]) -> Ground<'a>
    requires { (lent.now.question.network.marks * lent.now.question.condition.states ≤ length area.now)
        × (length lent.now.question.from.now ≤ ceilings.ties) }
    ensures { Over lent.now area.now result }
{
    let question = lent.question;
    let words = Words::of(area, question.network, question.condition);
    let step = Step {
        words,
        kinds: question.network.kinds,
        steps: lent.steps,
    };
    Ground {
        from: question.from,
        to: question.to,
        kinds: question.kinds,
        step,
    }
}

// The chain after the one that stands in the first n words, over a right area.
fn later(ground: &Ground, end: At, n: usize, chain: &mut [u16]) -> Result<Next, Refused>
    requires { (end.mark.0 < ground.now.step.words.marks) × (n < ceilings.unreached) × (n ≤ length chain.old)
        × (nonempty end.alive ≡ true)
        × Raisable (net ground.now) (back ground.now) n (seen_in (net ground.now) (back ground.now) n end.mark.0 end.alive chain.old) }
    ensures { Followed (net ground.now) (back ground.now) n end.mark.0 end.alive chain.old result chain.new }
{
    let Some(raised) = ground.look(&chain[..n], end)? else {
        return Ok(Next::End);
    };
    raise(ground, raised, chain);
    Ok(Next::Chain)
}

// The tie at a place is raised, and the places before it are filled with the smallest.
fn raise(ground: &Ground, raised: Raised, chain: &mut [u16])
    requires { (raised.place < ceilings.unreached)
        × Raises (net ground.now) (back ground.now) (length chain.old) raised.place raised.taken.tie.0 raised.taken.alive }
    ensures { chain.new ≡ raised_in (net ground.now) (back ground.now) raised.place raised.taken.tie.0 raised.taken.alive chain.old }
{
    let tie = raised.taken.tie;
    chain[raised.place] = tie.word();
    let at = At {
        mark: tie.leaves(ground.from, ground.step.words.marks),
        alive: raised.taken.alive,
    };
    ground.before(raised.place, at, chain);
}
