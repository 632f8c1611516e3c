// The tests behind refusals 1 to 7, in the table's order: one for each row. Each ceiling is cited from its constant.

ghost use Rattle.std.specs.Prelude.{Bool, List, [], ◌∷◌, ℕ, ◌≡◌, ◌*◌, ◌≤◌, ◌<◌, length};
ghost use Rattle.walk.specs.declared.Move.{Move};
ghost use Rattle.walk.specs.Ceilings.{ceilings};
ghost use Rattle.walk.specs.Network as lent;
ghost use Rattle.walk.specs.Answers.{network_of, condition_of, asked};
ghost use Rattle.walk.specs.Refusals.{row, at_first, bad_tie_at, late_at, bad_move_at, sizes, bad_tie, tie_order, bad_condition, bad_move, bad_ends, short_area, start_tests};
ghost use Rattle.tables.specs.Lent.{moves_of};
ghost use Rattle.tables.specs.Tests.{first_given};

use crate::gathered::Gathered;
use crate::sets::only_below;
use walk::{Condition, Network, Question, Refusal, Refused};

// A row of the table: refused if it is given.
fn unless(given: bool, refusal: Refusal, place: usize) -> Result<(), Refused>
    ensures { result ≡ first_given (row refusal given place ∷ []) }
{
    if given {
        return Err(Refused { refusal, place });
    }
    Ok(())
}

// A row that asks each of n places: refused at the first that is bad.
fn unless_any<F: Fn(usize) -> bool>(n: usize, refusal: Refusal, bad: F) -> Result<(), Refused>
    requires { (i : ℕ) → i < n → F.pre bad i }
    ensures { (is_bad : ℕ → Bool) → ((i : ℕ) (x : Bool) → i < n → F.post bad i x → x ≡ is_bad i)
        → result ≡ first_given (at_first refusal n is_bad ∷ []) }
{
    for place in 0..n {
        if bad(place) {
            return Err(Refused { refusal, place });
        }
    }
    Ok(())
}

// "V, K or E past its ceiling or V, K zero, or columns of unequal length"
fn sizes(question: &Question) -> Result<(), Refused>
    ensures { (m : List Move) → result ≡ first_given (sizes (asked question.now m) ∷ []) }
{
    let network = question.network;
    let ties = question.from.len();
    let bad = network.marks < 1
        || network.marks > Network::MARKS
        || network.kinds < 1
        || network.kinds > Network::KINDS
        || ties > Network::TIES
        || question.to.len() != ties
        || question.kinds.len() != ties;
    unless(bad, Refusal::Sizes, 0)
}

// Tie e "names a mark not below V or a kind not below K".
fn bad_tie_at(question: &Question, e: usize) -> bool
    requires { (question.now.network.kinds ≤ ceilings.kinds) × (e < length question.now.from.now) × (e < length question.now.to.now)
        × (e < length question.now.kinds.now) }
    ensures { result ≡ bad_tie_at (network_of question.now.network question.now.from.now question.now.to.now question.now.kinds.now) e }
{
    let network = question.network;
    usize::from(question.from[e]) >= network.marks
        || usize::from(question.to[e]) >= network.marks
        || !only_below(network.kinds, question.kinds[e])
}

// The first such tie is refused.
fn bad_tie(question: &Question) -> Result<(), Refused>
    requires { (question.now.network.kinds ≤ ceilings.kinds) × (length question.now.to.now ≡ length question.now.from.now)
        × (length question.now.kinds.now ≡ length question.now.from.now) }
    ensures { (m : List Move) → result ≡ first_given (bad_tie (asked question.now m) ∷ []) }
{
    // At hand, so that where the columns stand is not fetched anew for each tie.
    let lent = *question;
    unless_any(lent.from.len(), Refusal::BadTie, |e| bad_tie_at(&lent, e))
}

// The to mark of tie e "is below that of the tie before".
fn late_at(to: &[u16], e: usize) -> bool
    requires { e < length to.now }
    ensures { (N : lent.Network) → N.tos ≡ to.now → result ≡ late_at N e }
{
    e > 0 && to[e] < to[e - 1]
}

// The first such tie is refused.
fn tie_order(question: &Question) -> Result<(), Refused>
    requires { length question.now.to.now ≡ length question.now.from.now }
    ensures { (m : List Move) → result ≡ first_given (tie_order (asked question.now m) ∷ []) }
{
    unless_any(
        question.to.len(),
        Refusal::TieOrder,
        |e| late_at(question.to, e),
    )
}

// "Q or the move count outside its ceiling, or a start or accepting state not below Q"
fn bad_condition(question: &Question, moves: &Gathered) -> Result<(), Refused>
    ensures { result ≡ first_given (bad_condition (asked question.now (moves_of moves.now.count moves.now.numbers)) ∷ []) }
{
    let condition = question.condition;
    let bad = condition.states < 1
        || condition.states > Condition::STATES
        || moves.count > Condition::MOVES
        || !only_below(condition.states, condition.start)
        || !only_below(condition.states, condition.accept);
    unless(bad, Refusal::BadCondition, 0)
}

// Move j "names a state not below Q or a kind not below K".
fn bad_move_at(question: &Question, moves: &Gathered, j: usize) -> bool
    requires { (j < moves.now.count) × (j < ceilings.moves) }
    ensures { result ≡ bad_move_at question.now.network.kinds (condition_of question.now.condition (moves_of moves.now.count moves.now.numbers)) j }
{
    let m = moves.fetched(j);
    let states = question.condition.states;
    usize::from(m.from) >= states
        || usize::from(m.kind) >= question.network.kinds
        || usize::from(m.to) >= states
}

// The first such move is refused.
fn bad_move(question: &Question, moves: &Gathered) -> Result<(), Refused>
    requires { moves.now.count ≤ ceilings.moves }
    ensures { result ≡ first_given (bad_move (asked question.now (moves_of moves.now.count moves.now.numbers)) ∷ []) }
{
    let lent = *question;
    unless_any(
        moves.count,
        Refusal::BadMove,
        |j| bad_move_at(&lent, moves, j),
    )
}

// "s or t not below V"
fn bad_ends(question: &Question) -> Result<(), Refused>
    ensures { (m : List Move) → result ≡ first_given (bad_ends (asked question.now m) ∷ []) }
{
    let marks = question.network.marks;
    let bad = question.ask.from >= marks || question.ask.to >= marks;
    unless(bad, Refusal::BadEnds, 0)
}

// V×Q, the number of pairs of a mark and a state.
pub fn pairs(marks: usize, states: usize) -> usize
    requires { (marks ≤ ceilings.marks) × (states ≤ ceilings.states) }
    ensures { (result ≡ marks * states) × (result ≤ ceilings.words) }
{
    marks * states
}

// "area shorter than V×Q words"
fn short_area(question: &Question, area: &[u16]) -> Result<(), Refused>
    requires { (question.now.network.marks ≤ ceilings.marks) × (question.now.condition.states ≤ ceilings.states) }
    ensures { (m : List Move) → result ≡ first_given (short_area (asked question.now m) area.now ∷ []) }
{
    let words = pairs(question.network.marks, question.condition.states);
    unless(area.len() < words, Refusal::ShortArea, words)
}

// Refusals 1 to 7: the first that is given.
pub fn tested(question: &Question, moves: &Gathered, area: &[u16]) -> Result<(), Refused>
    ensures { result ≡ first_given (start_tests (asked question.now (moves_of moves.now.count moves.now.numbers)) area.now) }
{
    sizes(question)?;
    bad_tie(question)?;
    tie_order(question)?;
    bad_condition(question, moves)?;
    bad_move(question, moves)?;
    bad_ends(question)?;
    short_area(question, area)
}
