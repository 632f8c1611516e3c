// The step table: the set of states that follow state p under kind k stands at k×32 + p, 32 being the ceiling of states. A call brings the moves
// into it once; after that nothing looks at a move.

ghost use Rattle.std.specs.Prelude.{true, ◌≡◌, ℕ, ◌+◌, ◌*◌, ◌<◌, ◌≤◌, ◌^◌, get_or, set};
ghost use Rattle.std.specs.Int.Bits.{bit_or};
ghost use Rattle.walk.specs.Ceilings.{ceilings};
ghost use Rattle.walk.specs.Numbers.{has};
ghost use Rattle.walk.specs.Answers.{condition_of};
ghost use Rattle.tables.specs.Lent.{moves_of};
ghost use Rattle.tables.specs.Steps.{Clear, InRange, Filled, steps};

use crate::gathered::Gathered;
use crate::numbers::{Kind, State};
use crate::sets::{Elements, with};
use walk::{Condition, Network};

// The table, with a word for each kind and state; and beside it, for each kind, the states that have a move by it.
#[derive(Clone, Copy)]
pub struct Steps {
    pub table: [u32; Steps::WORDS],
    pub sources: [u32; Network::KINDS],
}

impl Steps {
    pub const WORDS: usize = Network::KINDS * Condition::STATES;

    // The table of no moves.
    pub fn empty() -> Steps
        ensures table { Clear result.table (ceilings.kinds * ceilings.states) }
        ensures sources { Clear result.sources ceilings.kinds }
    {
        Steps {
            table: [0u32; Steps::WORDS],
            sources: [0u32; Network::KINDS],
        }
    }

    // The table of the moves, where none stands in it yet.
    pub fn fill(&mut self, condition: Condition, kinds: usize, moves: &Gathered)
        requires { Clear self.old.table (ceilings.kinds * ceilings.states) × Clear self.old.sources ceilings.kinds
            × InRange kinds (condition_of condition (moves_of moves.now.count moves.now.numbers)) }
        ensures { Filled self.new.table self.new.sources (condition_of condition (moves_of moves.now.count moves.now.numbers)) }
    {
        let states = condition.states;
        for j in 0..moves.count {
            let m = moves.fetched(j);
            let p = State::tested(usize::from(m.from), states);
            let k = Kind::tested(usize::from(m.kind), kinds);
            let q = State::tested(usize::from(m.to), states);
            self.put(p, k, q);
        }
    }

    // One move more: from p under k to q.
    fn put(&mut self, p: State, k: Kind, q: State)
        requires { (p.0 < ceilings.states) × (k.0 < ceilings.kinds) × (q.0 < ceilings.states) }
        ensures table { self.new.table ≡ set self.old.table (k.0 * ceilings.states + p.0) (bit_or (get_or self.old.table
            (k.0 * ceilings.states + p.0) 0) (2 ^ q.0)) }
        ensures sources { self.new.sources ≡ set self.old.sources k.0 (bit_or (get_or self.old.sources k.0 0) (2 ^ p.0)) }
    {
        let kind = k.index();
        let at = kind * Condition::STATES + p.index();
        self.table[at] = with(self.table[at], q.index());
        self.sources[kind] = with(self.sources[kind], p.index());
    }

    // The states that follow p under k.
    pub fn follow(&self, p: State, k: Kind) -> u32
        requires { (p.0 < ceilings.states) × (k.0 < ceilings.kinds) }
        ensures { result ≡ get_or self.now.table (k.0 * ceilings.states + p.0) 0 }
    {
        self.table[k.index() * Condition::STATES + p.index()]
    }

    // The states that have a move by k.
    pub fn leave(&self, k: Kind) -> u32
        requires { k.0 < ceilings.kinds }
        ensures { result ≡ get_or self.now.sources k.0 0 }
    {
        self.sources[k.index()]
    }

    // The states that follow p along a tie with these kinds.
    pub fn nexts(&self, set: u32, kinds: usize, p: State) -> u32
        requires { (p.0 < ceilings.states) × (kinds ≤ ceilings.kinds) × ((k : ℕ) → has set k ≡ true → k < kinds) }
        ensures { (q : ℕ) → has result q ≡ steps self.now.table set p.0 q }
    {
        let mut all = 0u32;
        for n in Elements::of(set) {
            all |= self.follow(p, Kind::tested(n, kinds));
        }
        all
    }
}
