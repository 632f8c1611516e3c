// What the ties into a mark offer its states: one more than the word of each state alive that a tie and a move lead from. A row of words is
// lowered to the least offer.

ghost use Rattle.std.specs.Prelude.{◌+◌, ◌≤◌, ◌<◌, length};
ghost use Rattle.walk.specs.Ceilings.{ceilings};
ghost use Rattle.rows.specs.Offers.{Lowered, One, Each, Between, ByKind, Along, OfTie, Within, Living, AllLiving, Narrow, TiesIn};

use crate::Words;
use std::ops::Range;
use tables::numbers::{Kind, State, Tie};
use tables::sets::Elements;
use tables::steps::Steps;
use walk::{Condition, Network};

// The word of one state, lowered to w.
fn lower(row: &mut [u16; Condition::STATES], q: State, w: u16)
    requires { q.0 < ceilings.states }
    ensures { Lowered (One w q.0) row.old row.new }
{
    let at = q.index();
    row[at] = row[at].min(w);
}

// The words of a set of states, lowered to w.
fn lower_all(row: &mut [u16; Condition::STATES], set: u32, states: usize, w: u16)
    requires { (states ≤ ceilings.states) × Within set states }
    ensures { Lowered (Each set (One w) ceilings.states) row.old row.new }
{
    for n in Elements::of(set) {
        lower(row, State::tested(n, states), w);
    }
}

// The offers under kind k from the states of a set.
fn by_kind(row: &mut [u16; Condition::STATES], words: &[u16], steps: &Steps, k: Kind, set: u32)
    requires { (k.0 < ceilings.kinds) × (length words.now ≤ ceilings.states)
        × Living words.now set (length words.now) × Narrow steps.now.table (length words.now) }
    ensures { Lowered (ByKind steps.now.table words.now set k.0) row.old row.new }
{
    let states = words.len();
    for n in Elements::of(set) {
        lower_all(
            row,
            steps.follow(State::tested(n, states), k),
            states,
            words[n] + 1,
        );
    }
}

// The offers along a tie: under each of its kinds from the states alive that have a move by it.
fn along(
    row: &mut [u16; Condition::STATES],
    words: &[u16],
    steps: &Steps,
    live: u32,
    set: u32,
    kinds: usize,
)
    requires { (kinds ≤ ceilings.kinds) × (length words.now ≤ ceilings.states)
        × Living words.now live (length words.now) × Narrow steps.now.table (length words.now) × Within set kinds }
    ensures { Lowered (Along steps.now.table steps.now.sources words.now live set) row.old row.new }
{
    for n in Elements::of(set) {
        let k = Kind::tested(n, kinds);
        by_kind(row, words, steps, k, live & steps.leave(k));
    }
}

// What the ties offer from: the words of an area with the states of each mark that are alive, the columns that say where a tie leaves and of what
// kinds it is, and the step table.
#[derive(Clone, Copy)]
pub struct Offers<'a> {
    pub words: Words<'a>,
    pub live: &'a [u32; Network::MARKS],
    pub from: &'a [u16],
    pub sets: &'a [u32],
    pub kinds: usize,
    pub steps: &'a Steps,
    ghost few: { kinds ≤ ceilings.kinds },
    ghost ties: { TiesIn words.marks kinds (length from.now) from.now sets.now },
    ghost living: { AllLiving live.now words.area.now words.marks words.states },
    ghost narrow: { Narrow steps.now.table words.states },
}

impl<'a> Offers<'a> {
    // The offers along tie e, if a state of the mark that it leaves is alive.
    fn of_tie(&self, row: &mut [u16; Condition::STATES], e: Tie)
        requires { e.0 < length self.now.from.now }
        ensures { Lowered (OfTie self.now.steps.now.table self.now.steps.now.sources self.now.live.now self.now.words.area.now
            self.now.words.states self.now.from.now self.now.sets.now e.0) row.old row.new }
    {
        let u = e.leaves(self.from, self.words.marks);
        let live = self.live[u.index()];
        if live != 0 {
            let words = self.words.row(u);
            along(row, words, self.steps, live, e.kinds(self.sets), self.kinds);
        }
    }

    // The row is lowered by the offers along a part of the ties.
    pub fn lower_row(&self, row: &mut [u16; Condition::STATES], ties: Range<usize>)
        requires { (ties.start ≤ ties.end) × (ties.end ≤ length self.now.from.now) }
        ensures { Lowered (Between ties.start (OfTie self.now.steps.now.table self.now.steps.now.sources self.now.live.now self.now.words.area.now
            self.now.words.states self.now.from.now self.now.sets.now) ties.end) row.old row.new }
    {
        for e in ties {
            self.of_tie(row, Tie::tested(e, self.from.len()));
        }
    }
}
