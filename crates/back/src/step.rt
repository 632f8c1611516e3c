// One step back, over one tie: the states alive before it.

ghost use Rattle.std.specs.Prelude.{◌≡◌, ◌≤◌, ◌<◌};
ghost use Rattle.walk.specs.Ceilings.{ceilings};
ghost use Rattle.rows.specs.Offers.{Within};
ghost use Rattle.back.specs.Over.{Leading, over, ends_at};

use rows::Words;
use rows::alive::of_row;
use tables::numbers::{Mark, State};
use tables::sets::{Elements, with};
use tables::steps::Steps;

// What a step back looks at: the words of an area, and the step table.
#[derive(Clone, Copy)]
pub struct Step<'a> {
    pub words: Words<'a>,
    pub kinds: usize,
    pub steps: &'a Steps,
    ghost few: { kinds ≤ ceilings.kinds },
}

impl<'a> Step<'a> {
    // The states alive before a tie that leaves u with these kinds, when i ties are to come before it.
    pub fn over(&self, u: Mark, carried: u32, i: u16, alive: u32) -> u32
        requires { (u.0 < self.now.words.marks) × Within carried self.now.kinds × (i < ceilings.unreached) }
        ensures { result ≡ over self.now.steps.now.table self.now.words.area.now self.now.words.states u.0 carried i alive }
    {
        let set = of_row(self.words.row(u), i, i + 1);
        self.leading(carried, set, alive)
    }

    // The states of a set from which a tie with these kinds leads to a state alive.
    fn leading(&self, carried: u32, set: u32, alive: u32) -> u32
        requires { Within carried self.now.kinds × Within set self.now.words.states }
        ensures { Leading self.now.steps.now.table carried set alive result }
    {
        let mut found = 0u32;
        for n in Elements::of(set) {
            let p = State::tested(n, self.words.states);
            if self.steps.nexts(carried, self.kinds, p) & alive != 0 {
                found = with(found, p.index());
            }
        }
        found
    }
}

// The states alive at t: the accepting ones with the word n.
pub fn ends(words: &Words, accept: u32, t: Mark, n: u16) -> u32
    requires { (t.0 < words.now.marks) × (n < ceilings.unreached) }
    ensures { result ≡ ends_at words.now.area.now words.now.states t.0 accept n }
{
    of_row(words.row(t), n, n + 1) & accept
}
