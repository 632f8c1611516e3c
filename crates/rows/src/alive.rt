// The states of each mark whose word lies in a range: below r for the test of the area, exactly r for a round.

ghost use Rattle.std.specs.Prelude.{◌≤◌, ◌<◌, length};
ghost use Rattle.walk.specs.Ceilings.{ceilings};
ghost use Rattle.rows.specs.Rows.{between, Joined, AliveRow, Alive};

use crate::Words;
use tables::numbers::{Mark, State};
use tables::sets;
use walk::Network;

// The set with p in it, if the word d lies from lo to below hi.
fn join(set: u32, p: State, d: u16, lo: u16, hi: u16) -> u32
    requires { p.0 < 32 }
    ensures { Joined result set p.0 (between lo hi d) }
{
    if lo <= d && d < hi {
        sets::with(set, p.index())
    } else {
        set
    }
}

// The states of a row.
pub fn of_row(words: &[u16], lo: u16, hi: u16) -> u32
    requires { length words.now ≤ ceilings.states }
    ensures { AliveRow result words.now (length words.now) lo hi }
{
    let states = words.len();
    let mut set = 0u32;
    for (p, &d) in words.iter().enumerate() {
        set = join(set, State::tested(p, states), d, lo, hi);
    }
    set
}

impl<'a> Words<'a> {
    // The states of each mark, written where the caller has them.
    pub fn alive(&self, lo: u16, hi: u16, live: &mut [u32; Network::MARKS])
        ensures { Alive live.new self.now.area.now self.now.marks self.now.states lo hi }
    {
        for v in 0..self.marks {
            live[v] = of_row(self.row(Mark::tested(v, self.marks)), lo, hi);
        }
    }
}
