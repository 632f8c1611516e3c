// The moves as the inner crates are lent them: how many there are, and the numbers of those that there is room for.

ghost use Rattle.std.specs.Prelude.{◌≡◌, ◌<◌};
ghost use Rattle.walk.specs.Ceilings.{ceilings};
ghost use Rattle.tables.specs.Lent.{move_of};

use walk::{Condition, Move};

// Of move j the from state stands at 3j, the kind at 3j + 1, the to state at 3j + 2.
#[derive(Clone, Copy)]
pub struct Gathered {
    pub count: usize,
    pub numbers: [u16; Condition::NUMBERS],
}

impl Gathered {
    // Move j.
    pub fn fetched(&self, j: usize) -> Move
        requires { j < ceilings.moves }
        ensures { result ≡ move_of self.now.numbers j }
    {
        Move {
            from: self.numbers[3 * j],
            kind: self.numbers[3 * j + 1],
            to: self.numbers[3 * j + 2],
        }
    }
}
