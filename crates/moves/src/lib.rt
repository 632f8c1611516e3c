// The moves that are lent as a list of records, brought into one array of numbers, which is what the inner crates work on.

#![tactic(auto)]

ghost use Rattle.std.specs.Prelude.{◌≡◌, ◌<◌};
ghost use Rattle.walk.specs.Ceilings.{ceilings};
ghost use Rattle.moves.specs.Gathering.{put, gathered};

use tables::gathered::Gathered;
use walk::{Condition, Move};

// The three numbers of move j are written.
fn put(numbers: &mut [u16; Condition::NUMBERS], j: usize, from: u16, kind: u16, to: u16)
    requires { j < ceilings.moves }
    ensures { numbers.new ≡ put numbers.old j (record { from = from; kind = kind; to = to }) }
{
    numbers[3 * j] = from;
    numbers[3 * j + 1] = kind;
    numbers[3 * j + 2] = to;
}

// How many moves are lent, and the numbers of those that there is room for. The loop fetches one move and hands its numbers on.
pub fn gather(moves: &[Move]) -> Gathered
    ensures { result ≡ gathered moves.now }
{
    let mut gathered = Gathered {
        count: moves.len(),
        numbers: [0u16; Condition::NUMBERS],
    };
    for j in 0..moves.len().min(Condition::MOVES) {
        let m = moves[j];
        put(&mut gathered.numbers, j, m.from, m.kind, m.to);
    }
    gathered
}
