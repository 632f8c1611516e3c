// The status of the area after r rounds.

ghost use Rattle.std.specs.Prelude.{◌≡◌, ◌+◌, ◌*◌, ◌≤◌, ◌<◌, length};
ghost use Rattle.walk.specs.Ceilings.{ceilings};
ghost use Rattle.rows.specs.Rows.{row};
ghost use Rattle.rounds.specs.Standing.{nearest, stands, standing};

use rows::Words;
use tables::numbers::{Mark, State};
use tables::tests::pairs;
use walk::Status;

// The least word of an accepting state, or r + 1 if none is at most r.
fn nearest(words: &[u16], accept: u32, r: u16) -> u16
    requires { (length words.now ≤ ceilings.states) × (r < ceilings.unreached) }
    ensures { result ≡ nearest words.now accept (length words.now) (r + 1) }
{
    let states = words.len();
    let mut best = r + 1;
    for (q, &w) in words.iter().enumerate() {
        if State::tested(q, states).among(accept) {
            best = best.min(w);
        }
    }
    best
}

// Some word of the first n is r.
fn stands(area: &[u16], n: usize, r: u16) -> bool
    requires { n ≤ length area.now }
    ensures { result ≡ stands area.now n r }
{
    area[..n].contains(&r)
}

pub fn status(words: &Words, accept: u32, t: Mark, r: u16) -> Status
    requires { (t.0 < words.now.marks) × (r < ceilings.unreached) }
    ensures { result ≡ standing (nearest (row words.now.area.now words.now.states t.0) accept words.now.states (r + 1)) r
        (stands words.now.area.now (words.now.marks * words.now.states) r) }
{
    let best = nearest(words.row(t), accept, r);
    if best <= r {
        Status::Found(usize::from(best))
    } else if stands(words.area, pairs(words.marks, words.states), r) {
        Status::Going
    } else {
        Status::None
    }
}
