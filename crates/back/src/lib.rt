// Going back from t with the set of states alive, over an area that was tested: `step` goes over one tie, `pick` picks the smallest usable tie of a
// run, `fill` fills the places of a chain before a given one, and `look` walks a chain back and says what comes after it. `ground` is what they go
// over.

#![tactic(auto)]

pub mod fill;
pub mod ground;
pub mod look;
mod pick;
pub mod step;
