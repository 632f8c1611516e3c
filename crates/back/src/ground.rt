// What the chains are found over: a network's columns with the words of an area that was tested.

ghost use Rattle.std.specs.Prelude.{◌≡◌, ◌≤◌, length};
ghost use Rattle.walk.specs.Ceilings.{ceilings};
ghost use Rattle.tables.specs.Runs.{Rising};
ghost use Rattle.rows.specs.Offers.{TiesIn};

use crate::step::Step;
use tables::numbers::{Mark, Tie};

#[derive(Clone, Copy)]
pub struct Ground<'a> {
    pub from: &'a [u16],
    pub to: &'a [u16],
    pub kinds: &'a [u32],
    pub step: Step<'a>,
    ghost columns: { TiesIn step.words.marks step.kinds (length from.now) from.now kinds.now },
    ghost rising: { Rising to.now (length to.now) step.words.marks },
    ghost same: { length to.now ≡ length from.now },
    ghost few: { length from.now ≤ ceilings.ties },
}

// A mark on the way back, with the states alive there.
#[derive(Clone, Copy)]
pub struct At {
    pub mark: Mark,
    pub alive: u32,
}

// A tie with the states alive before it.
#[derive(Clone, Copy)]
pub struct Taken {
    pub tie: Tie,
    pub alive: u32,
}
