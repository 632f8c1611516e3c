// The numbers of marks, ties, kinds and states. Each sort is a type of its own, made only by the checked entry, against V, E, K or Q, so that
// none is taken for another. A number is read by `index`, to find its place in a column, a row or a set; a tie also by `word`, to stand
// in a chain.

ghost use Rattle.std.specs.Prelude.{◌≡◌, ◌<◌, length, get_or};
ghost use Rattle.walk.specs.Ceilings.{ceilings};
ghost use Rattle.walk.specs.Numbers.{has};
ghost use Rattle.tables.specs.Entries.{entry, Entered};

use std::marker::PhantomData;

// A number of one sort.
#[derive(Clone, Copy, PartialEq, Eq)]
pub struct Number<S>(usize, PhantomData<S>);

#[derive(Clone, Copy, PartialEq, Eq)]
pub struct Marks {}

#[derive(Clone, Copy, PartialEq, Eq)]
pub struct Ties {}

#[derive(Clone, Copy, PartialEq, Eq)]
pub struct Kinds {}

#[derive(Clone, Copy, PartialEq, Eq)]
pub struct States {}

pub type Mark = Number<Marks>;

pub type Tie = Number<Ties>;

pub type Kind = Number<Kinds>;

pub type State = Number<States>;

impl<S> Number<S> {
    // The checked entry: the number, if it is below the bound.
    pub fn checked(n: usize, bound: usize) -> Option<Number<S>>
        ensures { result ≡ entry n bound }
    {
        if n < bound {
            Some(Number(n, PhantomData))
        } else {
            None
        }
    }

    // The entry of a number that was tested: it succeeds.
    pub fn tested(n: usize, bound: usize) -> Number<S>
        requires { n < bound }
        ensures { Entered result.0 n bound }
    {
        Number::checked(n, bound).unwrap()
    }

    // A number of a tested column.
    pub fn fetched(column: &[u16], i: usize, bound: usize) -> Number<S>
        requires { (i < length column.now) × (get_or column.now i 0 < bound) }
        ensures { Entered result.0 (get_or column.now i 0) bound }
    {
        Number::tested(usize::from(column[i]), bound)
    }

    pub fn index(self) -> usize
        ensures { result ≡ self.0 }
    {
        self.0
    }
}

impl Number<Ties> {
    // The mark that the tie leaves, by a tested column.
    pub fn leaves(self, from: &[u16], marks: usize) -> Mark
        requires { (self.0 < length from.now) × (get_or from.now self.0 0 < marks) }
        ensures { Entered result.0 (get_or from.now self.0 0) marks }
    {
        Mark::fetched(from, self.0, marks)
    }

    // The mark that the tie enters, by a tested column.
    pub fn enters(self, to: &[u16], marks: usize) -> Mark
        requires { (self.0 < length to.now) × (get_or to.now self.0 0 < marks) }
        ensures { Entered result.0 (get_or to.now self.0 0) marks }
    {
        Mark::fetched(to, self.0, marks)
    }

    // The kinds of the tie that a chain may use.
    pub fn kinds(self, sets: &[u32]) -> u32
        requires { self.0 < length sets.now }
        ensures { result ≡ get_or sets.now self.0 0 }
    {
        sets[self.0]
    }

    // The tie as a word of a chain.
    pub fn word(self) -> u16
        requires { self.0 < ceilings.ties }
        ensures { result ≡ self.0 }
    {
        self.0 as u16
    }
}

impl Number<States> {
    // The state is in the set.
    pub fn among(self, set: u32) -> bool
        requires { self.0 < 32 }
        ensures { result ≡ has set self.0 }
    {
        (set >> self.0) % 2 == 1
    }
}
