// "the ties into one mark are one unbroken run of the table"

ghost use Rattle.std.specs.Prelude.{ℕ, suc, ◌<◌, ◌≤◌, length, get_or};
ghost use Rattle.tables.specs.Runs.{Rising, Cut, RunInto};

use crate::numbers::{Mark, Tie};

// The to column, in which the runs stand one after another.
#[derive(Clone, Copy)]
pub struct Runs<'a> {
    pub to: &'a [u16],
    pub marks: usize,
    ghost rising: { Rising to.now (length to.now) marks },
}

// A run: its first tie, and the end past its last.
#[derive(Clone, Copy)]
pub struct Run {
    pub first: usize,
    pub end: usize,
}

impl<'a> Runs<'a> {
    // Where the run of the ties into v ends, if no tie before `at` enters a later mark: one cursor goes through the ties mark by mark.
    pub fn end(&self, v: Mark, at: usize) -> usize
        requires { ((e : ℕ) → e < at → get_or self.now.to.now e 0 ≤ v.0) × (at ≤ length self.now.to.now) }
        ensures { Cut self.now.to.now (length self.now.to.now) (suc v.0) result × (at ≤ result) }
    {
        let ties = self.to.len();
        (at..ties)
            .find(|&e| Tie::tested(e, ties).enters(self.to, self.marks).index() > v.index())
            .unwrap_or(ties)
    }

    // The first tie into mark v or a later one, or the number of ties; v may be the number past the last mark.
    fn first_from(&self, v: usize) -> usize
        ensures { Cut self.now.to.now (length self.now.to.now) v result }
    {
        self.to.partition_point(|&u| usize::from(u) < v)
    }

    // The run of the ties into v.
    pub fn run(&self, v: Mark) -> Run
        requires { v.0 < self.now.marks }
        ensures { RunInto self.now.to.now (length self.now.to.now) v.0 result.first result.end }
    {
        Run {
            first: self.first_from(v.index()),
            end: self.first_from(v.index() + 1),
        }
    }
}
