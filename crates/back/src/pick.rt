// The smallest usable tie of a run: the smallest into a mark before which a state is alive.

ghost use Rattle.std.specs.Prelude.{◌≡◌, ◌<◌, length};
ghost use Rattle.walk.specs.Ceilings.{ceilings};
ghost use Rattle.rows.specs.Offers.{TiesIn};
ghost use Rattle.back.specs.Over.{over_tie};
ghost use Rattle.back.specs.Ground.{net, back};
ghost use Rattle.back.specs.Picked.{smallest_of, picked};

use crate::ground::{At, Ground, Taken};
use crate::step::Step;
use tables::numbers::{Mark, Tie};
use tables::runs::Runs;

// The smallest usable tie of a run, from the place `low` on: its place in the run, with the states alive before it. The run's part of the columns is
// what is handed in.
fn of_run(
    step: &Step,
    from: &[u16],
    kinds: &[u32],
    low: usize,
    i: u16,
    alive: u32,
) -> Option<(usize, u32)>
    requires { TiesIn step.now.words.marks step.now.kinds (length from.now) from.now kinds.now × (i < ceilings.unreached) }
    ensures { result ≡ smallest_of (length from.now) (over_tie step.now.steps.now.table step.now.words.area.now step.now.words.states from.now
        kinds.now) low i alive }
{
    for j in low..from.len() {
        let u = Mark::fetched(from, j, step.words.marks);
        let before = step.over(u, kinds[j], i, alive);
        if before != 0 {
            return Some((j, before));
        }
    }
    None
}

impl<'a> Ground<'a> {
    // The smallest usable tie into a mark, from the tie `low` on, when i ties are to come before it.
    pub fn pick(&self, at: At, low: usize, i: u16) -> Option<Taken>
        requires { (at.mark.0 < self.now.step.words.marks) × (i < ceilings.unreached) }
        ensures { result ≡ picked (net self.now) (back self.now) low at.mark.0 i at.alive }
    {
        let runs = Runs {
            to: self.to,
            marks: self.step.words.marks,
        };
        let run = runs.run(at.mark);
        let first = run.first;
        let end = run.end;
        let low = low.saturating_sub(first);
        let (j, alive) = of_run(
            &self.step,
            &self.from[first..end],
            &self.kinds[first..end],
            low,
            i,
            at.alive,
        )?;
        let tie = Tie::tested(first + j, self.from.len());
        Some(Taken { tie, alive })
    }
}
