// The places of a chain before a given one, each filled with the smallest usable tie, from the last of them to the first.

ghost use Rattle.std.specs.Prelude.{◌≡◌, ◌≤◌, ◌<◌, length, drop};
ghost use Rattle.walk.specs.Ceilings.{ceilings};
ghost use Rattle.walk.proofs.Back.{fill};
ghost use Rattle.back.specs.Ground.{net, back};
ghost use Rattle.back.specs.Chain.{Fillable};

use crate::ground::{At, Ground};

impl<'a> Ground<'a> {
    // The first n places of the chain are filled back from a mark, where at each of them some tie is usable.
    pub fn before(&self, n: usize, from: At, chain: &mut [u16])
        requires { (from.mark.0 < self.now.step.words.marks) × (n ≤ ceilings.unreached) × (n ≤ length chain.old)
            × Fillable (net self.now) (back self.now) n from.mark.0 from.alive }
        ensures { chain.new ≡ fill (net self.now) (back self.now) n from.mark.0 from.alive (drop n chain.old) }
    {
        let mut at = from;
        for i in (0..n).rev() {
            let taken = self.pick(at, 0, i as u16).unwrap();
            chain[i] = taken.tie.word();
            at = At {
                mark: taken.tie.leaves(self.from, self.step.words.marks),
                alive: taken.alive,
            };
        }
    }
}
