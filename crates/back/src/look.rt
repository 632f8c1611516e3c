// A chain is walked back once, and nothing is written: it is not listed, it is the last, or a tie of it can be raised, and of those the one nearest
// the front counts.

ghost use Rattle.std.specs.Prelude.{true, ◌≡◌, ◌≤◌, ◌<◌, length};
ghost use Rattle.walk.specs.declared.Refusal.TheVariants.{NotListed};
ghost use Rattle.walk.specs.Ceilings.{ceilings};
ghost use Rattle.walk.proofs.Sets.{nonempty};
ghost use Rattle.walk.proofs.Back.{goes, raise};
ghost use Rattle.back.specs.Ground.{net, back};
ghost use Rattle.back.specs.Picked.{stepped};
ghost use Rattle.back.specs.Chain.{seen};

use crate::ground::{At, Ground, Taken};
use tables::numbers::Tie;
use walk::{Refusal, Refused};

// A place of a chain whose tie can be raised, with the tie that it is raised to and the states alive before that.
#[derive(Clone, Copy)]
pub struct Raised {
    pub place: usize,
    pub taken: Taken,
}

// The chain is no listed one.
#[derive(Clone, Copy)]
pub struct Unlisted {}

// Refusal 11.
impl From<Unlisted> for Refused {
    ghost from_gives = { λ _ e. e ≡ record { refusal = NotListed; place = 0 } };

    fn from(_chain: Unlisted) -> Refused {
        Refused {
            refusal: Refusal::NotListed,
            place: 0,
        }
    }
}

impl<'a> Ground<'a> {
    // The tie that a word of the chain names, if it enters the mark and a state is alive before it.
    fn stepped(&self, word: u16, at: At, i: u16) -> Option<Taken>
        requires { (at.mark.0 < self.now.step.words.marks) × (i < ceilings.unreached) }
        ensures { result ≡ stepped (net self.now) (back self.now) at.mark.0 i at.alive word }
    {
        let marks = self.step.words.marks;
        let tie = Tie::checked(usize::from(word), self.from.len())?;
        let u = tie.leaves(self.from, marks);
        if tie.enters(self.to, marks) != at.mark {
            return None;
        }
        let alive = self.step.over(u, tie.kinds(self.kinds), i, at.alive);
        if alive == 0 {
            return None;
        }
        Some(Taken { tie, alive })
    }

    // The chain is walked back from its end: a place of it that can be raised, if there is one.
    pub fn look(&self, chain: &[u16], end: At) -> Result<Option<Raised>, Unlisted>
        requires { (end.mark.0 < self.now.step.words.marks) × (length chain.now ≤ ceilings.unreached) × (nonempty end.alive ≡ true) }
        ensures { result ≡ seen (goes (net self.now) (back self.now) end.mark.0 end.alive 0 chain.now)
            (raise (net self.now) (back self.now) end.mark.0 end.alive 0 chain.now) }
    {
        let mut at = end;
        let mut best = None;
        for i in (0..chain.len()).rev() {
            let taken = self.stepped(chain[i], at, i as u16).ok_or(Unlisted {})?;
            if let Some(taken) = self.pick(at, taken.tie.index() + 1, i as u16) {
                best = Some(Raised { place: i, taken });
            }
            at = At {
                mark: taken.tie.leaves(self.from, self.step.words.marks),
                alive: taken.alive,
            };
        }
        Ok(best)
    }
}
