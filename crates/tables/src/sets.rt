// Sets of kinds and of states, held in a word.

ghost use Rattle.std.specs.Prelude.{◌≡◌, ◌-◌, ◌<◌, ◌≤◌, ◌^◌};
ghost use Rattle.std.specs.Int.Bits.{bit_or};
ghost use Rattle.std.specs.Iterator.{at_most};
ghost use Rattle.walk.specs.Numbers.{only_below};
ghost use Rattle.tables.specs.Sets.{Gives};

// The set with n in it.
pub fn with(set: u32, n: usize) -> u32
    requires { n < 32 }
    ensures { result ≡ bit_or set (2 ^ n) }
{
    set | (1u32 << n)
}

// No element is from n on.
pub fn only_below(n: usize, set: u32) -> bool
    requires { n ≤ 32 }
    ensures { result ≡ only_below n set }
{
    n == 32 || set >> n == 0
}

// The elements of a set, lowest first: those from `at` on are still to come.
#[derive(Clone, Copy)]
pub struct Elements {
    pub set: u32,
    pub at: usize,
    ghost in_word: { (set < 2 ^ 32) × (at ≤ 32) },
}

impl Elements {
    pub fn of(set: u32) -> Elements
        ensures set { result.set ≡ set }
        ensures at { result.at ≡ 0 }
    {
        Elements { set, at: 0 }
    }
}

impl Iterator for Elements {
    type Item = usize;

    ghost remaining = { λ s. at_most (32 - s.at) };

    ghost next_gives = { λ s r t. (t.set ≡ s.set) × Gives s.set s.at r t.at };

    fn next(&mut self) -> Option<usize> {
        let rest = u64::from(self.set) >> self.at;
        if rest == 0 {
            return None;
        }
        let n = self.at + rest.trailing_zeros() as usize;
        self.at = n + 1;
        Some(n)
    }
}
