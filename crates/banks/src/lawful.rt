// The three banks are lawful, and each is exact about its own numbers.
ghost use Rattle.std.specs.Prelude.{◌≡◌, ℕ, ◌^◌, ◌<◌, ◌≤◌, true, cond, nat_lt, MatchOption, slice_index};
ghost use Rattle.banks.specs.Numbers.{ranged};
ghost use Rattle.banks.specs.Banks.{common_number, common_moved, own_number, own_moved, same_common, same_own};
ghost use Rattle.std.proofs.Common.{rules, arith};
ghost use Rattle.std.proofs.lemmas.Bool.Decides.{nat_tests};
ghost use Rattle.banks.specs.Raised.{low, none, raised_rises, raised_bounded, raised_far, raised_beyond};

use super::bank::{Bank, LARGEST};
use super::state::{CommonBank, OwnBank, SilentBank};

impl CommonBank {
    // The common bank at a number, or nothing where that is above the largest.
    pub fn at(clock: u64) -> Option<CommonBank>
        ensures { MatchOption result (2 ^ 40 < clock) (λ b. ((p : ℕ) → p < 64 → common_number b p ≡ clock)) }
    {
        if clock > LARGEST {
            return None;
        }
        Some(CommonBank { clock })
    }
}

// The number u for each of the 64 processes.
fn all_at(u: u64) -> [u64; 64]
    requires { u ≤ 2 ^ 40 }
    ensures numbers { (p : ℕ) → slice_index result p ≡ cond (nat_lt p 64) u 0 }
    ensures lawful { ranged result ≡ true }
{
    [u; 64]
}

impl OwnBank {
    // The own bank with every number 0.
    pub fn new() -> OwnBank
        ensures { (p : ℕ) → own_number result p ≡ 0 }
    {
        OwnBank { numbers: all_at(0) }
    }
}

impl Bank for SilentBank {
    ghost number = { λ b p. 0 };

    ghost moved = { λ b p u. b };

    ghost ranged = { Prim.search rules };

    ghost absent = { Prim.search rules };

    ghost rises = { Prim.search rules };

    ghost bounded = { Prim.search rules };

    ghost outside = { Prim.search rules };

    ghost beyond = { Prim.search rules };

    fn read(&self, _p: usize) -> u64 {
        0
    }

    fn move_to(&mut self, _p: usize, _u: u64) {}
}

impl Bank for CommonBank {
    ghost number = { common_number };

    ghost moved = { common_moved };

    ghost ranged = { Prim.search rules };

    ghost absent = { Prim.search rules };

    ghost rises = { Prim.search rules };

    ghost bounded = { Prim.search rules };

    ghost outside = { λ b p u h. same_common _ _ (Prim.grind (arith, nat_tests)) };

    ghost beyond = { λ b p u h. same_common _ _ (Prim.grind (arith, nat_tests)) };

    fn read(&self, p: usize) -> u64 {
        if p <= 63 { self.clock } else { 0 }
    }

    fn move_to(&mut self, p: usize, u: u64) {
        if p <= 63 && u <= LARGEST {
            self.clock = self.clock.max(u);
        }
    }
}

impl Bank for OwnBank {
    ghost number = { own_number };

    ghost moved = { own_moved };

    ghost ranged = { λ b p. low b.numbers p b.lawful };

    ghost absent = { λ b p h. none b.numbers p b.lawful h };

    ghost rises = { λ b p u q. raised_rises b.numbers p u q };

    ghost bounded = { λ b p u q. raised_bounded b.numbers p u q };

    ghost outside = { λ b p u h. same_own _ _ (raised_far b.numbers p u b.lawful h) };

    ghost beyond = { λ b p u h. same_own _ _ (raised_beyond b.numbers p u h) };

    fn read(&self, p: usize) -> u64 {
        self.numbers.get(p).copied().unwrap_or(0)
    }

    #[tactic(auto, using(crate::proofs::Moves::moves))]
    fn move_to(&mut self, p: usize, u: u64) {
        if p <= 63 && u <= LARGEST {
            self.numbers[p] = self.numbers[p].max(u);
        }
    }
}
