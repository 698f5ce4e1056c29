// What a lawful bank is.
ghost use Rattle.std.specs.Prelude.{◌≡◌, ℕ, ◌^◌, ◌<◌, ◌≤◌, max};

// The largest number of a bank, and the largest clock and stamp: 2^40.
pub const LARGEST: u64 = 1_099_511_627_776;

// A bank gives each process a number. Moving a process lowers no number, and raises none above the larger of
// what it was and the target.
pub trait Bank {
    // the number of a process
    ghost number: { Self → ℕ → ℕ };

    // the bank after process p was moved to u
    ghost moved: { Self → ℕ → ℕ → Self };

    // The number of process p; 0 above 63.
    fn read(&self, p: usize) -> u64
        ensures { result ≡ number self.now p };

    // Moves process p to u; nothing where p is above 63 or u above the largest number.
    fn move_to(&mut self, p: usize, u: u64)
        ensures { self.new ≡ moved self.old p u };

    ghost ranged: { (b : Self) (p : ℕ) → number b p ≤ 2 ^ 40 };

    ghost absent: { (b : Self) (p : ℕ) → 63 < p → number b p ≡ 0 };

    ghost rises: { (b : Self) (p u q : ℕ) → number b q ≤ number (moved b p u) q };

    ghost bounded: { (b : Self) (p u q : ℕ) → number (moved b p u) q ≤ max (number b q) u };

    ghost outside: { (b : Self) (p u : ℕ) → 63 < p → moved b p u ≡ b };

    ghost beyond: { (b : Self) (p u : ℕ) → 2 ^ 40 < u → moved b p u ≡ b };
}
