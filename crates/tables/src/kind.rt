// Record kinds: what the contents of a memory may be.
ghost use Rattle.std.specs.Prelude.{◌≡◌};

// A kind is copied whole and names a blank content.
pub trait Kind: Copy + Drop {
    // the blank content
    ghost empty: { Self };

    fn blank() -> Self
        ensures { result ≡ empty };

    // A copy is the whole content.
    fn copied(&self) -> Self
        ensures { result ≡ self.now }
    {
        *self
    }
}

// 32-bit numbers, with 0 as the blank.
impl Kind for u32 {
    ghost empty = { 0 };

    fn blank() -> u32 {
        0
    }
}
