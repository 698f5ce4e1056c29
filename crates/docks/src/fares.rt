// The fare of a hire.
ghost use Rattle.std.specs.Prelude.{◌≡◌};
ghost use Rattle.docks.specs.Fare.{fare_of};

// Minutes times tenths of a penny, rounded to whole pence, halves up.
pub fn fare(minutes: u32, tenths: u16) -> u64
    ensures { result ≡ fare_of minutes tenths }
{
    (u64::from(minutes) * u64::from(tenths) + 5) / 10
}
