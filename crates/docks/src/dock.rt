// The dock record: an empty bay, a bay with a bicycle, a purse, or a tariff.
ghost use Rattle.docks.specs.declared.dock.Dock.TheVariants.{EmptyBay};

use tables::Kind;

// A bicycle that is out, and the minute at which its hire started.
#[derive(Clone, Copy, Debug, PartialEq, Eq)]
pub struct Hire {
    pub bicycle: u32,
    pub start: u32,
}

#[derive(Clone, Copy, Debug, PartialEq, Eq)]
pub enum Dock {
    EmptyBay,
    Bay { bicycle: u32 },
    // the balance in pence
    Purse { balance: i32, hire: Option<Hire> },
    // tenths of a penny a minute, 0 to 10,000
    Tariff { tenths: u16 },
}

// The blank dock record is the empty bay.
impl Kind for Dock {
    ghost empty = { EmptyBay };

    fn blank() -> Dock {
        Dock::EmptyBay
    }
}
