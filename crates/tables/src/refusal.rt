// The questions that are asked before a call, with their numbers; the first that is answered no refuses the call.
ghost use Rattle.std.specs.Prelude.{◌≡◌};
ghost use Rattle.tables.specs.Numbers.{refusal_number};

#[derive(Clone, Copy, PartialEq, Eq, Debug)]
pub enum Refusal {
    // Do the tables have the stated sizes?
    Sizes = 1,
    // Is there such a process?
    Process = 2,
    // Is the process's record sound?
    Record = 3,
    // Is no request in hand?
    InHand = 4,
    // Is a transaction open, or for a begin none?
    Transaction = 5,
    // Is there such an object?
    Object = 6,
    // Is the object in a set, or has the set a free place?
    Room = 7,
    // Is a request in hand?
    NoRequest = 8,
}

impl Refusal {
    // The number of the question. Blocks and calls have their own questions, so each of the two enums is cast by itself.
    pub fn number(self) -> u8
        ensures { result ≡ refusal_number self }
    {
        self as u8
    }
}
