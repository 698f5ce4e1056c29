// The record of a process: its transaction and how far its request has come.
use super::reply::Conflict;

// How a transaction is given up. (As an `Option<Conflict>`, `None` would not say that the process withdraws.)
#[derive(Clone, Copy, Debug, PartialEq, Eq)]
pub enum Ending {
    Abort { conflict: Conflict },
    Withdraw,
}

// The request that a snapshot extension completes.
#[derive(Clone, Copy, Debug, PartialEq, Eq)]
pub enum Access {
    Read,
    Write,
}

// What the next step of the request in hand does.
#[derive(Clone, Copy, Debug, PartialEq, Eq)]
pub enum Phase {
    // no request is in hand
    Idle,
    // reads the bank for process `next`; `least` is the least number so far
    Beginning {
        next: usize,
        least: u64,
    },
    // fetches the object or its pending content
    Reading {
        object: usize,
    },
    // replaces the object's pending content or becomes its holder
    Writing {
        object: usize,
    },
    // looks at pair `next` of the read set, to move the clock to `to` for an access to `object`
    Extending {
        object: usize,
        to: u64,
        next: usize,
        access: Access,
    },
    // looks at pair `next` of the read set; past the last pair, seals
    Certifying {
        next: usize,
    },
    // gives pair `next` of the write set to its object
    Storing {
        next: usize,
    },
    // frees the object of pair `next` of the write set
    Freeing {
        next: usize,
        ending: Ending,
    },
}

#[derive(Clone, Copy, Debug, PartialEq, Eq)]
pub struct Process {
    // whether a transaction is open; the clock is no part of it, since it stays when the transaction ends
    pub live: bool,
    // the transaction clock
    pub clock: u64,
    // the pairs in the read set and in the write set
    pub reads: usize,
    pub writes: usize,
    // the steps that the request in hand has made
    pub steps: usize,
    pub phase: Phase,
}
