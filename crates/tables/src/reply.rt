// Requests, and what a step replies.

// What a process may ask for.
#[derive(Clone, Copy, Debug, PartialEq, Eq)]
pub enum Request<K> {
    Begin,
    Read { object: usize },
    Write { object: usize, content: K },
    Commit,
    Withdraw,
}

// Why a transaction cannot go on: another process holds an object, an object has another stamp than the one that
// was read, or no stamp is left.
#[derive(Clone, Copy, Debug, PartialEq, Eq)]
pub enum Conflict {
    Held { object: usize },
    Changed { object: usize },
    Spent,
}

// The answer that completes a request, with the steps that the request took.
#[derive(Clone, Copy, Debug, PartialEq, Eq)]
pub enum Answer<K> {
    Begun { steps: usize },
    Read { content: K, steps: usize },
    Written { steps: usize },
    Committed { steps: usize },
    Aborted { conflict: Conflict, steps: usize },
    Withdrawn { steps: usize },
}

// What a step did to the shared memory: nothing, became the holder of an object, sealed its transaction, gave an
// object its new content, or freed an object.
#[derive(Clone, Copy, Debug, PartialEq, Eq)]
pub enum Effect {
    Nothing,
    Took { object: usize },
    Sealed,
    Stored { object: usize },
    Freed { object: usize },
}

// The reply to a step: its effect, and the answer if it completes the request.
#[derive(Clone, Copy, Debug, PartialEq, Eq)]
pub struct Stepped<K> {
    pub effect: Effect,
    pub answer: Option<Answer<K>>,
}
