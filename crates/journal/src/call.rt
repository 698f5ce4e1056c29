// The calls that a memory takes, and the lines of a journal.
use tables::{Refusal, Request, Stepped};

// A placing of a request, or a step, of a process.
#[derive(Clone, Copy, Debug, PartialEq, Eq)]
pub enum Call<K> {
    Place { process: usize, request: Request<K> },
    Step { process: usize },
}

// What a call came to that no question refused: the request was placed, or the step was made.
#[derive(Clone, Copy, Debug, PartialEq, Eq)]
pub enum Done<K> {
    Placed,
    Made { step: Stepped<K> },
}

// What a call came to, or the question that refused it.
pub type Reply<K> = Result<Done<K>, Refusal>;

// A line of a journal: what was asked, and the reply.
#[derive(Clone, Copy, Debug, PartialEq, Eq)]
pub struct Line<K> {
    pub call: Call<K>,
    pub reply: Reply<K>,
}
