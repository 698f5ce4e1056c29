// The placing of a request: it alters the process's own record and hand place only.
ghost use Rattle.std.specs.Prelude.{◌≡◌, ◌<◌, length};
ghost use Rattle.std.specs.Result.{result_err};
ghost use Rattle.tables.specs.Tables.{tables_of};
ghost use Rattle.engine.specs.Place.{due, access_no, object_no, request_no, first_phase, handed, place_call};

use super::owner::Owner;
use super::questions::questions;
use banks::LARGEST;
use tables::{Ending, Kind, Memory, Phase, Refusal, Request};

// Is a transaction open, or for a begin none?
fn due<K: Kind>(request: Request<K>, live: bool) -> bool
    ensures { result ≡ due request live }
{
    match request {
        Request::Begin => !live,
        _ => live,
    }
}

impl<K: Kind> Owner<'_, K> {
    // The questions on an object: is there one, and does its pair fit?
    fn access_question(&self, x: usize, fits: bool) -> Result<(), Refusal>
        ensures { result_err result ≡ access_no (tables_of self.now.memory.now) x fits }
    {
        if x >= self.memory.objects.len() {
            return Err(Refusal::Object);
        }
        if fits { Ok(()) } else { Err(Refusal::Room) }
    }

    // The questions on the object of a request.
    fn object_question(&self, request: Request<K>) -> Result<(), Refusal>
        ensures { result_err result ≡ object_no (tables_of self.now.memory.now) self.now.p request }
    {
        match request {
            Request::Read { object } => self.access_question(object, self.readable(object)),
            Request::Write { object, .. } => self.access_question(object, self.writable(object)),
            _ => Ok(()),
        }
    }

    // The questions on a request, in their order.
    fn request_question(&self, request: Request<K>) -> Result<(), Refusal>
        ensures { result_err result ≡ request_no (tables_of self.now.memory.now) self.now.p request }
    {
        let r = self.record();
        if r.phase != Phase::Idle {
            return Err(Refusal::InHand);
        }
        if !due(request, r.live) {
            return Err(Refusal::Transaction);
        }
        self.object_question(request)
    }
}

// The phase that a request starts in.
// No `From`: an impl of it for two types of another crate is refused, and theirs does not know the largest number of a bank.
fn phase_for<K: Kind>(request: Request<K>) -> Phase
    ensures { result ≡ first_phase request }
{
    match request {
        Request::Begin => Phase::Beginning {
            next: 0,
            least: LARGEST,
        },
        Request::Read { object } => Phase::Reading { object },
        Request::Write { object, .. } => Phase::Writing { object },
        Request::Commit => Phase::Certifying { next: 0 },
        Request::Withdraw => Phase::Freeing {
            next: 0,
            ending: Ending::Withdraw,
        },
    }
}

// The content of a write goes into the hand place.
fn hand_over<K: Kind>(memory: &mut Memory<K>, p: usize, request: Request<K>)
    requires { p < length (tables_of memory.old).hands }
    ensures { tables_of memory.new ≡ handed (tables_of memory.old) p request }
{
    if let Request::Write { content, .. } = request {
        memory.hands[p] = content;
    }
}

// Places a request of process p, or says which question refuses it.
pub fn place<K: Kind>(memory: &mut Memory<K>, p: usize, request: Request<K>) -> Result<(), Refusal>
    ensures reply { result ≡ (place_call K.Kind.empty (tables_of memory.old) p request).reply }
    ensures after { tables_of memory.new ≡ (place_call K.Kind.empty (tables_of memory.old) p request).tables }
{
    questions(memory, p)?;
    Owner { memory, p }.request_question(request)?;
    hand_over(memory, p, request);
    let phase = phase_for(request);
    let r = &mut memory.processes[p];
    r.live = true;
    r.steps = 0;
    r.phase = phase;
    Ok(())
}
