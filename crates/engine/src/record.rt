// What a step does to the record of its process.
ghost use Rattle.std.specs.Prelude.{◌≡◌, ◌+◌, ◌≤◌};
ghost use Rattle.engine.specs.Outcome.{advanced, completed};

use tables::{Phase, Process};

// One step more is done, and the next is that of the given phase. (The steps that go on by this until the last pair do not share
// a function: it would take what each does with its last pair as a closure.)
pub(crate) fn go_on(r: &mut Process, phase: Phase)
    requires { r.old.steps ≤ 64 }
    ensures { r.new ≡ advanced r.old phase }
{
    r.steps += 1;
    r.phase = phase;
}

// The request is answered. The result is the number of steps that it took.
pub(crate) fn complete(r: &mut Process) -> usize
    requires { r.old.steps ≤ 64 }
    ensures steps { result ≡ r.old.steps + 1 }
    ensures record { r.new ≡ completed r.old r.old.clock }
{
    let steps = r.steps + 1;
    r.steps = 0;
    r.phase = Phase::Idle;
    steps
}
