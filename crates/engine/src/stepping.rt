// The step call: one step of the request that a process has in hand.
ghost use Rattle.std.specs.Prelude.{◌≡◌, ◌<◌, length};
ghost use Rattle.tables.specs.Tables.{tables_of, process_at, read_at};
ghost use Rattle.engine.specs.Ready.{Ready, Sound, PhaseFacts};
ghost use Rattle.engine.specs.Outcome.{outcome};
ghost use Rattle.engine.specs.Look.{pair_looked};
ghost use Rattle.engine.specs.Looked.{Looks, after_look};
ghost use Rattle.engine.specs.Step.{commit_step, commit_bank, phase_step, phase_bank, step_call, step_bank};

use super::begin::begin_step;
use super::commit::{finish_commit, seal_step, store_step};
use super::ends::free_step;
use super::looked::{follow_look, read_step, write_step};
use super::owner::Owner;
use super::questions::questions;
use banks::Bank;
use tables::{Effect, Kind, Memory, Phase, Refusal, Stepped};

// A step that looks at pair `next` of the read set: the look and what follows it.
fn pair_step<K: Kind>(memory: &mut Memory<K>, p: usize, phase: Phase, next: usize) -> Stepped<K>
    requires ready { Ready (tables_of memory.old) p }
    requires due { next < (process_at (tables_of memory.old) p).reads }
    requires looks { Looks (tables_of memory.old) p phase }
    requires named { (read_at (tables_of memory.old) p next).object < length (tables_of memory.old).objects }
    ensures { outcome result (tables_of memory.new) ≡ after_look K.Kind.empty (tables_of memory.old) p phase (pair_looked K.Kind.empty (tables_of memory.old) p next) }
{
    let look = Owner { memory, p }.look_at_pair(next);
    follow_look(memory, p, phase, look)
}

// A step of a commit before anything is stored.
fn commit_step<K: Kind, B: Bank>(
    memory: &mut Memory<K>,
    bank: &mut B,
    p: usize,
    next: usize,
) -> Stepped<K>
    requires ready { Ready (tables_of memory.old) p }
    requires named { next < (process_at (tables_of memory.old) p).reads → (read_at (tables_of memory.old) p next).object < length (tables_of memory.old).objects }
    ensures after { outcome result (tables_of memory.new) ≡ commit_step K.Kind.empty (B.Bank.number bank.old p) (tables_of memory.old) p next }
    ensures bank { bank.new ≡ commit_bank B.Bank.number B.Bank.moved (tables_of memory.old) bank.old p next }
{
    let r = memory.processes[p];
    if next < r.reads {
        return pair_step(memory, p, Phase::Certifying { next }, next);
    }
    if r.writes == 0 {
        return finish_commit(memory, p, Effect::Nothing);
    }
    seal_step(memory, bank, p)
}

// The step of a phase.
// A rule of the project: this is a `match` on the phase.
fn phase_step<K: Kind, B: Bank>(
    memory: &mut Memory<K>,
    bank: &mut B,
    p: usize,
    phase: Phase,
) -> Result<Stepped<K>, Refusal>
    requires sound { Sound K.Kind.empty (tables_of memory.old) p }
    requires facts { PhaseFacts (tables_of memory.old) p phase }
    ensures after { outcome result (tables_of memory.new) ≡ phase_step K.Kind.empty (B.Bank.number bank.old) (tables_of memory.old) p phase }
    ensures bank { bank.new ≡ phase_bank B.Bank.number B.Bank.moved (tables_of memory.old) bank.old p phase }
{
    match phase {
        Phase::Idle => Err(Refusal::NoRequest),
        Phase::Beginning { next, least } => Ok(begin_step(memory, bank, p, next, least)),
        Phase::Reading { object } => Ok(read_step(memory, p, object)),
        Phase::Writing { object } => Ok(write_step(memory, p, object)),
        Phase::Extending { next, .. } => Ok(pair_step(memory, p, phase, next)),
        Phase::Certifying { next } => Ok(commit_step(memory, bank, p, next)),
        Phase::Storing { next } => Ok(store_step(memory, p, next)),
        Phase::Freeing { next, ending } => Ok(free_step(memory, p, next, ending)),
    }
}

// One step of process p: its effect and its answer, if it completes the request. (The memory and the bank are two arguments:
// a struct that owns both would ask callers for a bank of each memory, and one of two `&mut` would be made for each call.)
pub fn step<K: Kind, B: Bank>(
    memory: &mut Memory<K>,
    bank: &mut B,
    p: usize,
) -> Result<Stepped<K>, Refusal>
    ensures reply { result ≡ (step_call K.Kind.empty (B.Bank.number bank.old) (tables_of memory.old) p).reply }
    ensures after { tables_of memory.new ≡ (step_call K.Kind.empty (B.Bank.number bank.old) (tables_of memory.old) p).tables }
    ensures bank { bank.new ≡ step_bank K.Kind.empty B.Bank.number B.Bank.moved (tables_of memory.old) bank.old p }
{
    let r = questions(memory, p)?;
    phase_step(memory, bank, p, r.phase)
}
