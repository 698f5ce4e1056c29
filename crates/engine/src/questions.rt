// The questions that every call asks first: on the tables' sizes, the process, and the soundness of its record.
ghost use Rattle.std.specs.Prelude.{◌≡◌, IfOk};
ghost use Rattle.std.specs.Result.{result_err};
ghost use Rattle.tables.specs.Tables.{tables_of, process_at};
ghost use Rattle.engine.specs.Ready.{Sound, PhaseFacts};
ghost use Rattle.engine.specs.Sound.{refused};

use super::owner::Owner;
use super::sound::{counts_fit, sized};
use tables::{Kind, Memory, Process, Refusal};

// The record of p, or the first question that is answered no.
#[tactic(auto, unfolding(crate::specs::Sound::refused))]
pub(crate) fn questions<K: Kind>(memory: &Memory<K>, p: usize) -> Result<Process, Refusal>
    ensures number { result_err result ≡ refused K.Kind.empty (tables_of memory.now) p }
    ensures is { IfOk result (λ q. q ≡ process_at (tables_of memory.now) p) }
    ensures sound { IfOk result (λ q. Sound K.Kind.empty (tables_of memory.now) p × PhaseFacts (tables_of memory.now) p q.phase) }
{
    if !sized(memory) {
        return Err(Refusal::Sizes);
    }
    if p >= memory.processes.len() {
        return Err(Refusal::Process);
    }
    if !counts_fit(&memory.processes[p]) {
        return Err(Refusal::Record);
    }
    let owner = Owner { memory, p };
    if owner.sets_fit() && owner.phase_fits() && owner.steps_fit() {
        Ok(owner.record())
    } else {
        Err(Refusal::Record)
    }
}
