// Snapshot extension: the clock is moved to a later stamp once every pair of the read set has passed a look.
ghost use Rattle.std.specs.Prelude.{◌≡◌, ◌<◌};
ghost use Rattle.tables.specs.Tables.{tables_of, process_at};
ghost use Rattle.engine.specs.Ready.{Ready, JoinsIn};
ghost use Rattle.engine.specs.Outcome.{outcome};
ghost use Rattle.engine.specs.Extend.{extended, extension_passed};

use super::reads::join_read;
use super::record::{complete, go_on};
use super::reply::{answering, going};
use tables::{Access, Answer, Effect, Kind, Memory, Phase, Stepped};

// The last pair has passed: the access to x is completed at the clock `to`.
fn finish_extension<K: Kind>(
    memory: &mut Memory<K>,
    p: usize,
    x: usize,
    to: u64,
    access: Access,
) -> Stepped<K>
    requires ready { Ready (tables_of memory.old) p }
    requires room { JoinsIn (tables_of memory.old) p x access }
    ensures { outcome result (tables_of memory.new) ≡ extended K.Kind.empty (tables_of memory.old) p x to access }
{
    match access {
        Access::Read => {
            let content = memory.hands[p];
            let steps = join_read(memory, p, x, to, to);
            answering(Effect::Nothing, Answer::Read { content, steps })
        }
        Access::Write => {
            let r = &mut memory.processes[p];
            r.clock = to;
            let steps = complete(r);
            answering(Effect::Nothing, Answer::Written { steps })
        }
    }
}

// Pair `next` has passed. (No struct has x, `to` and the access: they go from the phase to the answer by these two functions.)
pub(crate) fn pass_extension<K: Kind>(
    memory: &mut Memory<K>,
    p: usize,
    x: usize,
    to: u64,
    next: usize,
    access: Access,
) -> Stepped<K>
    requires ready { Ready (tables_of memory.old) p }
    requires due { next < (process_at (tables_of memory.old) p).reads }
    requires room { JoinsIn (tables_of memory.old) p x access }
    ensures { outcome result (tables_of memory.new) ≡ extension_passed K.Kind.empty (tables_of memory.old) p x to next access }
{
    if next + 1 == memory.processes[p].reads {
        return finish_extension(memory, p, x, to, access);
    }
    go_on(
        &mut memory.processes[p],
        Phase::Extending {
            object: x,
            to,
            next: next + 1,
            access,
        },
    );
    going(Effect::Nothing)
}
