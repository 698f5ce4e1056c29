// Begin: the bank's numbers of all processes are read, one in each step.
ghost use Rattle.std.specs.Prelude.{◌≡◌, ◌<◌, length};
ghost use Rattle.tables.specs.Tables.{tables_of};
ghost use Rattle.engine.specs.Ready.{Ready};
ghost use Rattle.engine.specs.Outcome.{outcome};
ghost use Rattle.engine.specs.Begin.{begin_step};

use super::record::{complete, go_on};
use super::reply::{answering, going};
use banks::Bank;
use tables::{Answer, Effect, Kind, Memory, Phase, Stepped};

// Reads the number of process `next`; the last sets the clock of p to the least number.
pub(crate) fn begin_step<K: Kind, B: Bank>(
    memory: &mut Memory<K>,
    bank: &B,
    p: usize,
    next: usize,
    least: u64,
) -> Stepped<K>
    requires ready { Ready (tables_of memory.old) p }
    requires due { next < length (tables_of memory.old).processes }
    ensures { outcome result (tables_of memory.new) ≡ begin_step (B.Bank.number bank.now) (tables_of memory.old) p next least }
{
    let low = bank.read(next).min(least);
    let count = memory.processes.len();
    let r = &mut memory.processes[p];
    if next + 1 == count {
        r.clock = low;
        let steps = complete(r);
        return answering(Effect::Nothing, Answer::Begun { steps });
    }
    go_on(
        r,
        Phase::Beginning {
            next: next + 1,
            least: low,
        },
    );
    going(Effect::Nothing)
}
