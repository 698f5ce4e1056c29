// Carries out a block on a memory.
ghost use Rattle.tables.specs.Tables.{tables_of};
ghost use Rattle.journal.specs.Runs.{world};
ghost use Rattle.turns.specs.Carry.{Carried};

use super::block_error::BlockError;
use super::calls::calls_in;
use banks::Bank;
use journal::{Line, execute};
use std::alloc::Global;
use tables::Memory;

// Carries out the block in the bytes, where it is number `next`, and gives the journal of its calls. All questions on
// the block are asked before any call is made; a block that is refused alters nothing. (Memory and bank, and bytes and number,
// are apart, as in `execute` and `calls_in`.)
pub fn carry_out<B: Bank>(
    heap: Global,
    memory: &mut Memory<u32>,
    bank: &mut B,
    bytes: &[u8],
    next: u32,
) -> Result<Vec<Line<u32>>, BlockError>
    ensures { Carried B.Bank.number B.Bank.moved bytes.now next (world (tables_of memory.old) bank.old) result (world (tables_of memory.new) bank.new) }
{
    let calls = calls_in(heap, bytes, next)?;
    Ok(execute(heap, memory, bank, calls.as_slice())?)
}
