// Performs calls one after another and writes the journal.
ghost use Rattle.std.specs.Prelude.{◌≡◌, ℕ, IfOk, MatchResult};
ghost use Rattle.tables.specs.Tables.{tables_of};
ghost use Rattle.law.specs.Law.{Lawful};
ghost use Rattle.law.specs.Trace.{Trace};
ghost use Rattle.journal.specs.Traces.{trace_on, contents_of, Reached};
ghost use Rattle.journal.specs.Trust.{IsFresh, AllTrusted};
ghost use Rattle.journal.specs.Runs.{world, reply_to, after_call, Ran};

use super::call::{Call, Done, Line, Reply};
use banks::Bank;
use engine::{place, step};
use std::alloc::{AllocError, Global};
use tables::{Kind, Memory};

// Performs one call. A call is a value and no closure, since the journal keeps it. (The memory and the bank are two arguments:
// a struct that owns both would ask callers for a bank of each memory, and one of two `&mut` would be made for each call.)
pub fn perform<K: Kind, B: Bank>(memory: &mut Memory<K>, bank: &mut B, call: Call<K>) -> Reply<K>
    ensures reply { result ≡ reply_to K.Kind.empty B.Bank.number (world (tables_of memory.old) bank.old) call }
    ensures after { tables_of memory.new ≡ (after_call K.Kind.empty B.Bank.number B.Bank.moved (world (tables_of memory.old) bank.old) call).tables }
    ensures bank { bank.new ≡ (after_call K.Kind.empty B.Bank.number B.Bank.moved (world (tables_of memory.old) bank.old) call).bank }
{
    match call {
        Call::Place { process, request } => {
            place(memory, process, request)?;
            Ok(Done::Placed)
        }
        Call::Step { process } => {
            let step = step(memory, bank, process)?;
            Ok(Done::Made { step })
        }
    }
}

// Performs all calls, in order, and gives the journal: one line for each call, with its reply. The journal's memory is
// taken first, so that want of memory alters nothing. On a memory that was fresh before this list of calls, or before
// earlier ones, the law holds of the whole run, and no call is refused for the state of the tables.
pub fn execute<K: Kind, B: Bank>(
    heap: Global,
    memory: &mut Memory<K>,
    bank: &mut B,
    calls: &[Call<K>],
) -> Result<Vec<Line<K>>, AllocError>
    ensures ran { MatchResult result
        (λ lines. Ran K.Kind.empty B.Bank.number B.Bank.moved (world (tables_of memory.old) bank.old) calls.now lines.items (world (tables_of memory.new) bank.new))
        (λ _. (tables_of memory.new ≡ tables_of memory.old) × (bank.new ≡ bank.old)) }
    ensures lawful { IfOk result (λ lines. (P : ℕ) (start : ℕ → K) (j : Trace K) → Reached K.Kind.empty B.Bank.number B.Bank.moved P start (world (tables_of memory.old) bank.old) j
        → Lawful P start (trace_on j lines.items) (contents_of K.Kind.empty (tables_of memory.new))) }
    ensures trusted { IfOk result (λ lines. IsFresh K.Kind.empty (tables_of memory.old) → AllTrusted lines.items) }
    ensures still_trusted { IfOk result (λ lines. (P : ℕ) (start : ℕ → K) (j : Trace K) → Reached K.Kind.empty B.Bank.number B.Bank.moved P start (world (tables_of memory.old) bank.old) j → AllTrusted lines.items) }
{
    let mut journal = Vec::with_capacity(heap, calls.len())?;
    for call in calls {
        let reply = perform(memory, bank, *call);
        journal.push_reserved(Line { call: *call, reply });
    }
    Ok(journal)
}
