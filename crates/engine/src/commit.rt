// Commit: certification, sealing and storing.
ghost use Rattle.std.specs.Prelude.{◌≡◌, ◌^◌, ◌<◌, ◌≤◌, length};
ghost use Rattle.tables.specs.Tables.{tables_of, process_at, write_at};
ghost use Rattle.engine.specs.Ready.{Ready};
ghost use Rattle.engine.specs.Outcome.{outcome};
ghost use Rattle.engine.specs.Commit.{committed, certified, seal_stamp, sealed_at, sealed_bank, store_step};

use super::ends::{end, stop};
use super::owner::Owner;
use super::record::go_on;
use super::reply::{answering, going};
use banks::{Bank, LARGEST};
use tables::{Answer, Conflict, Effect, Kind, Memory, Object, Phase, Stepped};

// Ends the transaction with the answer committed. (`give_up` is no twin: what it answers, it takes.)
pub(crate) fn finish_commit<K: Kind>(memory: &mut Memory<K>, p: usize, effect: Effect) -> Stepped<K>
    requires { Ready (tables_of memory.old) p }
    ensures { outcome result (tables_of memory.new) ≡ committed K.Kind.empty (tables_of memory.old) p effect }
{
    let steps = end(memory, p);
    answering(effect, Answer::Committed { steps })
}

// Certification's look at pair `next` has passed.
pub(crate) fn certify<K: Kind>(memory: &mut Memory<K>, p: usize, next: usize) -> Stepped<K>
    requires ready { Ready (tables_of memory.old) p }
    requires due { next < (process_at (tables_of memory.old) p).reads }
    ensures { outcome result (tables_of memory.new) ≡ certified K.Kind.empty (tables_of memory.old) p next }
{
    let r = memory.processes[p];
    if next + 1 == r.reads && r.writes == 0 {
        return finish_commit(memory, p, Effect::Nothing);
    }
    go_on(
        &mut memory.processes[p],
        Phase::Certifying { next: next + 1 },
    );
    going(Effect::Nothing)
}

// The stamp of a sealing step, if one is left.
fn stamp_for(clock: u64, number: u64) -> Option<u64>
    requires clock { clock ≤ 2 ^ 40 }
    requires number { number ≤ 2 ^ 40 }
    ensures { result ≡ seal_stamp clock number }
{
    let stamp = 1 + clock.max(number);
    (stamp <= LARGEST).then_some(stamp)
}

// The sealing step.
pub(crate) fn seal_step<K: Kind, B: Bank>(
    memory: &mut Memory<K>,
    bank: &mut B,
    p: usize,
) -> Stepped<K>
    requires { Ready (tables_of memory.old) p }
    ensures after { outcome result (tables_of memory.new) ≡ sealed_at K.Kind.empty (tables_of memory.old) p (seal_stamp (process_at (tables_of memory.old) p).clock (B.Bank.number bank.old p)) }
    ensures bank { bank.new ≡ sealed_bank B.Bank.moved bank.old p (seal_stamp (process_at (tables_of memory.old) p).clock (B.Bank.number bank.old p)) }
{
    match stamp_for(memory.processes[p].clock, bank.read(p)) {
        Some(stamp) => {
            bank.move_to(p, stamp);
            let r = &mut memory.processes[p];
            r.clock = stamp;
            go_on(r, Phase::Storing { next: 0 });
            going(Effect::Sealed)
        }
        None => stop(memory, p, Conflict::Spent),
    }
}

// Gives pair `next` of the write set to its object, which is then free.
pub(crate) fn store_step<K: Kind>(memory: &mut Memory<K>, p: usize, next: usize) -> Stepped<K>
    requires ready { Ready (tables_of memory.old) p }
    requires due { next < (process_at (tables_of memory.old) p).writes }
    requires named { (write_at K.Kind.empty (tables_of memory.old) p next).object < length (tables_of memory.old).objects }
    ensures { outcome result (tables_of memory.new) ≡ store_step K.Kind.empty (tables_of memory.old) p next }
{
    let r = memory.processes[p];
    let pair = Owner { memory, p }.writes().slots[next];
    memory.objects[pair.object] = Object {
        content: pair.value.copied(),
        stamp: r.clock,
        holder: None,
    };
    let effect = Effect::Stored {
        object: pair.object,
    };
    if next + 1 == r.writes {
        return finish_commit(memory, p, effect);
    }
    go_on(&mut memory.processes[p], Phase::Storing { next: next + 1 });
    going(effect)
}
