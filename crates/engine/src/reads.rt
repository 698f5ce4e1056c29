// Reading: the content comes from the write set or from a look, and the pair joins the read set.
ghost use Rattle.std.specs.Prelude.{◌≡◌, ◌+◌, ◌<◌, None};
ghost use Rattle.tables.specs.Lookup.{value_of};
ghost use Rattle.tables.specs.Tables.{tables_of, process_at, read_set};
ghost use Rattle.engine.specs.Ready.{Ready};
ghost use Rattle.engine.specs.Outcome.{outcome};
ghost use Rattle.engine.specs.Reads.{current, joined, pending_read, admitted};

use super::owner::Owner;
use super::record::{complete, go_on};
use super::reply::{answering, going};
use tables::{
    Access, Answer, Effect, Kind, Memory, Object, Phase, Process, READ_PLACES, Slot, Stepped, put,
};

// Does an access at a stamp need no extension?
pub(crate) fn is_current(r: &Process, stamp: u64) -> bool
    ensures { result ≡ current r.now stamp }
{
    stamp <= r.clock || r.reads == 0
}

// Fetches a pending content.
pub(crate) fn read_pending<K: Kind>(memory: &mut Memory<K>, p: usize, content: K) -> Stepped<K>
    requires { Ready (tables_of memory.old) p }
    ensures { outcome result (tables_of memory.new) ≡ pending_read (tables_of memory.old) p content }
{
    memory.hands[p] = content;
    let steps = complete(&mut memory.processes[p]);
    answering(Effect::Nothing, Answer::Read { content, steps })
}

// The read of x is answered at the clock: its pair joins the read set where x is not in it. The result is the number
// of steps that the request took.
pub(crate) fn join_read<K: Kind>(
    memory: &mut Memory<K>,
    p: usize,
    x: usize,
    stamp: u64,
    clock: u64,
) -> usize
    requires ready { Ready (tables_of memory.old) p }
    requires room { value_of (read_set (tables_of memory.old) p) x ≡ None → (process_at (tables_of memory.old) p).reads < 32 }
    ensures steps { result ≡ (process_at (tables_of memory.old) p).steps + 1 }
    ensures after { tables_of memory.new ≡ joined (tables_of memory.old) p x stamp clock (value_of (read_set (tables_of memory.old) p) x) }
{
    let found = Owner { memory, p }.reads().get(x);
    let r = &mut memory.processes[p];
    r.clock = clock;
    match found {
        Some(_) => complete(r),
        None => {
            let pair = Slot {
                object: x,
                value: stamp,
            };
            put(&mut memory.reads, p * READ_PLACES + r.reads, pair);
            r.reads += 1;
            complete(r)
        }
    }
}

// The look of a read has passed.
pub(crate) fn admit_read<K: Kind>(
    memory: &mut Memory<K>,
    p: usize,
    x: usize,
    found: Object<K>,
) -> Stepped<K>
    requires ready { Ready (tables_of memory.old) p }
    requires room { value_of (read_set (tables_of memory.old) p) x ≡ None → (process_at (tables_of memory.old) p).reads < 32 }
    ensures { outcome result (tables_of memory.new) ≡ admitted (tables_of memory.old) p x found }
{
    let r = memory.processes[p];
    let content = found.content.copied();
    memory.hands[p] = content;
    if is_current(&r, found.stamp) {
        let steps = join_read(memory, p, x, found.stamp, r.clock.max(found.stamp));
        return answering(Effect::Nothing, Answer::Read { content, steps });
    }
    go_on(
        &mut memory.processes[p],
        Phase::Extending {
            object: x,
            to: found.stamp,
            next: 0,
            access: Access::Read,
        },
    );
    going(Effect::Nothing)
}
