// Writing: the content in hand replaces a pending one, or the process becomes the holder and the pair joins the write set.
ghost use Rattle.std.specs.Prelude.{◌≡◌, ◌<◌, length};
ghost use Rattle.tables.specs.Lookup.{pair};
ghost use Rattle.tables.specs.Tables.{tables_of, process_at, with_write, hand_at};
ghost use Rattle.engine.specs.Ready.{Ready};
ghost use Rattle.engine.specs.Outcome.{outcome};
ghost use Rattle.engine.specs.Writes.{rewritten, held};

use super::reads::is_current;
use super::record::{complete, go_on};
use super::reply::{answering, going};
use tables::{
    Access, Answer, Effect, Kind, Memory, Object, Phase, Slot, Stepped, WRITE_PLACES, put,
};

// Puts the pair of x and the content in hand into place i of the write set.
fn set_pending<K: Kind>(memory: &mut Memory<K>, p: usize, i: usize, x: usize)
    requires ready { Ready (tables_of memory.old) p }
    requires within { i < 16 }
    ensures { tables_of memory.new ≡ with_write (tables_of memory.old) p i (pair x (hand_at K.Kind.empty (tables_of memory.old) p)) }
{
    let value = memory.hands[p];
    put(
        &mut memory.writes,
        p * WRITE_PLACES + i,
        Slot { object: x, value },
    );
}

// Replaces the pending content in place i, which is that of x.
pub(crate) fn rewrite<K: Kind>(memory: &mut Memory<K>, p: usize, x: usize, i: usize) -> Stepped<K>
    requires ready { Ready (tables_of memory.old) p }
    requires within { i < 16 }
    ensures { outcome result (tables_of memory.new) ≡ rewritten K.Kind.empty (tables_of memory.old) p x i }
{
    set_pending(memory, p, i, x);
    let steps = complete(&mut memory.processes[p]);
    answering(Effect::Nothing, Answer::Written { steps })
}

// The look of a write has passed: p becomes the holder of x.
pub(crate) fn hold<K: Kind>(
    memory: &mut Memory<K>,
    p: usize,
    x: usize,
    found: Object<K>,
) -> Stepped<K>
    requires ready { Ready (tables_of memory.old) p }
    requires object { x < length (tables_of memory.old).objects }
    requires room { (process_at (tables_of memory.old) p).writes < 16 }
    ensures { outcome result (tables_of memory.new) ≡ held K.Kind.empty (tables_of memory.old) p x found }
{
    let before = memory.processes[p];
    memory.objects[x] = Object {
        holder: Some(p),
        ..found
    };
    set_pending(memory, p, before.writes, x);
    let effect = Effect::Took { object: x };
    let r = &mut memory.processes[p];
    r.writes += 1;
    if is_current(&before, found.stamp) {
        r.clock = before.clock.max(found.stamp);
        let steps = complete(r);
        return answering(effect, Answer::Written { steps });
    }
    go_on(
        r,
        Phase::Extending {
            object: x,
            to: found.stamp,
            next: 0,
            access: Access::Write,
        },
    );
    going(effect)
}
