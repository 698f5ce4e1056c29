// The steps that look at an object, by the phase of the process and the result of the look.
ghost use Rattle.std.specs.Prelude.{◌≡◌, ◌<◌, length, None};
ghost use Rattle.tables.specs.Lookup.{value_of, place_of};
ghost use Rattle.tables.specs.Tables.{tables_of, process_at, read_set, write_set};
ghost use Rattle.engine.specs.Ready.{Ready};
ghost use Rattle.engine.specs.Outcome.{outcome};
ghost use Rattle.engine.specs.Looked.{Looks, after_look, read_step, write_step};

use super::commit::certify;
use super::ends::stop;
use super::extend::pass_extension;
use super::owner::Owner;
use super::reads::{admit_read, read_pending};
use super::writes::{hold, rewrite};
use tables::{Conflict, Kind, Memory, Object, Phase, Stepped};

// The rest of a step after its look.
// A rule of the project: this is a `match` on the pair of the phase and the look's result.
pub(crate) fn follow_look<K: Kind>(
    memory: &mut Memory<K>,
    p: usize,
    phase: Phase,
    look: Result<Object<K>, Conflict>,
) -> Stepped<K>
    requires ready { Ready (tables_of memory.old) p }
    requires looks { Looks (tables_of memory.old) p phase }
    ensures { outcome result (tables_of memory.new) ≡ after_look K.Kind.empty (tables_of memory.old) p phase look }
{
    match (phase, look) {
        (_, Err(conflict)) => stop(memory, p, conflict),
        (Phase::Reading { object }, Ok(found)) => admit_read(memory, p, object, found),
        (Phase::Writing { object }, Ok(found)) => hold(memory, p, object, found),
        (
            Phase::Extending {
                object,
                to,
                next,
                access,
            },
            Ok(_),
        ) => pass_extension(memory, p, object, to, next, access),
        (Phase::Certifying { next }, Ok(_)) => certify(memory, p, next),
        (
            Phase::Idle | Phase::Beginning { .. } | Phase::Storing { .. } | Phase::Freeing { .. },
            Ok(_),
        ) => unreachable!(),
    }
}

// The first step of a read of x.
// A rule of the project: the look-up in the map answers an Option, which this step and that of a write take apart.
pub(crate) fn read_step<K: Kind>(memory: &mut Memory<K>, p: usize, x: usize) -> Stepped<K>
    requires ready { Ready (tables_of memory.old) p }
    requires object { x < length (tables_of memory.old).objects }
    requires room { value_of (write_set (tables_of memory.old) p) x ≡ None → value_of (read_set (tables_of memory.old) p) x ≡ None → (process_at (tables_of memory.old) p).reads < 32 }
    ensures { outcome result (tables_of memory.new) ≡ read_step K.Kind.empty (tables_of memory.old) p x }
{
    match (Owner { memory, p }).writes().get(x) {
        Some(content) => read_pending(memory, p, content),
        None => {
            let owner = Owner { memory, p };
            let look = owner.look_at(x, owner.reads().get(x));
            follow_look(memory, p, Phase::Reading { object: x }, look)
        }
    }
}

// The first step of a write to x.
pub(crate) fn write_step<K: Kind>(memory: &mut Memory<K>, p: usize, x: usize) -> Stepped<K>
    requires ready { Ready (tables_of memory.old) p }
    requires object { x < length (tables_of memory.old).objects }
    requires room { place_of (write_set (tables_of memory.old) p) x 0 ≡ None → (process_at (tables_of memory.old) p).writes < 16 }
    ensures { outcome result (tables_of memory.new) ≡ write_step K.Kind.empty (tables_of memory.old) p x }
{
    match (Owner { memory, p }).writes().place(x) {
        Some(i) => rewrite(memory, p, x, i),
        None => {
            let look = Owner { memory, p }.look_at(x, None);
            follow_look(memory, p, Phase::Writing { object: x }, look)
        }
    }
}
