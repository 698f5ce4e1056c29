// A process with its record and its sets.
ghost use Rattle.std.specs.Prelude.{◌≡◌, ◌+◌, ◌*◌, ◌≤◌, length, take, drop};
ghost use Rattle.tables.specs.Tables.{tables_of, read_set, write_set, process_at};
ghost use Rattle.engine.specs.Ready.{Ready};

use tables::{Kind, Map, Memory, Process, READ_PLACES, Slot, WRITE_PLACES};

// Process p of a memory that has its sizes, with the counts, clock and steps of its record in range.
// (Tried: such a struct over a `&mut`, with the functions that change the memory as methods. After a step its fact cannot be
// shown, since nothing bounds the next count of steps; without that bound each method owes two clauses, on the reference and
// on p, and those that count a step a third, in place of the one that they have.)
#[derive(Drop)]
pub(crate) struct Owner<'a, K> {
    pub(crate) memory: &'a Memory<K>,
    pub(crate) p: usize,
    ghost ready: { Ready (tables_of memory.now) p },
}

// The set of n pairs of process p, in a table in which each process has WIDTH places.
fn set_of<V, const WIDTH: usize>(places: &[Slot<V>], p: usize, n: usize) -> Map<'_, V>
    requires { p * WIDTH + n ≤ length places.now }
    ensures slots { result.slots.now ≡ take n (drop (p * WIDTH) places.now) }
    ensures len { length result.slots.now ≡ n }
{
    let at = p * WIDTH;
    Map {
        slots: &places[at..at + n],
    }
}

impl<'a, K: Kind> Owner<'a, K> {
    pub(crate) fn record(&self) -> Process
        ensures { result ≡ process_at (tables_of self.now.memory.now) self.now.p }
    {
        self.memory.processes[self.p]
    }

    // Its read set.
    pub(crate) fn reads(&self) -> Map<'a, u64>
        ensures slots { result.slots.now ≡ read_set (tables_of self.now.memory.now) self.now.p }
        ensures len { length result.slots.now ≡ (process_at (tables_of self.now.memory.now) self.now.p).reads }
    {
        set_of::<_, READ_PLACES>(&self.memory.reads, self.p, self.record().reads)
    }

    // Its write set.
    pub(crate) fn writes(&self) -> Map<'a, K>
        ensures slots { result.slots.now ≡ write_set (tables_of self.now.memory.now) self.now.p }
        ensures len { length result.slots.now ≡ (process_at (tables_of self.now.memory.now) self.now.p).writes }
    {
        set_of::<_, WRITE_PLACES>(&self.memory.writes, self.p, self.record().writes)
    }
}
