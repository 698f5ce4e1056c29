// Is the record of a process sound? Each test is pinned by its definition; a call is refused where one fails.
// The tests look at the process's own record and sets, and at the objects that these name.
ghost use Rattle.std.specs.Prelude.{◌≡◌, ◌+◌, ◌≤◌, length, nat_le};
ghost use Rattle.tables.specs.Tables.{tables_of, process_at, sizes_ok};
ghost use Rattle.engine.specs.Sound.{object_ok, named_ok, all_named, distinct, stamps_ok, counts_ok, room, sets_ok, readable, writable, access_room, conflict_ok, ending_ok, steps_left, phase_ok};

use super::owner::Owner;
use banks::LARGEST;
use tables::{
    Access, Conflict, Ending, Kind, Map, Memory, Object, Phase, Process, READ_PLACES, Slot,
    WRITE_PLACES, numbers_fit,
};

// The steps of a request, done and still possible.
const MOST_STEPS: usize = 64;

// Do the tables have the stated sizes?
pub(crate) fn sized<K: Kind>(memory: &Memory<K>) -> bool
    ensures { result ≡ sizes_ok (tables_of memory.now) }
{
    let count = memory.processes.len();
    numbers_fit(memory.objects.len(), count)
        && memory.reads.len() == count * READ_PLACES
        && memory.writes.len() == count * WRITE_PLACES
        && memory.hands.len() == count
}

// Are counts, clock and steps within their limits?
pub(crate) fn counts_fit(r: &Process) -> bool
    ensures { result ≡ counts_ok r.now }
{
    r.reads <= READ_PLACES
        && r.writes <= WRITE_PLACES
        && r.clock <= LARGEST
        && r.steps <= MOST_STEPS
}

// Are the stamp and the holder in range?
fn object_fits<K: Kind>(o: &Object<K>, count: usize) -> bool
    ensures { result ≡ object_ok o.now count }
{
    o.stamp <= LARGEST && o.holder.is_none_or(|q| q < count)
}

// Is each stamp within its limit?
fn stamps_fit(slots: &[Slot<u64>]) -> bool
    ensures { result ≡ stamps_ok slots.now }
{
    slots.iter().all(|slot| slot.value <= LARGEST)
}

// Is no object there twice?
fn all_apart<V: Copy>(slots: &[Slot<V>]) -> bool
    ensures { result ≡ distinct slots.now }
{
    let mut rest = slots;
    while let [first, after @ ..] = rest {
        let later = Map { slots: after };
        if later.get(first.object).is_some() {
            return false;
        }
        rest = after;
    }
    true
}

// Is x in the set, or has the set fewer pairs than `most`?
fn has_room<V: Copy>(set: Map<'_, V>, most: usize, x: usize) -> bool
    ensures { result ≡ room set.entry.slots.now (length set.entry.slots.now) most x }
{
    set.get(x).is_some() || set.slots.len() < most
}

impl<K: Kind> Owner<'_, K> {
    // Is x an object, with a stamp and a holder in range?
    fn is_named(&self, x: usize) -> bool
        ensures { result ≡ named_ok K.Kind.empty (tables_of self.now.memory.now).objects (length (tables_of self.now.memory.now).processes) x }
    {
        let count = self.memory.processes.len();
        let object = self.memory.objects.get(x);
        object.is_some_and(|o| object_fits(o, count))
    }

    // Does each pair name such an object?
    fn all_named<V: Copy>(&self, slots: &[Slot<V>]) -> bool
        ensures { result ≡ all_named K.Kind.empty (tables_of self.now.memory.now).objects (length (tables_of self.now.memory.now).processes) slots.now }
    {
        slots.iter().all(|slot| self.is_named(slot.object))
    }

    // Are both sets sound?
    pub(crate) fn sets_fit(&self) -> bool
        ensures { result ≡ sets_ok K.Kind.empty (tables_of self.now.memory.now) self.now.p }
    {
        let reads = self.reads().slots;
        let writes = self.writes().slots;
        self.all_named(reads)
            && self.all_named(writes)
            && stamps_fit(reads)
            && all_apart(reads)
            && all_apart(writes)
    }

    // May the process read x: is x in a set of it, or has the read set a free place?
    pub(crate) fn readable(&self, x: usize) -> bool
        ensures { result ≡ readable (tables_of self.now.memory.now) self.now.p x }
    {
        self.writes().get(x).is_some() || has_room(self.reads(), READ_PLACES, x)
    }

    // May the process write x: is x in the write set, or has that a free place?
    pub(crate) fn writable(&self, x: usize) -> bool
        ensures { result ≡ writable (tables_of self.now.memory.now) self.now.p x }
    {
        has_room(self.writes(), WRITE_PLACES, x)
    }

    // Has the pair of an extended access a place?
    fn access_fits(&self, x: usize, access: Access) -> bool
        ensures { result ≡ access_room (tables_of self.now.memory.now) self.now.p x access }
    {
        match access {
            Access::Read => has_room(self.reads(), READ_PLACES, x),
            Access::Write => true,
        }
    }

    // Is the object that a conflict names one?
    fn conflict_fits(&self, conflict: Conflict) -> bool
        ensures { result ≡ conflict_ok K.Kind.empty (tables_of self.now.memory.now).objects (length (tables_of self.now.memory.now).processes) conflict }
    {
        match conflict {
            Conflict::Held { object } | Conflict::Changed { object } => self.is_named(object),
            Conflict::Spent => true,
        }
    }

    fn ending_fits(&self, ending: Ending) -> bool
        ensures { result ≡ ending_ok K.Kind.empty (tables_of self.now.memory.now).objects (length (tables_of self.now.memory.now).processes) ending }
    {
        match ending {
            Ending::Abort { conflict } => self.conflict_fits(conflict),
            Ending::Withdraw => true,
        }
    }

    // The steps that the request may still make.
    fn possible_steps(&self) -> usize
        ensures value { result ≡ steps_left (tables_of self.now.memory.now) self.now.p (process_at (tables_of self.now.memory.now) self.now.p) (process_at (tables_of self.now.memory.now) self.now.p).phase }
        ensures bound { result ≤ 64 }
    {
        let r = self.record();
        match r.phase {
            Phase::Idle => 0,
            Phase::Beginning { next, .. } => self.memory.processes.len().saturating_sub(next),
            Phase::Reading { object } | Phase::Writing { object }
                if self.writes().get(object).is_some() => { 1 }
            Phase::Reading { .. } => 1 + r.reads + r.writes,
            Phase::Writing { .. } => 2 + r.reads + r.writes,
            Phase::Extending { next, .. } => r.reads.saturating_sub(next) + r.writes,
            Phase::Certifying { next } => r.reads.saturating_sub(next) + 1 + r.writes,
            Phase::Storing { next } => r.writes.saturating_sub(next),
            Phase::Freeing { next, .. } => if r.writes == 0 {
                1
            } else {
                r.writes.saturating_sub(next)
            },
        }
    }

    // Are the steps done and those still possible at most 64?
    pub(crate) fn steps_fit(&self) -> bool
        ensures { result ≡ nat_le ((process_at (tables_of self.now.memory.now) self.now.p).steps + steps_left (tables_of self.now.memory.now) self.now.p (process_at (tables_of self.now.memory.now) self.now.p) (process_at (tables_of self.now.memory.now) self.now.p).phase) 64 }
    {
        self.record().steps + self.possible_steps() <= MOST_STEPS
    }

    // Is what the phase names there?
    pub(crate) fn phase_fits(&self) -> bool
        ensures { result ≡ phase_ok K.Kind.empty (tables_of self.now.memory.now) self.now.p (process_at (tables_of self.now.memory.now) self.now.p) (process_at (tables_of self.now.memory.now) self.now.p).phase }
    {
        let r = self.record();
        match r.phase {
            Phase::Idle => true,
            Phase::Beginning { next, least } => {
                next < self.memory.processes.len() && least <= LARGEST
            }
            Phase::Reading { object } => self.is_named(object) && self.readable(object),
            Phase::Writing { object } => self.is_named(object) && self.writable(object),
            Phase::Extending {
                object,
                to,
                next,
                access,
            } => {
                self.is_named(object)
                    && to <= LARGEST
                    && next < r.reads
                    && self.access_fits(object, access)
            }
            Phase::Certifying { next } => next <= r.reads,
            Phase::Storing { next } => next < r.writes,
            Phase::Freeing { next, ending } => {
                (r.writes == 0 || next < r.writes) && self.ending_fits(ending)
            }
        }
    }
}
