// The end of a transaction, and the freeing of what it holds when it is given up.
ghost use Rattle.std.specs.Prelude.{◌≡◌, ◌+◌, ◌*◌, ◌<◌, ◌≤◌, length, vec_len};
ghost use Rattle.tables.specs.Lookup.{pair};
ghost use Rattle.tables.specs.Tables.{tables_of, process_at, write_at};
ghost use Rattle.engine.specs.Ready.{Ready};
ghost use Rattle.engine.specs.Outcome.{outcome};
ghost use Rattle.engine.specs.Ends.{wiped, ended, ending_answer, given_up, stopped, released, freed, free_step};

use super::owner::Owner;
use super::record::{complete, go_on};
use super::reply::{answering, going};
use tables::{
    Answer, Conflict, Effect, Ending, Kind, Memory, Phase, READ_PLACES, Slot, Stepped, WRITE_PLACES,
};

// Zeroes and blanks the places of process p, in a table in which each process has WIDTH places.
// (Tried: `fill` asks for a `clone` that cannot fail, which `Copy` does not say, and of `fill_with` the goal stays open.)
fn wipe<V: Copy, const WIDTH: usize>(places: &mut Vec<Slot<V>>, p: usize, blank: V)
    requires { p * WIDTH + WIDTH ≤ vec_len places.old }
    ensures { places.new.items ≡ wiped places.old.items (p * WIDTH) WIDTH (pair 0 blank) }
{
    let at = p * WIDTH;
    for place in &mut places[at..at + WIDTH] {
        *place = Slot {
            object: 0,
            value: blank,
        };
    }
}

// Ends the transaction of p. The result is the number of steps that the request took.
pub(crate) fn end<K: Kind>(memory: &mut Memory<K>, p: usize) -> usize
    requires { Ready (tables_of memory.old) p }
    ensures steps { result ≡ (process_at (tables_of memory.old) p).steps + 1 }
    ensures after { tables_of memory.new ≡ ended K.Kind.empty (tables_of memory.old) p }
{
    wipe::<_, READ_PLACES>(&mut memory.reads, p, 0);
    wipe::<_, WRITE_PLACES>(&mut memory.writes, p, K::blank());
    memory.hands[p] = K::blank();
    let r = &mut memory.processes[p];
    r.live = false;
    r.reads = 0;
    r.writes = 0;
    complete(r)
}

// The answer that an ending gives; no `From`, since it has the step count beside the ending.
fn answer_to<K: Kind>(ending: Ending, steps: usize) -> Answer<K>
    ensures { result ≡ ending_answer ending steps }
{
    match ending {
        Ending::Abort { conflict } => Answer::Aborted { conflict, steps },
        Ending::Withdraw => Answer::Withdrawn { steps },
    }
}

// Ends the transaction with the answer of an ending.
fn give_up<K: Kind>(memory: &mut Memory<K>, p: usize, ending: Ending, effect: Effect) -> Stepped<K>
    requires { Ready (tables_of memory.old) p }
    ensures { outcome result (tables_of memory.new) ≡ given_up K.Kind.empty (tables_of memory.old) p ending effect }
{
    let steps = end(memory, p);
    answering(effect, answer_to(ending, steps))
}

// A conflict: the transaction is given up, once what it holds is freed.
pub(crate) fn stop<K: Kind>(memory: &mut Memory<K>, p: usize, conflict: Conflict) -> Stepped<K>
    requires { Ready (tables_of memory.old) p }
    ensures { outcome result (tables_of memory.new) ≡ stopped K.Kind.empty (tables_of memory.old) p conflict }
{
    let ending = Ending::Abort { conflict };
    if memory.processes[p].writes == 0 {
        return give_up(memory, p, ending, Effect::Nothing);
    }
    go_on(&mut memory.processes[p], Phase::Freeing { next: 0, ending });
    going(Effect::Nothing)
}

// Leaves the object x with nobody as its holder.
fn release<K: Kind>(memory: &mut Memory<K>, x: usize)
    requires { x < length (tables_of memory.old).objects }
    ensures { tables_of memory.new ≡ released K.Kind.empty (tables_of memory.old) x }
{
    memory.objects[x].holder = None;
}

// Frees the object of pair `next` of the write set.
fn free_object<K: Kind>(
    memory: &mut Memory<K>,
    p: usize,
    next: usize,
    x: usize,
    ending: Ending,
) -> Stepped<K>
    requires ready { Ready (tables_of memory.old) p }
    requires due { next < (process_at (tables_of memory.old) p).writes }
    requires named { x < length (tables_of memory.old).objects }
    ensures { outcome result (tables_of memory.new) ≡ freed K.Kind.empty (tables_of memory.old) p next x ending }
{
    release(memory, x);
    let effect = Effect::Freed { object: x };
    if next + 1 == memory.processes[p].writes {
        return give_up(memory, p, ending, effect);
    }
    go_on(
        &mut memory.processes[p],
        Phase::Freeing {
            next: next + 1,
            ending,
        },
    );
    going(effect)
}

// A step of a transaction that is given up; with nothing held it only answers.
pub(crate) fn free_step<K: Kind>(
    memory: &mut Memory<K>,
    p: usize,
    next: usize,
    ending: Ending,
) -> Stepped<K>
    requires ready { Ready (tables_of memory.old) p }
    requires due { 0 < (process_at (tables_of memory.old) p).writes → next < (process_at (tables_of memory.old) p).writes }
    requires named { next < (process_at (tables_of memory.old) p).writes → (write_at K.Kind.empty (tables_of memory.old) p next).object < length (tables_of memory.old).objects }
    ensures { outcome result (tables_of memory.new) ≡ free_step K.Kind.empty (tables_of memory.old) p next ending }
{
    if memory.processes[p].writes == 0 {
        return give_up(memory, p, ending, Effect::Nothing);
    }
    let x = Owner { memory, p }.writes().slots[next].object;
    free_object(memory, p, next, x, ending)
}
