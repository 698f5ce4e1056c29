// The memory: objects, processes, and the places that all processes' sets lie in.
ghost use Rattle.std.specs.Prelude.{◌≡◌, ◌*◌, ◌≤◌, map, replicate, IfOk};
ghost use Rattle.tables.specs.Tables.{tables_of, numbers_ok};
ghost use Rattle.tables.specs.Fresh.{unheld, fresh_tables, Freshly};

use super::fresh_error::FreshError;
use super::kind::Kind;
use super::map::Slot;
use super::process::{Phase, Process};
use super::refusal::Refusal;
use std::alloc::{AllocError, Global};

pub const MOST_PROCESSES: usize = 64;

pub const MOST_OBJECTS: usize = 4096;

// The places that each process has for its read set and for its write set.
pub const READ_PLACES: usize = 32;

pub const WRITE_PLACES: usize = 16;

#[derive(Clone, Copy, Debug, PartialEq, Eq)]
pub struct Object<K> {
    pub content: K,
    // the clock value at which its content was committed
    pub stamp: u64,
    pub holder: Option<usize>,
}

// The tables. They are apart, and a set is a stretch of one with its count in the record, since the rules ask for common
// tables of places and for a test of all sizes before each call. Process p has the read places 32 p to 32 p + 31, the
// write places 16 p to 16 p + 15, and the hand place p, which holds the content that a read last took or that a write
// will set.
#[derive(Drop)]
pub struct Memory<K> {
    pub objects: Vec<Object<K>>,
    pub processes: Vec<Process>,
    pub reads: Vec<Slot<u64>>,
    pub writes: Vec<Slot<K>>,
    pub hands: Vec<K>,
}

// Are there that many objects and processes at most, and at least one of each?
pub fn numbers_fit(objects: usize, processes: usize) -> bool
    ensures { result ≡ numbers_ok objects processes }
{
    (1..=MOST_OBJECTS).contains(&objects) && (1..=MOST_PROCESSES).contains(&processes)
}

// A table of n equal elements. (Tried: `vec![x; n]` clones x, and nothing says that a kind's clone is its copy; of a chain that
// is collected, the check did not find that its items are n times x.)
fn filled<T: Copy>(heap: Global, element: T, n: usize) -> Result<Vec<T>, AllocError>
    ensures { IfOk result (λ v. v.items ≡ replicate n element) }
{
    let mut table = Vec::new(heap);
    for _i in 0..n {
        table.push(element)?;
    }
    Ok(table)
}

// The objects with the given contents, with stamp 0 and held by nobody.
fn objects_with<K: Kind>(heap: Global, contents: &[K]) -> Result<Vec<Object<K>>, AllocError>
    ensures { IfOk result (λ v. v.items ≡ map unheld contents.now) }
{
    contents
        .iter()
        .map(|content| Object {
            content: content.copied(),
            stamp: 0,
            holder: None,
        })
        .collect(heap)
}

impl<K: Kind> Memory<K> {
    // The tables of a fresh memory.
    fn opened(heap: Global, contents: &[K], count: usize) -> Result<Memory<K>, AllocError>
        requires { count ≤ 64 }
        ensures { IfOk result (λ m. tables_of m ≡ fresh_tables K.Kind.empty contents.now count) }
    {
        let idle = Process {
            live: false,
            clock: 0,
            reads: 0,
            writes: 0,
            steps: 0,
            phase: Phase::Idle,
        };
        let seen = Slot {
            object: 0,
            value: 0,
        };
        let pending = Slot {
            object: 0,
            value: K::blank(),
        };
        let objects = objects_with(heap, contents)?;
        let processes = filled(heap, idle, count)?;
        let reads = filled(heap, seen, count * READ_PLACES)?;
        let writes = filled(heap, pending, count * WRITE_PLACES)?;
        let hands = filled(heap, K::blank(), count)?;
        Ok(Memory {
            objects,
            processes,
            reads,
            writes,
            hands,
        })
    }

    // A fresh memory with the given contents and that many processes.
    pub fn fresh(heap: Global, contents: &[K], count: usize) -> Result<Memory<K>, FreshError>
        ensures { Freshly K.Kind.empty contents.now count result }
    {
        if !numbers_fit(contents.len(), count) {
            return Err(FreshError::Refused(Refusal::Sizes));
        }
        Ok(Memory::opened(heap, contents, count)?)
    }
}
