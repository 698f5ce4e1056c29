// A look: one step takes an object's holder, stamp and content together.
ghost use Rattle.std.specs.Prelude.{◌≡◌, ◌<◌, length};
ghost use Rattle.tables.specs.Tables.{tables_of, process_at, read_at};
ghost use Rattle.engine.specs.Look.{judged, looked, pair_looked};

use super::owner::Owner;
use tables::{Conflict, Kind, Object};

// The object x, found as it is, unless another process than p holds it or it has another stamp than the one that p
// has seen.
fn judge<K: Kind>(
    found: Object<K>,
    p: usize,
    x: usize,
    seen: Option<u64>,
) -> Result<Object<K>, Conflict>
    ensures { result ≡ judged found p x seen }
{
    if let Some(q) = found.holder
        && q != p
    {
        return Err(Conflict::Held { object: x });
    }
    match seen {
        Some(stamp) if stamp != found.stamp => Err(Conflict::Changed { object: x }),
        _ => Ok(found),
    }
}

impl<K: Kind> Owner<'_, K> {
    // A look at the object x, which the process may have seen at a stamp.
    pub(crate) fn look_at(&self, x: usize, seen: Option<u64>) -> Result<Object<K>, Conflict>
        requires { x < length (tables_of self.now.memory.now).objects }
        ensures { result ≡ looked K.Kind.empty (tables_of self.now.memory.now) self.now.p x seen }
    {
        judge(self.memory.objects[x], self.p, x, seen)
    }

    // A look at the object of pair i of the read set.
    pub(crate) fn look_at_pair(&self, i: usize) -> Result<Object<K>, Conflict>
        requires due { i < (process_at (tables_of self.now.memory.now) self.now.p).reads }
        requires named { (read_at (tables_of self.now.memory.now) self.now.p i).object < length (tables_of self.now.memory.now).objects }
        ensures { result ≡ pair_looked K.Kind.empty (tables_of self.now.memory.now) self.now.p i }
    {
        let pair = self.reads().slots[i];
        self.look_at(pair.object, Some(pair.value))
    }
}
