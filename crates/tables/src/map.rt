// One map from object numbers to values, over a stretch of places: read sets at stamps, write sets at contents.
ghost use Rattle.std.specs.Prelude.{◌≡◌, ◌<◌, length, IfSome, vec_len, slice_set};
ghost use Rattle.tables.specs.Lookup.{value_of, place_of};

// A place: an object number and its value.
#[derive(Clone, Copy, Debug, PartialEq, Eq)]
pub struct Slot<V> {
    pub object: usize,
    pub value: V,
}

// The map whose pairs lie in the borrowed places.
#[derive(Clone, Copy, Debug, PartialEq, Eq)]
pub struct Map<'a, V> {
    pub slots: &'a [Slot<V>],
}

impl<V: Copy> Map<'_, V> {
    // The value of an object, where it has one.
    pub fn get(&self, object: usize) -> Option<V>
        ensures { result ≡ value_of self.now.slots.now object }
    {
        self.slots
            .iter()
            .find(|slot| slot.object == object)
            .map(|slot| slot.value)
    }

    // The place of an object's pair, where it has one.
    pub fn place(&self, object: usize) -> Option<usize>
        ensures value { result ≡ place_of self.now.slots.now object 0 }
        ensures bound { IfSome result (λ i. i < length self.now.slots.now) }
    {
        self.slots.iter().position(|slot| slot.object == object)
    }
}

// Puts a pair into a place of a table; nothing where there is no such place.
pub fn put<V: Copy>(places: &mut Vec<Slot<V>>, at: usize, pair: Slot<V>)
    ensures items { places.new.items ≡ slice_set places.old.items at pair }
    ensures len { vec_len places.new ≡ vec_len places.old }
{
    if let Some(place) = places.get_mut(at) {
        *place = pair;
    }
}
