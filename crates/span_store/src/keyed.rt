//! Values that are found by keys.
ghost use Rattle.std.specs.Borrow.{Lends, sem};
ghost use Rattle.std.specs.Option.{option_copied_mut};
ghost use Rattle.std.specs.Prelude.{◌≡◌, ◌+◌, ◌<◌, ◌≤◌, ◌↔◌, [], length, max, IsSome, IsTrue, None, OnErr, OnOk, Some, option_copied, slice_set};
ghost use Rattle.slab.specs.Slab.{ContainsKey, HasRoomFor, Updates, get, slab_len};
ghost use Rattle.span_store.specs.private.Keyed.{value_of};
ghost use Rattle.span_store.specs.Lends.{lends_kept, lends_kept_value};

use std::alloc::{AllocError, Global};
use std::marker::Model;
use std::mem;

/// Values of one type, each under a key that it gets when it is put in.
///
/// They are seen as a slab. `slab::Slab` itself promises nothing of how far the next key lies. Here
/// it is no further than there are places, so that what stands under the same keys beside the
/// values can be made ready for them.
#[derive(Drop)]
pub(crate) struct Keyed<T> {
    places: Vec<Place<T>>,
    /// How many places hold a value.
    len: usize,
    /// The first of the vacant places, or `places.len()` where there is none.
    next: usize,
}

#[derive(Drop)]
pub(crate) enum Place<T> {
    /// A place without a value, with the vacant place after it, or `places.len()`.
    Vacant(usize),
    Filled(T),
}

impl<T> Place<T> {
    ghost use Rattle.span_store.specs.contracts.keyed.Place.{the_row};

    fn value_mut(&mut self) -> &mut T
        requires { IsSome (value_of self.old) }
        ensures* lends { sem 𝓛 (Lends (the_row T.row) T.row self.entry result Place.Filled) }
        ensures value { value_of self.old ≡ Some result.now }
    {
        match self {
            Place::Filled(value) => value,
            Place::Vacant(_) => unreachable!(),
        }
    }
}

impl<T> Model for Keyed<T> {
    ghost use Rattle.std.specs.Prelude.{map, vec_capacity};
    ghost use Rattle.slab.specs.Slab.{Slab, slab_code};
    ghost use Rattle.span_store.specs.private.Keyed.{IsLinked, value_of};

    ghost Value = { Slab T };

    ghost coded = { slab_code T.code };

    ghost view = { λ a. record {
      slots = map value_of a.places.items;
      vacant_key = a.next;
      capacity = vec_capacity a.places;
    } };

    ghost invariant = { λ a. IsLinked a.places.items a.len a.next };
}

impl<T> Keyed<T> {
    /// No values. They take no memory.
    pub(crate) fn new(alloc: Global) -> Self
        ensures empty { result.slots ≡ [] }
    {
        Keyed {
            places: Vec::new(alloc),
            len: 0,
            next: 0,
        }
    }

    /// How many values there are.
    pub(crate) fn len(&self) -> usize
        ensures { result ≡ slab_len self.now }
    {
        self.len
    }

    /// Makes room for so many values more.
    pub(crate) fn reserve(&mut self, additional: usize) -> Result<(), AllocError>
        ensures room { OnOk result (HasRoomFor self.new additional) }
        ensures full { OnErr result (self.old.capacity < slab_len self.old + additional) }
        ensures capacity { self.old.capacity ≤ self.new.capacity }
        ensures rest_kept { self.new ≡ record self.old { capacity = self.new.capacity } }
    {
        if self.places.capacity() - self.len >= additional {
            return Ok(());
        }
        let vacant = self.places.len() - self.len;
        self.places.reserve(additional - vacant)
    }

    /// The key that the next value gets.
    pub(crate) fn vacant_key(&self) -> usize
        ensures value { result ≡ self.now.vacant_key }
        ensures vacant { get self.now result ≡ None }
        ensures within { result ≤ length self.now.slots }
        ensures full { result ≡ length self.now.slots → slab_len self.now ≡ result }
    {
        self.next
    }

    /// Puts a value in, for which there is room, and answers its key.
    pub(crate) fn insert_reserved(&mut self, value: T) -> usize
        requires { HasRoomFor self.old 1 }
        ensures key { result ≡ self.old.vacant_key }
        ensures updates { Updates self.old self.new result (Some value) }
        ensures len { slab_len self.new ≡ slab_len self.old + 1 }
        ensures slots { length self.new.slots ≤ max (length self.old.slots) (result + 1) }
        ensures capacity { self.new.capacity ≡ self.old.capacity }
    {
        let key = self.next;
        self.len += 1;
        if key == self.places.len() {
            self.places.push_reserved(Place::Filled(value));
            self.next = key + 1;
            return key;
        }
        match mem::replace(&mut self.places[key], Place::Filled(value)) {
            Place::Vacant(next) => self.next = next,
            Place::Filled(_) => unreachable!(),
        }
        key
    }

    /// The value under this key.
    pub(crate) fn get(&self, key: usize) -> Option<&T>
        ensures { option_copied result ≡ get self.now key }
    {
        match self.places.get(key) {
            Some(Place::Filled(value)) => Some(value),
            _ => None,
        }
    }

    /// The value under this key, to be changed.
    pub(crate) fn get_mut(&mut self, key: usize) -> Option<&mut T>
        ensures* writes_back { sem 𝓛 (lends_kept T.row self.entry key result) }
        ensures value { option_copied_mut result ≡ get self.old key }
    {
        if self.contains(key) {
            Some(self.value_mut(key))
        } else {
            None
        }
    }

    /// Takes the value under this key out.
    pub(crate) fn remove(&mut self, key: usize) -> T
        requires { ContainsKey self.old key }
        ensures value { get self.old key ≡ Some result }
        ensures updates { Updates self.old self.new key None }
        ensures slots { self.new.slots ≡ slice_set self.old.slots key None }
        ensures len { slab_len self.new + 1 ≡ slab_len self.old }
        ensures capacity { self.new.capacity ≡ self.old.capacity }
    {
        let vacant = Place::Vacant(self.next);
        match mem::replace(&mut self.places[key], vacant) {
            Place::Filled(value) => {
                self.len -= 1;
                self.next = key;
                value
            }
            Place::Vacant(_) => unreachable!(),
        }
    }

    fn contains(&self, key: usize) -> bool
        ensures { IsTrue result ↔ ContainsKey self.now key }
    {
        matches!(self.places.get(key), Some(Place::Filled(_)))
    }

    fn value_mut(&mut self, key: usize) -> &mut T
        requires { ContainsKey self.old key }
        ensures* writes_back { sem 𝓛 (lends_kept_value T.row self.entry key result) }
        ensures value { get self.old key ≡ Some result.now }
    {
        self.places[key].value_mut()
    }
}
