use crate::names::RefusalName;
use indexmap::IndexMap;
use std::alloc::{AllocError, Global};
use std::marker::Model;

/// How often each refusal was met, in the order in which they were met first. Contracts see this list, and how many
/// further names fit without taking memory.
#[derive(Debug, Drop)]
pub struct Refusals {
    map: IndexMap<RefusalName, u64>,
}

// Contracts see the names with their counts, and the room.
impl Model for Refusals {
    ghost use Rattle.indexmap.specs.IndexMap.{spare};
    ghost use Rattle.exchange_threads.specs.Counts.{Counted};

    ghost Value = { Counted };

    ghost view = { λ r. record { names = r.map.entries; room = spare r.map } };
}

impl Refusals {
    ghost use Rattle.std.specs.Prelude.{◌≡◌, ◌<◌, ◌+◌, ◌^◌, ◌↔◌, [], length, IsTrue, OnOk, slice_get};
    ghost use Rattle.exchange_threads.specs.Counts.{count_of, count_name, count_total};

    /// No refusal was met. Takes no memory.
    pub fn new(alloc: Global) -> Refusals
        ensures { result.names ≡ [] }
    {
        Refusals {
            map: IndexMap::new(alloc),
        }
    }

    /// How many different refusals were met.
    pub fn len(&self) -> usize
        ensures { result ≡ length self.now.names }
    {
        self.map.len()
    }

    /// Whether no refusal was met.
    pub fn is_empty(&self) -> bool
        ensures { IsTrue result ↔ (self.now.names ≡ []) }
    {
        self.map.is_empty()
    }

    /// The refusal that was met first as number `place`, from 0, and how often it was met.
    pub fn at(&self, place: usize) -> Option<(RefusalName, u64)>
        ensures { result ≡ slice_get self.now.names place }
    {
        self.map
            .get_index(place)
            .map(|(name, count)| (*name, *count))
    }

    /// How often the refusal was met. One look-up.
    pub fn count(&self, name: RefusalName) -> u64
        ensures { result ≡ count_of self.now.names name }
    {
        match self.map.get(&name) {
            Some(count) => *count,
            None => 0,
        }
    }

    /// Makes room for one more name.
    pub(crate) fn reserve(&mut self) -> Result<(), AllocError>
        ensures names { self.new.names ≡ self.old.names }
        ensures room { OnOk result (0 < self.new.room) }
    {
        self.map.reserve(1)
    }

    /// Counts a refusal once more: a name that is there keeps its place, and a new one goes last. The caller shows that
    /// there is room and that the counts fit. Takes no memory.
    pub(crate) fn add(&mut self, name: RefusalName)
        requires room { 0 < self.old.room }
        requires few { count_total self.old.names + 1 < 2 ^ 64 }
        ensures { self.new.names ≡ count_name self.old.names name }
    {
        let count = self.count(name);
        let _ = self.map.insert(name, count + 1);
    }
}
