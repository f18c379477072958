//! The stores of a bench that are at home.
ghost use Rattle.std.specs.Prelude.{◌≡◌, ◌+◌, ◌++◌, ℕ, [], ◌∷◌, length, map, sum_by, string_bytes, vec_len, vec_capacity, OnOk, IfOk};
ghost use Rattle.nv_plain.specs.Faults.{saturated};
ghost use Rattle.nv_store.specs.MemStore.{IsNewStore, store_now, store_faults};
ghost use Rattle.nv_store.specs.Store.{quiet_store};
ghost use Rattle.nv_bench.specs.Holding.{store_of, without_store, named_stores};
ghost use Rattle.nv_bench.specs.Powered.{powered_stores, stores_left};
ghost use Rattle.nv_bench.specs.Places.{place_of};

use nv_plain::NoMemory;
use nv_pmem::{Fuse, Picker};
use nv_store::{Backing, MemStore};
use std::alloc::Global;

/// Stores at home, each with its name at the same place.
#[derive(Drop)]
pub(crate) struct BenchStores {
    names: Vec<String>,
    stores: Vec<MemStore>,
    pub ghost matched: { vec_len names ≡ vec_len stores },
}

impl BenchStores {
    ghost use Rattle.nv_bench.specs.BenchStores.{held_stores, bench_store_faults, HasPlaces};

    pub(crate) fn new(alloc: Global) -> Self
        ensures stores { held_stores result ≡ [] }
        ensures faults { bench_store_faults result ≡ 0 }
    {
        BenchStores {
            names: Vec::new(alloc),
            stores: Vec::new(alloc),
        }
    }

    /// The stores of a bench, that hold these bytes.
    pub(crate) fn of(alloc: Global, fuse: &Fuse, stores: &[(&str, &[u8])]) -> Result<Self, NoMemory>
        ensures stores { IfOk result (λ bench_stores. held_stores bench_stores
            ≡ map (λ named. record { name = named.0.now; store = quiet_store named.1.now }) stores.now) }
        ensures faults { IfOk result (λ bench_stores. bench_store_faults bench_stores ≡ 0) }
    {
        let mut bench_stores = BenchStores::new(alloc);
        for (name, bytes) in stores {
            bench_stores.add(alloc, fuse.copy()?, name, bytes)?;
        }
        Ok(bench_stores)
    }

    /// Adds a store of these bytes behind those that there are.
    pub(crate) fn add(
        &mut self,
        alloc: Global,
        fuse: Fuse,
        name: &str,
        bytes: &[u8],
    ) -> Result<(), NoMemory>
        ensures stores { OnOk result (held_stores self.new ≡ held_stores self.old ++ record { name = name.now; store = quiet_store bytes.now } ∷ []) }
        ensures faults { OnOk result (bench_store_faults self.new ≡ bench_store_faults self.old) }
    {
        let name = String::from_str(alloc, name)?;
        let store = MemStore::fused(alloc, bytes, fuse)?;
        self.reserve(1)?;
        self.names.push_reserved(name);
        self.stores.push_reserved(store);
        Ok(())
    }

    /// Makes places for so many more stores.
    pub(crate) fn reserve(&mut self, count: usize) -> Result<(), NoMemory>
        ensures places { OnOk result (HasPlaces count self.new) }
        ensures stores { held_stores self.new ≡ held_stores self.old }
        ensures faults { bench_store_faults self.new ≡ bench_store_faults self.old }
        ensures kept { (more : ℕ) → HasPlaces more self.old → HasPlaces more self.new }
    {
        self.names.reserve(count)?;
        self.stores.reserve(count)?;
        Ok(())
    }

    /// Takes out the first store of a name; where there is none, gives the empty one that is handed in.
    pub(crate) fn take_or(&mut self, name: &str, empty: MemStore) -> MemStore
        requires { IsNewStore [] empty }
        ensures store { store_now result ≡ store_of name.now (held_stores self.old) }
        ensures others { held_stores self.new ≡ without_store name.now (held_stores self.old) }
        ensures faults { bench_store_faults self.old ≡ bench_store_faults self.new + store_faults result }
        ensures kept { (more : ℕ) → HasPlaces more self.old → HasPlaces more self.new }
    {
        match place_of(&self.names, name) {
            Some(place) => {
                drop(self.names.remove(place));
                self.stores.remove(place)
            }
            None => empty,
        }
    }

    /// Puts stores behind those that there are, each under its name. Takes no memory.
    pub(crate) fn put(&mut self, names: &mut Vec<String>, mut stores: Vec<MemStore>)
        requires names { vec_len names.old ≡ length stores.items }
        requires places { HasPlaces (vec_len names.old) self.old }
        ensures stores { held_stores self.new ≡ held_stores self.old ++ named_stores (map string_bytes names.old.items) (map store_now stores.items) }
        ensures names { names.new.items ≡ [] }
        ensures faults { bench_store_faults self.new ≡ bench_store_faults self.old + sum_by store_faults stores.items }
    {
        let named = self.names.append(names).is_ok();
        prove!(named);
        let put = self.stores.append(&mut stores).is_ok();
        prove!(put);
    }

    /// The stores lose power, one after another.
    pub(crate) fn lose_power(&mut self, picker: &mut Picker)
        ensures stores { held_stores self.new ≡ powered_stores picker.old (held_stores self.old) }
        ensures faults { bench_store_faults self.new ≡ bench_store_faults self.old }
        ensures kept { (more : ℕ) → HasPlaces more self.old → HasPlaces more self.new }
    {
        power_stores(&mut self.stores, picker);
    }

    /// How often the stores have failed.
    pub(crate) fn faults(&self) -> u64
        ensures { result ≡ saturated (bench_store_faults self.now) }
    {
        faults_of_stores(&self.stores)
    }
}

// Where the first of these names is that is this one.
fn place_of(names: &[String], name: &str) -> Option<usize>
    ensures { result ≡ place_of name.now (map string_bytes names.now) }
{
    let mut i: usize = 0;
    for other in names {
        if other.as_str() == name {
            return Some(i);
        }
        i += 1;
    }
    None
}

fn power_stores(stores: &mut [MemStore], picker: &mut Picker)
    ensures stores { map store_now stores.new ≡ (stores_left picker.old (map store_now stores.old)).0 }
    ensures faults { map store_faults stores.new ≡ map store_faults stores.old }
{
    for store in stores {
        store.image(picker);
    }
}

// How often these stores have failed.
fn faults_of_stores(stores: &[MemStore]) -> u64
    ensures { result ≡ saturated (sum_by store_faults stores.now) }
{
    let mut faults: u64 = 0;
    for store in stores {
        faults = faults.saturating_add(store.faults());
    }
    faults
}
