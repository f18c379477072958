//! A bench of devices in memory, which can lose power.
ghost use Rattle.std.specs.Prelude.{◌≡◌, ◌+◌, ◌%◌, ◌++◌, true, false, List, [], length, map, sum_by, string_bytes, vec_len, All, Contains, Some, None, IfOk, IfSome, OnOk, OnErr};
ghost use Rattle.nv_bench.specs.Naming.{AreDistinct, AreDistinct-prop, names_of};
ghost use Rattle.nv_bench.specs.BenchStores.{HasPlaces, held_stores};

use crate::bench_stores::BenchStores;
use crate::parts::{faults_of_parts, make_wanted, parts_of, power_parts};
use crate::{Bench, BenchError};
use nv_plain::NoMemory;
use nv_pmem::{Fuse, Geometry, MemPart, Past, Pick, Picker};
use nv_store::MemStore;
use std::alloc::Global;
use std::mem;

/// Devices in memory. They tell all that they hold, and share one fuse: they fail at the device calls of a list, numbered from
/// 1 over all of them, and from the one on that they are armed with.
#[derive(Drop)]
pub struct MemBench {
    alloc: Global,
    fuse: Fuse,
    parts: Vec<MemPart>,
    bench_stores: BenchStores,
    is_open: bool,
    // The names of the stores that are lent.
    lent: Vec<String>,
    // How often parts that are at home no more have failed.
    gone: u64,
    arms: u64,
    armed: u64,
    settled: u64,
    // The parts and the stores as power left them, each time that it went off.
    left_parts: Past<Vec<MemPart>>,
    left_stores: Past<BenchStores>,
    // The picks that it went off with.
    picked: Past<Pick>,
    ghost home: { is_open ≡ true → vec_len parts ≡ 0 },
    // So stores are taken back without memory.
    ghost places: { HasPlaces (vec_len lent) bench_stores },
    ghost named: { AreDistinct (names_of (held_stores bench_stores) ++ map string_bytes lent.items) } by { AreDistinct-prop (names_of (held_stores bench_stores) ++ map string_bytes lent.items) },
}

impl MemBench {
    ghost use Rattle.nv_pmem.specs.MemPart.{part_now, part_faults};
    ghost use Rattle.nv_bench.specs.MemBench.{mem_state, new_state, faults_by};
    ghost use Rattle.nv_bench.specs.Opening.{opened};
    ghost use Rattle.nv_plain.specs.Faults.{saturated};
    ghost use Rattle.nv_pmem.specs.Made.{part_in};
    ghost use Rattle.nv_store.specs.MemStore.{store_now, store_faults};
    ghost use Rattle.nv_store.specs.Store.{quiet_store};
    ghost use Rattle.nv_bench.specs.Benches.{with_faults, store_lent};
    ghost use Rattle.nv_bench.specs.Holding.{Holding, IsQuietHolding, store_of};

    /// A bench of no part and no store. The device calls of these numbers fail.
    pub fn new(alloc: Global, fails: &[u64]) -> Result<Self, NoMemory>
        ensures made { IfOk result (λ bench. let nothing : Holding = record { parts = []; stores = [] } in mem_state bench ≡ new_state nothing) }
        ensures quiet { IfOk result (λ bench. IfSome (mem_state bench).told IsQuietHolding) }
    {
        Ok(MemBench {
            alloc,
            fuse: Fuse::new(alloc, fails)?,
            parts: Vec::new(alloc),
            bench_stores: BenchStores::new(alloc),
            is_open: false,
            lent: Vec::new(alloc),
            gone: 0,
            arms: 0,
            armed: 0,
            settled: 0,
            left_parts: Past::new(),
            left_stores: Past::new(),
            picked: Past::new(),
        })
    }

    /// A bench of parts and stores that hold these bytes, all durable. The device calls of these numbers fail.
    pub fn of(
        alloc: Global,
        parts: &[&[u8]],
        stores: &[(&str, &[u8])],
        fails: &[u64],
    ) -> Result<Self, NoMemory>
        requires lines { All (λ bytes. length bytes.now % 64 ≡ 0) parts.now }
        requires names { AreDistinct (map (λ named. named.0.now) stores.now) }
        ensures made { IfOk result (λ bench. let holding : Holding = record {
          parts = map (λ bytes. part_in bytes.now) parts.now;
          stores = map (λ named. record { name = named.0.now; store = quiet_store named.1.now }) stores.now;
        } in mem_state bench ≡ new_state holding) }
        ensures quiet { IfOk result (λ bench. IfSome (mem_state bench).told IsQuietHolding) }
    {
        let fuse = Fuse::new(alloc, fails)?;
        let parts = parts_of(alloc, &fuse, parts)?;
        let bench_stores = BenchStores::of(alloc, &fuse, stores)?;
        Ok(MemBench {
            alloc,
            fuse,
            parts,
            bench_stores,
            is_open: false,
            lent: Vec::new(alloc),
            gone: 0,
            arms: 0,
            armed: 0,
            settled: 0,
            left_parts: Past::new(),
            left_stores: Past::new(),
            picked: Past::new(),
        })
    }

    // Makes the parts at home those of the geometry that is wanted, where they are blank.
    fn make_wanted(&mut self, want: Option<Geometry>) -> Result<(), NoMemory>
        requires { self.old.is_open ≡ false }
        ensures parts { OnOk result (map part_now self.new.parts.items ≡ opened want (map part_now self.old.parts.items)) }
        ensures others { OnOk result (mem_state self.new ≡ record (mem_state self.old) {
          told = Some (record { parts = map part_now self.new.parts.items; stores = held_stores self.old.bench_stores });
          faults = faults_by self.new;
        }) }
        ensures stores { self.new.bench_stores ≡ self.old.bench_stores }
        ensures faults { OnOk result (saturated (self.new.gone + sum_by part_faults self.new.parts.items)
            ≡ saturated (self.old.gone + sum_by part_faults self.old.parts.items)) }
        ensures kept { OnErr result (mem_state self.new ≡ mem_state self.old) }
    {
        let fuse = self.fuse.copy()?;
        make_wanted(self.alloc, &fuse, want, &mut self.parts, &mut self.gone)
    }

    // Lends the store of a name. All memory is asked for before anything changes.
    fn lend(&mut self, name: &str) -> Result<MemStore, NoMemory>
        requires other { ¬ (Contains (mem_state self.old).lent name.now) }
        ensures lent { OnOk result (mem_state self.new ≡ with_faults (mem_state self.new).faults (store_lent name.now (mem_state self.old))) }
        ensures store { IfOk result (λ store. store_now store ≡ store_of name.now (held_stores self.old.bench_stores)) }
        ensures counts { IfOk result (λ store. (mem_state self.old).faults ≡ saturated ((mem_state self.new).faults + store_faults store)) }
        ensures memory { OnErr result (mem_state self.new ≡ mem_state self.old) }
    {
        let lent = String::from_str(self.alloc, name)?;
        let empty = MemStore::fused(self.alloc, &[], self.fuse.copy()?)?;
        self.lent.reserve(1)?;
        self.bench_stores.reserve(self.lent.len() + 1)?;
        self.lent.push_reserved(lent);
        Ok(self.bench_stores.take_or(name, empty))
    }
}

impl Bench for MemBench {
    ghost use Rattle.nv_pmem.specs.MemPart.{part_now, part_history, part_faults};
    ghost use Rattle.nv_pmem.specs.Part.{Part as PartState};
    ghost use Rattle.nv_pmem.specs.RowStates.{AreNow};
    ghost use Rattle.nv_store.specs.MemStore.{store_now, store_history, store_faults};
    ghost use Rattle.nv_store.specs.Store.{Store as StoreState};
    ghost use Rattle.nv_bench.specs.Benches.{told_back, taken_back};
    ghost use Rattle.nv_bench.specs.MemBench.{mem_named, mem_state, mem_whole};

    type Part = MemPart;

    type Store = MemStore;

    ghost can_lose_power = { true };

    ghost state = { mem_state };

    fn images() -> bool {
        true
    }

    fn open_region(&mut self, want: Option<Geometry>) -> Result<Vec<MemPart>, BenchError> {
        match self.make_wanted(want) {
            Ok(()) => {
                self.is_open = true;
                Ok(mem::replace(&mut self.parts, Vec::new(self.alloc)))
            }
            Err(NoMemory) => Err(BenchError::NoMemory),
        }
    }

    fn open_store(&mut self, name: &str) -> Result<MemStore, BenchError> {
        match self.lend(name) {
            Ok(store) => Ok(store),
            Err(NoMemory) => Err(BenchError::NoMemory),
        }
    }

    fn arm(&mut self, k: u64) {
        self.fuse.arm(k);
        self.arms += 1;
        self.armed = k;
        self.settled = u64::MAX;
    }

    fn give_back(&mut self, parts: Vec<MemPart>, stores: Vec<MemStore>)
        requires open { (mem_state self.old).is_open ≡ true }
        requires stores { length stores.items ≡ length (mem_state self.old).lent }
        ensures taken { mem_state self.new ≡ taken_back (mem_state self.new).told
            (sum_by part_faults parts.items + sum_by store_faults stores.items) (mem_state self.old) }
        ensures told { (now : List PartState) (held : List StoreState)
            → AreNow (map part_history parts.items) now → AreNow (map store_history stores.items) held
            → (mem_state self.new).told ≡ told_back now held (mem_state self.old) }
        ensures untold { (mem_state self.old).told ≡ None → (mem_state self.new).told ≡ None }
        ensures exact { (mem_state self.new).told
            ≡ told_back (map part_now parts.items) (map store_now stores.items) (mem_state self.old) }
    {
        self.is_open = false;
        self.parts = parts;
        self.bench_stores.put(&mut self.lent, stores);
    }

    fn power(&mut self, pick: Pick) -> Result<(), NoMemory> {
        let mut picker = Picker::new(pick);
        power_parts(&mut self.parts, &mut picker);
        self.bench_stores.lose_power(&mut picker);
        self.fuse.disarm();
        self.settled = self.faults();
        self.left_parts.note(&self.parts);
        self.left_stores.note(&self.bench_stores);
        self.picked.note(&pick);
        Ok(())
    }

    fn faults(&self) -> u64 {
        self.gone
            .saturating_add(faults_of_parts(&self.parts))
            .saturating_add(self.bench_stores.faults())
    }

    ghost whole = { mem_whole };

    ghost named = { mem_named };
}
