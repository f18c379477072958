//! Benches: the devices that a program runs over, lent and given back.
ghost use Rattle.std.specs.Prelude.{◌≡◌, ℕ, ◌+◌, ◌-◌, ◌^◌, ◌<◌, ◌≤◌, Bool, [], List, length, map, sum_by, true, false, Some, None, All, Contains, IsTrue, Err, IfOk, IfSome, OnOk, OnErr};
ghost use Rattle.nv_plain.specs.Faults.{Rose, saturated};
ghost use Rattle.nv_plain.specs.Layouts.{mount_layout};
ghost use Rattle.nv_plain.specs.Names.{is_name};
ghost use Rattle.nv_pmem.specs.Part.{Part as PartState};
ghost use Rattle.nv_pmem.specs.RowStates.{IsNow, AreNow};
ghost use Rattle.nv_store.specs.Store.{Store as StoreState};
ghost use Rattle.nv_bench.specs.Benches.{BenchState, with_faults, region_lent, store_lent, told_back, taken_back, armed_with, powered_off};
ghost use Rattle.nv_bench.specs.Holding.{Holding, store_of};
ghost use Rattle.nv_bench.specs.Laws.{AreWholeStores};
ghost use Rattle.nv_bench.specs.Naming.{HasDistinctStores};
ghost use Rattle.nv_bench.specs.Opening.{IsFreshWhereQuiet, opened};
ghost use Rattle.nv_bench.specs.declared.bench.BenchError.TheVariants.{Failed, NoMemory as NoRoom};

use nv_plain::NoMemory;
use nv_pmem::{Geometry, Lines, Pick};
use nv_store::Backing;
use thiserror::Error;

/// Why devices were not opened.
#[derive(Clone, Copy, Debug, PartialEq, Eq, Error)]
pub enum BenchError {
    /// The opening failed, and the bench's count of faults rose.
    #[error("a device could not be opened")]
    Failed,
    /// There was not enough memory. Nothing is changed.
    #[error("no memory")]
    NoMemory,
}

/// The devices that a program runs over: the parts of one region, and stores by their names. What is opened is lent until
/// it is given back; what is given back is what the next opening gives. A bench that doesn't tell what it holds gives
/// devices that don't tell either.
pub trait Bench {
    type Part: Lines + Drop + Send;

    type Store: Backing + Drop + Send;

    /// Its devices can be armed and powered off.
    ghost can_lose_power: { Bool };

    /// What it is: what its devices at home hold, what is lent, and its counts.
    ghost state: { Self → BenchState };

    /// Whether its devices can be armed and powered off.
    fn images() -> bool
        ensures { result ≡ can_lose_power };

    /// Opens the region: the parts that stand there, in their order. A blank one, that is one with no part 0, no line in it,
    /// or 0 in word 0 of its line 0, gets the parts of the geometry that is wanted, of which new lines are zeros. One that has
    /// the magic, version 1 and the lines of such a header gets lines of zeros behind them, up to those of a mount's header.
    fn open_region(&mut self, want: Option<Geometry>) -> Result<Vec<Self::Part>, BenchError>
        requires { (state self.old).is_open ≡ false }
        ensures lent { OnOk result (state self.new ≡ with_faults (state self.new).faults (region_lent (state self.old))) }
        ensures told { IfOk result (λ parts. IfSome (state self.old).told (λ holding.
            AreNow (map Self.Part.history parts.items) (opened want holding.parts))) }
        ensures untold { IfOk result (λ parts. (state self.old).told ≡ None → All (λ part. Self.Part.history part ≡ []) parts.items) }
        ensures fresh { IfOk result (λ parts. All (λ part. IsFreshWhereQuiet (Self.Part.history part) (Self.Part.room part)) parts.items) }
        ensures counts { IfOk result (λ parts.
            (state self.old).faults ≡ saturated ((state self.new).faults + sum_by Self.Part.fault_count parts.items)) }
        ensures failed { result ≡ Err Failed → Rose (state self.old).faults (state self.new).faults }
        ensures kept { OnErr result (state self.new ≡ with_faults (state self.new).faults (state self.old)) }
        ensures memory { result ≡ Err NoRoom → state self.new ≡ state self.old };

    /// Opens the store of a name; an empty one, where there is none of that name.
    fn open_store(&mut self, name: &str) -> Result<Self::Store, BenchError>
        requires open { (state self.old).is_open ≡ true }
        requires name { IsTrue (is_name mount_layout.name_limit name.now) }
        requires other { ¬ (Contains (state self.old).lent name.now) }
        ensures lent { OnOk result (state self.new ≡ with_faults (state self.new).faults (store_lent name.now (state self.old))) }
        ensures told { IfOk result (λ store. IfSome (state self.old).told (λ holding.
            IsNow (Self.Store.history store) (store_of name.now holding.stores))) }
        ensures untold { IfOk result (λ store. (state self.old).told ≡ None → Self.Store.history store ≡ []) }
        ensures counts { IfOk result (λ store.
            (state self.old).faults ≡ saturated ((state self.new).faults + Self.Store.fault_count store)) }
        ensures failed { result ≡ Err Failed → Rose (state self.old).faults (state self.new).faults }
        ensures kept { OnErr result (state self.new ≡ with_faults (state self.new).faults (state self.old)) }
        ensures memory { result ≡ Err NoRoom → state self.new ≡ state self.old };

    /// Refuses the `k`-th device call from now, and each later one, until power goes off. Calls are counted over all devices
    /// of the bench. Takes no memory.
    fn arm(&mut self, k: u64)
        requires images { can_lose_power ≡ true }
        requires k { 1 ≤ k }
        requires arms { (state self.old).arms < 2 ^ 64 - 1 }
        ensures { state self.new ≡ armed_with k (state self.old) };

    /// Takes back the region's parts, and the stores in the order in which they were opened. Takes no memory.
    fn give_back(&mut self, parts: Vec<Self::Part>, stores: Vec<Self::Store>)
        requires open { (state self.old).is_open ≡ true }
        requires stores { length stores.items ≡ length (state self.old).lent }
        ensures taken { state self.new ≡ taken_back (state self.new).told
            (sum_by Self.Part.fault_count parts.items + sum_by Self.Store.fault_count stores.items) (state self.old) }
        ensures told { (now : List PartState) (held : List StoreState)
            → AreNow (map Self.Part.history parts.items) now → AreNow (map Self.Store.history stores.items) held
            → (state self.new).told ≡ told_back now held (state self.old) }
        ensures untold { (state self.old).told ≡ None → (state self.new).told ≡ None };

    /// Loses power: each device, the parts in their order and then the stores in theirs, is left with the image that the
    /// pick names; no call is refused any more but those that were to fail from the start. Without memory nothing is changed.
    fn power(&mut self, pick: Pick) -> Result<(), NoMemory>
        requires images { can_lose_power ≡ true }
        requires closed { (state self.old).is_open ≡ false }
        requires home { (state self.old).lent ≡ [] }
        ensures off { OnOk result (state self.new ≡ powered_off pick (state self.old)) }
        ensures memory { OnErr result (state self.new ≡ state self.old) };

    /// How often its devices at home, those that are gone and its openings have failed; at most 2^64 - 1. Takes no memory.
    fn faults(&self) -> u64
        ensures { result ≡ (state self.now).faults };

    /// Each store at home is whole.
    ghost whole: { (bench : Self) (holding : Holding) → (state bench).told ≡ Some holding → AreWholeStores holding };

    /// No two of its stores, at home or lent, have the same name.
    ghost named: { (bench : Self) → HasDistinctStores (state bench) };
}
