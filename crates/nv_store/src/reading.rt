//! Reading all that a store holds.
ghost use Rattle.std.specs.Prelude.{◌≡◌, List, length, map, sum_by, IfOk};
ghost use Rattle.nv_pmem.specs.Moments.{Tells};
ghost use Rattle.nv_pmem.specs.RowStates.{AreNow};
ghost use Rattle.nv_store.specs.Causes.{HasWriteCause};
ghost use Rattle.nv_store.specs.Store.{Store};

use crate::{Backing, StoreError};
use std::alloc::Global;

/// The bytes of a store, up to its length. It is only read.
pub fn read_all<B: Backing>(alloc: Global, store: &mut B) -> Result<Vec<u8>, StoreError>
    ensures bytes { IfOk result (λ bytes. Tells (B.history store.old) (λ now. bytes.items ≡ now.seen)) }
    ensures history { B.history store.new ≡ B.history store.old }
    ensures cause { HasWriteCause (B.fault_count store.old) (B.fault_count store.new) result }
    ensures device { B.device store.new ≡ B.device store.old }
{
    let len = store.len()?;
    let mut bytes = vec![in alloc; 0; len as usize]?;
    store.pread(0, &mut bytes)?;
    Ok(bytes)
}

/// The bytes of each store, in their order. They are only read.
pub fn read_each<B: Backing>(alloc: Global, stores: &mut [B]) -> Result<Vec<Vec<u8>>, StoreError>
    ensures bytes { IfOk result (λ all. (now : List Store) → AreNow (map B.history stores.old) now
        → map (λ bytes. bytes.items) all.items ≡ map (λ store. store.seen) now) }
    ensures count { IfOk result (λ all. length all.items ≡ length stores.old) }
    ensures histories { map B.history stores.new ≡ map B.history stores.old }
    ensures cause { HasWriteCause (sum_by B.fault_count stores.old) (sum_by B.fault_count stores.new) result }
    ensures devices { map B.device stores.new ≡ map B.device stores.old }
{
    let mut all = Vec::new(alloc);
    for store in stores.iter_mut() {
        all.push(read_all(alloc, store)?)?;
    }
    Ok(all)
}
