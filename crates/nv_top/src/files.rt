//! The files, as the stores have them.
ghost use Rattle.std.specs.Prelude.{◌≡◌, List, length, map, sum_by, Err, IfOk};
ghost use Rattle.nv_pmem.specs.Moments.{Tells};
ghost use Rattle.nv_pmem.specs.RowStates.{AreNow};
ghost use Rattle.nv_store.specs.Store.{Store};
ghost use Rattle.nv_recover.specs.Standing.{files_of};
ghost use Rattle.nv_top.specs.Stops.{CountHasCause};
ghost use Rattle.nv_top.specs.declared.ending.Stop.TheVariants as stops;

use crate::ending::Stop;
use nv_plain::Bytes;
use nv_store::Backing;
use std::alloc::Global;

/// The bytes of each store, in their order.
pub(crate) fn read_files<B: Backing>(alloc: Global, stores: &mut [B]) -> Result<Vec<Bytes>, Stop>
    ensures count { IfOk result (λ files. length files.items ≡ length stores.old) }
    ensures bytes { IfOk result (λ files. (now : List Store) → AreNow (map B.history stores.old) now
        → files.items ≡ (files_of now).contents) }
    ensures histories { map B.history stores.new ≡ map B.history stores.old }
    ensures never { (why : _) → ¬ (result ≡ Err (stops.Region why)) }
    ensures cause { CountHasCause (sum_by B.fault_count stores.old) (sum_by B.fault_count stores.new) result }
{
    let mut files = Vec::new(alloc);
    for store in stores.iter_mut() {
        files.push(read_file(alloc, store)?)?;
    }
    Ok(files)
}

// The bytes of a store.
fn read_file<B: Backing>(alloc: Global, store: &mut B) -> Result<Bytes, Stop>
    ensures bytes { IfOk result (λ bytes. Tells (B.history store.old) (λ now. bytes ≡ now.seen)) }
    ensures history { B.history store.new ≡ B.history store.old }
    ensures never { (why : _) → ¬ (result ≡ Err (stops.Region why)) }
    ensures cause { CountHasCause (B.fault_count store.old) (B.fault_count store.new) result }
{
    let len = store.len()?;
    let mut bytes = vec![in alloc; 0; len as usize]?;
    store.pread(0, &mut bytes)?;
    Ok(Bytes::from_vec(bytes))
}
