//! The move of the header's tail.
ghost use Rattle.std.specs.Prelude.{◌≡◌, ◌≤◌, OnOk};
ghost use Rattle.nv_plain.specs.Faults.{HasCause};
ghost use Rattle.nv_plain.specs.Layouts.{version_1};
ghost use Rattle.nv_pmem.specs.Images.{InEachPartImage, IsOldOrStored, IsQuietPart};
ghost use Rattle.nv_pmem.specs.Moments.{Tells, EachMoment};
ghost use Rattle.nv_pmem.specs.Room.{Takes, Settles};
ghost use Rattle.nv_pmem.specs.Steps.{DidLineStep, DidSome};
ghost use Rattle.nv_header.specs.HeaderSteps.{tail_steps};

use nv_pmem::{Lines, RegionFault, store_durably};

/// Moves the persistent tail, in the header's part, to `tail`. At each moment every image has the tail as it was or the
/// new one, and all other words as they were; at `Ok` every image has the new one. After a fault the tail is the old
/// one or the new. Takes no memory.
pub fn move_tail<L: Lines>(header: &mut L, tail: u64) -> Result<(), RegionFault>
    requires lines { version_1.header_lines ≤ (L.room header.old).lines }
    requires spare { 1 ≤ (L.room header.old).spare 1 }

    // The stores, flushes and fences are these, in this order. A load is in no history: a test counts all calls.
    ensures begun { DidSome (tail_steps tail) (L.history header.old) (L.history header.new) }
    ensures done { OnOk result (DidLineStep (tail_steps tail) (L.history header.old) (L.history header.new)) }

    ensures moments { Tells (L.history header.old) (λ was.
        EachMoment (InEachPartImage (IsOldOrStored was 1 0 tail)) (L.history header.old) (L.history header.new)) }
    ensures moved { OnOk result (Tells (L.history header.new) (InEachPartImage (λ image. image 1 0 ≡ tail))) }
    ensures quiet { OnOk result (Tells (L.history header.old) IsQuietPart → Tells (L.history header.new) IsQuietPart) }

    ensures room { Takes 1 1 (L.room header.old) (L.room header.new) }
    ensures settled { OnOk result (Settles 1 (L.room header.old) (L.room header.new)) }
    ensures cause { HasCause (L.fault_count header.old) (L.fault_count header.new) result }
    ensures device { L.device header.new ≡ L.device header.old }
{
    store_durably(header, 1, 0, tail)?;
    Ok(())
}
