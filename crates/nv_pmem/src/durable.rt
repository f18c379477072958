//! A word is stored and made durable.
ghost use Rattle.std.specs.Prelude.{◌≡◌, ◌<◌, ◌≤◌, OnOk};
ghost use Rattle.nv_plain.specs.Faults.{HasCause};
ghost use Rattle.nv_pmem.specs.Calls.{PartCalls, seen_of};
ghost use Rattle.nv_pmem.specs.Images.{InEachPartImage, IsOldOrStored, IsQuietPart};
ghost use Rattle.nv_pmem.specs.Moments.{Tells, EachMoment};
ghost use Rattle.nv_pmem.specs.Room.{Takes, Settles};
ghost use Rattle.nv_pmem.specs.Steps.{DidLineStep, DidSome, durable_store};

use crate::{LineFault, Lines};

/// Stores a word and makes it durable: at each moment every image has the word as it was or as it is stored, and all
/// other words as they were. After a fault the word may be stored. Takes no memory.
pub fn store_durably<L: Lines>(
    part: &mut L,
    line: u64,
    word: u64,
    value: u64,
) -> Result<(), LineFault>
    requires line { line < (L.room part.old).lines }
    requires word { word < 8 }
    requires spare { 1 ≤ (L.room part.old).spare line }

    // The calls that change the part are these, in this order. That there is no load among them is shown by a test.
    ensures begun { DidSome (durable_store line word value) (L.history part.old) (L.history part.new) }
    ensures done { OnOk result (DidLineStep (durable_store line word value) (L.history part.old) (L.history part.new)) }
    ensures calls { PartCalls (durable_store line word value)
        (seen_of L.history L.room L.fault_count part.old) (seen_of L.history L.room L.fault_count part.new) result }

    ensures moments { Tells (L.history part.old) (λ was.
        EachMoment (InEachPartImage (IsOldOrStored was line word value)) (L.history part.old) (L.history part.new)) }
    ensures durable { OnOk result (Tells (L.history part.new) (InEachPartImage (λ image. image line word ≡ value))) }
    ensures quiet { OnOk result (Tells (L.history part.old) IsQuietPart → Tells (L.history part.new) IsQuietPart) }

    ensures room { Takes 1 line (L.room part.old) (L.room part.new) }
    ensures settled { OnOk result (Settles line (L.room part.old) (L.room part.new)) }
    ensures cause { HasCause (L.fault_count part.old) (L.fault_count part.new) result }
    ensures device { L.device part.new ≡ L.device part.old }
{
    part.store(line, word, value)?;
    part.flush(line)?;
    part.fence()
}
