//! The log is emptied.
ghost use Rattle.std.specs.Prelude.{◌≡◌, ℕ, ◌+◌, ◌^◌, ◌<◌, ◌≤◌, ◌↔◌, List, length, map, drop, sum_by, OnOk};
ghost use Rattle.nv_plain.specs.Faults.{HasCause};
ghost use Rattle.nv_plain.specs.Layouts.{layout_of};
ghost use Rattle.nv_pmem.specs.Moments.{Tells, EachMoment};
ghost use Rattle.nv_pmem.specs.Rows.{RowTells, InEachRowImage, row_words, AreQuiet};
ghost use Rattle.nv_entry.specs.Checks.{SaysBounds};
ghost use Rattle.nv_header.specs.Regions.{HasParts, IsAtRest, StaysRoomy};
ghost use Rattle.nv_recover.specs.Alike.{SayTheSame};
ghost use Rattle.nv_recover.specs.Changes.{ThroughoutRow, StayParts};
ghost use Rattle.nv_recover.specs.Emptying.{BothTell, MayBeTrimmed, HasSmallWord, HasNoneAbove, CommitsNoneFrom, SaysBoundsAndNames, SaysTheSameOrEmpty};
ghost use Rattle.nv_recover.specs.Telling.{AllTell};

use nv_entry::Bounds;
use nv_header::move_tail;
use nv_pmem::{Lines, RegionFault, store_durably};

/// Empties the log, of which no number from `next` on is committed: commit words that an older use of the region left past
/// the window are cleared, and then the tail moves to `next`. At each moment every image says the same of the log as before,
/// or has an empty log that goes on with `next`; at `Ok` the parts are those of a region at rest. Takes no memory.
pub(crate) fn empty_log<L: Lines>(
    parts: &mut [L],
    bounds: &Bounds,
    next: u64,
) -> Result<(), RegionFault>
    requires parts { HasParts (layout_of bounds.now.version) bounds.now.page bounds.now.entries (map L.room parts.old) }
    requires header { RowTells (map L.history parts.old) (λ told. SaysBounds bounds.now (row_words told)) }
    requires quiet { RowTells (map L.history parts.old) AreQuiet }
    requires none { RowTells (map L.history parts.old) (λ told. CommitsNoneFrom next (row_words told)) }
    requires from_tail { bounds.now.tail ≤ next }
    requires number { next ≤ 2 ^ 60 }
    ensures moments { (names : List (List ℕ))
        → RowTells (map L.history parts.old) (λ was. SaysBoundsAndNames bounds.now names (row_words was))
        → RowTells (map L.history parts.old) (λ was. ThroughoutRow
        (InEachRowImage (SaysTheSameOrEmpty (layout_of bounds.now.version) bounds.now.page bounds.now.entries names next (row_words was)))
        (map L.history parts.old) (map L.history parts.new)) }
    ensures rest { OnOk result ((names : List (List ℕ))
        → RowTells (map L.history parts.old) (λ was. SaysBoundsAndNames bounds.now names (row_words was))
        → RowTells (map L.history parts.new) (IsAtRest (layout_of bounds.now.version) bounds.now.page bounds.now.entries names next)) }
    ensures parts { OnOk result (HasParts (layout_of bounds.now.version) bounds.now.page bounds.now.entries (map L.room parts.new)) }
    ensures rooms { OnOk result (StayParts (map L.room parts.old) (map L.room parts.new)) }
    ensures further { drop (1 + bounds.now.entries) (map L.history parts.new) ≡ drop (1 + bounds.now.entries) (map L.history parts.old) }
    ensures lines { map (λ part. (L.room part).lines) parts.new ≡ map (λ part. (L.room part).lines) parts.old }
    ensures tells { AllTell (map L.history parts.old) ↔ AllTell (map L.history parts.new) }
    ensures cause { HasCause (sum_by L.fault_count parts.old) (sum_by L.fault_count parts.new) result }
    ensures devices { map L.device parts.new ≡ map L.device parts.old }
{
    clear_words(parts, bounds)?;
    move_tail(&mut parts[0], next)
}

// Clears the commit words that lie past the window of the tail.
fn clear_words<L: Lines>(parts: &mut [L], bounds: &Bounds) -> Result<(), RegionFault>
    requires parts { HasParts (layout_of bounds.now.version) bounds.now.page bounds.now.entries (map L.room parts.old) }
    requires header { RowTells (map L.history parts.old) (λ told. SaysBounds bounds.now (row_words told)) }
    requires quiet { RowTells (map L.history parts.old) AreQuiet }
    ensures moments { RowTells (map L.history parts.old) (λ was.
        ThroughoutRow (InEachRowImage (SayTheSame (row_words was))) (map L.history parts.old) (map L.history parts.new)) }
    ensures cleared { OnOk result (RowTells (map L.history parts.new) (λ now. HasNoneAbove (row_words now))) }
    ensures quiet { OnOk result (RowTells (map L.history parts.new) AreQuiet) }
    ensures parts { OnOk result (HasParts (layout_of bounds.now.version) bounds.now.page bounds.now.entries (map L.room parts.new)) }
    ensures rooms { OnOk result (StayParts (map L.room parts.old) (map L.room parts.new)) }
    ensures further { drop (1 + bounds.now.entries) (map L.history parts.new) ≡ drop (1 + bounds.now.entries) (map L.history parts.old) }
    ensures lines { map (λ part. (L.room part).lines) parts.new ≡ map (λ part. (L.room part).lines) parts.old }
    ensures tells { AllTell (map L.history parts.old) ↔ AllTell (map L.history parts.new) }
    ensures cause { HasCause (sum_by L.fault_count parts.old) (sum_by L.fault_count parts.new) result }
    ensures devices { map L.device parts.new ≡ map L.device parts.old }
{
    let most = bounds.tail + bounds.entries;
    for entry in 0..bounds.entries as usize {
        clear_word(&mut parts[1 + entry], most)?;
    }
    Ok(())
}

// Clears the commit word of an entry, if it is greater than `most`.
fn clear_word<L: Lines>(part: &mut L, most: u64) -> Result<(), RegionFault>
    requires line { 0 < (L.room part.old).lines }
    requires spare { 1 ≤ (L.room part.old).spare 0 }
    ensures moments { Tells (L.history part.old) (λ was. EachMoment (MayBeTrimmed most was) (L.history part.old) (L.history part.new)) }
    ensures cleared { OnOk result (BothTell (L.history part.old) (L.history part.new) (HasSmallWord most)) }
    ensures room { OnOk result (StaysRoomy (L.room part.old) (L.room part.new)) }
    ensures lines { (L.room part.new).lines ≡ (L.room part.old).lines }
    ensures tells { 0 < length (L.history part.old) ↔ 0 < length (L.history part.new) }
    ensures cause { HasCause (L.fault_count part.old) (L.fault_count part.new) result }
    ensures device { L.device part.new ≡ L.device part.old }
{
    if part.load(0, 0)? > most {
        store_durably(part, 0, 0, 0)?;
    }
    Ok(())
}
