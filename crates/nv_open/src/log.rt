//! The log of a region that is lent is recovered.
ghost use Rattle.std.specs.Prelude.{◌≡◌, ◌+◌, List, length, map, sum_by, All, Err, IfOk, IfErr};
ghost use Rattle.nv_plain.specs.Layouts.{layout_of};
ghost use Rattle.nv_plain.specs.Recovered.{region_files};
ghost use Rattle.nv_pmem.specs.Moments.{Tells};
ghost use Rattle.nv_pmem.specs.Part.{Part};
ghost use Rattle.nv_pmem.specs.RowStates.{AreNow};
ghost use Rattle.nv_pmem.specs.Rows.{RowTells, AreQuiet, row_words};
ghost use Rattle.nv_store.specs.Store.{IsQuietStore, Store};
ghost use Rattle.nv_header.specs.Heads.{IsHeadOf, HeadIsWithinLimits, header_image};
ghost use Rattle.nv_header.specs.Laws.{HasSpare};
ghost use Rattle.nv_header.specs.Needs.{header_history, header_lines_in, HasLines};
ghost use Rattle.nv_recover.specs.Answers.{answer_of, parts_after};
ghost use Rattle.nv_recover.specs.Changes.{StayParts};
ghost use Rattle.nv_recover.specs.Standing.{AreQuietStores, files_of};
ghost use Rattle.nv_recover.specs.Telling.{AllTell};
ghost use Rattle.nv_open.specs.Causes.{OpenHasCause};
ghost use Rattle.nv_open.specs.Held.{HoldFiles, IsRecovered};
ghost use Rattle.nv_open.specs.Refusals.{IsRefusedFor, IsBadLog};
ghost use Rattle.nv_open.specs.Unopened.{HaveSameLines, IsGood, StandAsBefore};
ghost use Rattle.nv_open.specs.declared.error.OpenError.TheVariants as error;

use crate::OpenError;
use nv_header::{Head, Region, needed_lines_make_parts};
use nv_pmem::{Lines, rows_have_states};
use nv_recover::{
    Recovered, images_stand_for_files, recover, recoveries_give_the_same_files,
    rows_of_stores_have_states,
};
use nv_store::Backing;
use std::alloc::Global;

/// Recovers a region whose header says this, and its stores.
pub(crate) fn recover_log<L: Lines + Drop, B: Backing>(
    alloc: Global,
    head: Head,
    parts: Vec<L>,
    stores: &mut Vec<B>,
) -> Result<(Region<L>, Recovered), (Vec<L>, OpenError)>
    requires limits { HeadIsWithinLimits (layout_of head.version) head }
    requires head { Tells (header_history (map L.history parts.items)) (λ now.
        IsHeadOf (layout_of head.version) (header_lines_in (map L.room parts.items)) (header_image now) head) }
    requires lines { HasLines (layout_of head.version) head.geometry.page head.geometry.entries (map L.room parts.items) }
    requires spare { All HasSpare (map L.room parts.items) }
    requires quiet { RowTells (map L.history parts.items) AreQuiet }
    requires stores { length stores.old.items ≡ length head.names }
    requires synced { RowTells (map B.history stores.old.items) AreQuietStores }

    ensures version { IfOk result (λ done. done.0.version ≡ head.version) }
    ensures recovered { IfOk result (λ done. RowTells (map L.history parts.items) (λ told. IsRecovered told
        done.0.geometry.page done.0.geometry.entries done.0.names done.0.next done.1)) }
    ensures names { IfOk result (λ done. done.0.names ≡ head.names) }
    ensures files { (was : List Store) → AreNow (map B.history stores.old.items) was → AllTell (map L.history parts.items)
        → IfOk result (λ done. RowTells (map L.history parts.items) (λ told.
        HoldFiles (map B.history stores.new.items) (region_files (row_words told) (files_of was)))) }
    ensures quiet { IfOk result (λ done. All (λ store. Tells (B.history store) IsQuietStore) stores.new.items) }
    ensures lines { HaveSameLines (map L.history parts.items) (map L.history (parts_after result)) }
    ensures rooms { IfOk result (λ done. StayParts (map L.room parts.items) (map L.room done.0.parts.items)) }
    ensures tell { AllTell (map L.history parts.items) → AllTell (map B.history stores.old.items)
        → IfOk result (λ done. AllTell (map L.history done.0.parts.items)) }
    ensures refused { (why : _) → answer_of result ≡ Err (error.Refused why)
        → RowTells (map L.history parts.items) (λ told. IsRefusedFor told why × IsBadLog why) }
    ensures unwritten { (why : _) → answer_of result ≡ Err (error.Refused why)
        → map L.history (parts_after result) ≡ map L.history parts.items }
    ensures stores_kept { (why : _) → answer_of result ≡ Err (error.Refused why)
        → RowTells (map L.history parts.items) (λ told. map B.history stores.new.items ≡ map B.history stores.old.items) }
    ensures unfit { IfErr result (λ failed. RowTells (map L.history parts.items) (λ told. ¬ (IsGood told)
        → (map L.history failed.0.items ≡ map L.history parts.items) × (map B.history stores.new.items ≡ map B.history stores.old.items))) }
    ensures standing { IfErr result (λ failed. (told : List Part) (was : List Store) → AreNow (map L.history parts.items) told → AreNow (map B.history stores.old.items) was
        → StandAsBefore told was (map L.history failed.0.items) (map B.history stores.new.items)) }
    ensures count { length stores.new.items ≡ length stores.old.items }
    ensures cause { OpenHasCause (sum_by L.fault_count parts.items + sum_by B.fault_count stores.old.items)
        (sum_by L.fault_count (parts_after result) + sum_by B.fault_count stores.new.items) (answer_of result) }
{
    needed_lines_make_parts();
    images_stand_for_files();
    recoveries_give_the_same_files();
    rows_of_stores_have_states();
    rows_have_states();
    match recover(alloc, head, parts, stores) {
        Ok(done) => Ok(done),
        Err((parts, error)) => Err((parts, error.into())),
    }
}
