//! What a batch has cleaned is retired: the stores are synced, the header's tail is moved, and the first entry is freed.
ghost use Rattle.std.specs.Prelude.{◌≡◌, ◌<◌, [], Some, None, OnOk, OnErr};
ghost use Rattle.nv_core.specs.state.Cleaner as cleaner;
ghost use Rattle.nv_core.specs.state.Passes.{Cleaning};
ghost use Rattle.nv_table.specs.state.States.{IsOf, PassState};
ghost use Rattle.nv_clean.specs.declared.batch.CleanControl.TheVariants as cleans;
ghost use Rattle.nv_clean.specs.declared.batch.CleanRefusal.TheVariants as refusals;
ghost use Rattle.nv_clean.specs.Cleaning.{IsBehind, IsUnderWay, IsBegun};
ghost use Rattle.nv_clean.specs.CleanSteps.{HasMadeOne};
ghost use Rattle.nv_clean.specs.Measures.{clean_measure};
ghost use Rattle.nv_clean.specs.Retiring.{IsSyncing};

use crate::{CleanControl, CleanMachine, CleanRefusal};
use nv_core::{cells_keep_their_shapes, runs_are_sound};
use nv_entry::RegionFault;
use nv_pages::{move_header_tail, sync_store, tail_calls_are_due};
use nv_pmem::Lines;
use nv_store::{Backing, StoreFault};
use nv_table::{Board, Pass};
use std::marker::Brand;

impl CleanMachine {
    // Syncs each store whose STORE it holds, rising.
    fn sync_stores<L: Lines, B: Backing>(
        &self,
        board: &Board<L, B>,
        pass: &mut Pass<L, B>,
    ) -> Result<(), StoreFault>
        requires board { IsOf board.now pass.old }
        requires at { self.now.control ≡ cleans.Retire }
        requires way { (start : PassState) × IsUnderWay self.now start pass.old }
        ensures board { IsOf board.now pass.new }
        ensures synced { OnOk result ((start : PassState) → IsUnderWay self.now start pass.old → IsSyncing self.now [] start pass.old pass.new) }
        ensures failed { OnErr result ((start : PassState) → IsUnderWay self.now start pass.old → IsBehind (Cleaning self.now.batch (cleaner.SetStop 0)) (Some refusals.StoreFault) self.now start pass.old pass.new) }
    {
        runs_are_sound();
        cells_keep_their_shapes();
        board.keeps_stores_and_buffers();
        pass.sees_a_run();
        let layout = board.layout();
        for file in 0..layout.files {
            if self.holds_store(file) {
                sync_store(board, pass, file)?;
            }
        }
        Ok(())
    }

    // Moves the header's tail to the end of what it has cleaned.
    fn move_tail<L: Lines, B: Backing>(
        &self,
        board: &Board<L, B>,
        pass: &mut Pass<L, B>,
    ) -> Result<(), RegionFault>
        requires board { IsOf board.now pass.old }
        requires synced { (start : PassState) × (was : PassState) × IsSyncing self.now [] start was pass.old }
        ensures board { IsOf board.now pass.new }
        ensures moved { OnOk result ((start was : PassState) → IsSyncing self.now [] start was pass.old → IsBehind (Cleaning self.now.batch (cleaner.FreeEntry self.now.batch.tail)) None self.now start was pass.new) }
        ensures failed { OnErr result ((start was : PassState) → IsSyncing self.now [] start was pass.old → IsBehind (Cleaning self.now.batch (cleaner.SetStop 0)) (Some refusals.RegionFault) self.now start was pass.new) }
    {
        tail_calls_are_due();
        move_header_tail(board, pass, self.reached)
    }

    // Frees the batch's first entry, once its stores are synced and the header's tail is moved to the end of what it has cleaned; or sets STOP, where one of the
    // device calls has failed.
    pub(crate) fn retire<L: Lines, B: Backing>(
        &mut self,
        board: &Board<L, B>,
        pass: &mut Pass<L, B>,
    )
        requires board { IsOf board.now pass.old }
        requires at { self.old.control ≡ cleans.Retire }
        requires way { (start : PassState) × IsUnderWay self.old start pass.old }
        ensures board { IsOf board.now pass.new }
        ensures one { HasMadeOne board.now.opened.sizes self.old self.new pass.old pass.new }
        ensures falls { clean_measure board.now.opened.sizes self.new < clean_measure board.now.opened.sizes self.old }
        ensures begun { IsBegun self.new.control }
        ensures way { (start : PassState) → IsUnderWay self.old start pass.old → IsUnderWay self.new start pass.new }
    {
        runs_are_sound();
        pass.sees_a_run();
        let Ok(()) = self.sync_stores(board, pass) else {
            self.stop_behind::<Brand, L, B>(board, pass, 0, CleanRefusal::StoreFault);
            return;
        };
        let Ok(()) = self.move_tail(board, pass) else {
            self.stop_behind::<Brand, L, B>(board, pass, 0, CleanRefusal::RegionFault);
            return;
        };
        self.control = CleanControl::FreeEntry { number: self.tail };
        self.step_behind::<Brand, L, B>(board, pass);
    }
}
