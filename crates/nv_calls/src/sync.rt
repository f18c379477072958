//! An fsync, which has nothing to do but to take its place in the history.
ghost use Rattle.std.specs.Prelude.{◌≡◌, IfOk, OnErr};
ghost use Rattle.nv_table.specs.invariant.Idle.{IsIdle, IsLater};
ghost use Rattle.nv_table.specs.state.States.{IsOf};
ghost use Rattle.nv_mirror.specs.Answers.{IsSyncPlaced, IsUnplaced};
ghost use Rattle.nv_calls.specs.fsync.SyncRuns.{IsSyncRun, file_of_fd};
ghost use Rattle.nv_calls.specs.histories.Complete.{IsCompleteSync};
ghost use Rattle.nv_calls.specs.histories.GoingOn.{SyncGoesOn};
ghost use Rattle.nv_calls.specs.histories.Heeds.{SyncHeedsStop};

use crate::{calls_are_complete, calls_go_on_from_what_is_known, ended_calls_heed_stop};
use nv_mirror::{Done, PagelessControl, PagelessMachine, Refusal};
use nv_mount::Mount;
use nv_op::Asked;
use nv_pmem::Lines;
use nv_store::Backing;
use nv_table::Pass;
use std::marker::Brand;

/// Syncs the file of a descriptor: takes the call's place in the history, which is how many calls stand before it. Refused exactly where no
/// descriptor has this number, before any step; then where STOP was found set; and then where ORDER was found used up. Takes no memory, and
/// waits for nobody.
pub fn try_fsync<L: Lines + Drop, B: Backing + Drop>(
    mount: &Mount<L, B>,
    pass: &mut Pass<L, B>,
    fd: u64,
) -> Result<Done, Refusal>
    requires board { IsOf mount.now.board pass.old }
    requires idle { IsIdle pass.old }
    ensures board { IsOf mount.now.board pass.new }
    ensures idle { IsIdle pass.new }
    ensures later { IsLater pass.old pass.new }
    ensures spare { pass.new.spare ≡ pass.old.spare }
    ensures done { IfOk result (λ done. IsSyncPlaced (file_of_fd mount.now.fds fd) pass.old.view pass.new.view done.place) }
    ensures len { IfOk result (λ done. done.len ≡ 0) }
    ensures kept { OnErr result (IsUnplaced pass.old.view pass.new.view) }
    ensures sync_run { IsSyncRun (file_of_fd mount.now.fds fd) pass.old pass.new result }
    ensures stop { SyncHeedsStop mount.now.fds fd pass.old pass.new result }
    ensures known { SyncGoesOn mount.now.fds fd pass.old pass.new result }
    ensures complete { IsCompleteSync mount.now.fds fd pass.old pass.new result }
{
    ended_calls_heed_stop();
    calls_go_on_from_what_is_known();
    calls_are_complete();
    pass.sees_a_run();
    pass.has_taken_in();
    let Some(open) = mount.fds().get(fd) else {
        return Err(Refusal::BadFd);
    };
    let mut sync = PagelessMachine::new(Asked::Sync { file: open.file });
    loop {
        match sync.control {
            PagelessControl::Over(Ok(place)) => return Ok(Done { place, len: 0 }),
            PagelessControl::Over(Err(refusal)) => return Err(refusal),
            _ => sync.advance::<Brand, L, B>(mount.board(), pass),
        }
    }
}
