//! Reads of files.
ghost use Rattle.std.specs.Prelude.{◌≡◌, ◌≢◌, ◌≤◌, ℕ, length, IfOk, OnErr};
ghost use Rattle.nv_plain.specs.declared.call.FileCall.TheVariants.{Read};
ghost use Rattle.nv_core.specs.state.Passes.{plain_call};
ghost use Rattle.nv_table.specs.invariant.Idle.{IsIdle, IsLater};
ghost use Rattle.nv_table.specs.passes.Alone.{IsAlone};
ghost use Rattle.nv_table.specs.state.States.{IsOf, PassState};
ghost use Rattle.nv_mirror.specs.Answers.{IsReadPlaced, IsUnplaced};
ghost use Rattle.nv_calls.specs.calls.EarlyRefusals.{IsInFile};
ghost use Rattle.nv_calls.specs.fsync.SyncRuns.{file_of_fd};
ghost use Rattle.nv_calls.specs.histories.Complete.{IsCompleteRead};
ghost use Rattle.nv_calls.specs.histories.GoingOn.{GoesOn, GoesOnAtLast};
ghost use Rattle.nv_calls.specs.histories.Heeds.{HeedsStop};
ghost use Rattle.nv_calls.specs.reads.Reads.{IsReadDoneAs, IsReadOver, got_by};
ghost use Rattle.nv_calls.specs.histories.Tries.{IsTried};
ghost use Rattle.nv_mirror.specs.declared.answers.Refusal.TheVariants.{Busy};

use crate::admit::{Access, admit};
use crate::{
    a_read_alone_is_not_busy, calls_are_complete, calls_go_on_from_what_is_known,
    ended_calls_heed_stop,
};
use nv_cache::RunningRead;
use nv_core::{passes_are_left_alone, runs_are_sound};
use nv_mirror::{Done, Refusal};
use nv_mount::Mount;
use nv_op::Asks;
use nv_pmem::Lines;
use nv_store::Backing;
use nv_table::{Board, Pass};
use std::marker::Brand;
use std::sync::Wait;
use std::thread::yield_now;

// Reads a file whose call is asked as `A` says, and made as that read.
pub(crate) fn read_as<A: Asks, L: Lines + Drop, B: Backing + Drop>(
    board: &Board<L, B>,
    pass: &mut Pass<L, B>,
    file: u64,
    at: u64,
    list: &mut [u8],
) -> Result<Done, Refusal>
    requires board { IsOf board.now pass.old }
    requires idle { IsIdle pass.old }
    requires made { plain_call A.call ≡ Read file at (length list.old) }
    requires here { IsInFile board.now.opened.sizes file at (length list.old) }
    ensures board { IsOf board.now pass.new }
    ensures size { length list.new ≡ length list.old }
    ensures got { got_by result ≤ length list.new }
    ensures done { IsReadDoneAs A.call list.new pass.old pass.new result }
{
    runs_are_sound();
    passes_are_left_alone();
    pass.sees_a_run();
    let len = list.len() as u64;
    RunningRead::new(board.layout(), file, at, len).run::<A, L, B>(board, pass, list)
}

/// Reads from the file of a descriptor (POSIX.1-2017, pread): the bytes from the offset `at` on, as many as `buf` has, or fewer where the file ends
/// before, come to the front of `buf`, and the answer tells how many they are, and the call's place in the history, which is how many calls stand
/// before it. It reads what plain files have after these. Refused by what it asks for before any step: a descriptor that isn't there or may not be
/// read, an end past the last page of a file, more pages than 64 or than the log has entries; then where a lock was found held, where STOP was found
/// set, where ORDER was found used up, and after a device fault. While no other pass is out no lock is found held. A refused call has no place, and its pass holds
/// nothing; what `buf` has then isn't said. Takes no memory, and waits for nobody.
pub fn try_pread<L: Lines + Drop, B: Backing + Drop>(
    mount: &Mount<L, B>,
    pass: &mut Pass<L, B>,
    fd: u64,
    at: u64,
    buf: &mut [u8],
) -> Result<Done, Refusal>
    requires board { IsOf mount.now.board pass.old }
    requires idle { IsIdle pass.old }
    ensures board { IsOf mount.now.board pass.new }
    ensures idle { IsIdle pass.new }
    ensures later { IsLater pass.old pass.new }
    ensures spare { pass.new.spare ≡ pass.old.spare }
    ensures done { IfOk result (λ done. (file : ℕ) × (file_of_fd mount.now.fds fd ≡ Some file) × IsReadPlaced file at buf.new pass.old.view pass.new.view done) }
    ensures kept { OnErr result (IsUnplaced pass.old.view pass.new.view) }
    ensures over { IsReadOver mount.now.fds fd at buf.new pass.old pass.new result }
    ensures stop { HeedsStop pass.old pass.new result }
    ensures known { GoesOn pass.old pass.new result }
    ensures complete { IsCompleteRead mount.now.fds fd at buf.new pass.old pass.new result }
    ensures alone { IsAlone pass.old.view → (cell : ℕ) → result ≢ Err (Busy cell) }
{
    ended_calls_heed_stop();
    calls_go_on_from_what_is_known();
    calls_are_complete();
    a_read_alone_is_not_busy();
    pass.sees_a_run();
    pass.has_taken_in();
    let len = buf.len() as u64;
    let file = admit(mount, Access::Reads, fd, at, len)?;
    read_as::<Brand, L, B>(mount.board(), pass, file, at, buf)
}

/// The same, made again as long as a lock is found held. It may wait for ever, so it returns only where the others give their locks back; then it is
/// answered as one `try_pread`, and never `Busy`.
pub fn pread<R: Wait, L: Lines + Drop, B: Backing + Drop>(
    rt: &R,
    mount: &Mount<L, B>,
    pass: &mut Pass<L, B>,
    fd: u64,
    at: u64,
    buf: &mut [u8],
) -> Result<Done, Refusal>
    requires board { IsOf mount.now.board pass.old }
    requires idle { IsIdle pass.old }
    ensures board { IsOf mount.now.board pass.new }
    ensures idle { IsIdle pass.new }
    ensures later { IsLater pass.old pass.new }
    ensures spare { pass.new.spare ≡ pass.old.spare }
    ensures done { IfOk result (λ done. (file : ℕ) × (file_of_fd mount.now.fds fd ≡ Some file) × IsReadPlaced file at buf.new pass.old.view pass.new.view done) }
    ensures kept { OnErr result (IsUnplaced pass.old.view pass.new.view) }
    ensures free { (cell : ℕ) → result ≢ Err (Busy cell) }
    ensures over { (last : PassState) × IsUnplaced pass.old.view last.view × IsReadOver mount.now.fds fd at buf.new last pass.new result }
    ensures tried { IsTried mount.now.fds fd at buf.new pass.old pass.new result }
    ensures known { GoesOnAtLast pass.old pass.new result }
{
    for _ in rt.forever() {
        let result = try_pread(mount, pass, fd, at, buf);
        match result {
            Err(Refusal::Busy { .. }) => yield_now(),
            _ => return result,
        }
    }
    unreachable!()
}
