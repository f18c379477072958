//! Writes of files.
ghost use Rattle.std.specs.Prelude.{◌≡◌, ◌≢◌, ℕ, false, [], length, Some, IfOk, OnErr};
ghost use Rattle.nv_plain.specs.declared.call.FileCall.TheVariants.{Write};
ghost use Rattle.nv_core.specs.state.Passes.{plain_call};
ghost use Rattle.nv_table.specs.invariant.Idle.{IsIdle, IsLater};
ghost use Rattle.nv_table.specs.passes.Alone.{IsAlone};
ghost use Rattle.nv_table.specs.passes.Known.{known_by};
ghost use Rattle.nv_table.specs.state.States.{IsOf};
ghost use Rattle.nv_table.specs.state.Workspaces.{IsWorkspace};
ghost use Rattle.nv_mirror.specs.Answers.{IsUnplaced, place_in_answer, refusal_in_answer};
ghost use Rattle.nv_mirror.specs.Controls.{IsOver};
ghost use Rattle.nv_mirror.specs.declared.answers.Refusal.TheVariants.{StoreFault};
ghost use Rattle.nv_calls.specs.calls.EarlyRefusals.{IsInFile};
ghost use Rattle.nv_calls.specs.fsync.SyncRuns.{file_of_fd};
ghost use Rattle.nv_calls.specs.histories.GoingOn.{GoesOn, GoesOnAtLast};
ghost use Rattle.nv_calls.specs.histories.Heeds.{HeedsStop};
ghost use Rattle.nv_calls.specs.histories.Unmoved.{LeavesWords};
ghost use Rattle.nv_calls.specs.writes.Refusals.{IsWriteRefusal, MeetsNobody};
ghost use Rattle.nv_calls.specs.writes.WriteLaws.{IsCompleteWrite};
ghost use Rattle.nv_calls.specs.writes.Writes.{IsWriteOver, IsWritePlaced, IsWriteTried, ends_to_be_made_again};

use crate::admit::{Access, admit};
use crate::{
    a_write_alone_meets_nobody, calls_are_complete, calls_go_on_from_what_is_known,
    ended_calls_heed_stop, refused_writes_leave_words,
};
use nv_mirror::{Done, Refusal};
use nv_mount::Mount;
use nv_op::{Asked, Asks};
use nv_pmem::Lines;
use nv_ring::RunningWrite;
use nv_store::Backing;
use nv_table::{Board, Pass, Workspace};
use std::marker::Brand;
use std::sync::Wait;
use std::thread::yield_now;

// Writes a file whose call is asked as `A` says, and made as that write.
pub(crate) fn write_as<A: Asks, L: Lines + Drop, B: Backing + Drop>(
    board: &Board<L, B>,
    pass: &mut Pass<L, B>,
    workspace: &mut Workspace<L, B>,
    file: u64,
    at: u64,
    bytes: &[u8],
) -> Result<Done, Refusal>
    requires board { IsOf board.now pass.old }
    requires idle { IsIdle pass.old }
    requires workspace { IsWorkspace board.now.opened.sizes workspace.old }
    requires bare { workspace.old.parts.items ≡ [] }
    requires made { plain_call A.call ≡ Write file at bytes.now }
    requires here { IsInFile board.now.opened.sizes file at (length bytes.now) }
    ensures board { IsOf board.now pass.new }
    ensures over { IsOver A.call (refusal_in_answer result) (place_in_answer result) pass.old pass.new }
    ensures count { IfOk result (λ done. done.len ≡ length bytes.now) }
    ensures workspace { IsWorkspace board.now.opened.sizes workspace.new }
    ensures bare { workspace.new.parts.items ≡ [] }
{
    let write = RunningWrite::new(board.layout(), Asked::Write { file, at, bytes });
    match write.run::<A, L, B>(board, pass, workspace.parts()) {
        Ok(place) => {
            let len = bytes.len() as u64;
            Ok(Done { place, len })
        }
        Err(refusal) => Err(refusal),
    }
}

/// Writes to the file of a descriptor (POSIX.1-2017, pwrite): all of `bytes` stand in the file from the offset `at` on, and the file ends at their end
/// where it ended before. The answer tells how many they are, and the call's place in the history, which is how many calls stand before it. Refused by
/// what it asks for before any step: a descriptor that isn't there or may not be written, an end past the last page of a file, more pages than 64 or than
/// the log has entries; then where a lock was found held, where STOP was found set, where ORDER was found used up or HEAD leaves too few numbers, where the
/// log has no room for its entries until some are cleaned, where another write drew its numbers, and after a device fault. A refused call has no place, and
/// its pass holds nothing; but for a device fault it has changed no word of the mount but locks, which it gave back. One that finds its locks free, STOP at 0,
/// numbers and room in the log, HEAD as it loaded it and no device that fails is done; while no other pass is out its locks are free, and HEAD is as it loaded it. It calls no store, so none
/// is told to have failed. Takes no memory, and waits for nobody: the parts of its entries lie on the pass's workspace while they are
/// written, on which no part lies else.
pub fn try_pwrite<L: Lines + Drop, B: Backing + Drop>(
    mount: &Mount<L, B>,
    pass: &mut Pass<L, B>,
    workspace: &mut Workspace<L, B>,
    fd: u64,
    at: u64,
    bytes: &[u8],
) -> Result<Done, Refusal>
    requires board { IsOf mount.now.board pass.old }
    requires idle { IsIdle pass.old }
    requires workspace { IsWorkspace mount.now.board.opened.sizes workspace.old }
    requires bare { workspace.old.parts.items ≡ [] }
    ensures board { IsOf mount.now.board pass.new }
    ensures idle { IsIdle pass.new }
    ensures later { IsLater pass.old pass.new }
    ensures spare { pass.new.spare ≡ pass.old.spare }
    ensures done { IfOk result (λ done. (file : ℕ) × (file_of_fd mount.now.fds fd ≡ Some file) × IsWritePlaced file at bytes.now pass.old.view pass.new.view done) }
    ensures kept { OnErr result (IsUnplaced pass.old.view pass.new.view) }
    ensures over { IsWriteOver mount.now.fds fd at bytes.now pass.old pass.new result }
    ensures left { LeavesWords pass.old pass.new result }
    ensures stop { HeedsStop pass.old pass.new result }
    ensures known { GoesOn pass.old pass.new result }
    ensures refused { IsWriteRefusal (known_by pass.old.view) result }
    ensures complete { IsCompleteWrite mount.now.fds fd at bytes.now pass.old pass.new result }
    ensures alone { IsAlone pass.old.view → MeetsNobody result }
    ensures workspace { IsWorkspace mount.now.board.opened.sizes workspace.new }
    ensures bare { workspace.new.parts.items ≡ [] }
{
    ended_calls_heed_stop();
    refused_writes_leave_words();
    calls_go_on_from_what_is_known();
    calls_are_complete();
    a_write_alone_meets_nobody();
    pass.sees_a_run();
    pass.has_taken_in();
    let file = admit(mount, Access::Writes, fd, at, bytes.len() as u64)?;
    write_as::<Brand, L, B>(mount.board(), pass, workspace, file, at, bytes)
}

// Whether a write that was answered so is made again: a lock was held, or another write drew its numbers.
pub(crate) fn is_made_again(answer: Result<Done, Refusal>) -> bool
    ensures { result ≡ ends_to_be_made_again answer }
{
    matches!(answer, Err(Refusal::Busy { .. } | Refusal::Raced { .. }))
}

/// The same, made again as long as a lock is found held or another write draws its numbers. It may wait for ever, so it returns only where the others give
/// their locks back; then it is answered as one `try_pwrite`, and never `Busy` or `Raced`.
pub fn pwrite<R: Wait, L: Lines + Drop, B: Backing + Drop>(
    rt: &R,
    mount: &Mount<L, B>,
    pass: &mut Pass<L, B>,
    workspace: &mut Workspace<L, B>,
    fd: u64,
    at: u64,
    bytes: &[u8],
) -> Result<Done, Refusal>
    requires board { IsOf mount.now.board pass.old }
    requires idle { IsIdle pass.old }
    requires workspace { IsWorkspace mount.now.board.opened.sizes workspace.old }
    requires bare { workspace.old.parts.items ≡ [] }
    ensures board { IsOf mount.now.board pass.new }
    ensures idle { IsIdle pass.new }
    ensures later { IsLater pass.old pass.new }
    ensures spare { pass.new.spare ≡ pass.old.spare }
    ensures done { IfOk result (λ done. (file : ℕ) × (file_of_fd mount.now.fds fd ≡ Some file) × IsWritePlaced file at bytes.now pass.old.view pass.new.view done) }
    ensures kept { OnErr result (IsUnplaced pass.old.view pass.new.view) }
    ensures free { ends_to_be_made_again result ≡ false }
    ensures tried { IsWriteTried mount.now.fds fd at bytes.now pass.old pass.new result }
    ensures known { GoesOnAtLast pass.old pass.new result }
    ensures stores { result ≢ Err StoreFault }
    ensures workspace { IsWorkspace mount.now.board.opened.sizes workspace.new }
    ensures bare { workspace.new.parts.items ≡ [] }
{
    for _ in rt.forever() {
        let result = try_pwrite(mount, pass, workspace, fd, at, bytes);
        if !is_made_again(result) {
            return result;
        }
        yield_now();
    }
    unreachable!()
}
