//! Vectored writes of files.
ghost use Rattle.std.specs.Prelude.{◌≡◌, ◌≢◌, ℕ, false, [], length, IfOk, OnErr};
ghost use Rattle.std.specs.List.{concat};
ghost use Rattle.nv_plain.specs.declared.call.FileCall.TheVariants.{Write};
ghost use Rattle.nv_core.specs.state.Passes.{plain_call};
ghost use Rattle.nv_table.specs.invariant.Idle.{IsIdle, IsLater};
ghost use Rattle.nv_table.specs.passes.Alone.{IsAlone};
ghost use Rattle.nv_table.specs.passes.Known.{known_by};
ghost use Rattle.nv_table.specs.state.States.{IsOf};
ghost use Rattle.nv_table.specs.state.Workspaces.{IsWorkspace};
ghost use Rattle.nv_mirror.specs.Answers.{IsUnplaced, place_in_answer, refusal_in_answer};
ghost use Rattle.nv_mirror.specs.Controls.{IsOver};
ghost use Rattle.nv_mirror.specs.declared.answers.Refusal.TheVariants.{StoreFault};
ghost use Rattle.nv_calls.specs.calls.EarlyRefusals.{IsInFile};
ghost use Rattle.nv_calls.specs.fsync.SyncRuns.{file_of_fd};
ghost use Rattle.nv_calls.specs.histories.GoingOn.{GoesOn, GoesOnAtLast};
ghost use Rattle.nv_calls.specs.histories.Heeds.{HeedsStop};
ghost use Rattle.nv_calls.specs.histories.Unmoved.{LeavesWords};
ghost use Rattle.nv_calls.specs.writes.Refusals.{IsWriteRefusal, MeetsNobody};
ghost use Rattle.nv_calls.specs.writes.WriteLaws.{IsCompleteWritev};
ghost use Rattle.nv_calls.specs.writes.Writes.{IsWritevOver, IsWritevPlaced, IsWritevTried, ends_to_be_made_again};

use crate::admit::{Access, admit};
use crate::write::{is_made_again, write_as};
use crate::{
    Gather, a_write_alone_meets_nobody, calls_are_complete, calls_go_on_from_what_is_known,
    ended_calls_heed_stop, refused_writes_leave_words,
};
use nv_mirror::{Done, Refusal};
use nv_mount::Mount;
use nv_op::Asks;
use nv_pmem::Lines;
use nv_store::Backing;
use nv_table::{Board, Pass, Workspace};
use std::marker::Brand;
use std::sync::Wait;
use std::thread::yield_now;

// Writes parts to a file, joined in order, whose call is asked as `A` says, and made as that write.
fn writev_as<A: Asks, L: Lines + Drop, B: Backing + Drop>(
    board: &Board<L, B>,
    pass: &mut Pass<L, B>,
    workspace: &mut Workspace<L, B>,
    file: u64,
    at: u64,
    parts: &Gather,
) -> Result<Done, Refusal>
    requires board { IsOf board.now pass.old }
    requires idle { IsIdle pass.old }
    requires workspace { IsWorkspace board.now.opened.sizes workspace.old }
    requires bare { workspace.old.parts.items ≡ [] }
    requires made { plain_call A.call ≡ Write file at (concat parts.now) }
    requires here { IsInFile board.now.opened.sizes file at (length (concat parts.now)) }
    ensures board { IsOf board.now pass.new }
    ensures over { IsOver A.call (refusal_in_answer result) (place_in_answer result) pass.old pass.new }
    ensures count { IfOk result (λ done. done.len ≡ length (concat parts.now)) }
    ensures workspace { IsWorkspace board.now.opened.sizes workspace.new }
    ensures bare { workspace.new.parts.items ≡ [] }
{
    write_as::<A, L, B>(board, pass, workspace, file, at, parts.joined())
}

/// Writes parts to the file of a descriptor (POSIX's writev, at an offset): all bytes of all of them, joined in order. It is one write, whose entries are one
/// group, which recovery keeps whole or not at all: it is answered as `try_pwrite` of the joined bytes is, and has one place in the history, as a vectored
/// write of these parts. Takes no memory, and waits for nobody.
pub fn try_pwritev<L: Lines + Drop, B: Backing + Drop>(
    mount: &Mount<L, B>,
    pass: &mut Pass<L, B>,
    workspace: &mut Workspace<L, B>,
    fd: u64,
    at: u64,
    parts: &Gather,
) -> Result<Done, Refusal>
    requires board { IsOf mount.now.board pass.old }
    requires idle { IsIdle pass.old }
    requires workspace { IsWorkspace mount.now.board.opened.sizes workspace.old }
    requires bare { workspace.old.parts.items ≡ [] }
    ensures board { IsOf mount.now.board pass.new }
    ensures idle { IsIdle pass.new }
    ensures later { IsLater pass.old pass.new }
    ensures spare { pass.new.spare ≡ pass.old.spare }
    ensures done { IfOk result (λ done. (file : ℕ) × (file_of_fd mount.now.fds fd ≡ Some file) × IsWritevPlaced file at parts.now pass.old.view pass.new.view done) }
    ensures kept { OnErr result (IsUnplaced pass.old.view pass.new.view) }
    ensures over { IsWritevOver mount.now.fds fd at parts.now pass.old pass.new result }
    ensures left { LeavesWords pass.old pass.new result }
    ensures stop { HeedsStop pass.old pass.new result }
    ensures known { GoesOn pass.old pass.new result }
    ensures refused { IsWriteRefusal (known_by pass.old.view) result }
    ensures complete { IsCompleteWritev mount.now.fds fd at parts.now pass.old pass.new result }
    ensures alone { IsAlone pass.old.view → MeetsNobody result }
    ensures workspace { IsWorkspace mount.now.board.opened.sizes workspace.new }
    ensures bare { workspace.new.parts.items ≡ [] }
{
    ended_calls_heed_stop();
    refused_writes_leave_words();
    calls_go_on_from_what_is_known();
    calls_are_complete();
    a_write_alone_meets_nobody();
    pass.sees_a_run();
    pass.has_taken_in();
    let file = admit(mount, Access::Writes, fd, at, parts.total())?;
    writev_as::<Brand, L, B>(mount.board(), pass, workspace, file, at, parts)
}

/// The same, made again as long as a lock is found held or another write draws its numbers. It may wait for ever, so it returns only where the others give
/// their locks back; then it is answered as one `try_pwritev`, and never `Busy` or `Raced`.
pub fn pwritev<R: Wait, L: Lines + Drop, B: Backing + Drop>(
    rt: &R,
    mount: &Mount<L, B>,
    pass: &mut Pass<L, B>,
    workspace: &mut Workspace<L, B>,
    fd: u64,
    at: u64,
    parts: &Gather,
) -> Result<Done, Refusal>
    requires board { IsOf mount.now.board pass.old }
    requires idle { IsIdle pass.old }
    requires workspace { IsWorkspace mount.now.board.opened.sizes workspace.old }
    requires bare { workspace.old.parts.items ≡ [] }
    ensures board { IsOf mount.now.board pass.new }
    ensures idle { IsIdle pass.new }
    ensures later { IsLater pass.old pass.new }
    ensures spare { pass.new.spare ≡ pass.old.spare }
    ensures done { IfOk result (λ done. (file : ℕ) × (file_of_fd mount.now.fds fd ≡ Some file) × IsWritevPlaced file at parts.now pass.old.view pass.new.view done) }
    ensures kept { OnErr result (IsUnplaced pass.old.view pass.new.view) }
    ensures free { ends_to_be_made_again result ≡ false }
    ensures tried { IsWritevTried mount.now.fds fd at parts.now pass.old pass.new result }
    ensures known { GoesOnAtLast pass.old pass.new result }
    ensures stores { result ≢ Err StoreFault }
    ensures workspace { IsWorkspace mount.now.board.opened.sizes workspace.new }
    ensures bare { workspace.new.parts.items ≡ [] }
{
    for _ in rt.forever() {
        let result = try_pwritev(mount, pass, workspace, fd, at, parts);
        if !is_made_again(result) {
            return result;
        }
        yield_now();
    }
    unreachable!()
}
