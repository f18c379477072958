//! Vectored reads of files.
ghost use Rattle.std.specs.Prelude.{◌≡◌, ◌≢◌, ℕ, IfOk, OnErr};
ghost use Rattle.std.specs.List.{sum};
ghost use Rattle.nv_plain.specs.declared.call.FileCall.TheVariants.{Read};
ghost use Rattle.nv_core.specs.state.Passes.{plain_call};
ghost use Rattle.nv_table.specs.invariant.Idle.{IsIdle, IsLater};
ghost use Rattle.nv_table.specs.passes.Alone.{IsAlone};
ghost use Rattle.nv_table.specs.state.States.{IsOf, PassState};
ghost use Rattle.nv_mirror.specs.Answers.{IsUnplaced};
ghost use Rattle.nv_calls.specs.calls.EarlyRefusals.{IsInFile};
ghost use Rattle.nv_calls.specs.fsync.SyncRuns.{file_of_fd};
ghost use Rattle.nv_calls.specs.histories.Complete.{IsCompleteReadv};
ghost use Rattle.nv_calls.specs.histories.GoingOn.{GoesOn, GoesOnAtLast};
ghost use Rattle.nv_calls.specs.histories.Heeds.{HeedsStop};
ghost use Rattle.nv_calls.specs.histories.Tries.{IsReadvTried};
ghost use Rattle.nv_calls.specs.reads.Reads.{HaveGot, IsReadDoneAs, IsReadvOver, IsReadvPlaced, got_by};
ghost use Rattle.nv_mirror.specs.declared.answers.Refusal.TheVariants.{Busy};

use crate::admit::{Access, admit};
use crate::{
    Scatter, a_read_alone_is_not_busy, calls_are_complete, calls_go_on_from_what_is_known,
    ended_calls_heed_stop,
};
use nv_mirror::{Done, Refusal};
use nv_mount::Mount;
use nv_op::Asks;
use nv_pmem::Lines;
use nv_store::Backing;
use nv_table::{Board, Pass};
use std::marker::Brand;
use std::sync::Wait;
use std::thread::yield_now;

// Reads a file into parts, whose call is asked as `A` says, and made as a read of their sum.
fn readv_as<A: Asks, L: Lines + Drop, B: Backing + Drop>(
    board: &Board<L, B>,
    pass: &mut Pass<L, B>,
    file: u64,
    at: u64,
    parts: &mut Scatter,
) -> Result<Done, Refusal>
    requires board { IsOf board.now pass.old }
    requires idle { IsIdle pass.old }
    requires made { plain_call A.call ≡ Read file at (sum parts.old.lens) }
    requires here { IsInFile board.now.opened.sizes file at (sum parts.old.lens) }
    ensures board { IsOf board.now pass.new }
    ensures got { HaveGot (got_by result) parts.old parts.new }
    ensures done { IsReadDoneAs A.call parts.new.list pass.old pass.new result }
{
    parts.read_as::<A, L, B>(board, pass, file, at)
}

/// Reads from the file of a descriptor into parts (POSIX's readv, at an offset): what `try_pread` reads of as many bytes as they ask for together fills
/// them in order, each to its end before the next. It is one read: it is answered as `try_pread` is, and has one place in the history, as a vectored read of
/// these lengths, whose reply is what each part got. Where it is refused no part has got any. Takes no memory, and waits for nobody.
pub fn try_preadv<L: Lines + Drop, B: Backing + Drop>(
    mount: &Mount<L, B>,
    pass: &mut Pass<L, B>,
    fd: u64,
    at: u64,
    parts: &mut Scatter,
) -> Result<Done, Refusal>
    requires board { IsOf mount.now.board pass.old }
    requires idle { IsIdle pass.old }
    ensures board { IsOf mount.now.board pass.new }
    ensures idle { IsIdle pass.new }
    ensures later { IsLater pass.old pass.new }
    ensures spare { pass.new.spare ≡ pass.old.spare }
    ensures got { HaveGot (got_by result) parts.old parts.new }
    ensures done { IfOk result (λ done. (file : ℕ) × (file_of_fd mount.now.fds fd ≡ Some file) × IsReadvPlaced file at parts.new.lens parts.new.parts pass.old.view pass.new.view done) }
    ensures kept { OnErr result (IsUnplaced pass.old.view pass.new.view) }
    ensures over { IsReadvOver mount.now.fds fd at parts.new.lens parts.new.list pass.old pass.new result }
    ensures stop { HeedsStop pass.old pass.new result }
    ensures known { GoesOn pass.old pass.new result }
    ensures complete { IsCompleteReadv mount.now.fds fd at parts.new.lens parts.new.list pass.old pass.new result }
    ensures alone { IsAlone pass.old.view → (cell : ℕ) → result ≢ Err (Busy cell) }
{
    ended_calls_heed_stop();
    calls_go_on_from_what_is_known();
    calls_are_complete();
    a_read_alone_is_not_busy();
    pass.sees_a_run();
    pass.has_taken_in();
    parts.empty();
    let file = admit(mount, Access::Reads, fd, at, parts.total())?;
    readv_as::<Brand, L, B>(mount.board(), pass, file, at, parts)
}

/// The same, made again as long as a lock is found held. It may wait for ever, so it returns only where the others give their locks back; then it is
/// answered as one `try_preadv`, and never `Busy`.
pub fn preadv<R: Wait, L: Lines + Drop, B: Backing + Drop>(
    rt: &R,
    mount: &Mount<L, B>,
    pass: &mut Pass<L, B>,
    fd: u64,
    at: u64,
    parts: &mut Scatter,
) -> Result<Done, Refusal>
    requires board { IsOf mount.now.board pass.old }
    requires idle { IsIdle pass.old }
    ensures board { IsOf mount.now.board pass.new }
    ensures idle { IsIdle pass.new }
    ensures later { IsLater pass.old pass.new }
    ensures spare { pass.new.spare ≡ pass.old.spare }
    ensures got { HaveGot (got_by result) parts.old parts.new }
    ensures done { IfOk result (λ done. (file : ℕ) × (file_of_fd mount.now.fds fd ≡ Some file) × IsReadvPlaced file at parts.new.lens parts.new.parts pass.old.view pass.new.view done) }
    ensures kept { OnErr result (IsUnplaced pass.old.view pass.new.view) }
    ensures free { (cell : ℕ) → result ≢ Err (Busy cell) }
    ensures over { (last : PassState) × IsUnplaced pass.old.view last.view × IsReadvOver mount.now.fds fd at parts.new.lens parts.new.list last pass.new result }
    ensures tried { IsReadvTried mount.now.fds fd at parts.new.lens parts.new.list pass.old pass.new result }
    ensures known { GoesOnAtLast pass.old pass.new result }
{
    for _ in rt.forever() {
        let result = try_preadv(mount, pass, fd, at, parts);
        match result {
            Err(Refusal::Busy { .. }) => yield_now(),
            _ => return result,
        }
    }
    unreachable!()
}
