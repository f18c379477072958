//! What a write writes.
ghost use Rattle.std.specs.Prelude.{◌≡◌, false, [], length, IfOk, OnErr};
ghost use Rattle.nv_table.specs.invariant.Idle.{IsIdle, IsLater};
ghost use Rattle.nv_table.specs.state.States.{IsOf};
ghost use Rattle.nv_table.specs.state.Workspaces.{IsWorkspace};
ghost use Rattle.nv_mirror.specs.Answers.{IsUnplaced};
ghost use Rattle.nv_calls.specs.writes.Writes.{IsWriteTriedAs, ends_to_be_made_again};
ghost use Rattle.nv_runner.specs.Written.{IsWritten, asks_in, bytes_in};

use nv_calls::{Done, Gather, Refusal, pwrite, pwritev};
use nv_mount::Mount;
use nv_pmem::Lines;
use nv_store::Backing;
use nv_table::{Pass, Workspace};
use std::sync::Wait;

/// The bytes of a write, or the parts of a vectored one.
#[derive(Clone, Copy)]
pub(crate) enum Written<'a> {
    Bytes(&'a [u8]),
    Parts(&'a Gather),
}

impl Written<'_> {
    // Writes them, again as long as a lock is found held or another write draws its numbers.
    pub(crate) fn write<R: Wait, L: Lines + Drop, B: Backing + Drop>(
        self,
        rt: &R,
        mount: &Mount<L, B>,
        pass: &mut Pass<L, B>,
        workspace: &mut Workspace<L, B>,
        fd: u64,
        at: u64,
    ) -> Result<Done, Refusal>
        requires board { IsOf mount.now.board pass.old }
        requires idle { IsIdle pass.old }
        requires workspace { IsWorkspace mount.now.board.opened.sizes workspace.old }
        requires bare { workspace.old.parts.items ≡ [] }
        ensures board { IsOf mount.now.board pass.new }
        ensures idle { IsIdle pass.new }
        ensures later { IsLater pass.old pass.new }
        ensures placed { IfOk result (IsWritten mount.now.fds fd at self.entry pass.old.view pass.new.view) }
        ensures kept { OnErr result (IsUnplaced pass.old.view pass.new.view) }
        ensures free { ends_to_be_made_again result ≡ false }
        ensures tried { IsWriteTriedAs (asks_in self.entry at) mount.now.fds fd at (length (bytes_in self.entry)) pass.old pass.new result }
        ensures workspace { IsWorkspace mount.now.board.opened.sizes workspace.new }
        ensures bare { workspace.new.parts.items ≡ [] }
    {
        match self {
            Written::Bytes(bytes) => pwrite(rt, mount, pass, workspace, fd, at, bytes),
            Written::Parts(parts) => pwritev(rt, mount, pass, workspace, fd, at, parts),
        }
    }
}
