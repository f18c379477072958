//! The session of a thread.
ghost use Rattle.std.specs.Prelude.{◌≡◌, ◌≢◌};
ghost use Rattle.nv_table.specs.invariant.Idle.{IsIdle};
ghost use Rattle.nv_table.specs.state.States.{IsOf};
ghost use Rattle.nv_mount.specs.Mounts.{MountState};
ghost use Rattle.nv_session.specs.Calls.{HasRead, HasRetired, HasSynced, HasWritten};
ghost use Rattle.nv_session.specs.Sessions.{no_mount};

use nv_calls::{Done, Refusal, pread, pwrite, try_fsync};
use nv_clean::{CleanRefusal, Cleaned, try_clean};
use nv_mount::Mount;
use nv_pmem::Lines;
use nv_store::Backing;
use nv_table::{Pass, Workspace};
use std::marker::{Brand, Model, PhantomData};
use std::sync::Wait;

/// Names a mount, for contracts alone: sessions of one such type are of one mount.
pub trait Mounted {
    ghost mount: { MountState };
}

impl Mounted for Brand {
    ghost mount = { no_mount };
}

/// What a thread calls by: a pass of the mount that `M` names, between two calls, and a workspace of that mount's sizes, with nothing on
/// it. Contracts see the pass.
pub struct Session<'m, M: Mounted, L: Lines, B: Backing> {
    pub(crate) mount: &'m Mount<L, B>,
    pub(crate) pass: Pass<L, B>,
    pub(crate) workspace: Workspace<L, B>,
    pub(crate) named: PhantomData<M>,
}

impl<'m, M: Mounted, L: Lines, B: Backing> Model for Session<'m, M, L, B> {
    ghost use Rattle.nv_table.specs.state.States.{PassState};
    ghost use Rattle.nv_session.specs.Sessions.{IsSession};

    ghost Value = { PassState };

    ghost view = { λ s. s.pass };

    ghost invariant = { λ s. IsSession M.mount s.mount.now s.pass s.workspace };
}

impl<'m, M: Mounted, L: Lines + Drop, B: Backing + Drop> Session<'m, M, L, B> {
    /// A law: its pass is one that pass 0 of its mount has made, and is between two calls.
    pub fn is_between_calls(&self)
        ensures board { IsOf M.mount.board self.now }
        ensures other { self.now.view.number ≢ 0 }
        ensures idle { IsIdle self.now }
    {
        let _ = &self.named;
    }

    /// Reads from the file of a descriptor, as `pread`: the bytes from the offset `at` on, as many as `buf` has, or fewer where the
    /// file ends before, come to the front of `buf`. It may wait for others, and takes no memory.
    pub fn read<R: Wait>(
        &mut self,
        rt: &R,
        fd: u64,
        at: u64,
        buf: &mut [u8],
    ) -> Result<Done, Refusal>
        ensures { HasRead M.mount fd at buf.new self.old self.new result }
    {
        pread(rt, self.mount, &mut self.pass, fd, at, buf)
    }

    /// Writes to the file of a descriptor, as `pwrite`: all of `bytes` stand in the file from the offset `at` on, durable when it
    /// returns. It may wait for others, and takes no memory.
    pub fn write<R: Wait>(
        &mut self,
        rt: &R,
        fd: u64,
        at: u64,
        bytes: &[u8],
    ) -> Result<Done, Refusal>
        ensures { HasWritten M.mount fd at bytes.now self.old self.new result }
    {
        pwrite(
            rt,
            self.mount,
            &mut self.pass,
            &mut self.workspace,
            fd,
            at,
            bytes,
        )
    }

    /// Syncs the file of a descriptor, as `try_fsync`: takes its place alone, since a write is durable when it returns.
    pub fn sync(&mut self, fd: u64) -> Result<Done, Refusal>
        ensures { HasSynced M.mount fd self.old self.new result }
    {
        try_fsync(self.mount, &mut self.pass, fd)
    }

    /// Carries entries of the log to their files, as `try_clean`: whole groups, at least one, and no more than `most` entries but where
    /// the first group alone is larger. It waits for nobody, and takes no memory.
    pub fn clean(&mut self, most: u64) -> Result<Cleaned, CleanRefusal>
        ensures { HasRetired most self.old self.new result }
    {
        try_clean(self.mount, &mut self.pass, most)
    }
}
