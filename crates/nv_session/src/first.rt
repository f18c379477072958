//! The session of the first thread, which owns the mount.
ghost use Rattle.std.specs.Prelude.{◌≡◌, ◌+◌, ◌≤◌, ◌^◌, ◌↔◌, Err, OnErr, OnOk, length};
ghost use Rattle.nv_core.specs.steps.Opening.{IsMount};
ghost use Rattle.nv_table.specs.invariant.Idle.{IsIdle};
ghost use Rattle.nv_table.specs.passes.Alone.{IsAlone};
ghost use Rattle.nv_table.specs.state.Opened.{IsRunOf, mount_of};
ghost use Rattle.nv_table.specs.state.States.{IsOf};
ghost use Rattle.nv_table.specs.state.Views.{made_of};
ghost use Rattle.nv_clean.specs.Alone.{IsAnsweredAlone};
ghost use Rattle.nv_runner.specs.Workers.{IsZeroStill};
ghost use Rattle.nv_session.specs.Calls.{HasCleanedAll, HasRead, HasRetired, HasSynced, HasWritten};
ghost use Rattle.nv_session.specs.Works.{HaveWorked};
ghost use Rattle.nv_session.specs.declared.session_error.SessionError.TheVariants.{TooMany};

use crate::hiring::do_all;
use crate::{SessionError, Work};
use nv_bench::Bench;
use nv_calls::{Done, Refusal, pread, pwrite, try_fsync};
use nv_clean::{CleanRefusal, Cleaned, try_clean};
use nv_mount::Mount;
use nv_plain::NoMemory;
use nv_table::{Pass, Workspace, a_pass_is_alone_again};
use std::alloc::Global;
use std::marker::{Brand, Model};
use std::sync::Wait;
use std::thread::Threads;

/// How many passes a mount has at most in all its life, with the first one.
const MOST_PASSES: u64 = 1 << 32;

/// A mount and the bench that lent its devices, and what the first thread calls by: pass 0, between two calls while no other pass is out,
/// and a workspace with nothing on it.
pub struct FirstSession<T: Bench> {
    pub(crate) bench: T,
    pub(crate) mount: Mount<T::Part, T::Store>,
    pub(crate) pass: Pass<T::Part, T::Store>,
    pub(crate) workspace: Workspace<T::Part, T::Store>,
}

impl<T: Bench> Model for FirstSession<T> {
    ghost use Rattle.nv_session.specs.Sessions.{FirstState, IsFirst};

    ghost Value = { FirstState };

    ghost view = { λ s. record { bench = T.state s.bench; mount = s.mount; pass = s.pass } };

    ghost invariant = { λ s. IsFirst (T.state s.bench) s.mount s.pass s.workspace };
}

impl<T: Bench> FirstSession<T> {
    /// A law: its pass is of its mount, between two calls, and no other pass is out; and what it has seen is a run of the core.
    pub fn is_alone(&self)
        ensures board { IsOf self.now.mount.board self.now.pass }
        ensures idle { IsIdle self.now.pass }
        ensures alone { IsAlone self.now.pass.view }
        ensures mount { IsMount (mount_of self.now.pass.view.opened) }
        ensures run { IsRunOf self.now.pass.view.opened self.now.pass.view.run }
    {
        self.pass.sees_a_run();
    }

    /// Reads from the file of a descriptor, as `Session::read`.
    pub fn read<R: Wait>(
        &mut self,
        rt: &R,
        fd: u64,
        at: u64,
        buf: &mut [u8],
    ) -> Result<Done, Refusal>
        ensures bench { self.new.bench ≡ self.old.bench }
        ensures mount { self.new.mount ≡ self.old.mount }
        ensures read { HasRead self.old.mount fd at buf.new self.old.pass self.new.pass result }
    {
        a_pass_is_alone_again();
        pread(rt, &self.mount, &mut self.pass, fd, at, buf)
    }

    /// Writes to the file of a descriptor, as `Session::write`.
    pub fn write<R: Wait>(
        &mut self,
        rt: &R,
        fd: u64,
        at: u64,
        bytes: &[u8],
    ) -> Result<Done, Refusal>
        ensures bench { self.new.bench ≡ self.old.bench }
        ensures mount { self.new.mount ≡ self.old.mount }
        ensures written { HasWritten self.old.mount fd at bytes.now self.old.pass self.new.pass result }
    {
        a_pass_is_alone_again();
        pwrite(
            rt,
            &self.mount,
            &mut self.pass,
            &mut self.workspace,
            fd,
            at,
            bytes,
        )
    }

    /// Syncs the file of a descriptor, as `Session::sync`.
    pub fn sync(&mut self, fd: u64) -> Result<Done, Refusal>
        ensures bench { self.new.bench ≡ self.old.bench }
        ensures mount { self.new.mount ≡ self.old.mount }
        ensures synced { HasSynced self.old.mount fd self.old.pass self.new.pass result }
    {
        a_pass_is_alone_again();
        try_fsync(&self.mount, &mut self.pass, fd)
    }

    /// Carries entries of the log to their files, as `Session::clean`. No lock is found held, and it is answered that there is nothing to
    /// clean exactly where STOP is 0 and the log empty.
    pub fn clean(&mut self, most: u64) -> Result<Cleaned, CleanRefusal>
        ensures bench { self.new.bench ≡ self.old.bench }
        ensures mount { self.new.mount ≡ self.old.mount }
        ensures retired { HasRetired most self.old.pass self.new.pass result }
        ensures alone { IsAnsweredAlone self.old.pass.view self.new.pass.view result }
    {
        self.pass.has_taken_in();
        try_clean(&self.mount, &mut self.pass, most)
    }

    /// Carries all of the log to the files, by batches of at most `most` entries or one group: until it is empty, or a batch is refused
    /// for a device or for memory.
    pub fn clean_all<R: Wait>(&mut self, rt: &R, most: u64) -> Result<(), CleanRefusal>
        ensures bench { self.new.bench ≡ self.old.bench }
        ensures mount { self.new.mount ≡ self.old.mount }
        ensures cleaned { HasCleanedAll most self.old.pass self.new.pass result }
    {
        for _ in rt.forever() {
            match self.clean(most) {
                Ok(_) => {}
                Err(CleanRefusal::Idle { .. }) => return Ok(()),
                Err(refusal) => return Err(refusal),
            }
        }
        unreachable!()
    }

    /// Does works at the same time where threads can be started, each by a session of its own, and takes all sessions in again. What
    /// comes of them stands where they stood. None is done where memory is wanting for a session, or where there would be too many.
    pub fn run<R: Threads + Sync, W: Work<R, T::Part, T::Store> + Send>(
        &mut self,
        rt: &R,
        alloc: Global,
        works: &mut Vec<W>,
    ) -> Result<(), SessionError>
        ensures bench { self.new.bench ≡ self.old.bench }
        ensures mount { self.new.mount ≡ self.old.mount }
        ensures still { IsZeroStill self.old.pass self.new.pass }
        ensures worked { OnOk result (HaveWorked W.does self.old.mount works.old.items works.new.items self.old.pass self.new.pass) }
        ensures kept { OnErr result (works.new.items ≡ works.old.items) }
        ensures many { (result ≡ Err TooMany) ↔ (2 ^ 32 ≤ made_of self.old.pass.view + length works.old.items) }
    {
        let room = MOST_PASSES.saturating_sub(self.pass.made());
        if works.len() as u64 >= room {
            return Err(SessionError::TooMany);
        }
        match do_all::<R, Brand, T::Part, T::Store, W>(
            rt,
            alloc,
            &self.mount,
            &mut self.pass,
            works,
        ) {
            Ok(()) => Ok(()),
            Err(NoMemory) => Err(SessionError::NoMemory),
        }
    }
}
