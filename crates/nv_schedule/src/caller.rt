//! A caller of a schedule: a thread, or the cleaner, with its pass.
ghost use Rattle.std.specs.Prelude.{◌≡◌, ◌≢◌, List, [], None, IfOk, OnErr};
ghost use Rattle.nv_core.specs.steps.Events.{Event};
ghost use Rattle.nv_table.specs.state.States.{IsOf, PassState};
ghost use Rattle.nv_table.specs.state.Workspaces.{IsWorkspace};
ghost use Rattle.nv_schedule.specs.Orders.{ComeBehind};
ghost use Rattle.nv_schedule.specs.Turns.{HasCome, TurnTells, next_kind_of};

use crate::batches::Batches;
use crate::thread::Thread;
use crate::turned::Turned;
use nv_calls::Kind;
use nv_mount::Mount;
use nv_plain::NoMemory;
use nv_pmem::Lines;
use nv_store::Backing;
use nv_table::{ExportedView, Pass, Workspace, look_at};
use std::alloc::Global;
use std::marker::Model;

/// What a caller does with its pass.
#[derive(Drop)]
pub(crate) enum Work<'a> {
    Calls(Thread<'a>),
    Batches(Batches),
}

/// A caller, with its pass.
pub(crate) struct Caller<'a, L: Lines, B: Backing> {
    pub(crate) pass: Pass<L, B>,
    pub(crate) work: Work<'a>,
}

impl<'a, L: Lines, B: Backing> Model for Caller<'a, L, B> {
    ghost use Rattle.nv_schedule.specs.Turns.{CallerState};

    ghost Value = { CallerState };

    ghost view = { λ c. record { pass = c.pass; work = c.work } };
}

impl<'a, L: Lines + Drop, B: Backing + Drop> Caller<'a, L, B> {
    /// The kind of its next step, if each device call before it ends well and its call isn't refused before; none where it has no call left.
    pub(crate) fn next_kind(&self) -> Option<Kind>
        ensures { result ≡ next_kind_of self.now }
    {
        match &self.work {
            Work::Calls(thread) => thread.next_kind(),
            Work::Batches(batches) => Some(batches.next_kind()),
        }
    }

    /// Makes its next step. Where memory is wanting nothing was done.
    pub(crate) fn turn(
        &mut self,
        alloc: Global,
        mount: &Mount<L, B>,
        workspace: &mut Workspace<L, B>,
    ) -> Result<Turned, NoMemory>
        requires some { next_kind_of self.old ≢ None }
        requires board { IsOf mount.now.board self.old.pass }
        requires come { (start : PassState) × HasCome mount.now.fds self.old.work start self.old.pass }
        requires workspace { IsWorkspace mount.now.board.opened.sizes workspace.old }
        requires bare { workspace.old.parts.items ≡ [] }
        ensures board { IsOf mount.now.board self.new.pass }
        ensures turned { IfOk result (λ turned. (events : List Event) × TurnTells mount.now.fds turned events self.old self.new) }
        ensures workspace { IsWorkspace mount.now.board.opened.sizes workspace.new }
        ensures bare { workspace.new.parts.items ≡ [] }
        ensures memory { OnErr result (self.new ≡ self.old) }
    {
        match &mut self.work {
            Work::Calls(thread) => thread.turn(alloc, mount, &mut self.pass, workspace),
            Work::Batches(batches) => Ok(batches.turn(mount, &mut self.pass)),
        }
    }

    /// The same, behind all that stands in the run that an exported view tells, and the view that comes back tells its step too.
    pub(crate) fn turn_behind(
        &mut self,
        alloc: Global,
        mount: &Mount<L, B>,
        workspace: &mut Workspace<L, B>,
        view: ExportedView<L, B>,
    ) -> (ExportedView<L, B>, Result<Turned, NoMemory>)
        requires some { next_kind_of self.old ≢ None }
        requires board { IsOf mount.now.board self.old.pass }
        requires come { (start : PassState) × HasCome mount.now.fds self.old.work start self.old.pass }
        requires workspace { IsWorkspace mount.now.board.opened.sizes workspace.old }
        requires bare { workspace.old.parts.items ≡ [] }
        requires view { view.table ≡ mount.now.board.table }
        ensures board { IsOf mount.now.board self.new.pass }
        ensures turned { IfOk result.1 (λ turned. (events : List Event) × TurnTells mount.now.fds turned events self.old self.new × ComeBehind events view.run result.0.run) }
        ensures workspace { IsWorkspace mount.now.board.opened.sizes workspace.new }
        ensures bare { workspace.new.parts.items ≡ [] }
        ensures view { result.0.table ≡ mount.now.board.table }
        ensures memory { OnErr result.1 (self.new ≡ self.old) }
    {
        let board = mount.board();
        let before = look_at(board, &mut self.pass, view);
        let result = self.turn(alloc, mount, workspace);
        (look_at(board, &mut self.pass, before), result)
    }
}
