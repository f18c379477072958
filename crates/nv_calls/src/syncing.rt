//! An fsync that is made one step at a time.
ghost use Rattle.std.specs.Prelude.{◌≡◌, false};
ghost use Rattle.nv_table.specs.state.States.{IsOf, PassState};
ghost use Rattle.nv_calls.specs.calls.Advances.{IsFewer, IsOneOrNone};
ghost use Rattle.nv_calls.specs.declared.syncing.SyncControl.TheVariants as syncs;
ghost use Rattle.nv_calls.specs.fsync.SyncMachines.{IsBegun, IsSyncUnderWay, SyncFollows, SyncGoes, at_step, early_of, measure, next_kind_of, placed_by, progress_at, standing};

use crate::Progress;
use nv_mirror::{Done, PagelessControl, PagelessMachine, Refusal};
use nv_mount::Mount;
use nv_op::{Asked, Kind};
use nv_pmem::Lines;
use nv_store::Backing;
use nv_table::Pass;
use std::marker::Brand;

/// Where it stands.
#[derive(Clone, Copy, Debug, PartialEq, Eq)]
pub enum SyncControl {
    /// It has made no step yet.
    Begin,
    /// It has made some, or is over.
    Running(PagelessMachine<'static>),
}

/// An fsync of a descriptor, which makes one step at each advance.
#[derive(Clone, Copy, Debug, PartialEq, Eq)]
pub struct SyncMachine {
    pub fd: u64,
    pub control: SyncControl,
}

// What an advance came to behind which the sync is so.
fn progress(sync: PagelessMachine<'static>) -> Progress
    ensures { result ≡ progress_at sync.entry.control }
{
    match sync.control {
        PagelessControl::Over(Ok(place)) => Progress::Ended(Ok(Done { place, len: 0 })),
        PagelessControl::Over(Err(refusal)) => Progress::Ended(Err(refusal)),
        _ => Progress::More,
    }
}

impl SyncMachine {
    /// An fsync that has made no step yet.
    pub fn new(fd: u64) -> Self
        ensures { result ≡ record { fd = fd; control = syncs.Begin } }
    {
        SyncMachine {
            fd,
            control: SyncControl::Begin,
        }
    }

    /// The kind of the next step. Before the first advance it is that of the first step of a sync which isn't refused before.
    pub fn next_kind(&self) -> Kind
        ensures { result ≡ next_kind_of self.now }
    {
        match self.control {
            SyncControl::Begin => Kind::Load,
            SyncControl::Running(sync) => sync.next_kind(),
        }
    }

    /// Its answer, from the step on by which it takes its place.
    pub fn placed(&self) -> Option<Done>
        ensures { result ≡ placed_by self.now }
    {
        let place = match self.control {
            SyncControl::Begin => None,
            SyncControl::Running(sync) => sync.placed(),
        };
        place.map(|place| Done { place, len: 0 })
    }

    /// Whether a device call of its advances has failed: it makes none.
    pub fn faulted(&self) -> bool
        ensures { result ≡ false }
    {
        false
    }

    // The sync of its descriptor's file, if there is one.
    fn begun<L: Lines + Drop, B: Backing + Drop>(
        &self,
        mount: &Mount<L, B>,
    ) -> Result<PagelessMachine<'static>, Refusal>
        requires under_way { (start : PassState) × (now : PassState) × (now.view.opened ≡ mount.now.board.opened) × IsSyncUnderWay mount.now.fds self.now start now }
        ensures { IsBegun mount.now.board.opened.sizes mount.now.fds self.now result }
    {
        match self.control {
            SyncControl::Begin => match mount.fds().get(self.fd) {
                Some(open) => Ok(PagelessMachine::new(Asked::Sync { file: open.file })),
                None => Err(Refusal::BadFd),
            },
            SyncControl::Running(sync) => Ok(sync),
        }
    }

    /// Makes the next step; a sync of no descriptor ends at its first advance, with no step. Its pass was idle before the first one, and has made no others since.
    pub fn advance<L: Lines + Drop, B: Backing + Drop>(
        &mut self,
        mount: &Mount<L, B>,
        pass: &mut Pass<L, B>,
    ) -> Progress
        requires board { IsOf mount.now.board pass.old }
        requires under_way { (start : PassState) × IsSyncUnderWay mount.now.fds self.old start pass.old }
        ensures board { IsOf mount.now.board pass.new }
        ensures fd { self.new.fd ≡ self.old.fd }
        ensures next { SyncFollows (at_step self.old.control) (at_step self.new.control) result }
        ensures one { IsOneOrNone standing (early_of mount.now.fds self.old) self.old self.new pass.old pass.new result }
        ensures fewer { IsFewer measure self.old self.new result }
        ensures goes { (start : PassState) → IsSyncUnderWay mount.now.fds self.old start pass.old → SyncGoes mount.now.fds start self.new pass.new result }
    {
        let mut sync = match self.begun(mount) {
            Ok(sync) => sync,
            Err(refusal) => return Progress::Ended(Err(refusal)),
        };
        sync.advance::<Brand, L, B>(mount.board(), pass);
        self.control = SyncControl::Running(sync);
        progress(sync)
    }
}
