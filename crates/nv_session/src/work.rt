//! What threads do at the same time, each by a session of its own.
ghost use Rattle.nv_table.specs.state.States.{PassState};
ghost use Rattle.nv_mount.specs.Mounts.{MountState};

use crate::{Mounted, Session};
use nv_pmem::Lines;
use nv_store::Backing;

/// What a thread does by a session of its own. What it is to tell it keeps in itself: its `impl` is a struct with what it needs, and what
/// comes of it. It may say more of itself by `does`: of the mount, of the work before and after it, and of its pass at first and at last.
pub trait Work<R, L: Lines, B: Backing> {
    ghost does: { MountState → Self → Self → PassState → PassState → Type 0 } = { λ mount old new start last. Unit {0} };

    /// Does it.
    fn work<M: Mounted>(&mut self, rt: &R, session: &mut Session<'_, M, L, B>)
        ensures { does M.mount self.old self.new session.old session.new };
}
