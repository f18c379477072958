//! The calls of one thread.
ghost use Rattle.std.specs.Prelude.{◌≡◌, [], OnOk, OnErr};
ghost use Rattle.nv_table.specs.invariant.Idle.{IsIdle, IsLater};
ghost use Rattle.nv_table.specs.state.States.{IsOf};
ghost use Rattle.nv_table.specs.state.Workspaces.{IsWorkspace};
ghost use Rattle.nv_runner.specs.Lists.{AllWereMade, SomeWereMade};

use crate::{Calls, Gate, Point, make_call};
use nv_mount::Mount;
use nv_plain::NoMemory;
use nv_pmem::Lines;
use nv_store::Backing;
use nv_table::{Pass, Workspace};
use std::alloc::Global;
use std::sync::Wait;

/// Makes the calls that an owner has left, of this thread, one after another, each as `make_call` does, and gives it what they are answered. Where
/// memory is wanting some first ones of them were made. The thread passes the gate before each call, and once it is answered, by the number of the call's line.
pub fn make_all<R: Wait, G: Gate, L: Lines + Drop, B: Backing + Drop, C: Calls>(
    rt: &R,
    alloc: Global,
    gate: &G,
    mount: &Mount<L, B>,
    pass: &mut Pass<L, B>,
    workspace: &mut Workspace<L, B>,
    calls: &mut C,
    thread: u64,
    worker: Option<u64>,
) -> Result<(), NoMemory>
    requires board { IsOf mount.now.board pass.old }
    requires idle { IsIdle pass.old }
    requires workspace { IsWorkspace mount.now.board.opened.sizes workspace.old }
    requires bare { workspace.old.parts.items ≡ [] }
    requires none { C.made calls.old ≡ [] }
    ensures board { IsOf mount.now.board pass.new }
    ensures idle { IsIdle pass.new }
    ensures later { IsLater pass.old pass.new }
    ensures workspace { IsWorkspace mount.now.board.opened.sizes workspace.new }
    ensures bare { workspace.new.parts.items ≡ [] }
    ensures made { OnOk result (AllWereMade mount.now.fds worker (C.left calls.old) (C.made calls.new) pass.old pass.new) }
    ensures memory { OnErr result (SomeWereMade mount.now.fds worker (C.left calls.old) (C.made calls.new) pass.old pass.new) }
{
    let mut rooms = calls.take_rooms(alloc, mount)?;
    while calls.ready()? {
        let call = calls.present();
        gate.at(thread, call.line, Point::Before);
        let answer = make_call(
            rt, alloc, mount, pass, workspace, &call.call, worker, &mut rooms,
        )?;
        gate.at(thread, call.line, Point::Answered);
        calls.put(answer);
    }
    Ok(())
}
