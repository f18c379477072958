//! Pass 0 between two rounds: how it makes the pass of a worker, and takes it in.
ghost use Rattle.std.specs.Prelude.{◌≡◌, ◌≢◌, ◌+◌, ◌<◌, ◌^◌, ◌∷◌, [], IfOk, OnOk, OnErr};
ghost use Rattle.nv_table.specs.invariant.Idle.{IsIdle};
ghost use Rattle.nv_table.specs.passes.Seats.{past_of};
ghost use Rattle.nv_table.specs.state.States.{IsOf};
ghost use Rattle.nv_table.specs.state.Views.{made_of};
ghost use Rattle.nv_runner.specs.Owners.{if_owner};
ghost use Rattle.nv_runner.specs.Workers.{IsNewWorker, IsZero, IsZeroStill};

use crate::Calls;
use crate::worker::Worker;
use nv_core::{passes_are_left_alone, runs_are_sound};
use nv_mount::Mount;
use nv_plain::NoMemory;
use nv_pmem::Lines;
use nv_store::Backing;
use nv_table::{Pass, Workspace, join_pass, passes_stay_between_calls, split_pass};
use std::alloc::Global;

/// Makes a worker of this thread, for the calls of this owner, whose pass has called nothing, and begins with all that pass 0 has taken in.
pub(crate) fn new_worker<C: Calls + Drop, L: Lines + Drop, B: Backing + Drop>(
    alloc: Global,
    mount: &Mount<L, B>,
    zero: &mut Pass<L, B>,
    thread: u64,
    calls: Option<C>,
) -> Result<Worker<C, L, B>, NoMemory>
    requires zero { IsZero mount.now zero.old }
    requires few { made_of zero.old.view + 1 < 2 ^ 32 }
    requires none { if_owner C.made calls ≡ [] }
    ensures zero { IsZero mount.now zero.new }
    ensures still { IsZeroStill zero.old zero.new }
    ensures ended { zero.new.view.ended ≡ zero.old.view.ended }
    ensures worker { IfOk result (IsNewWorker mount.now zero.old.view.ended) }
    ensures thread { IfOk result (λ worker. worker.thread ≡ thread) }
    ensures left { IfOk result (λ worker. worker.left ≡ if_owner C.left calls) }
    ensures made { OnOk result (made_of zero.new.view ≡ made_of zero.old.view + 1) }
    ensures none { OnErr result (made_of zero.new.view ≡ made_of zero.old.view) }
{
    passes_stay_between_calls();
    passes_are_left_alone();
    runs_are_sound();
    zero.sees_a_run();
    zero.has_taken_in();
    let workspace = Workspace::new(alloc, mount.board().layout())?;
    let pass = split_pass(alloc, mount.board(), zero)?;
    Ok(Worker {
        thread,
        pass,
        workspace,
        calls,
        done: false,
    })
}

/// Takes in a pass that is between two calls.
pub(crate) fn take_in<L: Lines + Drop, B: Backing + Drop>(
    mount: &Mount<L, B>,
    zero: &mut Pass<L, B>,
    other: Pass<L, B>,
)
    requires zero { IsZero mount.now zero.old }
    requires board { IsOf mount.now.board other }
    requires other { other.view.number ≢ 0 }
    requires idle { IsIdle other }
    ensures zero { IsZero mount.now zero.new }
    ensures still { IsZeroStill zero.old zero.new }
    ensures ended { zero.new.view.ended ≡ past_of other.view ∷ zero.old.view.ended }
    ensures made { made_of zero.new.view ≡ made_of zero.old.view }
{
    passes_stay_between_calls();
    passes_are_left_alone();
    other.sees_a_run();
    other.bare_is_still();
    join_pass(mount.board(), zero, other);
}
