//! Cleaning a log until it is empty.
ghost use Rattle.std.specs.Prelude.{◌≡◌, false, OnOk, Ok, Err};
ghost use Rattle.nv_core.specs.state.Words.{STOP};
ghost use Rattle.nv_mount.specs.ClosedAtRest.{HasEmptiedLog};
ghost use Rattle.nv_mount.specs.LoneWords.{word_then};
ghost use Rattle.nv_runner.specs.Cleaned.{HasCleaned, IsLeftAlone};
ghost use Rattle.nv_runner.specs.declared.run_error.RunError.TheVariants as errors;

use crate::RunError;
use crate::laws::{batches_come_one_by_one, tries_go_on};
use nv_clean::{CleanRefusal, try_clean};
use nv_mount::Mount;
use nv_pmem::Lines;
use nv_store::Backing;
use nv_table::Pass;
use std::sync::Wait;

// Whether a batch leaves more to clean; or why it was not made.
fn clean_one<L: Lines + Drop, B: Backing + Drop>(
    mount: &Mount<L, B>,
    pass: &mut Pass<L, B>,
    batch: u64,
) -> Result<bool, RunError>
    requires alone { IsLeftAlone mount.now.board pass.old }
    ensures cleaned { HasCleaned mount.now.board batch pass.old pass.new }
    ensures emptied { result ≡ Ok false → HasEmptiedLog pass.new.view }
    ensures fault { result ≡ Err errors.Fault → word_then pass.new.view STOP ≡ 1 }
{
    tries_go_on();
    batches_come_one_by_one();
    match try_clean(mount, pass, batch) {
        Ok(_) => Ok(true),
        Err(CleanRefusal::Idle { .. }) => Ok(false),
        Err(CleanRefusal::NoMemory) => Err(RunError::NoMemory),
        Err(_) => Err(RunError::Fault),
    }
}

/// Runs batches of the cleaner, of so many entries at most, until the log is empty. Pass 0 makes them while no other pass is out.
pub(crate) fn clean_all<R: Wait, L: Lines + Drop, B: Backing + Drop>(
    rt: &R,
    mount: &Mount<L, B>,
    pass: &mut Pass<L, B>,
    batch: u64,
) -> Result<(), RunError>
    requires alone { IsLeftAlone mount.now.board pass.old }
    ensures cleaned { HasCleaned mount.now.board batch pass.old pass.new }
    ensures emptied { OnOk result (HasEmptiedLog pass.new.view) }
    ensures fault { result ≡ Err errors.Fault → word_then pass.new.view STOP ≡ 1 }
{
    for _ in rt.forever() {
        if !clean_one(mount, pass, batch)? {
            return Ok(());
        }
    }
    unreachable!()
}
