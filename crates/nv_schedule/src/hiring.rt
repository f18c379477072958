//! How pass 0 makes the passes of callers.
ghost use Rattle.std.specs.Prelude.{◌≡◌, ◌+◌, ◌<◌, ◌^◌, ◌++◌, ◌∷◌, List, [], length, map, IfOk, OnErr, OnOk};
ghost use Rattle.nv_table.specs.state.Views.{made_of};
ghost use Rattle.nv_runner.specs.Workers.{IsZero};
ghost use Rattle.nv_schedule.specs.Fresh.{AreFresh, IsFresh, IsFreshWork, works_of};
ghost use Rattle.nv_schedule.specs.Scheduled.{IsAside};
ghost use Rattle.nv_schedule.specs.Turns.{CallerState};
ghost use Rattle.nv_schedule.specs.declared.caller.Work.{Work as AnyWork};

use crate::batches::Batches;
use crate::caller::{Caller, Work};
use crate::thread::Thread;
use nv_mount::Mount;
use nv_plain::NoMemory;
use nv_pmem::Lines;
use nv_runner::newcomers_begin_behind;
use nv_store::Backing;
use nv_table::{Pass, passes_stay_between_calls, split_pass};
use nv_trace::TracedCall;
use std::alloc::Global;

/// Makes a caller of this work, whose pass is the next one.
pub(crate) fn new_caller<'a, L: Lines + Drop, B: Backing + Drop>(
    alloc: Global,
    mount: &Mount<L, B>,
    zero: &mut Pass<L, B>,
    work: Work<'a>,
) -> Result<Caller<'a, L, B>, NoMemory>
    requires zero { IsZero mount.now zero.old }
    requires few { made_of zero.old.view + 1 < 2 ^ 32 }
    requires fresh { IsFreshWork work }
    ensures zero { IsZero mount.now zero.new }
    ensures caller { IfOk result (λ caller. IsFresh mount.now (made_of zero.old.view) caller × (caller.work ≡ work.entry)) }
    ensures made { OnOk result (made_of zero.new.view ≡ made_of zero.old.view + 1) }
    ensures none { OnErr result (made_of zero.new.view ≡ made_of zero.old.view) }
    ensures aside { IsAside zero.old zero.new }
    ensures ended { zero.new.view.ended ≡ zero.old.view.ended }
{
    passes_stay_between_calls();
    newcomers_begin_behind();
    let pass = split_pass(alloc, mount.board(), zero)?;
    Ok(Caller { pass, work })
}

// One caller more, of this work.
fn hire_one<'a, L: Lines + Drop, B: Backing + Drop>(
    alloc: Global,
    mount: &Mount<L, B>,
    zero: &mut Pass<L, B>,
    work: Work<'a>,
    callers: &mut Vec<Caller<'a, L, B>>,
) -> Result<(), NoMemory>
    requires zero { IsZero mount.now zero.old }
    requires few { length callers.old.items < 9 }
    requires work { IsFreshWork work }
    requires fresh { AreFresh mount.now callers.old.items }
    requires count { made_of zero.old.view ≡ length callers.old.items }
    ensures zero { IsZero mount.now zero.new }
    ensures fresh { AreFresh mount.now callers.new.items }
    ensures count { made_of zero.new.view ≡ length callers.new.items }
    ensures more { OnOk result ((caller : CallerState) × (callers.new.items ≡ callers.old.items ++ caller ∷ []) × (caller.work ≡ work.entry)) }
    ensures none { OnErr result (callers.new.items ≡ callers.old.items) }
    ensures aside { IsAside zero.old zero.new }
    ensures ended { zero.new.view.ended ≡ zero.old.view.ended }
{
    callers.reserve(1)?;
    let caller = new_caller(alloc, mount, zero, work)?;
    callers.push_reserved(caller);
    Ok(())
}

/// Makes the callers of a schedule: a thread of each number below 8, which has all its calls among these left, and behind them the cleaner. Where memory is wanting, some first ones of them.
pub(crate) fn hire<'a, L: Lines + Drop, B: Backing + Drop>(
    alloc: Global,
    mount: &Mount<L, B>,
    zero: &mut Pass<L, B>,
    calls: &'a [TracedCall],
    batch: u64,
    callers: &mut Vec<Caller<'a, L, B>>,
) -> Result<(), NoMemory>
    requires zero { IsZero mount.now zero.old }
    requires none { callers.old.items ≡ [] }
    requires first { made_of zero.old.view ≡ 0 }
    ensures zero { IsZero mount.now zero.new }
    ensures fresh { AreFresh mount.now callers.new.items }
    ensures works { OnOk result (map (λ caller. caller.work) callers.new.items ≡ works_of calls.now batch) }
    ensures some { (unmade : List AnyWork) × (map (λ caller. caller.work) callers.new.items ++ unmade ≡ works_of calls.now batch) }
    ensures count { made_of zero.new.view ≡ length callers.new.items }
    ensures aside { IsAside zero.old zero.new }
    ensures ended { zero.new.view.ended ≡ zero.old.view.ended }
{
    let mut number = 0;
    while number < 8 {
        let thread = Thread::new(alloc, number, calls);
        hire_one(alloc, mount, zero, Work::Calls(thread), callers)?;
        number += 1;
    }
    let cleaner = Batches {
        most: batch,
        machine: None,
    };
    hire_one(alloc, mount, zero, Work::Batches(cleaner), callers)
}
