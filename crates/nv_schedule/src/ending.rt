//! How pass 0 takes in the passes of callers as they stand, and closes the mount.
ghost use Rattle.std.specs.Prelude.{◌≡◌, ◌≢◌, ◌+◌, ◌++◌, [], All, OnOk, length, map, sum_by};
ghost use Rattle.nv_table.specs.ends.Closing.{IsClosed};
ghost use Rattle.nv_table.specs.passes.PassesMade.{IsShownStill, IsTakenIn};
ghost use Rattle.nv_table.specs.state.SlotValues.{part_value, slot_value, store_value};
ghost use Rattle.nv_table.specs.state.States.{IsOf};
ghost use Rattle.nv_table.specs.state.Views.{made_of};
ghost use Rattle.nv_runner.specs.EndedRuns.{IsClosedBy};
ghost use Rattle.nv_runner.specs.Lists.{made_calls};
ghost use Rattle.nv_schedule.specs.Following.{Stands};
ghost use Rattle.nv_schedule.specs.Listed.{listed_by, told_present, unanswered_by};
ghost use Rattle.nv_schedule.specs.Scheduled.{AreCallsOf, HasTakenIn, IsOfBoth, IsTaker};

use crate::caller::{Caller, Work};
use crate::hand::Hand;
use crate::scheduled::ScheduledCalls;
use crate::thread::Thread;
use nv_mount::Mount;
use nv_plain::NoMemory;
use nv_pmem::Lines;
use nv_runner::{Answer, AnsweredCall};
use nv_store::Backing;
use nv_table::{Closed, Pass, join_pass};

// Takes in a pass as it stands.
fn take_in<L: Lines + Drop, B: Backing + Drop>(
    mount: &Mount<L, B>,
    zero: &mut Pass<L, B>,
    other: Pass<L, B>,
)
    requires zero { IsTaker mount.now zero.old }
    requires board { IsOf mount.now.board other }
    requires other { other.view.number ≢ 0 }
    requires still { IsShownStill other }
    ensures zero { IsTaker mount.now zero.new }
    ensures taken { IsTakenIn zero.old other zero.new }
{
    join_pass(mount.board(), zero, other);
}

// What a thread's present call is told as, of which it has this at hand.
fn present(hand: Option<Hand>, drawn: Option<u64>) -> Option<Answer>
    ensures { result ≡ told_present hand drawn }
{
    hand?.told(drawn)
}

// Puts down the calls that a caller has begun, whose pass tells this number.
fn note<'a>(
    work: Work<'a>,
    drawn: Option<u64>,
    calls: &mut ScheduledCalls<'a>,
) -> Result<(), NoMemory>
    ensures answered { OnOk result (made_calls calls.new.answered.items ≡ made_calls calls.old.answered.items ++ listed_by work.entry drawn) }
    ensures unanswered { OnOk result (map (λ call. call.now) calls.new.unanswered.items ≡ map (λ call. call.now) calls.old.unanswered.items ++ unanswered_by work.entry drawn) }
{
    let Work::Calls(thread) = work else {
        return Ok(());
    };
    let Thread {
        number: _,
        left,
        begun,
        hand,
        mut answered,
    } = thread;
    calls.answered.append(&mut answered)?;
    drop(answered);
    let Some(call) = left.first() else {
        drop(hand);
        return Ok(());
    };
    match present(hand, drawn) {
        Some(answer) => calls.answered.push(AnsweredCall { call, answer })?,
        None if begun => calls.unanswered.push(call)?,
        None => (),
    }
    Ok(())
}

// The first error of two, or none.
fn both(first: Result<(), NoMemory>, then: Result<(), NoMemory>) -> Result<(), NoMemory>
    ensures { IsOfBoth first then result }
{
    first?;
    then
}

/// Takes in the passes of all callers as they stand, the last one's first, and puts down the calls that they have begun. All passes are taken in also where memory is wanting for that.
pub(crate) fn take_in_all<'a, L: Lines + Drop, B: Backing + Drop>(
    mount: &Mount<L, B>,
    zero: &mut Pass<L, B>,
    mut callers: Vec<Caller<'a, L, B>>,
    calls: &mut ScheduledCalls<'a>,
) -> Result<(), NoMemory>
    requires zero { IsTaker mount.now zero.old }
    requires none { zero.old.view.ended ≡ [] }
    requires stand { All (Stands mount.now) callers.items }
    requires no_answered { calls.old.answered.items ≡ [] }
    requires no_unanswered { calls.old.unanswered.items ≡ [] }
    ensures zero { IsTaker mount.now zero.new }
    ensures taken { HasTakenIn zero.old zero.new callers.entry.items }
    ensures calls { OnOk result (AreCallsOf callers.entry.items calls.new) }
{
    let mut noted = Ok(());
    while let Some(caller) = callers.pop() {
        let Caller { pass, work } = caller;
        noted = both(noted, note(work, pass.drawn(), calls));
        take_in(mount, zero, pass);
    }
    callers.destroy_empty();
    noted
}

/// Ends a mount by pass 0, which has taken in all passes that it made: what `Mount::close` tells then.
pub(crate) fn close_bare<L: Lines + Drop, B: Backing + Drop>(
    mount: Mount<L, B>,
    pass: Pass<L, B>,
) -> Closed<L, B>
    requires zero { IsTaker mount pass }
    requires all_in { length pass.view.ended ≡ made_of pass.view }
    ensures closed { IsClosed L.device B.device
        (slot_value (part_value L.device L.history L.fault_count L.room) (store_value B.device B.history B.fault_count))
        mount.board pass result.parts.items result.stores.items result.placed result.tail }
    ensures told { IsClosedBy pass (map (part_value L.device L.history L.fault_count L.room) result.parts.items)
        (map (store_value B.device B.history B.fault_count) result.stores.items) (map L.history result.parts.items) (map B.history result.stores.items)
        (sum_by L.fault_count result.parts.items + sum_by B.fault_count result.stores.items) result.placed result.tail }
{
    pass.bare_is_still();
    match mount.close(pass) {
        Ok(closed) => closed,
        Err(_out) => unreachable!(),
    }
}
