//! The advances of a token.
ghost use Rattle.std.specs.Prelude.{◌≡◌, ◌≢◌, ◌+◌, ◌^◌, ◌<◌, ◌&&◌, ◌∷◌, length, not, true, false, drop, List, [], All, None, IfOk, OnErr, OnOk, Option};
ghost use Rattle.nv_core.specs.steps.Events.{Event};
ghost use Rattle.nv_op.specs.declared.kinds.Kind.{Kind as AnyKind};
ghost use Rattle.nv_table.specs.state.Workspaces.{IsWorkspace};
ghost use Rattle.nv_schedule.specs.Cuts.{CutTells, IsArmedOnly, cut_behind};
ghost use Rattle.nv_schedule.specs.Following.{IsWell, OneTells, ScheduleTells, Stands, TokenTells, next_at};
ghost use Rattle.nv_schedule.specs.Going.{AllGoOn};
ghost use Rattle.nv_schedule.specs.Orders.{ComeBehind};
ghost use Rattle.nv_trace.specs.Shape.{IsTokenWithin};

use crate::ScheduleError;
use crate::caller::Caller;
use crate::reaches::{at_point, come_to_point, place};
use crate::turned::Turned;
use nv_bench::Bench;
use nv_calls::Kind;
use nv_mount::Mount;
use nv_plain::NoMemory;
use nv_pmem::Lines;
use nv_store::Backing;
use nv_table::{ExportedView, Workspace};
use nv_trace::{Reach, Token};
use std::alloc::Global;

/// The most advances of a token.
const MOST_ADVANCES: u64 = 100_000;

// The kind of the next step of the caller at a place.
fn next_kind_at<'a, L: Lines + Drop, B: Backing + Drop>(
    callers: &[Caller<'a, L, B>],
    place: usize,
) -> Option<Kind>
    ensures { result ≡ next_at callers.now place }
{
    if place < callers.len() {
        callers[place].next_kind()
    } else {
        None
    }
}

// The caller at a place makes one advance, behind all that stands in the run that the view tells.
fn turn_at<'a, L: Lines + Drop, B: Backing + Drop>(
    alloc: Global,
    mount: &Mount<L, B>,
    callers: &mut [Caller<'a, L, B>],
    workspace: &mut Workspace<L, B>,
    view: ExportedView<L, B>,
    place: usize,
) -> (ExportedView<L, B>, Result<Turned, NoMemory>)
    requires within { place < length callers.old }
    requires some { next_at callers.old place ≢ None }
    requires stand { All (Stands mount.now) callers.old }
    requires workspace { IsWorkspace mount.now.board.opened.sizes workspace.old }
    requires bare { workspace.old.parts.items ≡ [] }
    requires view { view.table ≡ mount.now.board.table }
    ensures stand { All (Stands mount.now) callers.new }
    ensures on { AllGoOn mount.now.fds callers.old callers.new }
    ensures turned { IfOk result.1 (λ turned. (events : List Event) × OneTells mount.now.fds place turned events callers.old callers.new × ComeBehind events view.run result.0.run) }
    ensures workspace { IsWorkspace mount.now.board.opened.sizes workspace.new }
    ensures bare { workspace.new.parts.items ≡ [] }
    ensures view { result.0.table ≡ mount.now.board.table }
{
    callers[place].turn_behind(alloc, mount, workspace, view)
}

// Whether a schedule ends, where a device call has failed or not: behind a cut it goes on.
fn ends(faulted: bool, cut: bool) -> bool
    ensures { result ≡ (faulted && not cut) }
{
    faulted && !cut
}

/// Makes the advances of a token by the caller at a place, until that comes to the token's point; or until a device call fails, where no cut was reached.
pub(crate) fn advance_to<'a, L: Lines + Drop, B: Backing + Drop>(
    alloc: Global,
    mount: &Mount<L, B>,
    callers: &mut [Caller<'a, L, B>],
    workspace: &mut Workspace<L, B>,
    view: ExportedView<L, B>,
    place: usize,
    reach: Reach,
    cut: bool,
) -> (ExportedView<L, B>, Result<(), ScheduleError>)
    requires stand { All (Stands mount.now) callers.old }
    requires workspace { IsWorkspace mount.now.board.opened.sizes workspace.old }
    requires bare { workspace.old.parts.items ≡ [] }
    requires view { view.table ≡ mount.now.board.table }
    requires well { cut ≡ false → All IsWell callers.old }
    ensures stand { All (Stands mount.now) callers.new }
    ensures on { AllGoOn mount.now.fds callers.old callers.new }
    ensures tells { TokenTells mount.now.fds cut reach place callers.old callers.new view.run result.0.run result.1 }
    ensures well { OnOk result.1 (cut ≡ false → All IsWell callers.new) }
    ensures workspace { IsWorkspace mount.now.board.opened.sizes workspace.new }
    ensures bare { workspace.new.parts.items ≡ [] }
    ensures view { result.0.table ≡ mount.now.board.table }
{
    let mut view = view;
    if at_point(reach, next_kind_at(callers, place)) {
        return (view, Ok(()));
    }
    let mut made = 0;
    while made < MOST_ADVANCES {
        let (later, turned) = turn_at(alloc, mount, callers, workspace, view, place);
        view = later;
        let Ok(turned) = turned else {
            return (view, Err(ScheduleError::NoMemory));
        };
        if ends(turned.faulted, cut) {
            return (view, Err(ScheduleError::Fault));
        }
        if come_to_point(reach, turned.answered, next_kind_at(callers, place)) {
            return (view, Ok(()));
        }
        made += 1;
    }
    (view, Err(ScheduleError::TurnsUsed))
}

// The first of some tokens.
fn first_of(tokens: &[Token]) -> Token
    requires some { 0 < length tokens.now }
    ensures { tokens.now ≡ result ∷ drop 1 tokens.now }
{
    tokens[0]
}

// Whether a cut was reached, this token too.
fn cut_then(cut: bool, token: Token) -> bool
    ensures { result ≡ cut_behind cut (token ∷ []) }
{
    match token {
        Token::Cut(_) => true,
        Token::Advance { .. } => cut,
    }
}

/// Makes the advances of a schedule's tokens, one token after another, each behind all before it, up to one that has used up its advances, or to want of memory; and arms the bench at each cut. A device
/// call that fails before any cut ends them. Whether a cut was reached is told too.
pub(crate) fn follow<'a, D: Bench, L: Lines + Drop, B: Backing + Drop>(
    alloc: Global,
    bench: &mut D,
    mount: &Mount<L, B>,
    callers: &mut [Caller<'a, L, B>],
    workspace: &mut Workspace<L, B>,
    view: ExportedView<L, B>,
    tokens: &[Token],
) -> (ExportedView<L, B>, Result<(), ScheduleError>, bool)
    requires stand { All (Stands mount.now) callers.old }
    requires workspace { IsWorkspace mount.now.board.opened.sizes workspace.old }
    requires bare { workspace.old.parts.items ≡ [] }
    requires view { view.table ≡ mount.now.board.table }
    requires well { All IsWell callers.old }
    requires images { D.can_lose_power ≡ true }
    requires within { All IsTokenWithin tokens.now }
    requires arms { (D.state bench.old).arms + length tokens.now < 2 ^ 64 }
    ensures stand { All (Stands mount.now) callers.new }
    ensures on { AllGoOn mount.now.fds callers.old callers.new }
    ensures tells { ScheduleTells mount.now.fds false tokens.now callers.old callers.new view.run result.0.run (D.state bench.old) (D.state bench.new) result.1 }
    ensures cut { CutTells result.2 (D.state bench.old) (D.state bench.new) }
    ensures armed { IsArmedOnly (D.state bench.old) (D.state bench.new) }
    ensures workspace { IsWorkspace mount.now.board.opened.sizes workspace.new }
    ensures bare { workspace.new.parts.items ≡ [] }
    ensures view { result.0.table ≡ mount.now.board.table }
{
    let mut view = view;
    let mut rest = tokens;
    let mut cut = false;
    while !rest.is_empty() {
        let token = first_of(rest);
        let (after, done) = follow_one(alloc, bench, mount, callers, workspace, view, token, cut);
        view = after;
        if done.is_err() {
            return (view, done, cut);
        }
        cut = cut_then(cut, token);
        rest = &rest[1..];
    }
    (view, Ok(()), cut)
}

// Makes the advances of one token. A cut makes none, and arms the bench.
fn follow_one<'a, D: Bench, L: Lines + Drop, B: Backing + Drop>(
    alloc: Global,
    bench: &mut D,
    mount: &Mount<L, B>,
    callers: &mut [Caller<'a, L, B>],
    workspace: &mut Workspace<L, B>,
    view: ExportedView<L, B>,
    token: Token,
    cut: bool,
) -> (ExportedView<L, B>, Result<(), ScheduleError>)
    requires stand { All (Stands mount.now) callers.old }
    requires workspace { IsWorkspace mount.now.board.opened.sizes workspace.old }
    requires bare { workspace.old.parts.items ≡ [] }
    requires view { view.table ≡ mount.now.board.table }
    requires well { cut ≡ false → All IsWell callers.old }
    requires images { D.can_lose_power ≡ true }
    requires within { IsTokenWithin token }
    requires arms { (D.state bench.old).arms + 1 < 2 ^ 64 }
    ensures stand { All (Stands mount.now) callers.new }
    ensures on { AllGoOn mount.now.fds callers.old callers.new }
    ensures tells { ScheduleTells mount.now.fds cut (token ∷ []) callers.old callers.new view.run result.0.run (D.state bench.old) (D.state bench.new) result.1 }
    ensures well { OnOk result.1 (cut_behind cut (token ∷ []) ≡ false → All IsWell callers.new) }
    ensures still { OnErr result.1 (D.state bench.new ≡ D.state bench.old) }
    ensures workspace { IsWorkspace mount.now.board.opened.sizes workspace.new }
    ensures bare { workspace.new.parts.items ≡ [] }
    ensures view { result.0.table ≡ mount.now.board.table }
{
    match token {
        Token::Advance { turn, reach } => {
            advance_to(
                alloc,
                mount,
                callers,
                workspace,
                view,
                place(turn),
                reach,
                cut,
            )
        }
        Token::Cut(number) => {
            bench.arm(number);
            (view, Ok(()))
        }
    }
}
