//! What a life of a schedule shows, once its region is recovered, and the text of lives in turn.
ghost use Rattle.std.specs.Prelude.{◌≡◌, ◌≢◌, ◌+◌, ◌^◌, ◌<◌, ◌≤◌, ◌++◌, [], ◌∷◌, Bool, List, ℕ, length, map, sum_by, true, false, None, Err, IfOk, IfSome, OnOk};
ghost use Rattle.nv_plain.specs.Files.{Files};
ghost use Rattle.nv_pmem.specs.RowStates.{AreNow};
ghost use Rattle.nv_store.specs.Store.{Store};
ghost use Rattle.nv_open.specs.Refusals.{IsRefusedFor};
ghost use Rattle.nv_open.specs.Unopened.{HasHeader, StandsAsBefore, TellsOf};
ghost use Rattle.nv_recover.specs.Standing.{files_of};
ghost use Rattle.nv_runner.specs.Faithful.{named};
ghost use Rattle.nv_runner.specs.FaithfulRuns.{shown_call};
ghost use Rattle.nv_runner.specs.Reports.{Report};
ghost use Rattle.nv_top.specs.Commands.{IsGivenBack};
ghost use Rattle.nv_top.specs.LifeLines.{AreByLine, AreCounts, AreKeptLives, AreLinesOf, HaveALineEach, IsTextOfLives, KeepALineEach, ShowsLife, ShowsLines, line_kept, line_shown, texts_of};
ghost use Rattle.nv_top.specs.Ready.{IsAtHome};
ghost use Rattle.nv_top.specs.Reports.{file_lines};
ghost use Rattle.nv_top.specs.Stops.{CountHasCause};
ghost use Rattle.nv_top.specs.declared.ending.Stop.TheVariants as stops;

use crate::ending::Stop;
use crate::fates::life_fates;
use crate::files::read_files;
use crate::outcome::Fated;
use crate::recovery::parts_have_lines;
use crate::text::{push, push_files, push_open};
use nv_bench::Bench;
use nv_header::Names;
use nv_open::{Restored, recover_region};
use nv_plain::{Bytes, NoMemory};
use nv_pmem::images_follow_calls;
use nv_recover::{Recovered, images_stand_for_files};
use nv_runner::{Placed, Shown, SortedCalls, push_history, show_refusals};
use nv_store::Backing;
use nv_trace::{TracedCall, end_line, refused_line};
use std::alloc::Global;

/// The line of a refused call, and the number that the call's own line has in the trace.
#[derive(Debug, Drop)]
pub(crate) struct RefusedLine {
    pub(crate) line: u64,
    pub(crate) text: Bytes,
}

/// The lines that a life of a schedule shows, and how many.
#[derive(Debug, Drop)]
pub(crate) struct LifeLines {
    /// How many calls have a place.
    pub(crate) placed: u64,
    /// Their lines.
    pub(crate) history: Vec<u8>,
    /// Those of the refused calls.
    pub(crate) refused: Vec<RefusedLine>,
    /// How many calls were left open.
    pub(crate) opened: u64,
    /// Their lines.
    pub(crate) open_lines: Vec<u8>,
    /// How many calls of each thread all these lines are of; at most 2^64 - 1.
    pub(crate) listed: [u64; 8],
    /// Those of the files; none where another life follows, which begins with them.
    pub(crate) files: Vec<u8>,
}

/// Recovers the region of a bench, and gives all back. The lines of a life's sorted calls, the first one's place being this, of those that were begun beside them, and of the files, where it is the last life.
pub(crate) fn show_life<T: Bench>(
    alloc: Global,
    bench: &mut T,
    sorted: SortedCalls<'_>,
    begun: &[&TracedCall],
    place: u64,
    last: bool,
) -> Result<LifeLines, Stop>
    requires at_home { IsAtHome (T.state bench.old) }
    requires places { place + length sorted.placed.items < 2 ^ 64 }
    ensures back { IsGivenBack (T.state bench.old) (T.state bench.new) }
    ensures shown { IfOk result (λ lines. IfSome (T.state bench.old).told (λ holding. ShowsLife place last holding sorted.entry (map (λ call. call.now) begun.now) (T.state bench.new).told lines)) }
    ensures refused { (why : _) → result ≡ Err (stops.Region why) → IfSome (T.state bench.old).told (λ holding. IsRefusedFor holding.parts why) }
    ensures each { IfOk result HaveALineEach }
    ensures standing { IfSome (T.state bench.old).told (λ was. HasHeader was.parts → TellsOf (StandsAsBefore was) (T.state bench.new).told) }
    ensures silent { OnOk result ((T.state bench.old).told ≡ None → (T.state bench.new).told ≡ None) }
    ensures cause { CountHasCause (T.state bench.old).faults (T.state bench.new).faults result }
    ensures turns { result ≢ Err stops.Turns }
    ensures never_falls { (T.state bench.old).faults ≤ (T.state bench.new).faults }
{
    images_follow_calls();
    images_stand_for_files();
    let restored = recover_region(alloc, bench)?;
    let Restored {
        region,
        mut stores,
        found,
    } = restored;
    let lines = life_lines(
        alloc,
        sorted,
        begun,
        region.names(),
        &found,
        &mut stores,
        place,
        last,
    );
    let parts = region.into_parts();
    parts_have_lines(&parts);
    bench.give_back(parts, stores);
    lines
}

// The lines of a life whose writes that were left open a recovery met, and whose files the stores hold.
fn life_lines<B: Backing>(
    alloc: Global,
    sorted: SortedCalls<'_>,
    begun: &[&TracedCall],
    names: &Names,
    found: &Recovered,
    stores: &mut Vec<B>,
    place: u64,
    last: bool,
) -> Result<LifeLines, Stop>
    requires stores { length stores.old.items ≡ length names.now }
    requires places { place + length sorted.placed.items < 2 ^ 64 }
    ensures lines { IfOk result (λ lines. (now : List Store) → AreNow (map B.history stores.old.items) now
        → ShowsLines place last sorted.entry (map (λ call. call.now) begun.now) lines found.now names.now (files_of now)) }
    ensures each { IfOk result HaveALineEach }
    ensures histories { map B.history stores.new.items ≡ map B.history stores.old.items }
    ensures never { (why : _) → ¬ (result ≡ Err (stops.Region why)) }
    ensures cause { CountHasCause (sum_by B.fault_count stores.old.items) (sum_by B.fault_count stores.new.items) result }
{
    let files = files_text(alloc, names, stores, last)?;
    let lines = calls_lines(alloc, sorted, begun, found, files, place)?;
    Ok(lines)
}

// The lines of the files that stores hold, if they are asked for.
fn files_text<B: Backing>(
    alloc: Global,
    names: &Names,
    stores: &mut Vec<B>,
    asked: bool,
) -> Result<Vec<u8>, Stop>
    requires { length stores.old.items ≡ length names.now }
    ensures text { IfOk result (λ text. (now : List Store) → AreNow (map B.history stores.old.items) now → asked ≡ true → text.items ≡ file_lines (named names.now (files_of now))) }
    ensures histories { map B.history stores.new.items ≡ map B.history stores.old.items }
    ensures never { (why : _) → ¬ (result ≡ Err (stops.Region why)) }
    ensures cause { CountHasCause (sum_by B.fault_count stores.old.items) (sum_by B.fault_count stores.new.items) result }
{
    let mut text = Vec::new(alloc);
    if asked {
        let files = read_files(alloc, stores)?;
        push_files(alloc, &mut text, names.as_slice(), &files)?;
    }
    Ok(text)
}

// The lines of a life's calls, beside those of its files.
fn calls_lines(
    alloc: Global,
    sorted: SortedCalls<'_>,
    begun: &[&TracedCall],
    found: &Recovered,
    files: Vec<u8>,
    place: u64,
) -> Result<LifeLines, NoMemory>
    requires places { place + length sorted.placed.items < 2 ^ 64 }
    ensures lines { IfOk result (λ lines. (last : Bool) (names : List (List ℕ)) (shown : Files) → (last ≡ true → files.items ≡ file_lines (named names shown))
        → ShowsLines place last sorted.entry (map (λ call. call.now) begun.now) lines found.now names shown) }
    ensures each { IfOk result HaveALineEach }
{
    let SortedCalls {
        placed,
        refused,
        open_calls,
    } = sorted;
    let mut history = Vec::new(alloc);
    push_history(alloc, &mut history, place, &placed)?;
    let shown = show_refusals(alloc, refused)?;
    let refused = shown_texts(alloc, &shown)?;
    let fated = life_fates(alloc, &open_calls, begun, found)?;
    let mut open_lines = Vec::new(alloc);
    push_open(alloc, &mut open_lines, &fated)?;
    Ok(LifeLines {
        placed: placed.len() as u64,
        history,
        refused,
        opened: fated.len() as u64,
        open_lines,
        listed: count_listed(&placed, &shown, &fated),
        files,
    })
}

// How many calls of each thread are among those that a report lists.
fn count_listed(placed: &[Placed<'_>], refused: &[Shown<'_>], left: &[Fated<'_>]) -> [u64; 8]
    ensures { AreCounts (map (λ p. p.call.now) placed.now ++ map (λ r. r.call.now) refused.now ++ map (λ o. o.call.now) left.now) result }
{
    let mut counts = [0; 8];
    for p in placed {
        count(&mut counts, p.call);
    }
    for r in refused {
        count(&mut counts, r.call);
    }
    for o in left {
        count(&mut counts, o.call);
    }
    counts
}

// Counts a call more.
fn count(counts: &mut [u64; 8], call: &TracedCall)
    ensures { (calls : List TracedCall) → AreCounts calls counts.old → AreCounts (calls ++ call.now ∷ []) counts.new }
{
    let thread = call.thread as usize;
    if thread < counts.len() {
        counts[thread] = counts[thread].saturating_add(1);
    }
}

// The lines of refusals that are shown, in their order, each with the number of its call's.
fn shown_texts(alloc: Global, shown: &[Shown<'_>]) -> Result<Vec<RefusedLine>, NoMemory>
    ensures { IfOk result (λ lines. map line_kept lines.items ≡ map line_shown (map shown_call shown.now)) }
{
    let mut lines = Vec::new(alloc);
    for r in shown {
        let text = refused_line(alloc, r.call.thread, &r.call.call, &r.refusal)?;
        lines.push(RefusedLine {
            line: r.call.line,
            text,
        })?;
    }
    Ok(lines)
}

/// What is shown of lives that crashes ended, in turn.
#[derive(Debug, Drop)]
pub(crate) struct LivesShown {
    /// Their lines, but for those of refused calls.
    pub(crate) text: Vec<u8>,
    /// How many calls have a place.
    pub(crate) placed: u64,
    /// The lines of the refused calls.
    pub(crate) refused: Vec<RefusedLine>,
    /// How many calls were left open.
    pub(crate) opened: u64,
}

impl LivesShown {
    /// What is shown before the first life: nothing. Takes no memory.
    pub(crate) fn new(alloc: Global) -> Self
        ensures none { AreKeptLives result [] }
        ensures each { KeepALineEach result }
    {
        LivesShown {
            text: Vec::new(alloc),
            placed: 0,
            refused: Vec::new(alloc),
            opened: 0,
        }
    }

    /// Takes one more life, which a crash ended.
    pub(crate) fn end_life(&mut self, life: LifeLines) -> Result<(), NoMemory>
        requires kept { KeepALineEach self.old }
        requires each { HaveALineEach life }
        ensures each { OnOk result (KeepALineEach self.new) }
        ensures more { OnOk result ((ended : List Report) (report : Report) → AreKeptLives self.old ended → AreLinesOf self.old.placed false report life → AreKeptLives self.new (ended ++ report ∷ [])) }
    {
        self.text.extend_from_slice(&life.history)?;
        self.text.extend_from_slice(&life.open_lines)?;
        self.text.extend_from_slice(b"crash\n")?;
        push_lines(&mut self.refused, life.refused)?;
        self.placed += life.placed;
        self.opened += life.opened;
        Ok(())
    }

    /// The text of the report of all lives, with the last one.
    pub(crate) fn text_with(mut self, alloc: Global, last: LifeLines) -> Result<Vec<u8>, NoMemory>
        requires kept { KeepALineEach self }
        requires each { HaveALineEach last }
        ensures { IfOk result (λ text. (ended : List Report) (report : Report) → AreKeptLives self ended → AreLinesOf self.placed true report last → IsTextOfLives ended report text.items) }
    {
        self.text.extend_from_slice(&last.history)?;
        push_lines(&mut self.refused, last.refused)?;
        push_by_line(&mut self.text, &mut self.refused)?;
        self.text.extend_from_slice(&last.open_lines)?;
        self.text.extend_from_slice(&last.files)?;
        let count = count_of(&self.refused);
        let end = end_line(
            alloc,
            self.placed + last.placed,
            count,
            self.opened + last.opened,
        )?;
        push(&mut self.text, &end)?;
        Ok(self.text)
    }
}

// How many lines there are.
fn count_of(lines: &[RefusedLine]) -> u64
    ensures { result ≡ length lines.now }
{
    lines.len() as u64
}

// Puts lines behind others.
fn push_lines(all: &mut Vec<RefusedLine>, more: Vec<RefusedLine>) -> Result<(), NoMemory>
    ensures { OnOk result (map line_kept all.new.items ≡ map line_kept all.old.items ++ map line_kept more.items) }
{
    for line in more {
        all.push(line)?;
    }
    Ok(())
}

// Puts lines in the order of their numbers, and their texts behind another.
fn push_by_line(text: &mut Vec<u8>, lines: &mut Vec<RefusedLine>) -> Result<(), NoMemory>
    ensures order { OnOk result (AreByLine (map line_kept lines.old.items) (map line_kept lines.new.items)) }
    ensures text { OnOk result (text.new.items ≡ text.old.items ++ texts_of (map line_kept lines.new.items)) }
{
    lines.sort_by_key(|one| one.line)?;
    push_texts(text, lines)
}

// Puts the texts of lines behind another, in their order.
fn push_texts(text: &mut Vec<u8>, lines: &[RefusedLine]) -> Result<(), NoMemory>
    ensures { OnOk result (text.new.items ≡ text.old.items ++ texts_of (map line_kept lines.now)) }
{
    for one in lines {
        push(text, &one.text)?;
    }
    Ok(())
}
