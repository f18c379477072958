//! The lines of a report.
ghost use Rattle.std.specs.Prelude.{◌≡◌, IfOk, length, map, string_bytes};
ghost use Rattle.std.specs.Fmt.{decimal};
ghost use Rattle.nv_trace.specs.Report.{history_text, refused_text, open_text, recovered_text, file_text, end_text, call_fields, spaced, reply_text, refusal_text, fate_text, hex_text, listed};

use crate::TraceCall;
use nv_plain::{Bytes, NoMemory, Reply};
use std::alloc::{AllocError, Global};

/// Why a call was refused.
#[derive(Clone, Copy, Debug, PartialEq, Eq)]
pub enum Refusal {
    /// The descriptor isn't open, or not in the call's mode.
    BadDescriptor,
    /// The call ends past the largest length of a file.
    TooFar,
    /// It touches more pages than one call may.
    TooLong,
    /// A device failed in an earlier call.
    Stopped,
    /// The numbers are used up: the one that was found is past the last.
    Spent { found: u64 },
    /// The log has no room now: the next number, and the least whose entry isn't free.
    Again { head: u64, tail: u64 },
    /// A part of the region failed in this call.
    RegionFault,
    /// A store failed in this call.
    StoreFault,
}

/// What became of a call that was left open: of a write, whether the recovery after it found it.
#[derive(Clone, Copy, Debug, PartialEq, Eq)]
pub enum Fate {
    /// The write is in the files, whole.
    Kept,
    /// Nothing of the write is.
    Lost,
    /// A read, or an fsync: it was begun, and has no answer.
    Unanswered,
}

/// The line of a call that was answered: `PLACE T CALL = REPLY`.
pub fn history_line(
    alloc: Global,
    place: u64,
    thread: u64,
    call: &TraceCall,
    reply: &Reply,
) -> Result<Bytes, NoMemory>
    ensures { IfOk result (λ line. line ≡ history_text place thread call.now reply.now) }
{
    let call = call_text(alloc, call)?;
    let reply = reply_text(alloc, reply)?;
    let line = format!(in alloc; "{place} {thread} {call} = {reply}\n")?;
    Ok(Bytes::from_vec(line.into_bytes()))
}

/// The line of a call that was refused: `refused T CALL: TEXT`.
pub fn refused_line(
    alloc: Global,
    thread: u64,
    call: &TraceCall,
    refusal: &Refusal,
) -> Result<Bytes, NoMemory>
    ensures { IfOk result (λ line. line ≡ refused_text thread call.now refusal.now) }
{
    let call = call_text(alloc, call)?;
    let refusal = refusal_text(alloc, refusal)?;
    let line = format!(in alloc; "refused {thread} {call}: {refusal}\n")?;
    Ok(Bytes::from_vec(line.into_bytes()))
}

/// The line of a call that was left open: `open T CALL: kept`, `open T CALL: lost` or `open T CALL: unanswered`.
pub fn open_line(
    alloc: Global,
    thread: u64,
    call: &TraceCall,
    fate: Fate,
) -> Result<Bytes, NoMemory>
    ensures { IfOk result (λ line. line ≡ open_text thread call.now fate) }
{
    let call = call_text(alloc, call)?;
    let fate = fate_text(fate);
    let line = format!(in alloc; "open {thread} {call}: {fate}\n")?;
    Ok(Bytes::from_vec(line.into_bytes()))
}

/// The line of a recovery: its first number, the one that the region goes on with, and how many groups it found.
pub fn recovered_line(alloc: Global, first: u64, next: u64, groups: u64) -> Result<Bytes, NoMemory>
    ensures { IfOk result (λ line. line ≡ recovered_text first next groups) }
{
    let line = format!(in alloc; "recovered {first} {next} {groups}\n")?;
    Ok(Bytes::from_vec(line.into_bytes()))
}

/// The line of a file: `file NAME LEN HEX`.
pub fn file_line(alloc: Global, name: &[u8], bytes: &[u8]) -> Result<Bytes, NoMemory>
    ensures { IfOk result (λ line. line ≡ file_text name.now bytes.now) }
{
    let hex = hex_text(alloc, bytes)?;
    let rest = format!(in alloc; " {} {hex}\n", bytes.len())?;
    let mut line = Vec::new(alloc);
    line.extend_from_slice(b"file ")?;
    line.extend_from_slice(name)?;
    line.extend_from_slice(rest.as_bytes())?;
    Ok(Bytes::from_vec(line))
}

/// The last line of a report: how many calls were placed, refused and left open.
pub fn end_line(
    alloc: Global,
    placed: u64,
    refused: u64,
    unanswered: u64,
) -> Result<Bytes, NoMemory>
    ensures { IfOk result (λ line. line ≡ end_text placed refused unanswered) }
{
    let line = format!(in alloc; "end {placed} {refused} {unanswered}\n")?;
    Ok(Bytes::from_vec(line.into_bytes()))
}

// Of a write only the length is printed.
fn call_text(alloc: Global, call: &TraceCall) -> Result<String, AllocError>
    ensures { IfOk result (λ text. string_bytes text ≡ spaced (call_fields call.now)) }
{
    match call {
        TraceCall::Pread { fd, at, len } => format!(in alloc; "pread {fd} {at} {len}"),
        TraceCall::Pwrite { fd, at, bytes } => {
            format!(in alloc; "pwrite {fd} {at} {}", bytes.len())
        }
        TraceCall::Preadv { fd, at, lens } => {
            let lens = lens_text(alloc, lens.as_slice())?;
            format!(in alloc; "preadv {fd} {at} {lens}")
        }
        TraceCall::Pwritev { fd, at, parts } => {
            let lens = part_lens_text(alloc, parts.as_slice())?;
            format!(in alloc; "pwritev {fd} {at} {lens}")
        }
        TraceCall::Fsync { fd } => format!(in alloc; "fsync {fd}"),
    }
}

fn lens_text(alloc: Global, lens: &[u64]) -> Result<String, AllocError>
    ensures { IfOk result (λ text. string_bytes text ≡ listed (map decimal lens.now)) }
{
    let Some((first, rest)) = lens.split_first() else {
        return Ok(String::new(alloc));
    };
    let mut text = first.to_string(alloc)?;
    for len in rest {
        let more = len.to_string(alloc)?;
        text.push(',')?;
        text.push_str(&more)?;
    }
    Ok(text)
}

fn part_lens_text(alloc: Global, parts: &[Bytes]) -> Result<String, AllocError>
    ensures { IfOk result (λ text. string_bytes text ≡ listed (map (λ part. decimal (length part)) parts.now)) }
{
    let mut lens = Vec::new(alloc);
    for part in parts {
        lens.push(part.len() as u64)?;
    }
    lens_text(alloc, &lens)
}

fn reply_text(alloc: Global, reply: &Reply) -> Result<String, AllocError>
    ensures { IfOk result (λ text. string_bytes text ≡ reply_text reply.now) }
{
    match reply {
        Reply::Bytes(bytes) => hex_text(alloc, bytes.as_slice()),
        Reply::Parts(parts) => parts_text(alloc, parts.as_slice()),
        Reply::Count(count) => count.to_string(alloc),
        Reply::Done => String::from_str(alloc, "0"),
    }
}

fn refusal_text(alloc: Global, refusal: &Refusal) -> Result<String, AllocError>
    ensures { IfOk result (λ text. string_bytes text ≡ refusal_text refusal.now) }
{
    match refusal {
        Refusal::BadDescriptor => String::from_str(alloc, "bad descriptor"),
        Refusal::TooFar => String::from_str(alloc, "too far"),
        Refusal::TooLong => String::from_str(alloc, "too long"),
        Refusal::Stopped => String::from_str(alloc, "stopped"),
        Refusal::Spent { found } => format!(in alloc; "spent {found}"),
        Refusal::Again { head, tail } => format!(in alloc; "again {head} {tail}"),
        Refusal::RegionFault => String::from_str(alloc, "region fault"),
        Refusal::StoreFault => String::from_str(alloc, "store fault"),
    }
}

fn fate_text(fate: Fate) -> &'static str
    ensures { result.now ≡ fate_text fate }
{
    match fate {
        Fate::Kept => "kept",
        Fate::Lost => "lost",
        Fate::Unanswered => "unanswered",
    }
}

// No bytes are `-`, so that the line keeps its last field.
fn parts_text(alloc: Global, parts: &[Bytes]) -> Result<String, AllocError>
    ensures { IfOk result (λ text. string_bytes text ≡ listed (map hex_text parts.now)) }
{
    let Some((first, rest)) = parts.split_first() else {
        return Ok(String::new(alloc));
    };
    let mut text = hex_text(alloc, first.as_slice())?;
    for part in rest {
        let more = hex_text(alloc, part.as_slice())?;
        text.push(',')?;
        text.push_str(&more)?;
    }
    Ok(text)
}

fn hex_text(alloc: Global, bytes: &[u8]) -> Result<String, AllocError>
    ensures { IfOk result (λ text. string_bytes text ≡ hex_text bytes.now) }
{
    if bytes.is_empty() {
        String::from_str(alloc, "-")
    } else {
        hex::encode(alloc, bytes)
    }
}
