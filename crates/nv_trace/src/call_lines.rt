//! The lines of a trace that are calls.
ghost use Rattle.std.specs.Prelude.{◌≡◌, ◌<◌, ◌≤◌, [], ◌∷◌, false, length, IfOk, Ok, OnOk};
ghost use Rattle.nv_trace.specs.Grammar as grammar;
ghost use Rattle.nv_trace.specs.Said as said;
ghost use Rattle.nv_trace.specs.Said.{IsRead, made_by, read_of, said_by, vectored_read_of, vectored_write_of, write_of};
ghost use Rattle.nv_trace.specs.Shape.{MayFollow};
ghost use Rattle.nv_trace.specs.Traced.{has_tokens};

use crate::bad_line::{Unsaid, Why};
use crate::spelling::{LARGEST_COUNT, byte_lists_of, bytes_of, lens_of, number, says};
use crate::statement::Statement;
use crate::trace::Trace;
use crate::trace_call::TraceCall;
use nv_plain::Bytes;
use std::alloc::Global;

/// The largest number of a thread.
pub(crate) const LAST_THREAD: u64 = 7;

/// The largest number of a descriptor.
const LAST_DESCRIPTOR: u64 = 63;

/// The largest offset of a call.
const LARGEST_OFFSET: u64 = (1 << 62) - 1;

/// The words that a line begins with that is no call's.
fn is_keyword(field: &[u8]) -> bool
    ensures { result ≡ said.is_keyword field.now }
{
    says(field, "file") || says(field, "fd") || says(field, "round") || says(field, "steps")
}

/// `T fsync FD`
#[tactic(auto, unfolding(crate::specs::Said::said_by))]
pub(crate) fn sync(trace: &Trace, thread: &[u8], word: &[u8], fd: &[u8]) -> Result<Statement, Why>
    ensures read { result ≡ said_by trace.now (thread.now ∷ word.now ∷ fd.now ∷ []) }
    ensures follows { IfOk result (MayFollow trace.now) }
{
    if is_keyword(thread) || !says(word, "fsync") {
        return Err(Why::Form);
    }
    let thread = thread_of(trace, thread)?;
    let fd = call_on(trace, fd)?;
    Ok(Statement::Call {
        thread,
        call: TraceCall::Fsync { fd },
    })
}

/// `T pwrite FD OFF HEX`, `T pread FD OFF LEN`, `T pwritev FD OFF HEX,HEX,..` or `T preadv FD OFF LEN,LEN,..`
#[tactic(auto, unfolding(crate::specs::Said::said_by))]
pub(crate) fn read_or_write(
    alloc: Global,
    trace: &Trace,
    thread: &[u8],
    word: &[u8],
    fd: &[u8],
    at: &[u8],
    last: &[u8],
) -> Result<Statement, Unsaid>
    ensures read { IsRead result (said_by trace.now (thread.now ∷ word.now ∷ fd.now ∷ at.now ∷ last.now ∷ [])) }
    ensures follows { IfOk result (MayFollow trace.now) }
{
    if is_keyword(thread) {
        Err(Unsaid::Bad(Why::Form))
    } else if says(word, "pwrite") {
        write(alloc, trace, thread, fd, at, last)
    } else if says(word, "pread") {
        Ok(read(trace, thread, fd, at, last)?)
    } else if says(word, "pwritev") {
        write_parts(alloc, trace, thread, fd, at, last)
    } else if says(word, "preadv") {
        read_parts(alloc, trace, thread, fd, at, last)
    } else {
        Err(Unsaid::Bad(Why::Form))
    }
}

/// Where a call reads or writes: its descriptor and its offset.
#[derive(Clone, Copy)]
struct CallPlace {
    fd: u64,
    at: u64,
}

/// The place of a call.
fn call_at(trace: &Trace, fd: &[u8], at: &[u8]) -> Result<CallPlace, Why>
    ensures read { result ≡ said.call_at trace.now fd.now at.now }
    ensures within { IfOk result (λ place. (place.fd < length trace.now.descriptors) × (place.at ≤ grammar.largest_offset)) }
{
    let fd = call_on(trace, fd)?;
    let at = number(at, LARGEST_OFFSET)?;
    Ok(CallPlace { fd, at })
}

/// The number of a call's thread, where a call may stand.
fn thread_of(trace: &Trace, field: &[u8]) -> Result<u64, Why>
    ensures read { result ≡ said.thread_of trace.now field.now }
    ensures within { IfOk result (λ thread. thread ≤ grammar.last_thread) }
    ensures early { OnOk result (has_tokens trace.now ≡ false) }
{
    if trace.has_tokens() {
        return Err(Why::Late);
    }
    number(field, LAST_THREAD)
}

/// The descriptor of a call.
#[tactic(auto, unfolding(crate::specs::Said::call_on))]
fn call_on(trace: &Trace, fd: &[u8]) -> Result<u64, Why>
    ensures read { result ≡ said.call_on trace.now fd.now }
    ensures declared { IfOk result (λ fd. fd < length trace.now.descriptors) }
{
    let fd = number(fd, LAST_DESCRIPTOR)?;
    if fd < trace.descriptors().len() as u64 {
        Ok(fd)
    } else {
        Err(Why::Unknown)
    }
}

/// A read of a thread, by how many bytes.
fn read(trace: &Trace, thread: &[u8], fd: &[u8], at: &[u8], len: &[u8]) -> Result<Statement, Why>
    ensures read { result ≡ made_by trace.now thread.now (read_of trace.now fd.now at.now len.now) }
    ensures follows { IfOk result (MayFollow trace.now) }
{
    let thread = thread_of(trace, thread)?;
    let CallPlace { fd, at } = call_at(trace, fd, at)?;
    let len = number(len, LARGEST_COUNT)?;
    Ok(Statement::Call {
        thread,
        call: TraceCall::Pread { fd, at, len },
    })
}

/// A write of a thread, by its bytes.
fn write(
    alloc: Global,
    trace: &Trace,
    thread: &[u8],
    fd: &[u8],
    at: &[u8],
    hex: &[u8],
) -> Result<Statement, Unsaid>
    ensures read { IsRead result (made_by trace.now thread.now (write_of trace.now fd.now at.now hex.now)) }
    ensures follows { IfOk result (MayFollow trace.now) }
{
    let thread = thread_of(trace, thread)?;
    let CallPlace { fd, at } = call_at(trace, fd, at)?;
    let bytes = bytes_of(alloc, hex)?;
    Ok(Statement::Call {
        thread,
        call: TraceCall::Pwrite { fd, at, bytes },
    })
}

/// A vectored write of a thread, by the bytes of its parts.
fn write_parts(
    alloc: Global,
    trace: &Trace,
    thread: &[u8],
    fd: &[u8],
    at: &[u8],
    parts: &[u8],
) -> Result<Statement, Unsaid>
    ensures read { IsRead result (made_by trace.now thread.now (vectored_write_of trace.now fd.now at.now parts.now)) }
    ensures follows { IfOk result (MayFollow trace.now) }
{
    let thread = thread_of(trace, thread)?;
    let CallPlace { fd, at } = call_at(trace, fd, at)?;
    let parts = byte_lists_of(alloc, parts)?;
    Ok(Statement::Call {
        thread,
        call: TraceCall::Pwritev { fd, at, parts },
    })
}

/// A vectored read of a thread, by the lengths of its parts.
fn read_parts(
    alloc: Global,
    trace: &Trace,
    thread: &[u8],
    fd: &[u8],
    at: &[u8],
    lens: &[u8],
) -> Result<Statement, Unsaid>
    ensures read { IsRead result (made_by trace.now thread.now (vectored_read_of trace.now fd.now at.now lens.now)) }
    ensures follows { IfOk result (MayFollow trace.now) }
{
    let thread = thread_of(trace, thread)?;
    let CallPlace { fd, at } = call_at(trace, fd, at)?;
    let lens = lens_of(alloc, lens)?;
    Ok(Statement::Call {
        thread,
        call: TraceCall::Preadv { fd, at, lens },
    })
}

/// `T pfill FD OFF LEN BYTE`
#[tactic(auto, unfolding(crate::specs::Said::said_by))]
pub(crate) fn fill(
    alloc: Global,
    trace: &Trace,
    thread: &[u8],
    word: &[u8],
    fd: &[u8],
    at: &[u8],
    len: &[u8],
    byte: &[u8],
) -> Result<Statement, Unsaid>
    ensures read { IsRead result (said_by trace.now (thread.now ∷ word.now ∷ fd.now ∷ at.now ∷ len.now ∷ byte.now ∷ [])) }
    ensures follows { IfOk result (MayFollow trace.now) }
{
    if is_keyword(thread) || !says(word, "pfill") {
        return Err(Unsaid::Bad(Why::Form));
    }
    let thread = thread_of(trace, thread)?;
    let CallPlace { fd, at } = call_at(trace, fd, at)?;
    let len = number(len, LARGEST_COUNT)?;
    let byte = number(byte, 255)?;
    let bytes = vec![in alloc; byte as u8; len as usize]?;
    Ok(Statement::Call {
        thread,
        call: TraceCall::Pwrite {
            fd,
            at,
            bytes: Bytes::from_vec(bytes),
        },
    })
}
