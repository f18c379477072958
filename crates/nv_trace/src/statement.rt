//! The lines of a trace.
ghost use Rattle.std.specs.Prelude.{◌≡◌, ◌<◌, ◌==◌, [], ◌∷◌, length, map, IfOk, MatchOption, OnOk, Ok};
ghost use Rattle.std.specs.List.{list_any};
ghost use Rattle.nv_trace.specs.Lines.{fields_of};
ghost use Rattle.nv_trace.specs.Grammar as grammar;
ghost use Rattle.nv_trace.specs.Grammar.{and_then};
ghost use Rattle.nv_trace.specs.Said as said;
ghost use Rattle.nv_trace.specs.Said.{IsRead, new_name, said_by, turn_of};
ghost use Rattle.nv_trace.specs.Shape.{MayFollow};
ghost use Rattle.nv_trace.specs.declared.statement.Statement.TheVariants as statement;

use crate::bad_line::{Unsaid, Why};
use crate::call_lines::{fill, read_or_write, sync};
use crate::spelling::{number, parts, says};
use crate::trace::{Descriptor, Trace};
use crate::trace_call::TraceCall;
use nv_plain::limits::{FILE_LIMIT, NAME_LIMIT};
use nv_plain::{Bytes, Mode, NoMemory, is_file_name};
use std::alloc::Global;

/// The most descriptors of a trace.
const MOST_DESCRIPTORS: usize = 64;

/// The largest number of a descriptor.
const LAST_DESCRIPTOR: u64 = 63;

/// What one line of a trace says.
#[derive(Debug, Drop)]
pub enum Statement {
    /// `file NAME`
    File(Bytes),
    /// `fd N NAME MODE`
    Opened(Descriptor),
    /// A call of a thread.
    Call { thread: u64, call: TraceCall },
    /// `round`
    Round,
}

/// What a line says behind those of a trace.
#[tactic(auto, unfolding(crate::specs::Said::said))]
pub(crate) fn statement_of(alloc: Global, trace: &Trace, line: &[u8]) -> Result<Statement, Unsaid>
    ensures read { IsRead result (said.said trace.now (fields_of line.now)) }
    ensures follows { IfOk result (MayFollow trace.now) }
{
    let Some(fields) = parts(line, b' ') else {
        return Err(Unsaid::Bad(Why::Form));
    };
    let fields = fields.as_slice();
    if has_empty(fields) {
        return Err(Unsaid::Bad(Why::Form));
    }
    by_fields(alloc, trace, fields)
}

fn has_empty(fields: &[&[u8]]) -> bool
    ensures { result ≡ list_any (λ field. length field.now == 0) fields.now }
{
    fields.iter().any(|field| field.is_empty())
}

/// What some fields say, by how many there are.
fn by_fields(alloc: Global, trace: &Trace, fields: &[&[u8]]) -> Result<Statement, Unsaid>
    ensures read { IsRead result (said_by trace.now (map (λ field. field.now) fields.now)) }
    ensures follows { IfOk result (MayFollow trace.now) }
{
    match fields {
        [word] => Ok(round(trace, word)?),
        [word, name] => file(alloc, trace, word, name),
        [thread, word, fd] => Ok(sync(trace, thread, word, fd)?),
        [word, number, name, mode] => Ok(descriptor(trace, word, number, name, mode)?),
        [thread, word, fd, at, last] => read_or_write(alloc, trace, thread, word, fd, at, last),
        [thread, word, fd, at, len, byte] => fill(alloc, trace, thread, word, fd, at, len, byte),
        _ => Err(Unsaid::Bad(Why::Form)),
    }
}

/// `round`
#[tactic(auto, unfolding(crate::specs::Said::said_by))]
fn round(trace: &Trace, word: &[u8]) -> Result<Statement, Why>
    ensures read { result ≡ said_by trace.now (word.now ∷ []) }
    ensures follows { IfOk result (MayFollow trace.now) }
{
    if says(word, "round") && trace.form().has_rounds() {
        Ok(Statement::Round)
    } else {
        Err(Why::Form)
    }
}

/// `file NAME`
#[tactic(auto, unfolding(crate::specs::Said::said_by))]
fn file(alloc: Global, trace: &Trace, word: &[u8], name: &[u8]) -> Result<Statement, Unsaid>
    ensures read { IsRead result (said_by trace.now (word.now ∷ name.now ∷ [])) }
    ensures follows { IfOk result (MayFollow trace.now) }
{
    if !says(word, "file") {
        return Err(Unsaid::Bad(Why::Form));
    }
    check_new(trace, name)?;
    Ok(Statement::File(copied(alloc, name)?))
}

/// Whether a file may be declared here, and under this name.
#[tactic(auto, unfolding(crate::specs::Said::new_name))]
fn check_new(trace: &Trace, name: &[u8]) -> Result<(), Why>
    ensures read { result ≡ and_then (λ _. Ok tt) (new_name trace.now name.now) }
    ensures follows { OnOk result (MayFollow trace.now (statement.File name.now)) }
    ensures name { OnOk result (new_name trace.now name.now ≡ Ok name.now) }
{
    if trace.has_begun() {
        Err(Why::Late)
    } else if trace.names().len() >= FILE_LIMIT as usize {
        Err(Why::Many)
    } else if !is_file_name(name, NAME_LIMIT) {
        Err(Why::Name)
    } else if place_of(trace.names(), name) < trace.names().len() as u64 {
        Err(Why::Repeat)
    } else {
        Ok(())
    }
}

/// `fd N NAME MODE`
#[tactic(auto, unfolding(crate::specs::Said::said_by, crate::specs::Said::new_descriptor))]
fn descriptor(
    trace: &Trace,
    word: &[u8],
    number: &[u8],
    name: &[u8],
    mode: &[u8],
) -> Result<Statement, Why>
    ensures read { result ≡ said_by trace.now (word.now ∷ number.now ∷ name.now ∷ mode.now ∷ []) }
    ensures follows { IfOk result (MayFollow trace.now) }
{
    if !says(word, "fd") {
        return Err(Why::Form);
    }
    if trace.has_begun() {
        return Err(Why::Late);
    }
    if trace.descriptors().len() >= MOST_DESCRIPTORS {
        return Err(Why::Many);
    }
    check_turn(trace, number)?;
    let file = file_of(trace, name)?;
    let mode = mode_of(mode)?;
    Ok(Statement::Opened(Descriptor { file, mode }))
}

/// Whether a field is the number of the next descriptor.
fn check_turn(trace: &Trace, field: &[u8]) -> Result<u64, Why>
    ensures { result ≡ turn_of trace.now field.now }
{
    let number = number(field, LAST_DESCRIPTOR)?;
    if number == trace.descriptors().len() as u64 {
        Ok(number)
    } else {
        Err(Why::Number)
    }
}

/// The place of a file that is declared, by its name.
#[tactic(auto, unfolding(crate::specs::Said::said_file))]
fn file_of(trace: &Trace, name: &[u8]) -> Result<u64, Why>
    ensures read { result ≡ said.said_file trace.now name.now }
    ensures declared { IfOk result (λ file. file < length trace.now.names) }
{
    if !is_file_name(name, NAME_LIMIT) {
        return Err(Why::Name);
    }
    let place = place_of(trace.names(), name);
    if place < trace.names().len() as u64 {
        Ok(place)
    } else {
        Err(Why::Unknown)
    }
}

/// The mode that a field spells.
#[tactic(auto, unfolding(crate::specs::Grammar::mode_of))]
fn mode_of(field: &[u8]) -> Result<Mode, Why>
    ensures { result ≡ grammar.mode_of field.now }
{
    if says(field, "r") {
        Ok(Mode::R)
    } else if says(field, "w") {
        Ok(Mode::W)
    } else if says(field, "rw") {
        Ok(Mode::Rw)
    } else {
        Err(Why::Mode)
    }
}

/// The place of a name among some names, or how many there are.
pub fn place_of(names: &[Bytes], name: &[u8]) -> u64
    ensures { result ≡ said.said_place name.now names.now }
{
    for (place, known) in names.iter().enumerate() {
        if known.as_slice() == name {
            return place as u64;
        }
    }
    names.len() as u64
}

/// A copy of a name.
fn copied(alloc: Global, name: &[u8]) -> Result<Bytes, NoMemory>
    ensures { IfOk result (λ bytes. bytes ≡ name.now) }
{
    Ok(Bytes::from_vec(Vec::from_slice(alloc, name)?))
}
