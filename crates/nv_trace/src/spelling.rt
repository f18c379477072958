//! What a field of a line spells: a number, bytes, a word.
ghost use Rattle.std.specs.Prelude.{◌≡◌, ◌<◌, ◌≤◌, ◌^◌, ◌==◌, length, map, nat_le, IfSome, IfErr, IfOk, MatchOption, SomeIff, Ok, Err};
ghost use Rattle.std.specs.List.{concat, list_all, sum};
ghost use Rattle.nv_trace.specs.Grammar as grammar;
ghost use Rattle.nv_trace.specs.Grammar.{IsPartCount, each_of, hex_of, is_digit, is_numeral, largest_count, most_parts, movable, number_of, part_of, value_of};
ghost use Rattle.nv_trace.specs.Lines.{parts_between};
ghost use Rattle.nv_trace.specs.Said.{IsRead, IsUnsaid};

use crate::bad_line::{Unsaid, Why};
use crate::part_list::{LenList, PartList};
use arrayvec::ArrayVec;
use hex::FromHexError;
use nv_plain::{Bytes, NoMemory};
use std::alloc::Global;

/// The most bytes that one call moves.
pub(crate) const LARGEST_COUNT: u64 = 131_072;

/// The most parts of some text that is in some form: those of a vectored call. Lines and tokens have fewer.
const MOST_PARTS: usize = 16;

/// The bytes that a field spells, `-` for none.
#[tactic(auto, unfolding(crate::specs::Grammar::bytes_of))]
pub(crate) fn bytes_of(alloc: Global, field: &[u8]) -> Result<Bytes, Unsaid>
    ensures read { IsRead result (grammar.bytes_of field.now) }
    ensures few { IfOk result (λ bytes. length bytes ≤ largest_count) }
{
    if says(field, "-") {
        return Ok(Bytes::from_vec(Vec::new(alloc)));
    }
    let bytes = hex_bytes(alloc, field)?;
    bytes.ok_or(Unsaid::Bad(Why::Hex))
}

/// The lists of bytes that a field spells, a comma between each two.
#[tactic(auto, unfolding(crate::specs::Grammar::byte_lists_of))]
pub(crate) fn byte_lists_of(alloc: Global, field: &[u8]) -> Result<PartList, Unsaid>
    ensures read { IsRead result (grammar.byte_lists_of field.now) }
    ensures count { IfOk result (λ parts. IsPartCount (length parts)) }
    ensures few { IfOk result (λ parts. length (concat parts) ≤ largest_count) }
{
    let fields = parts_of(field)?;
    let parts = each_part_of(alloc, fields.as_slice())?;
    if are_movable(&parts) {
        Ok(PartList::from_vec(parts))
    } else {
        Err(Unsaid::Bad(Why::Hex))
    }
}

/// The lengths that a field spells, a comma between each two.
#[tactic(auto, unfolding(crate::specs::Grammar::lens_of))]
pub(crate) fn lens_of(alloc: Global, field: &[u8]) -> Result<LenList, Unsaid>
    ensures read { IsRead result (grammar.lens_of field.now) }
    ensures count { IfOk result (λ lens. IsPartCount (length lens)) }
    ensures few { IfOk result (λ lens. sum lens ≤ largest_count) }
{
    let fields = parts_of(field)?;
    let lens = each_len_of(alloc, fields.as_slice())?;
    if are_countable(&lens) {
        Ok(LenList::from_vec(lens))
    } else {
        Err(Unsaid::Bad(Why::Number))
    }
}

/// The parts of a list, where a call may have so many.
#[tactic(auto, unfolding(crate::specs::Grammar::parts_of))]
fn parts_of(field: &[u8]) -> Result<ArrayVec<&[u8], MOST_PARTS>, Why>
    ensures read { IfOk result (λ parts. grammar.parts_of field.now ≡ Ok (map (λ part. part.now) parts.items)) }
    ensures many { IfErr result (λ why. grammar.parts_of field.now ≡ Err why) }
    ensures count { IfOk result (λ parts. IsPartCount (length parts.items)) }
{
    match parts(field, b',') {
        Some(parts) => Ok(parts),
        None => Err(Why::Many),
    }
}

/// The bytes that each of some parts spells.
fn each_part_of(alloc: Global, fields: &[&[u8]]) -> Result<Vec<Bytes>, Unsaid>
    ensures read { IfOk result (λ parts. each_of part_of (map (λ field. field.now) fields.now) ≡ Ok parts.items) }
    ensures bad { IfErr result (IsUnsaid (each_of part_of (map (λ field. field.now) fields.now))) }
    ensures count { IfOk result (λ parts. length parts.items ≡ length fields.now) }
{
    let mut parts = Vec::new(alloc);
    for field in fields {
        parts.push(part_of(alloc, field)?)?;
    }
    Ok(parts)
}

/// The bytes that a part spells, `-` for none.
#[tactic(auto, unfolding(crate::specs::Grammar::part_of))]
fn part_of(alloc: Global, field: &[u8]) -> Result<Bytes, Unsaid>
    ensures { IsRead result (grammar.part_of field.now) }
{
    if field.is_empty() {
        return Err(Unsaid::Bad(Why::Hex));
    }
    bytes_of(alloc, field)
}

/// The length that each of some parts spells.
fn each_len_of(alloc: Global, fields: &[&[u8]]) -> Result<Vec<u64>, Unsaid>
    ensures read { IfOk result (λ lens. each_of (number_of largest_count) (map (λ field. field.now) fields.now) ≡ Ok lens.items) }
    ensures bad { IfErr result (IsUnsaid (each_of (number_of largest_count) (map (λ field. field.now) fields.now))) }
    ensures count { IfOk result (λ lens. length lens.items ≡ length fields.now) }
{
    let mut lens = Vec::new(alloc);
    for field in fields {
        lens.push(number(field, LARGEST_COUNT)?)?;
    }
    Ok(lens)
}

/// Whether a call may move some lists of bytes together.
fn are_movable(parts: &[Bytes]) -> bool
    ensures { result ≡ nat_le (length (concat parts.now)) largest_count }
{
    let mut left = LARGEST_COUNT;
    for part in parts {
        let Some(rest) = left.checked_sub(part.len() as u64) else {
            return false;
        };
        left = rest;
    }
    true
}

/// Whether a call may move so many bytes together.
fn are_countable(lens: &[u64]) -> bool
    ensures { result ≡ nat_le (sum lens.now) largest_count }
{
    let mut left = LARGEST_COUNT;
    for len in lens {
        let Some(rest) = left.checked_sub(*len) else {
            return false;
        };
        left = rest;
    }
    true
}

/// The bytes that hexadecimal digits spell, where a call may move so many.
#[tactic(auto, unfolding(crate::specs::Grammar::hex_of))]
fn hex_bytes(alloc: Global, field: &[u8]) -> Result<Option<Bytes>, NoMemory>
    ensures spelled { IfOk result (λ bytes. bytes ≡ hex_of field.now) }
    ensures few { IfOk result (λ bytes. IfSome bytes (λ moved. length moved ≤ largest_count)) }
{
    match hex::decode(alloc, field) {
        Ok(bytes) => Ok(moved(bytes)),
        Err(FromHexError::OutOfMemory) => Err(NoMemory),
        Err(_) => Ok(None),
    }
}

/// Some bytes, where a call may move so many.
fn moved(bytes: Vec<u8>) -> Option<Bytes>
    ensures moved { result ≡ movable bytes.items }
    ensures few { IfSome result (λ moved. length moved ≤ largest_count) }
{
    if bytes.len() as u64 <= LARGEST_COUNT {
        Some(Bytes::from_vec(bytes))
    } else {
        None
    }
}

/// The number that a field spells, up to the greatest that may stand there.
#[tactic(auto, unfolding(crate::specs::Grammar::number_of))]
pub(crate) fn number(field: &[u8], most: u64) -> Result<u64, Why>
    ensures number { result ≡ number_of most field.now }
    ensures within { IfOk result (λ number. number ≤ most) }
{
    if !is_decimal(field) {
        return Err(Why::Number);
    }
    match value(field) {
        Some(value) if value <= most => Ok(value),
        _ => Err(Why::Number),
    }
}

/// Whether these are decimal digits, the first of them no zero where there are more.
fn is_decimal(field: &[u8]) -> bool
    ensures { result ≡ is_numeral field.now }
{
    let len = field.len();
    1 <= len && are_digits(field) && (len == 1 || field[0] != b'0')
}

fn are_digits(field: &[u8]) -> bool
    ensures { result ≡ list_all is_digit field.now }
{
    field.iter().all(|byte| is_decimal_digit(*byte))
}

fn is_decimal_digit(byte: u8) -> bool
    ensures { result ≡ is_digit byte }
{
    matches!(byte, b'0'..=b'9')
}

/// The number that decimal digits stand for, where it is below 2^64.
fn value(digits: &[u8]) -> Option<u64>
    ensures { SomeIff result (value_of digits.now < 2 ^ 64) (value_of digits.now) }
{
    let mut value: u64 = 0;
    for digit in digits {
        let more = u64::from(digit.saturating_sub(b'0'));
        value = value.checked_mul(10)?.checked_add(more)?;
    }
    Some(value)
}

/// The parts between the separators, where there are no more than any form has.
pub(crate) fn parts(text: &[u8], separator: u8) -> Option<ArrayVec<&[u8], MOST_PARTS>>
    ensures parts { MatchOption result (most_parts < length (parts_between separator text.now)) (λ parts. map (λ part. part.now) parts.items ≡ parts_between separator text.now) }
    ensures few { IfSome result (λ parts. length parts.items ≤ most_parts) }
{
    let mut parts = ArrayVec::new();
    for part in text.split(|byte| *byte == separator) {
        parts.try_push(part).ok()?;
    }
    Some(parts)
}

/// Whether a field is this word.
pub(crate) fn says(field: &[u8], word: &str) -> bool
    ensures { result ≡ grammar.says field.now word.now }
{
    field == word.as_bytes()
}
