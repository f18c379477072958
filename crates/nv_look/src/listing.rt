//! What stands in a log: its committed numbers, each as the group that it leads or as a bad one.
ghost use Rattle.std.specs.Prelude.{◌≡◌, ◌+◌, ◌^◌, ◌<◌, ◌≤◌, length, map, take, drop, sum_by, All, IfOk, OnOk};
ghost use Rattle.nv_plain.specs.Faults.{HasCause};
ghost use Rattle.nv_pmem.specs.Rows.{RowTells, AreOnlyRead, row_words};
ghost use Rattle.nv_entry.specs.Checks.{SaysBounds};
ghost use Rattle.nv_look.specs.Causes.{HasLookCause};
ghost use Rattle.nv_look.specs.Listings.{IsListing, IsRow, group_bytes};
ghost use Rattle.nv_look.specs.Rows.{AreInRange, IsInRange, row_end, row_start};
ghost use Rattle.nv_look.specs.Walks.{HasListed, IsWholeWalk};

use crate::LookError;
use nv_entry::{Bounds, GroupCheck, PieceHead, check_group, read_entry};
use nv_pmem::{Lines, RegionFault};
use std::alloc::Global;
use std::marker::Model;

/// What stands at a committed number of a log.
#[derive(Clone, Copy, Debug, PartialEq, Eq)]
pub enum Row {
    /// A whole group: its leader's number, how many entries it has, and where in which file its bytes go.
    Group {
        leader: u64,
        count: u64,
        file: u64,
        at: u64,
        len: u64,
    },
    /// A number whose group breaks a rule of the log.
    Bad {
        number: u64,
    },
}

/// The rows of a log, rising. Contracts see them as a list.
#[derive(Debug, Drop)]
pub struct Listing {
    rows: Vec<Row>,
}

impl Model for Listing {
    ghost use Rattle.std.specs.Prelude.{List};
    ghost use Rattle.nv_look.specs.Rows.{AreInRange};
    ghost use Rattle.nv_look.specs.declared.listing.Row.{Row};

    ghost Value = { List Row };

    ghost view = { λ l. l.rows.items };

    ghost invariant = { λ l. AreInRange l.rows.items };
}

impl Row {
    /// The first number of the row.
    pub(crate) fn start(&self) -> u64
        ensures { result ≡ row_start self.now }
    {
        match self {
            Row::Group { leader, .. } => *leader,
            Row::Bad { number } => *number,
        }
    }

    /// The number behind its last one: a group has all its numbers, a bad number stands by itself.
    pub(crate) fn end(&self) -> u64
        requires { IsInRange self.now }
        ensures { result ≡ row_end self.now }
    {
        match self {
            Row::Group { leader, count, .. } => *leader + *count,
            Row::Bad { number } => *number + 1,
        }
    }
}

impl Listing {
    /// The rows, to look at.
    pub fn as_slice(&self) -> &[Row]
        ensures rows { result.now ≡ self.now }
        ensures range { AreInRange result.now }
    {
        &self.rows
    }
}

/// Lists the committed numbers of a log. `parts` are those of the region, the header's first, and `bounds` what the header says. The
/// parts are only read.
pub fn list_log<L: Lines>(
    alloc: Global,
    bounds: &Bounds,
    parts: &mut [L],
) -> Result<Listing, LookError>
    requires parts { 1 + bounds.now.entries ≤ length parts.old }
    requires lines { All (λ part. 1 ≤ (L.room part).lines) (take bounds.now.entries (drop 1 parts.old)) }
    requires header { RowTells (map L.history parts.old) (λ told. SaysBounds bounds.now (row_words told)) }
    ensures listing { IfOk result (λ listing. RowTells (map L.history parts.old) (λ told. IsListing (row_words told) listing)) }
    ensures read { AreOnlyRead L.history L.room L.device parts.old parts.new }
    ensures cause { HasLookCause (sum_by L.fault_count parts.old) (sum_by L.fault_count parts.new) result }
{
    let mut rows = Vec::new(alloc);
    for number in bounds.tail..bounds.tail + bounds.entries {
        list_number(parts, bounds, number, &mut rows)?;
    }
    Ok(Listing { rows })
}

// Where the next number is committed, its row is one more.
fn list_number<L: Lines>(
    parts: &mut [L],
    bounds: &Bounds,
    number: u64,
    rows: &mut Vec<Row>,
) -> Result<(), LookError>
    requires parts { 1 + bounds.now.entries ≤ length parts.old }
    requires lines { All (λ part. 1 ≤ (L.room part).lines) (take bounds.now.entries (drop 1 parts.old)) }
    requires header { RowTells (map L.history parts.old) (λ told. SaysBounds bounds.now (row_words told)) }
    requires from { bounds.now.tail ≤ number }
    requires below { number < bounds.now.tail + bounds.now.entries }
    ensures listed { OnOk result (RowTells (map L.history parts.old) (λ told.
        HasListed (row_words told) bounds.now.tail number rows.old.items
        → HasListed (row_words told) bounds.now.tail (number + 1) rows.new.items)) }
    ensures range { OnOk result (AreInRange rows.old.items → AreInRange rows.new.items) }
    ensures read { AreOnlyRead L.history L.room L.device parts.old parts.new }
    ensures cause { HasLookCause (sum_by L.fault_count parts.old) (sum_by L.fault_count parts.new) result }
{
    let entry = read_entry(parts, bounds, number)?;
    if entry.commit != number + 1 {
        return Ok(());
    }
    let row = row_at(parts, bounds, number)?;
    rows.push(row)?;
    Ok(())
}

// The row of a committed number.
fn row_at<L: Lines>(parts: &mut [L], bounds: &Bounds, number: u64) -> Result<Row, RegionFault>
    requires parts { 1 + bounds.now.entries ≤ length parts.old }
    requires lines { All (λ part. 1 ≤ (L.room part).lines) (take bounds.now.entries (drop 1 parts.old)) }
    requires header { RowTells (map L.history parts.old) (λ told. SaysBounds bounds.now (row_words told)) }
    requires below { number < bounds.now.tail + bounds.now.entries }
    ensures row { IfOk result (λ row. RowTells (map L.history parts.old) (λ told. IsRow (row_words told) number row)) }
    ensures range { IfOk result IsInRange }
    ensures read { AreOnlyRead L.history L.room L.device parts.old parts.new }
    ensures cause { HasCause (sum_by L.fault_count parts.old) (sum_by L.fault_count parts.new) result }
{
    match check_group(parts, bounds, number)? {
        GroupCheck::Bad { .. } => Ok(Row::Bad { number }),
        GroupCheck::Whole { count } => group_at(parts, bounds, number, count),
    }
}

// The row of a whole group.
fn group_at<L: Lines>(
    parts: &mut [L],
    bounds: &Bounds,
    leader: u64,
    count: u64,
) -> Result<Row, RegionFault>
    requires parts { 1 + bounds.now.entries ≤ length parts.old }
    requires lines { All (λ part. 1 ≤ (L.room part).lines) (take bounds.now.entries (drop 1 parts.old)) }
    requires header { RowTells (map L.history parts.old) (λ told. SaysBounds bounds.now (row_words told)) }
    requires few { leader + count ≤ 2 ^ 60 }
    requires whole { RowTells (map L.history parts.old) (λ told. IsWholeWalk (row_words told) leader count) }
    ensures row { IfOk result (λ row. RowTells (map L.history parts.old) (λ told. IsRow (row_words told) leader row)) }
    ensures range { IfOk result IsInRange }
    ensures read { AreOnlyRead L.history L.room L.device parts.old parts.new }
    ensures cause { HasCause (sum_by L.fault_count parts.old) (sum_by L.fault_count parts.new) result }
{
    let PieceHead { file, at, .. } = read_entry(parts, bounds, leader)?.head;
    let len = group_len(parts, bounds, leader, count)?;
    Ok(Row::Group {
        leader,
        count,
        file,
        at,
        len,
    })
}

// How many bytes the entries of a whole group have.
fn group_len<L: Lines>(
    parts: &mut [L],
    bounds: &Bounds,
    leader: u64,
    count: u64,
) -> Result<u64, RegionFault>
    requires parts { 1 + bounds.now.entries ≤ length parts.old }
    requires lines { All (λ part. 1 ≤ (L.room part).lines) (take bounds.now.entries (drop 1 parts.old)) }
    requires header { RowTells (map L.history parts.old) (λ told. SaysBounds bounds.now (row_words told)) }
    requires few { leader + count ≤ 2 ^ 60 }
    requires whole { RowTells (map L.history parts.old) (λ told. IsWholeWalk (row_words told) leader count) }
    ensures len { IfOk result (λ len. RowTells (map L.history parts.old) (λ told. len ≡ group_bytes (row_words told) leader)) }
    ensures read { AreOnlyRead L.history L.room L.device parts.old parts.new }
    ensures cause { HasCause (sum_by L.fault_count parts.old) (sum_by L.fault_count parts.new) result }
{
    let mut len: u64 = 0;
    for number in leader..leader + count {
        // The entries of a group that parts tell of have no more than a page each.
        len = len.saturating_add(read_entry(parts, bounds, number)?.head.size);
    }
    Ok(len)
}
