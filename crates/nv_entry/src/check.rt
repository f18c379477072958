//! The check of a group: its entries, or what is wrong with them.
ghost use Rattle.std.specs.Prelude.{◌≡◌, ℕ, ◌+◌, ◌^◌, ◌<◌, ◌≤◌, ◌↔◌, length, map, take, drop, sum_by, All, IfOk, IsTrue};
ghost use Rattle.nv_plain.specs.Faults.{HasCause};
ghost use Rattle.nv_plain.specs.Images.{Image, entry_of, entry_at};
ghost use Rattle.nv_plain.specs.Layouts.{layout_of};
ghost use Rattle.nv_plain.specs.Recovered.{IsLeader, IsFollower, IsPiece};
ghost use Rattle.nv_pmem.specs.Moments.{Tells};
ghost use Rattle.nv_pmem.specs.Part.{part_word};
ghost use Rattle.nv_pmem.specs.Room.{Keeps};
ghost use Rattle.nv_pmem.specs.Rows.{RowTells, AreOnlyRead, row_words};
ghost use Rattle.nv_entry.specs.declared.check.GroupCheck.TheVariants.{Whole};
ghost use Rattle.nv_entry.specs.Checks.{IsGood, GroupEndsAt, SaysBounds, SaysOfGroup, IsOfGroup, as_entry};

use crate::group::load;
use crate::piece::read_head;
use crate::{Bounds, PieceHead};
use nv_plain::limits::PAGE_LIMIT;
use nv_pmem::{Lines, RegionFault};

/// No entry of a group has this number or a greater one.
const NUMBER_LIMIT: u64 = 1 << 60;

/// An entry as its words read, whatever they are.
#[derive(Clone, Copy, Debug, PartialEq, Eq)]
pub struct EntryWords {
    /// The commit word: the entry's number and one, where it is committed.
    pub commit: u64,
    /// The fields behind it.
    pub head: PieceHead,
}

/// What a check of a committed group says.
#[derive(Clone, Copy, Debug, PartialEq, Eq)]
pub enum GroupCheck {
    /// It is whole, and has so many entries.
    Whole { count: u64 },
    /// Its least number that breaks a rule. A leader that breaks one is named itself.
    Bad { number: u64 },
}

/// Reads the words of an entry. Takes no memory.
pub fn entry_words<L: Lines>(part: &mut L) -> Result<EntryWords, RegionFault>
    requires lines { 1 ≤ (L.room part.old).lines }
    ensures words { IfOk result (λ words. Tells (L.history part.old) (λ now. as_entry words ≡ entry_of (part_word now))) }
    ensures history { L.history part.new ≡ L.history part.old }
    ensures room { Keeps (L.room part.old) (L.room part.new) }
    ensures cause { HasCause (L.fault_count part.old) (L.fault_count part.new) result }
    ensures device { L.device part.new ≡ L.device part.old }
{
    Ok(EntryWords {
        commit: load(part, 0, 0)?,
        head: read_head(part)?,
    })
}

/// Checks the committed group of a leader: how many entries it has, or the least number of them that breaks a rule. `parts`
/// are those of the region, the header's first, and `bounds` what the header says. Nothing is written, and no memory taken.
pub fn check_group<L: Lines>(
    parts: &mut [L],
    bounds: &Bounds,
    leader: u64,
) -> Result<GroupCheck, RegionFault>
    requires parts { 1 + bounds.now.entries ≤ length parts.old }
    requires lines { All (λ part. 1 ≤ (L.room part).lines) (take bounds.now.entries (drop 1 parts.old)) }
    requires header { RowTells (map L.history parts.old) (λ now. SaysBounds bounds.now (row_words now)) }
    requires number { leader < bounds.now.tail + bounds.now.entries }
    ensures check { IfOk result (λ check. RowTells (map L.history parts.old) (λ now. SaysOfGroup (layout_of bounds.now.version) (row_words now) leader check)) }
    ensures limits { IfOk result (IsOfGroup (layout_of bounds.now.version) bounds.now leader) }
    ensures read { AreOnlyRead L.history L.room L.device parts.old parts.new }
    ensures cause { HasCause (sum_by L.fault_count parts.old) (sum_by L.fault_count parts.new) result }
{
    let first = read_entry(parts, bounds, leader)?;
    if !bounds.fit_first(&first, leader) {
        return Ok(GroupCheck::Bad { number: leader });
    }
    let PieceHead { file, count, .. } = first.head;
    let mut end = first.head.at + first.head.size;
    for number in leader + 1..leader + count {
        let entry = read_entry(parts, bounds, number)?;
        if !bounds.fit_next(&entry, leader, file, number, end) {
            return Ok(GroupCheck::Bad { number });
        }
        end += entry.head.size;
    }
    Ok(GroupCheck::Whole { count })
}

/// Reads the words of the entry of a number, in the slot that it stands in. Takes no memory.
pub fn read_entry<L: Lines>(
    parts: &mut [L],
    bounds: &Bounds,
    number: u64,
) -> Result<EntryWords, RegionFault>
    requires parts { 1 + bounds.now.entries ≤ length parts.old }
    requires lines { All (λ part. 1 ≤ (L.room part).lines) (take bounds.now.entries (drop 1 parts.old)) }
    requires header { RowTells (map L.history parts.old) (λ now. SaysBounds bounds.now (row_words now)) }
    ensures words { IfOk result (λ words. RowTells (map L.history parts.old) (λ now. as_entry words ≡ entry_at (row_words now) number)) }
    ensures read { AreOnlyRead L.history L.room L.device parts.old parts.new }
    ensures cause { HasCause (sum_by L.fault_count parts.old) (sum_by L.fault_count parts.new) result }
{
    let slot = 1 + (number % bounds.entries) as usize;
    entry_words(&mut parts[slot])
}

// Whether an entry meets the rules of a follower.
fn goes_with(entry: &EntryWords, leader: u64, number: u64) -> bool
    requires { number < 2 ^ 62 }
    ensures { (image : Image) → as_entry entry.now ≡ entry_at image number → (IsTrue result ↔ IsFollower image leader number) }
{
    entry.head.count == 0 && entry.head.leader == leader && entry.commit != number + 1
}

impl Bounds {
    // Whether the leader of a committed group is as it should be.
    fn fit_first(&self, entry: &EntryWords, leader: u64) -> bool
        requires { leader < self.now.tail + self.now.entries }
        ensures good { (image : Image) → SaysBounds self.now image → as_entry entry.now ≡ entry_at image leader
            → (IsTrue result ↔ IsGood (layout_of self.now.version) image leader leader) }
        ensures end { IsTrue result → entry.now.head.at + entry.now.head.size ≤ 2 ^ 60 }
        ensures count { IsTrue result → IsOfGroup (layout_of self.now.version) self.now leader (Whole entry.now.head.count) }
    {
        self.allow_leader(entry, leader) && self.allow_piece(entry, entry.head.file)
    }

    // Whether the next entry is, behind one whose bytes end here.
    fn fit_next(&self, entry: &EntryWords, leader: u64, file: u64, number: u64, end: u64) -> bool
        requires { number < 2 ^ 62 }
        ensures good { (image : Image) (before : ℕ) → SaysBounds self.now image → as_entry entry.now ≡ entry_at image number
            → GroupEndsAt image leader before file end → before + 1 ≡ number → leader ≤ before
            → (IsTrue result ↔ IsGood (layout_of self.now.version) image leader number) }
        ensures end { IsTrue result → end + entry.now.head.size ≤ 2 ^ 60 }
    {
        goes_with(entry, leader, number) && self.allow_piece(entry, file) && entry.head.at == end
    }

    // Whether an entry meets the rules of a leader.
    fn allow_leader(&self, entry: &EntryWords, leader: u64) -> bool
        requires { leader < self.now.tail + self.now.entries }
        ensures leads { (image : Image) → SaysBounds self.now image → as_entry entry.now ≡ entry_at image leader
            → (IsTrue result ↔ IsLeader (layout_of self.now.version) image leader) }
        ensures count { IsTrue result → IsOfGroup (layout_of self.now.version) self.now leader (Whole entry.now.head.count) }
    {
        let count = entry.head.count;
        (1..=self.version.group_limit().min(self.entries)).contains(&count)
            && leader + count <= (self.tail + self.entries).min(NUMBER_LIMIT)
            && entry.head.leader == leader
    }

    // Whether an entry meets the rules of a piece, in a group whose leader is of this file.
    fn allow_piece(&self, entry: &EntryWords, file: u64) -> bool
        ensures piece { (image : Image) (leader number : ℕ) → SaysBounds self.now image → as_entry entry.now ≡ entry_at image number
            → (entry_at image leader).file ≡ file → (IsTrue result ↔ IsPiece (layout_of self.now.version) image leader number) }
        ensures end { IsTrue result → entry.now.head.at + entry.now.head.size ≤ 2 ^ 60 }
    {
        let PieceHead { at, size, .. } = entry.head;
        entry.head.file == file
            && file < self.files
            && (1..=self.page).contains(&size)
            && at % self.page <= self.page - size
            && at <= self.page * PAGE_LIMIT - size
    }
}
