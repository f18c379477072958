//! The limits of a region and of the files that it serves, each in its one place. `specs/Layouts.antt` has them for clauses.
ghost use Rattle.std.specs.Prelude.{◌≡◌};
ghost use Rattle.nv_plain.specs.Layouts.{layout_of, version_numbered};

/// A version of the region's layout.
#[derive(Clone, Copy, Debug, PartialEq, Eq)]
pub enum Version {
    /// 16 files, names of 56 bytes, groups of 16.
    One,
    /// 64 files, names of 248 bytes, groups of 64.
    Two,
}

impl Version {
    /// The version of this number; none, where it isn't known.
    pub fn of_number(number: u64) -> Option<Self>
        ensures { result ≡ version_numbered number }
    {
        match number {
            1 => Some(Version::One),
            2 => Some(Version::Two),
            _ => None,
        }
    }

    /// The number, as a header has it.
    pub fn number(self) -> u64
        ensures { result ≡ (layout_of self).version }
    {
        match self {
            Version::One => 1,
            Version::Two => 2,
        }
    }

    /// Lines of the header's part.
    pub fn header_lines(self) -> u64
        ensures { result ≡ (layout_of self).header_lines }
    {
        match self {
            Version::One => 18,
            Version::Two => 274,
        }
    }

    /// The line of the first name's record.
    pub fn name_line(self) -> u64
        ensures { result ≡ (layout_of self).name_line }
    {
        match self {
            Version::One => 2,
            Version::Two => 18,
        }
    }

    /// Lines of each name's record.
    pub fn lines_per_name(self) -> u64
        ensures { result ≡ (layout_of self).lines_per_name }
    {
        match self {
            Version::One => 1,
            Version::Two => 4,
        }
    }

    /// Most bytes of a file's name.
    pub fn name_limit(self) -> u64
        ensures { result ≡ (layout_of self).name_limit }
    {
        match self {
            Version::One => 56,
            Version::Two => LONGEST_NAME,
        }
    }

    /// Most files of a region.
    pub fn file_limit(self) -> u64
        ensures { result ≡ (layout_of self).file_limit }
    {
        match self {
            Version::One => 16,
            Version::Two => 64,
        }
    }

    /// Most entries of a group.
    pub fn group_limit(self) -> u64
        ensures { result ≡ (layout_of self).group_limit }
    {
        match self {
            Version::One => 16,
            Version::Two => 64,
        }
    }
}

/// Most bytes of a file's name in any version.
pub const LONGEST_NAME: u64 = 248;

/// The version of each region that a mount opens over. The limits below are those of its layout.
pub const MOUNT_VERSION: Version = Version::Two;

/// Lines of the header's part.
pub const HEADER_LINES: u64 = 274;

/// Most bytes of a file's name.
pub const NAME_LIMIT: u64 = LONGEST_NAME;

/// Most files of a region.
pub const FILE_LIMIT: u64 = 64;

/// Most entries of a group, so most pages that a call touches.
pub const GROUP_LIMIT: u64 = 64;

/// Most pages of a file.
pub const PAGE_LIMIT: u64 = 1024;

/// Most entries of a log.
pub const ENTRY_LIMIT: u64 = 1024;
