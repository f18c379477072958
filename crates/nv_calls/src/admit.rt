//! Which reads and writes are refused by what they ask for.
ghost use Rattle.std.specs.Prelude.{◌≡◌};
ghost use Rattle.nv_plain.specs.Modes.{can_read};
ghost use Rattle.nv_table.specs.state.Keys.{sizes_of};
ghost use Rattle.nv_calls.specs.calls.Accesses.{serves};
ghost use Rattle.nv_calls.specs.calls.EarlyRefusals.{Admits, RangeIsAdmitted, early_refusal};

use nv_entry::piece_count;
use nv_mirror::Refusal;
use nv_mount::Mount;
use nv_plain::Mode;
use nv_plain::limits::GROUP_LIMIT;
use nv_pmem::Lines;
use nv_store::Backing;
use nv_table::Layout;

/// What a call does with its file.
#[derive(Clone, Copy, Debug, PartialEq, Eq)]
pub(crate) enum Access {
    Reads,
    Writes,
}

// Whether a descriptor of this mode serves.
fn serves(access: Access, mode: Mode) -> bool
    ensures { result ≡ serves access mode }
{
    match access {
        Access::Reads => mode.can_read(),
        Access::Writes => mode.can_write(),
    }
}

// Whether a call of so many bytes at an offset is refused before its first step by that alone.
fn check_range(layout: Layout, at: u64, len: u64) -> Result<(), Refusal>
    ensures { RangeIsAdmitted (sizes_of layout) at len result }
{
    let limit = layout.page * layout.pages;
    if at > limit || len > limit - at {
        return Err(Refusal::TooFar);
    }
    if piece_count(at, len, layout.page) > GROUP_LIMIT.min(layout.entries) {
        return Err(Refusal::TooLong);
    }
    Ok(())
}

/// The file of a call that is not refused before its first step.
pub(crate) fn admit<L: Lines + Drop, B: Backing + Drop>(
    mount: &Mount<L, B>,
    access: Access,
    fd: u64,
    at: u64,
    len: u64,
) -> Result<u64, Refusal>
    ensures { Admits (serves access) mount.now.board.opened.sizes mount.now.fds fd at len result }
{
    let Some(open) = mount.fds().get(fd) else {
        return Err(Refusal::BadFd);
    };
    if !serves(access, open.mode) {
        return Err(Refusal::BadFd);
    }
    check_range(mount.board().layout(), at, len)?;
    Ok(open.file)
}

/// Why a read of so many bytes is refused before its first step, by what it asks for; if it is. So who makes the room for its bytes learns first whether
/// it will be read into. Takes no memory.
pub fn early_read_refusal<L: Lines + Drop, B: Backing + Drop>(
    mount: &Mount<L, B>,
    fd: u64,
    at: u64,
    len: u64,
) -> Option<Refusal>
    ensures { result ≡ early_refusal can_read mount.now.board.opened.sizes mount.now.fds fd at len }
{
    admit(mount, Access::Reads, fd, at, len).err()
}
