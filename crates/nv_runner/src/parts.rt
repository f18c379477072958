//! The memory of vectored calls, which is taken before they are begun.
ghost use Rattle.std.specs.Prelude.{◌≡◌, ℕ, ◌<◌, ◌≤◌, [], IfOk, length, map, slice_index_or};

use nv_calls::{AddError, Gather, Scatter};
use nv_plain::{Bytes, NoMemory};
use nv_trace::{LenList, PartList};
use std::alloc::Global;
use std::mem;

/// The parts of a vectored write, gathered.
pub fn gathered(alloc: Global, parts: &PartList) -> Result<Gather, NoMemory>
    ensures { IfOk result (λ gather. gather ≡ parts.now) }
{
    let mut gather = Gather::new(alloc);
    for part in parts.as_slice() {
        match gather.add(part.as_slice()) {
            Ok(()) => (),
            Err(AddError::NoMemory) => return Err(NoMemory),
            Err(AddError::TooManyParts) => unreachable!(),
        }
    }
    Ok(gather)
}

/// The parts of a vectored read, of these lengths.
pub fn scattered(alloc: Global, lens: &LenList) -> Result<Scatter, NoMemory>
    ensures { IfOk result (λ scatter. scatter.lens ≡ lens.now) }
{
    let mut scatter = Scatter::new(alloc);
    for len in lens.as_slice() {
        match scatter.add(*len) {
            Ok(()) => (),
            Err(AddError::NoMemory) => return Err(NoMemory),
            Err(AddError::TooManyParts) => unreachable!(),
        }
    }
    Ok(scatter)
}

/// Room for what each part of a vectored read gets.
pub fn reply_rooms(alloc: Global, lens: &LenList) -> Result<Vec<Bytes>, NoMemory>
    ensures { IfOk result (λ rooms. map (λ room. length room) rooms.items ≡ lens.now) }
{
    let mut rooms = Vec::new(alloc);
    for len in lens.as_slice() {
        let room = vec![in alloc; 0; *len as usize]?;
        rooms.push(Bytes::from_vec(room))?;
    }
    Ok(rooms)
}

// The bytes of a part, in a room that is long enough.
fn put_in(room: Bytes, part: &[u8]) -> Bytes
    requires { length part.now ≤ length room }
    ensures { result ≡ part.now }
{
    let mut bytes = room.into_vec();
    bytes.truncate(part.len());
    bytes.copy_from_slice(part);
    Bytes::from_vec(bytes)
}

/// Puts what each part of a vectored read got into its room, which is long enough. Takes no memory.
pub fn fill_rooms(alloc: Global, scatter: &Scatter, rooms: &mut [Bytes])
    requires count { (length scatter.now.parts ≡ length rooms.old) × (length scatter.now.lens ≡ length rooms.old) }
    requires fits { (i : ℕ) → i < length rooms.old → length (slice_index_or scatter.now.parts i []) ≤ length (slice_index_or rooms.old i []) }
    ensures { rooms.new ≡ scatter.now.parts }
{
    for i in 0..rooms.len() {
        let room = mem::replace(&mut rooms[i], Bytes::from_vec(Vec::new(alloc)));
        rooms[i] = put_in(room, scatter.part(i));
    }
}
