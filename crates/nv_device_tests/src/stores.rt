//! Tests of stores in memory.
use nv_plain::NoMemory;
use nv_pmem::{Pick, Picker};
use nv_store::{Backing, MemStore};
use std::alloc::Global;

fn may_cross_threads<T: Send>(_store: &T) -> bool {
    true
}

#[test]
fn bytes_are_written_read_and_made_durable(rt: HostRuntime) -> Result<(), NoMemory> {
    let mut store = MemStore::new(rt.alloc(), &[1, 2, 3])?;
    let new = (may_cross_threads(&store), store.len());
    let written = (store.pwrite(2, &[8, 9]), store.len());
    let mut seen = [7; 3];
    let read = (store.pread(1, &mut seen), store.sync());
    store.image(&mut Picker::new(Pick::Old));
    let mut left = [7; 3];
    let again = (store.pread(1, &mut left), store.faults());
    assert_eq!(rt;
        (new, written, read, again),
        ((true, Ok(3)), (Ok(()), Ok(4)), (Ok(3), Ok(())), (Ok(3), 0))
    );
    assert_eq!(rt; [seen, left], [[2, 8, 9]; 2]);
    Ok(())
}

/// An offset, how many bytes a read of two gives there, and the buffer then.
const READS: [(u64, u64, [u8; 2]); 4] = [
    (0, 2, [1, 2]),
    (2, 1, [3, 7]),
    (3, 0, [7, 7]),
    (u64::MAX, 0, [7, 7]),
];

#[test]
fn a_read_stops_at_the_end(rt: HostRuntime) -> Result<(), NoMemory> {
    let mut store = MemStore::new(rt.alloc(), &[1, 2, 3])?;
    for (at, count, bytes) in READS {
        let mut buf = [7; 2];
        let read = store.pread(at, &mut buf);
        assert_eq!(rt; (read, buf), (Ok(count), bytes), "at {at}");
    }
    Ok(())
}

// The durable bytes are 11 12 13 14 15 16. Then aa bb is written at 1, and cc dd ee at 8, past the end.
fn written_twice(alloc: Global) -> Result<MemStore, NoMemory> {
    let mut store = MemStore::new(alloc, &[0x11, 0x12, 0x13, 0x14, 0x15, 0x16])?;
    for (at, bytes) in [(1, &[0xaa, 0xbb][..]), (8, &[0xcc, 0xdd, 0xee][..])] {
        if store.pwrite(at, bytes).is_err() {
            return Err(NoMemory);
        }
    }
    Ok(store)
}

// So 11 bytes are seen and 6 are durable; those at 1, 2, 8, 9 and 10 aren't synced, and those at 6 and 7 are a gap. A seed's
// first word w gives the length 6 + w mod 6, and each later word the next of those bytes that lie below it, w mod 256:
//
// | Seed | The words | Length | Bytes at 1, 2, 8, 9, 10 |
// |---|---|---|---|
// | 0 | e220a8397b1dcdaf, 6e789e6aa1b965f4, 06c45d188009454f | 6 + 1 | f4 4f |
// | 1 | 910a2dec89025cc1, beeb8da1658eec67, f893a2eefb32555e, 71c18690ee42c90b, 71bb54d8d101b5b9, c34d0bff90150280 | 6 + 5 | 67 5e 0b b9 80 |
// | 2 | 975835de1c9756ce, bfc846100bfc1e42, 987bbcbfdd7e532f, c3f2827affe7f664, 4fc446b53f17fb29 | 6 + 4 | 42 2f 64 29 |
// | 3 | 1d0b14e4db018fed, b3466f8a7b81a989, 9cebe8a6d050dd01, 12a764fb66abc9cf | 6 + 3 | 89 01 cf |
const LEFT: [(Pick, &[u8]); 7] = [
    (Pick::Old, &[0x11, 0x12, 0x13, 0x14, 0x15, 0x16]),
    (
        Pick::New,
        &[0x11, 0xaa, 0xbb, 0x14, 0x15, 0x16, 0, 0, 0xcc, 0xdd, 0xee],
    ),
    (
        Pick::Torn,
        &[0x11, 0xa5, 0xa5, 0x14, 0x15, 0x16, 0, 0, 0xa5, 0xa5, 0xa5],
    ),
    (Pick::Seed(0), &[0x11, 0xf4, 0x4f, 0x14, 0x15, 0x16, 0]),
    (
        Pick::Seed(1),
        &[0x11, 0x67, 0x5e, 0x14, 0x15, 0x16, 0, 0, 0x0b, 0xb9, 0x80],
    ),
    (
        Pick::Seed(2),
        &[0x11, 0x42, 0x2f, 0x14, 0x15, 0x16, 0, 0, 0x64, 0x29],
    ),
    (
        Pick::Seed(3),
        &[0x11, 0x89, 0x01, 0x14, 0x15, 0x16, 0, 0, 0xcf],
    ),
];

#[test]
fn a_store_that_loses_power_is_left_as_it_is_picked(rt: HostRuntime) -> Result<(), NoMemory> {
    for (pick, bytes) in LEFT {
        let mut store = written_twice(rt.alloc())?;
        store.image(&mut Picker::new(pick));
        let mut buf = [0; 16];
        assert_eq!(rt;
            store.pread(0, &mut buf),
            Ok(bytes.len() as u64),
            "at {pick:?}"
        );
        assert_eq!(rt; &buf[..bytes.len()], bytes, "at {pick:?}");
    }
    Ok(())
}
