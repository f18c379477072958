//! Tests of parts in memory.
use nv_plain::NoMemory;
use nv_pmem::{
    BadGeometry, Geometry, GeometryField, LineFault, Lines, MemPart, Pick, Picker, store_durably,
};
use std::alloc::Global;

fn may_cross_threads<T: Send>(_part: &T) -> bool {
    true
}

// The bytes 0 to 127.
fn counting() -> [u8; 128] {
    let mut bytes = [0; 128];
    for i in 0..128 {
        bytes[i] = i as u8;
    }
    bytes
}

#[test]
fn a_word_is_stored_and_made_durable(rt: HostRuntime) -> Result<(), NoMemory> {
    let mut part = MemPart::new(rt.alloc(), 4)?;
    let blank = (may_cross_threads(&part), part.lines(), part.load(3, 7));
    let stored = (part.store(3, 7, 9), part.load(3, 7));
    let durable = (part.flush(3), part.fence(), part.load(3, 7));
    let beside = (part.load(3, 6), part.faults());
    assert_eq!(rt;
        (blank, stored, durable, beside),
        (
            (true, 4, Ok(0)),
            (Ok(()), Ok(9)),
            (Ok(()), Ok(()), Ok(9)),
            (Ok(0), 0)
        )
    );
    Ok(())
}

#[test]
fn words_are_drawn_from_splitmix64(rt: HostRuntime) {
    let mut picker = Picker::new(Pick::Seed(0));
    assert_eq!(rt;
        [picker.draw(), picker.draw(), picker.draw()],
        [
            0xe220_a839_7b1d_cdaf,
            0x6e78_9e6a_a1b9_65f4,
            0x06c4_5d18_8009_454f
        ]
    );
}

// Stores a word in line 1 and two in line 2, and loses power: what the stores answer, and the words that are left.
fn left_by(
    alloc: Global,
    pick: Pick,
) -> Result<([Result<(), LineFault>; 3], [Result<u64, LineFault>; 3]), NoMemory> {
    let mut part = MemPart::new(alloc, 3)?;
    let stored = [
        part.store(1, 0, 1),
        part.store(2, 0, 1),
        part.store(2, 0, 2),
    ];
    part.image(&mut Picker::new(pick));
    let words = [part.load(0, 0), part.load(1, 0), part.load(2, 0)];
    Ok((stored, words))
}

// Word 0 of line 1 has had the values 0 and 1 since it was last durable, that of line 2 the values 0, 1 and 2, and each
// other word has one value. A seed draws a word for line 1, modulo 2, and then one for line 2, modulo 3:
//
// | Seed | The words | modulo 2, 3 |
// |---|---|---|
// | 0 | e220a8397b1dcdaf, 6e789e6aa1b965f4 | 1, 0 |
// | 1 | 910a2dec89025cc1, beeb8da1658eec67 | 1, 1 |
// | 2 | 975835de1c9756ce, bfc846100bfc1e42 | 0, 2 |
// | 3 | 1d0b14e4db018fed, b3466f8a7b81a989 | 1, 0 |
const LEFT: [(Pick, [u64; 3]); 7] = [
    (Pick::Old, [0, 0, 0]),
    (Pick::New, [0, 1, 2]),
    (Pick::Torn, [0, 0, 0]),
    (Pick::Seed(0), [0, 1, 0]),
    (Pick::Seed(1), [0, 1, 1]),
    (Pick::Seed(2), [0, 0, 2]),
    (Pick::Seed(3), [0, 1, 0]),
];

#[test]
fn a_part_that_loses_power_is_left_as_it_is_picked(rt: HostRuntime) -> Result<(), NoMemory> {
    for (pick, [first, second, third]) in LEFT {
        let left = [Ok(first), Ok(second), Ok(third)];
        assert_eq!(rt;
            left_by(rt.alloc(), pick)?,
            ([Ok(()); 3], left),
            "at {pick:?}"
        );
    }
    Ok(())
}

// Of a line of zeros word 0 was stored and then word 1: each has two values, whatever the other is left with. Of the words that a
// seed draws, as above, the first is for word 0 and the second for word 1, each modulo 2.
const WORDS_LEFT: [(Pick, [u64; 2]); 7] = [
    (Pick::Old, [0, 0]),
    (Pick::New, [1, 2]),
    (Pick::Torn, [0, 0]),
    (Pick::Mixed, [0, 2]),
    (Pick::Seed(0), [1, 0]),
    (Pick::Seed(1), [1, 2]),
    (Pick::Seed(2), [0, 0]),
];

#[test]
fn each_word_of_a_line_is_left_by_itself(rt: HostRuntime) -> Result<(), NoMemory> {
    for (pick, [first, second]) in WORDS_LEFT {
        let mut part = MemPart::new(rt.alloc(), 1)?;
        let stored = [part.store(0, 0, 1), part.store(0, 1, 2)];
        part.image(&mut Picker::new(pick));
        let left = [part.load(0, 0), part.load(0, 1)];
        assert_eq!(rt;
            (stored, left),
            ([Ok(()); 2], [Ok(first), Ok(second)]),
            "at {pick:?}"
        );
    }
    Ok(())
}

// Bytes 0 to 127, little-endian: word 1 of line 1 is bytes 72 to 79.
#[test]
fn a_part_of_bytes_is_made_longer_and_shorter(rt: HostRuntime) -> Result<(), NoMemory> {
    let mut part = MemPart::of(rt.alloc(), &counting(), None)?;
    let word = Ok(0x4f4e_4d4c_4b4a_4948);
    let before = (part.lines(), part.load(1, 1));
    let mut part = part.resized(rt.alloc(), 3, None)?;
    let longer = (part.lines(), part.load(1, 1), part.load(2, 0));
    let shorter = part.resized(rt.alloc(), 1, None)?.lines();
    assert_eq!(rt; (before, longer, shorter), ((2, word), (3, word, Ok(0)), 1));
    Ok(())
}

#[test]
fn a_durable_store_is_left_by_every_pick(rt: HostRuntime) -> Result<(), NoMemory> {
    let mut part = MemPart::new(rt.alloc(), 2)?;
    let stored = store_durably(&mut part, 1, 3, 7);
    part.image(&mut Picker::new(Pick::Old));
    assert_eq!(rt; (stored, part.load(1, 3)), (Ok(()), Ok(7)));
    Ok(())
}

/// Bytes of a page and entries, and the number that is out of its limits, if one is.
const GEOMETRIES: [(u64, u64, Option<BadGeometry>); 7] = [
    (64, 2, None),
    (4096, 1024, None),
    (
        63,
        2,
        Some(BadGeometry {
            field: GeometryField::Page,
            found: 63,
        }),
    ),
    (
        96,
        16,
        Some(BadGeometry {
            field: GeometryField::Page,
            found: 96,
        }),
    ),
    (
        4160,
        1,
        Some(BadGeometry {
            field: GeometryField::Page,
            found: 4160,
        }),
    ),
    (
        64,
        1,
        Some(BadGeometry {
            field: GeometryField::Entries,
            found: 1,
        }),
    ),
    (
        64,
        1025,
        Some(BadGeometry {
            field: GeometryField::Entries,
            found: 1025,
        }),
    ),
];

#[test]
fn geometries_are_within_their_limits(rt: HostRuntime) {
    for (page, entries, bad) in GEOMETRIES {
        assert_eq!(rt;
            Geometry::new(page, entries).err(),
            bad,
            "at {page}, {entries}"
        );
    }
}
