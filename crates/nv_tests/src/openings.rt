//! Tests of openings.
ghost use Rattle.std.specs.Prelude.{◌≡◌, [], false, true, length, IfOk, IfSome, OnOk};
ghost use Rattle.nv_plain.specs.Layouts.{mount_layout};
ghost use Rattle.nv_open.specs.Adding.{AreWanted};
ghost use Rattle.nv_bench.specs.Holding.{IsQuietHolding};
ghost use Rattle.nv_bench.specs.MemBench.{mem_state};

use nv_bench::{Bench, MemBench, power_leaves_an_image};
use nv_header::Names;
use nv_open::{Opened, Restored, open, recover_region};
use nv_plain::limits::Version;
use nv_plain::{Bytes, NoMemory};
use nv_pmem::{Geometry, MemPart, Pick};
use nv_store::{Backing, MemStore, StoreFault};
use std::alloc::Global;
use std::test::Fail;

// The bytes `NVCACHE1`, little-endian.
const MAGIC: u64 = 0x3145_4843_4143_564e;

// The line of these words, and zeros behind them.
fn line(words: [u64; 6]) -> [u8; 64] {
    let mut line = [0; 64];
    for (i, word) in words.iter().enumerate() {
        line[8 * i..8 * i + 8].copy_from_slice(&word.to_le_bytes());
    }
    line
}

// The header's part of a region of version 1 with a page of 64 bytes, two entries, the file `a` and tail 0.
fn header(magic: u64) -> [u8; 1152] {
    let mut part = [0; 1152];
    part[..64].copy_from_slice(&line([magic, 1, 64, 2, 1, 0]));
    part[128..192].copy_from_slice(&line([1, u64::from(b'a'), 0, 0, 0, 0]));
    part
}

// The part of an entry with these words, and these bytes of data.
fn entry(words: [u64; 6], data: [u8; 3]) -> [u8; 128] {
    let mut part = [0; 128];
    part[..64].copy_from_slice(&line(words));
    part[64..67].copy_from_slice(&data);
    part
}

// The names `b` and `a`.
fn wanted_names(alloc: Global) -> Result<Names, NoMemory>
    ensures { IfOk result (AreWanted mount_layout) }
{
    let mut names = Names::new(alloc);
    names.push(Bytes::from_vec(Vec::from_slice(alloc, b"b")?))?;
    names.push(Bytes::from_vec(Vec::from_slice(alloc, b"a")?))?;
    Ok(names)
}

// The bytes of a store, and `#` behind them.
fn contents(store: &mut MemStore) -> Result<[u8; 8], StoreFault> {
    let mut bytes = [b'#'; 8];
    store.pread(0, &mut bytes)?;
    Ok(bytes)
}

// A bench of a region of version 1 with two groups, which write `abcde` over the dots of the file `a`.
fn with_two_groups(alloc: Global) -> Result<MemBench, NoMemory>
    ensures closed { IfOk result (λ bench. (mem_state bench).is_open ≡ false) }
    ensures home { IfOk result (λ bench. (mem_state bench).lent ≡ []) }
    ensures quiet { IfOk result (λ bench. IfSome (mem_state bench).told IsQuietHolding) }
{
    let first = entry([1, 0, 0, 3, 1, 0], *b"abc");
    let second = entry([2, 0, 3, 2, 1, 1], *b"de.");
    let parts = [&header(MAGIC)[..], &first[..], &second[..]];
    MemBench::of(alloc, &parts, &[("b", b"other"), ("a", b"......")], &[])
}

// A recovery leaves the version.
#[test]
fn recovers_two_groups(rt: HostRuntime) -> Result<(), Fail> {
    let mut bench = with_two_groups(rt.alloc())?;
    let Restored {
        region,
        mut stores,
        found,
    } = recover_region(rt.alloc(), &mut bench)?;
    let geometry = region.geometry();
    assert_eq!(rt; region.version(), Version::One);
    assert_eq!(rt;
        (
            (found.first, found.next, region.next()),
            found.groups.as_slice(),
            (geometry.page, geometry.entries),
            (region.names().len(), stores.len())
        ),
        ((0, 2, 2), [0, 1].as_slice(), (64, 2), (1, 1))
    );
    for store in &mut stores {
        assert_eq!(rt; contents(store), Ok(*b"abcde.##"));
    }
    Ok(())
}

// An opening carries it over, with its sizes, its names, the file that it stood for and the number that its log goes on with.
#[test]
fn carries_a_region_over(rt: HostRuntime) -> Result<(), Fail> {
    let mut bench = with_two_groups(rt.alloc())?;
    let mut first = opened(rt.alloc(), &mut bench)?;
    let (region, geometry) = (&first.region, first.region.geometry());
    assert_eq!(rt;
        (
            region.version(),
            region.next(),
            region.names().len(),
            geometry.page,
            geometry.entries
        ),
        (Version::Two, 2, 2, 64, 2)
    );
    for (store, held) in first.stores.iter_mut().zip([*b"abcde.##", *b"other###"]) {
        assert_eq!(rt; contents(store), Ok(held));
    }
    Ok(())
}

// A bench of no part and no store.
fn new_bench(alloc: Global) -> Result<MemBench, NoMemory>
    ensures closed { IfOk result (λ bench. (mem_state bench).is_open ≡ false) }
    ensures home { IfOk result (λ bench. (mem_state bench).lent ≡ []) }
    ensures quiet { IfOk result (λ bench. IfSome (mem_state bench).told IsQuietHolding) }
{
    MemBench::new(alloc, &[])
}

// Opens the region with the files `b` and `a`, a page of 64 bytes and two entries.
fn opened(alloc: Global, bench: &mut MemBench) -> Result<Opened<MemPart, MemStore>, Fail>
    requires closed { (mem_state bench.old).is_open ≡ false }
    requires home { (mem_state bench.old).lent ≡ [] }
    requires quiet { IfSome (mem_state bench.old).told IsQuietHolding }
    ensures open { OnOk result ((mem_state bench.new).is_open ≡ true) }
    ensures lent { IfOk result (λ opened. length opened.stores.items ≡ length (mem_state bench.new).lent) }
{
    let geometry = Geometry::new(64, 2)?;
    let wanted = wanted_names(alloc)?;
    Ok(open(alloc, bench, geometry, &wanted)?)
}

// Gives all back, and loses power.
fn close(bench: &mut MemBench, opened: Opened<MemPart, MemStore>) -> Result<(), NoMemory>
    requires open { (mem_state bench.old).is_open ≡ true }
    requires lent { length opened.stores.items ≡ length (mem_state bench.old).lent }
    ensures closed { OnOk result ((mem_state bench.new).is_open ≡ false) }
    ensures home { OnOk result ((mem_state bench.new).lent ≡ []) }
    ensures quiet { OnOk result (IfSome (mem_state bench.new).told IsQuietHolding) }
{
    let Opened { region, stores } = opened;
    bench.give_back(region.into_parts(), stores);
    power_leaves_an_image();
    bench.power(Pick::New)
}

// A new bench is formatted; the same bench keeps its names, in their order, and its files.
#[test]
fn opens_a_new_bench_and_opens_it_again(rt: HostRuntime) -> Result<(), Fail> {
    let mut bench = new_bench(rt.alloc())?;
    let mut first = opened(rt.alloc(), &mut bench)?;
    let geometry = first.region.geometry();
    assert_eq!(rt;
        (
            (first.region.next(), first.region.names().len()),
            (geometry.page, geometry.entries)
        ),
        ((0, 2), (64, 2))
    );
    for store in &mut first.stores {
        assert_eq!(rt; contents(store), Ok(*b"########"));
        store.pwrite(0, b"hi")?;
    }
    close(&mut bench, first)?;
    let mut again = opened(rt.alloc(), &mut bench)?;
    let names = again.region.names();
    assert_eq!(rt; (names.len(), again.stores.len()), (2, 2));
    for (name, expected) in names.as_slice().iter().zip(b"ba") {
        assert_eq!(rt; name.as_slice(), [*expected].as_slice());
    }
    for store in &mut again.stores {
        assert_eq!(rt; contents(store), Ok(*b"hi######"));
    }
    Ok(())
}
