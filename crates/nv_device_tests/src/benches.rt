//! Tests of benches in memory.
ghost use Rattle.std.specs.Prelude.{◌≡◌, [], true, false, length, OnOk, IfOk};
ghost use Rattle.nv_bench.specs.MemBench.{mem_state};

use nv_bench::{Bench, BenchError, MemBench};
use nv_pmem::{Geometry, MemPart, Pick};
use nv_store::{Backing, MemStore};
use std::alloc::Global;
use std::test::Fail;

fn may_cross_threads<T: Send>(_bench: &T) -> bool {
    true
}

// Opens the region alone.
fn open(bench: &mut MemBench, want: Option<Geometry>) -> Result<Vec<MemPart>, BenchError>
    requires closed { (mem_state bench.old).is_open ≡ false }
    requires home { (mem_state bench.old).lent ≡ [] }
    ensures open { OnOk result ((mem_state bench.new).is_open ≡ true) }
    ensures none { OnOk result ((mem_state bench.new).lent ≡ []) }
    ensures arms { OnOk result ((mem_state bench.new).arms ≡ (mem_state bench.old).arms) }
{
    bench.open_region(want)
}

// Opens the store `b`, and then the store `a`.
fn open_stores(alloc: Global, bench: &mut MemBench) -> Result<Vec<MemStore>, Fail>
    requires open { (mem_state bench.old).is_open ≡ true }
    requires none { (mem_state bench.old).lent ≡ [] }
    ensures open { OnOk result ((mem_state bench.new).is_open ≡ true) }
    ensures lent { IfOk result (λ stores. length stores.items ≡ length (mem_state bench.new).lent) }
    ensures arms { OnOk result ((mem_state bench.new).arms ≡ (mem_state bench.old).arms) }
{
    let mut stores = Vec::new(alloc);
    stores.push(bench.open_store("b")?)?;
    stores.push(bench.open_store("a")?)?;
    Ok(stores)
}

// Gives all back.
fn close(bench: &mut MemBench, parts: Vec<MemPart>, stores: Vec<MemStore>)
    requires open { (mem_state bench.old).is_open ≡ true }
    requires lent { length stores.items ≡ length (mem_state bench.old).lent }
    ensures closed { (mem_state bench.new).is_open ≡ false }
    ensures home { (mem_state bench.new).lent ≡ [] }
{
    bench.give_back(parts, stores);
}

// The bytes of a store that has at most four, and how many there are.
fn bytes(stores: &mut [MemStore], store: usize) -> Option<(u64, [u8; 4])> {
    let store = stores.get_mut(store)?;
    let mut buf = [0; 4];
    let count = store.pread(0, &mut buf).ok()?;
    Some((count, buf))
}

#[test]
fn what_the_bytes_say_is_there(rt: HostRuntime) -> Result<(), Fail> {
    let mut bench = MemBench::of(rt.alloc(), &[], &[("a", &[1, 2]), ("b", &[3])], &[])?;
    let crosses = may_cross_threads(&bench);
    let parts = open(&mut bench, None)?;
    let count = parts.len();
    let mut stores = open_stores(rt.alloc(), &mut bench)?;
    let found = [bytes(&mut stores, 0), bytes(&mut stores, 1)];
    close(&mut bench, parts, stores);
    bench.power(Pick::Old)?;
    assert_eq!(rt;
        (crosses, count, found, bench.faults()),
        (
            true,
            0,
            [Some((1, [3, 0, 0, 0])), Some((2, [1, 2, 0, 0]))],
            0
        )
    );
    Ok(())
}
