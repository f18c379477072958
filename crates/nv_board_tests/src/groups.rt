//! The largest group of a log.
use crate::given::{close, opened_with, region_of, room, stores};
use nv_calls::{Done, Refusal, try_pread, try_pwrite};
use nv_clean::{Cleaned, try_clean};
use nv_store::Backing;
use std::test::Fail;

// The log has 64 entries, and the file may have 65 pages of 64 bytes, each but the last with a buffer.
#[test]
fn a_call_touches_64_pages_at_most(rt: HostRuntime) -> Result<(), Fail> {
    let alloc = rt.alloc();
    let (bytes, more) = (vec![in alloc; 7; 4096]?, vec![in alloc; 7; 4097]?);
    let (mut found, mut longer) = (vec![in alloc; 0; 4096]?, vec![in alloc; 0; 4097]?);
    let mut stored = vec![in alloc; 0; 4096]?;
    let (region, stores) = (region_of(alloc, 64)?, stores(alloc, &[])?);
    let (mount, mut pass) = opened_with(alloc, region, stores, 65, 64)?;
    let mut workspace = room(&rt, alloc, &mount);
    let written = try_pwrite(&mount, &mut pass, &mut workspace, 0, 0, &bytes);
    assert_eq!(rt;
        written,
        Ok(Done {
            place: 0,
            len: 4096
        })
    );
    let written = try_pwrite(&mount, &mut pass, &mut workspace, 0, 0, &more);
    assert_eq!(rt; written, Err(Refusal::TooLong));
    let read = try_pread(&mount, &mut pass, 0, 0, &mut longer);
    assert_eq!(rt; read, Err(Refusal::TooLong));
    let read = try_pread(&mount, &mut pass, 0, 0, &mut found);
    assert_eq!(rt;
        read,
        Ok(Done {
            place: 1,
            len: 4096
        })
    );
    assert!(rt; found == bytes);
    let cleaned = try_clean(&mount, &mut pass, 1);
    assert_eq!(rt; cleaned, Ok(Cleaned { retired: 64 }));
    let mut closed = close(&rt, mount, pass);
    assert_eq!(rt; (closed.placed, closed.tail), (2, 64));
    let store = closed.stores.first_mut().expect(&rt, "there is a store");
    assert_eq!(rt; store.len(), Ok(4096));
    assert_eq!(rt; store.pread(0, &mut stored), Ok(4096));
    assert!(rt; stored == bytes);
    Ok(())
}
