//! Descriptors.
use nv_mount::{Fd, FdError, Fds};
use nv_plain::Mode;
use std::alloc::Global;
use std::test::Fail;

// As many as there may be: the last one for reading alone. None where one gets another number than the next.
fn all_taken(alloc: Global) -> Result<Option<Fds>, FdError> {
    let mut fds = Fds::new(alloc);
    for number in 0..64u64 {
        let mode = if number == 63 { Mode::R } else { Mode::Rw };
        if fds.open(number / 2, mode)? != number {
            return Ok(None);
        }
    }
    Ok(Some(fds))
}

const FIRST: Fd = Fd {
    file: 0,
    mode: Mode::Rw,
};

const LAST: Fd = Fd {
    file: 31,
    mode: Mode::R,
};

#[test]
fn numbers_are_given_until_all_are_taken(rt: HostRuntime) -> Result<(), Fail> {
    let mut fds = all_taken(rt.alloc())?.expect(&rt, "each has the next number");
    let full = fds.open(0, Mode::W);
    let found = (fds.get(0), fds.get(63), fds.get(64));
    assert_eq!(rt;
        (full, fds.len(), fds.is_empty(), found),
        (
            Err(FdError::TooManyFds),
            64,
            false,
            (Some(FIRST), Some(LAST), None)
        )
    );
    Ok(())
}
