//! The descriptors of a trace, by the names of a region.
ghost use Rattle.std.specs.Prelude.{◌≡◌, ◌+◌, ◌<◌, ◌++◌, [], ◌∷◌, length, map, IfOk, OnOk};
ghost use Rattle.nv_mount.specs.Fds.{max_fds};
ghost use Rattle.nv_trace.specs.Shape.{IsWellFormed};
ghost use Rattle.nv_runner.specs.Faithful.{descriptors_in, placed_in};
ghost use Rattle.nv_runner.specs.FaithfulRuns.{as_fd};

use nv_header::Names;
use nv_mount::{FdError, Fds};
use nv_plain::{Bytes, NoMemory};
use nv_trace::{Descriptor, Trace, place_of};
use std::alloc::Global;

/// The descriptors of a trace, each of the file that has the place of its name among all names.
pub(crate) fn open_fds(alloc: Global, names: &[Bytes], trace: &Trace) -> Result<Fds, NoMemory>
    requires { IsWellFormed trace.now }
    ensures { IfOk result (λ fds. fds ≡ map as_fd (descriptors_in names.now trace.now)) }
{
    let mut fds = Fds::new(alloc);
    for descriptor in trace.descriptors() {
        open_fd(&mut fds, placed_in(names, trace, descriptor))?;
    }
    Ok(fds)
}

// Opens one more, where there is room for it.
fn open_fd(fds: &mut Fds, descriptor: Descriptor) -> Result<(), NoMemory>
    requires { length fds.old < max_fds }
    ensures { OnOk result (fds.new ≡ fds.old ++ as_fd descriptor ∷ []) }
{
    match fds.open(descriptor.file, descriptor.mode) {
        Ok(_number) => Ok(()),
        Err(FdError::NoMemory) => Err(NoMemory),
        Err(FdError::TooManyFds) => unreachable!(),
    }
}

// A descriptor of a trace, its file by the place of its name among all names.
fn placed_in(names: &[Bytes], trace: &Trace, descriptor: &Descriptor) -> Descriptor
    requires { descriptor.now.file < length trace.now.names }
    ensures { result ≡ placed_in names.now trace.now descriptor.now }
{
    let name = &trace.names()[descriptor.file as usize];
    Descriptor {
        file: place_of(names, name.as_slice()),
        mode: descriptor.mode,
    }
}

/// Names, copied.
pub(crate) fn copy_names(alloc: Global, names: &[Bytes]) -> Result<Names, NoMemory>
    ensures { IfOk result (λ copy. copy ≡ names.now) }
{
    let mut copy = Names::new(alloc);
    for name in names {
        let bytes = Vec::from_slice(alloc, name.as_slice())?;
        copy.push(Bytes::from_vec(bytes))?;
    }
    Ok(copy)
}
