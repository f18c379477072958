//! What a load declares.
ghost use Rattle.std.specs.Prelude.{◌≡◌, IfOk};
ghost use Rattle.nv_load.specs.Generated.{declared};

use nv_plain::{Bytes, Mode, NoMemory};
use nv_trace::{Descriptor, Form, Statement, Trace};
use std::alloc::Global;

/// The trace of a load but for its calls: one file, that is open to read and write.
pub fn declare(alloc: Global) -> Result<Trace, NoMemory>
    ensures { IfOk result (λ trace. trace ≡ declared) }
{
    let mut trace = Trace::new(alloc, Form::Run);
    let name = vec![in alloc; b'g'; 1]?;
    trace.push(1, Statement::File(Bytes::from_vec(name)))?;
    let descriptor = Descriptor {
        file: 0,
        mode: Mode::Rw,
    };
    trace.push(2, Statement::Opened(descriptor))?;
    Ok(trace)
}
