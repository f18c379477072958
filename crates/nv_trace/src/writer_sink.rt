//! Trusted edge: a sink over a writer.
ghost use Rattle.std.specs.Prelude.{◌≡◌, ◌≢◌, ◌<◌, ◌≤◌, IfErr, IfOk, IfSome, OnErr, OnOk, Some, length, take};
ghost use Rattle.std.specs.IoError.{error_kind};
ghost use Rattle.std.specs.declared.io.ErrorKind.TheVariants.{Interrupted};
ghost use Rattle.std.specs.Io.KnownBytes as known;
ghost use Rattle.nv_plain.specs.Faults.{HasCause};
ghost use Rattle.nv_trace.specs.Streams.{Appends, counted};
ghost use Rattle.nv_trace.specs.RealStreams.{untold, writer_of, writer_faults};

use crate::{Failed, Sink};
use std::io;
use std::io::{ErrorKind, Write};

/// A sink over a writer, which it flushes after each write. It tells nothing of what is written.
#[derive(Debug, Drop)]
pub struct WriterSink<W> {
    writer: W,
    faults: u64,
}

impl<W: Write + Drop> WriterSink<W> {
    /// A sink that gives all of its bytes to the writer. A write fails on each error of the writer, a failed flush among
    /// them, and where the writer takes none of some bytes; how much the writer then took isn't known. A call which a signal
    /// interrupted is made again (POSIX.1-2017, write: EINTR).
    pub fn new(writer: W) -> Self
        ensures writer { writer_of result ≡ writer }
        ensures faults { writer_faults result ≡ 0 }
    {
        WriterSink { writer, faults: 0 }
    }
}

impl<W: Write + Drop> Sink for WriterSink<W> {
    ghost written = { untold };

    ghost fault_count = { writer_faults };

    fn write(&mut self, bytes: &[u8]) -> Result<u64, Failed>
        ensures count { IfOk result (λ count. count ≤ length bytes.now) }
        ensures some { IfOk result (λ count. 0 < length bytes.now → 0 < count) }
        ensures told { IfOk result (λ count. Appends (untold self.old) (untold self.new) (take count bytes.now)) }
        ensures unchanged { OnErr result (IfSome (untold self.old) (λ before. untold self.new ≡ Some before)) }
        ensures cause { HasCause (writer_faults self.old) (writer_faults self.new) result }

        // Where the writer itself tells its bytes.
        ensures passes { IfOk result (λ count.
            known.Appends (W.contents (writer_of self.old)) (W.contents (writer_of self.new)) (take count bytes.now)) }
        ensures failed { OnErr result (writer_faults self.new ≡ counted (writer_faults self.old)) }
    {
        match write_and_flush(&mut self.writer, bytes) {
            Ok(()) => Ok(bytes.len() as u64),
            Err(_) => {
                self.faults = self.faults.saturating_add(1);
                Err(Failed)
            }
        }
    }

    fn faults(&self) -> u64 {
        self.faults
    }
}

// What stands in a buffer would be lost where the program ends.
fn write_and_flush<W: Write>(writer: &mut W, bytes: &[u8]) -> io::Result<()>
    ensures { OnOk result (known.Appends (W.contents writer.old) (W.contents writer.new) bytes.now) }
{
    writer.write_all(bytes)?;
    flush(writer)
}

// A flush that no signal interrupts.
fn flush<W: Write>(writer: &mut W) -> io::Result<()>
    ensures passes { known.Keeps (W.contents writer.old) (W.contents writer.new) }
    ensures again { IfErr result (λ error. error_kind error ≢ Interrupted) }
{
    for _ in 0..u64::MAX {
        match writer.flush() {
            Err(error) if error.kind() == ErrorKind::Interrupted => {}
            answer => return answer,
        }
    }
    Err(io::Error::from(ErrorKind::TimedOut))
}
