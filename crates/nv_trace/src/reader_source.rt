//! Trusted edge: a source over a reader.
ghost use Rattle.std.specs.Prelude.{◌≡◌, ◌≢◌, ◌≤◌, IfErr, IfOk, OnErr, length};
ghost use Rattle.std.specs.IoError.{error_kind};
ghost use Rattle.std.specs.declared.io.ErrorKind.TheVariants.{Interrupted};
ghost use Rattle.std.specs.Io.{ReadsAtMost};
ghost use Rattle.std.specs.Io.KnownBytes as known;
ghost use Rattle.nv_plain.specs.Faults.{HasCause};
ghost use Rattle.nv_trace.specs.Streams.{HasRead, counted};
ghost use Rattle.nv_trace.specs.RealStreams.{untold, reader_of, reader_faults};

use crate::{Failed, Source};
use std::io;
use std::io::{ErrorKind, Read};

/// A source over a reader. It tells nothing of what is left.
#[derive(Debug, Drop)]
pub struct ReaderSource<R> {
    reader: R,
    faults: u64,
}

impl<R: Read + Drop> ReaderSource<R> {
    /// A source of what the reader gives. Each error of the reader is a failed read, but that a call which a signal
    /// interrupted is made again (POSIX.1-2017, read: EINTR).
    pub fn new(reader: R) -> Self
        ensures reader { reader_of result ≡ reader }
        ensures faults { reader_faults result ≡ 0 }
    {
        ReaderSource { reader, faults: 0 }
    }
}

impl<R: Read + Drop> Source for ReaderSource<R> {
    ghost left = { untold };

    ghost fault_count = { reader_faults };

    fn read(&mut self, buf: &mut [u8]) -> Result<u64, Failed>
        ensures count { IfOk result (λ count. count ≤ length buf.old) }
        ensures told { IfOk result
            (λ count. HasRead (untold self.old) (untold self.new) count buf.old buf.new) }
        ensures cause { HasCause (reader_faults self.old) (reader_faults self.new) result }

        // Where the reader itself tells its bytes.
        ensures passes { known.ReadConsumes
            (R.remaining (reader_of self.old)) (R.remaining (reader_of self.new)) result buf.new }
        ensures failed { OnErr result (reader_faults self.new ≡ counted (reader_faults self.old)) }
    {
        match read_some(&mut self.reader, buf) {
            Ok(count) => Ok(count as u64),
            Err(_) => {
                self.faults = self.faults.saturating_add(1);
                Err(Failed)
            }
        }
    }

    fn faults(&self) -> u64 {
        self.faults
    }
}

// One read that no signal interrupts.
fn read_some<R: Read>(reader: &mut R, buf: &mut [u8]) -> io::Result<usize>
    ensures count { ReadsAtMost result buf.new }
    ensures passes { known.ReadConsumes (R.remaining reader.old) (R.remaining reader.new) result buf.new }
    ensures again { IfErr result (λ error. error_kind error ≢ Interrupted) }
{
    for _ in 0..u64::MAX {
        match reader.read(buf) {
            Err(error) if error.kind() == ErrorKind::Interrupted => {}
            answer => return answer,
        }
    }
    Err(io::Error::from(ErrorKind::TimedOut))
}
