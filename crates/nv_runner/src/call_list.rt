//! A thread's calls among those of a trace.
ghost use Rattle.std.specs.Prelude.{◌≡◌, [], IfOk, length};
ghost use Rattle.nv_runner.specs.Shifts.{calls_of_thread};
ghost use Rattle.nv_runner.specs.Owners.{IsAtOwn, IsListReady, list_left, list_made};

use crate::{Answer, AnsweredCall, Calls};
use nv_calls::early_read_refusal;
use nv_mount::Mount;
use nv_plain::NoMemory;
use nv_pmem::Lines;
use nv_store::Backing;
use nv_trace::{TraceCall, TracedCall};
use std::alloc::Global;

/// The calls of a thread among some: those from the present one on, and what the ones before were answered.
#[derive(Drop)]
pub(crate) struct CallList<'a> {
    thread: u64,
    rest: &'a [TracedCall],
    answered: Vec<AnsweredCall<'a>>,
}

impl<'a> CallList<'a> {
    /// All calls of the thread among these.
    pub(crate) fn new(alloc: Global, thread: u64, calls: &'a [TracedCall]) -> CallList<'a>
        ensures made { list_made result ≡ [] }
        ensures left { list_left result ≡ calls_of_thread thread calls.now }
    {
        CallList {
            thread,
            rest: calls,
            answered: Vec::new(alloc),
        }
    }

    /// What its calls were answered, in their order.
    pub(crate) fn into_answered(self) -> Vec<AnsweredCall<'a>>
        ensures { result ≡ self.entry.answered }
    {
        let CallList {
            thread: _,
            rest: _,
            answered,
        } = self;
        answered
    }
}

// Some calls from the first one of a thread's on.
fn from_own(calls: &[TracedCall], thread: u64) -> &[TracedCall]
    ensures same { calls_of_thread thread result.now ≡ calls_of_thread thread calls.now }
    ensures own { IsAtOwn thread result.now }
{
    let mut rest = calls;
    while let Some(call) = rest.first() {
        if call.thread == thread {
            break;
        }
        rest = &rest[1..];
    }
    rest
}

// How many calls are of the thread.
fn count_of(calls: &[TracedCall], thread: u64) -> usize
    ensures { result ≡ length (calls_of_thread thread calls.now) }
{
    let mut count = 0;
    for call in calls {
        if call.thread != thread {
            continue;
        }
        count += 1;
    }
    count
}

// Puts room for the bytes of a call behind the others, where it is a read that isn't refused by what it asks for.
fn push_room<L: Lines + Drop, B: Backing + Drop>(
    alloc: Global,
    mount: &Mount<L, B>,
    call: &TraceCall,
    rooms: &mut Vec<Vec<u8>>,
) -> Result<(), NoMemory> {
    let TraceCall::Pread { fd, at, len } = call else {
        return Ok(());
    };
    if early_read_refusal(mount, *fd, *at, *len).is_none() {
        let mut room = Vec::new(alloc);
        room.reserve_exact(*len as usize)?;
        rooms.push(room)?;
    }
    Ok(())
}

// Room for the bytes of each read of the thread, that of its first one last.
fn read_rooms<L: Lines + Drop, B: Backing + Drop>(
    alloc: Global,
    mount: &Mount<L, B>,
    calls: &[TracedCall],
    thread: u64,
) -> Result<Vec<Vec<u8>>, NoMemory> {
    let mut rooms = Vec::new(alloc);
    for call in calls {
        if call.thread == thread {
            push_room(alloc, mount, &call.call, &mut rooms)?;
        }
    }
    rooms.reverse();
    Ok(rooms)
}

impl<'a> Calls for CallList<'a> {
    ghost made = { list_made };

    ghost left = { list_left };

    ghost is_ready = { IsListReady };

    fn take_rooms<L: Lines + Drop, B: Backing + Drop>(
        &mut self,
        alloc: Global,
        mount: &Mount<L, B>,
    ) -> Result<Vec<Vec<u8>>, NoMemory> {
        let count = count_of(self.rest, self.thread);
        if count == 0 {
            return Ok(Vec::new(alloc));
        }
        self.answered.reserve_exact(count)?;
        read_rooms(alloc, mount, self.rest, self.thread)
    }

    fn ready(&mut self) -> Result<bool, NoMemory> {
        self.rest = from_own(self.rest, self.thread);
        if self.rest.is_empty() {
            return Ok(false);
        }
        self.answered.reserve(1)?;
        Ok(true)
    }

    fn present(&self) -> &TracedCall {
        &self.rest[0]
    }

    fn put(&mut self, answer: Answer) {
        let [call, later @ ..] = self.rest else {
            unreachable!()
        };
        self.answered.push_reserved(AnsweredCall { call, answer });
        self.rest = later;
    }
}
