//! Owners of calls: what gives a thread its calls, and takes what they are answered.
ghost use Rattle.std.specs.Prelude.{◌≡◌, ◌≢◌, true, false, List, [], ◌∷◌, ◌++◌, OnErr, OnOk};
ghost use Rattle.nv_trace.specs.declared.trace_call.TracedCall.{TracedCall as AnyTraced};
ghost use Rattle.nv_runner.specs.Lists.{MadeCall};

use crate::Answer;
use nv_mount::Mount;
use nv_plain::NoMemory;
use nv_pmem::Lines;
use nv_store::Backing;
use nv_trace::TracedCall;
use std::alloc::Global;

/// An owner of the calls of one thread: a list of them, or what makes one after another. It gives each of them in turn, and takes what that one was answered.
pub trait Calls {
    /// The calls that were answered, with their answers, in their order.
    ghost made: { Self → List MadeCall };

    /// The calls that are left, in their order, the present one first.
    ghost left: { Self → List AnyTraced };

    /// The first of them is at hand, with room for its answer.
    ghost is_ready: { Self → Type 0 };

    /// Takes what all calls that are left take, before the first of them. Room for the bytes of reads among them, that of the first one last; none where each read takes its own.
    fn take_rooms<L: Lines + Drop, B: Backing + Drop>(
        &mut self,
        alloc: Global,
        mount: &Mount<L, B>,
    ) -> Result<Vec<Vec<u8>>, NoMemory>
        ensures made { made self.new ≡ made self.old }
        ensures left { OnOk result (left self.new ≡ left self.old) }
        ensures memory { OnErr result (left self.old ≢ []) };

    /// Takes the next call to hand. Whether there is one.
    fn ready(&mut self) -> Result<bool, NoMemory>
        ensures made { made self.new ≡ made self.old }
        ensures left { OnOk result (left self.new ≡ left self.old) }
        ensures ready { result ≡ Ok true → is_ready self.new }
        ensures none { result ≡ Ok false → left self.old ≡ [] }
        ensures memory { OnErr result (left self.old ≢ []) };

    /// The call at hand.
    fn present(&self) -> &TracedCall
        requires { is_ready self.now }
        ensures { (later : List AnyTraced) × (left self.now ≡ result.now ∷ later) };

    /// Takes what the call at hand was answered.
    fn put(&mut self, answer: Answer)
        requires { is_ready self.old }
        ensures { (call : AnyTraced) × (left self.old ≡ call ∷ left self.new)
            × (made self.new ≡ made self.old ++ record { call = call; answer = answer } ∷ []) };
}
