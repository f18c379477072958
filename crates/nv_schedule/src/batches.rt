//! The cleaner of a schedule: batches, one after another.
ghost use Rattle.std.specs.Prelude.{◌≡◌, None, Some, false};
ghost use Rattle.nv_table.specs.state.States.{IsOf, PassState};
ghost use Rattle.nv_schedule.specs.Callers.{BatchEnds, CleanerHasCome, IsAtBatch, kind_at_batch};
ghost use Rattle.nv_schedule.specs.Faulted.{batch_faulted};
ghost use Rattle.nv_schedule.specs.Hands.{IsOneOrNoStep};
ghost use Rattle.nv_schedule.specs.Turns.{BatchCame};

use crate::turned::Turned;
use nv_calls::Kind;
use nv_clean::{CleanMachine, CleanProgress};
use nv_mount::Mount;
use nv_pmem::Lines;
use nv_store::Backing;
use nv_table::Pass;
use std::marker::Model;

/// Batches of at most so many entries, of which one may be under way.
#[derive(Drop)]
pub(crate) struct Batches {
    pub(crate) most: u64,
    pub(crate) machine: Option<CleanMachine>,
}

impl Model for Batches {
    ghost use Rattle.nv_schedule.specs.Callers.{BatchState};

    ghost Value = { BatchState };

    ghost view = { λ b. record { most = b.most; machine = b.machine } };
}

impl Batches {
    /// The kind of its next step, if each device call before it ends well.
    pub(crate) fn next_kind(&self) -> Kind
        ensures { result ≡ kind_at_batch self.now.machine }
    {
        match &self.machine {
            None => Kind::Take,
            Some(machine) => machine.next_kind(),
        }
    }

    // The present batch, or the next one where there is none.
    fn take_up(&mut self) -> CleanMachine
        ensures none { self.new ≡ record { most = self.old.most; machine = None } }
        ensures faulted { batch_faulted (Some result) ≡ batch_faulted self.old.machine }
        ensures at { (begun now : PassState) → IsAtBatch self.old.most self.old.machine begun now → IsAtBatch self.old.most (Some result) begun now }
        ensures come { (start now : PassState) → CleanerHasCome self.old start now → CleanerHasCome (record { most = self.old.most; machine = Some result }) start now }
    {
        match self.machine.take() {
            Some(machine) => machine,
            None => CleanMachine::new(self.most),
        }
    }

    /// Makes the next step of the present batch, or the first one of the next batch where there is none. The batch is answered by its last one.
    pub(crate) fn turn<L: Lines + Drop, B: Backing + Drop>(
        &mut self,
        mount: &Mount<L, B>,
        pass: &mut Pass<L, B>,
    ) -> Turned
        requires board { IsOf mount.now.board pass.old }
        requires come { (start : PassState) × CleanerHasCome self.old start pass.old }
        ensures board { IsOf mount.now.board pass.new }
        ensures most { self.new.most ≡ self.old.most }
        ensures moved { IsOneOrNoStep ⊥ (batch_faulted self.old.machine) result.faulted pass.old pass.new }
        ensures none { result.faulted ≡ false → batch_faulted self.new.machine ≡ false }
        ensures ends { BatchEnds result.answered self.new.machine }
        ensures batch { (begun : PassState) → IsAtBatch self.old.most self.old.machine begun pass.old → BatchCame result.answered self.new.most self.new.machine begun pass.new }
        ensures come { (start : PassState) → CleanerHasCome self.old start pass.old → CleanerHasCome self.new start pass.new }
    {
        let mut machine = self.take_up();
        let progress = machine.advance(mount, pass);
        let faulted = machine.faulted();
        let answered = match progress {
            CleanProgress::More => {
                self.machine = Some(machine);
                false
            }
            CleanProgress::Ended(_) => true,
        };
        Turned { answered, faulted }
    }
}
