//! A batch as a call.
ghost use Rattle.std.specs.Prelude.{◌≡◌, ℕ, ◌<◌, ◌≤◌, None, length};
ghost use Rattle.nv_table.specs.invariant.BetweenSteps.{KnowsTaken};
ghost use Rattle.nv_table.specs.invariant.Idle.{IsIdle, IsLater};
ghost use Rattle.nv_table.specs.passes.Alone.{IsAlone};
ghost use Rattle.nv_table.specs.state.States.{IsOf, PassState};
ghost use Rattle.nv_mirror.specs.Answers.{IsUnplaced};
ghost use Rattle.nv_clean.specs.Alone.{IsAnsweredAlone};
ghost use Rattle.nv_clean.specs.Answers.{BatchGoes, IsBatchUnderWay, IsCleanOver, answer_of};
ghost use Rattle.nv_clean.specs.CleanSteps.{HasMadeOne};
ghost use Rattle.nv_clean.specs.Cleaning.{IsOpen};
ghost use Rattle.nv_clean.specs.Measures.{clean_measure};

use crate::{CleanMachine, CleanRefusal, batches_alone_are_answered_by_the_log};
use nv_core::{
    crashes_leave_whole_writes, passes_are_left_alone, runs_are_sound, runs_keep_the_log,
};
use nv_mount::Mount;
use nv_pmem::Lines;
use nv_store::Backing;
use nv_table::{Board, Pass};

/// How many bytes a page has at most.
const MOST_PAGE: usize = 4096;

/// What a batch has retired.
#[derive(Clone, Copy, Debug, PartialEq, Eq)]
pub struct Cleaned {
    /// How many entries, from TAIL on as the batch loaded it: TAIL is past them.
    pub retired: u64,
}

/// What an advance of a batch came to.
#[derive(Clone, Copy, Debug, PartialEq, Eq)]
pub enum CleanProgress {
    /// It has made one step, and goes on.
    More,
    /// It has made its last one, and is answered so.
    Ended(Result<Cleaned, CleanRefusal>),
}

impl CleanMachine {
    // What it is answered, once it is over.
    fn answer(&self) -> Result<Cleaned, CleanRefusal>
        requires { self.now.refusal ≡ None → self.now.batch.tail ≤ self.now.batch.reached }
        ensures { result ≡ answer_of self.now }
    {
        match self.refusal {
            Some(refusal) => Err(refusal),
            None => Ok(Cleaned {
                retired: self.reached - self.tail,
            }),
        }
    }

    /// Makes the next step, after the device calls that lie before it. The pass was idle before the first one, and has begun nothing else since. Takes no memory.
    pub fn advance<L: Lines + Drop, B: Backing + Drop>(
        &mut self,
        mount: &Mount<L, B>,
        pass: &mut Pass<L, B>,
    ) -> CleanProgress
        requires board { IsOf mount.now.board pass.old }
        requires open { IsOpen self.old.control }
        requires under_way { (most : ℕ) × (start : PassState) × IsBatchUnderWay most self.old start pass.old }
        ensures board { IsOf mount.now.board pass.new }
        ensures one { HasMadeOne mount.now.board.opened.sizes self.old self.new pass.old pass.new }
        ensures falls { clean_measure mount.now.board.opened.sizes self.new < clean_measure mount.now.board.opened.sizes self.old }
        ensures goes { (most : ℕ) (start : PassState) → IsBatchUnderWay most self.old start pass.old → BatchGoes most start self.new pass.new result }
    {
        runs_are_sound();
        passes_are_left_alone();
        runs_keep_the_log();
        crashes_leave_whole_writes();
        pass.sees_a_run();
        let board = mount.board();
        let page = board.layout().page as usize;
        let mut room = [0; MOST_PAGE];
        self.make_step(board, pass, &mut room[..page]);
        pass.sees_a_run();
        if self.is_over() {
            CleanProgress::Ended(self.answer())
        } else {
            CleanProgress::More
        }
    }
}

// A whole batch. The piece of an entry that is written back lies in `piece` meanwhile.
fn run<L: Lines, B: Backing>(
    board: &Board<L, B>,
    pass: &mut Pass<L, B>,
    batch: u64,
    piece: &mut [u8],
) -> Result<Cleaned, CleanRefusal>
    requires board { IsOf board.now pass.old }
    requires idle { IsIdle pass.old }
    requires page { length piece.old ≡ board.now.opened.sizes.page }
    ensures board { IsOf board.now pass.new }
    ensures idle { IsIdle pass.new }
    ensures later { IsLater pass.old pass.new }
    ensures spare { pass.new.spare ≡ pass.old.spare }
    ensures kept { IsUnplaced pass.old.view pass.new.view }
    ensures over { IsCleanOver batch pass.old pass.new result }
{
    runs_are_sound();
    passes_are_left_alone();
    runs_keep_the_log();
    crashes_leave_whole_writes();
    pass.sees_a_run();
    let mut machine = CleanMachine::new(batch);
    while !machine.is_over() {
        machine.make_step(board, pass, piece);
    }
    pass.sees_a_run();
    machine.answer()
}

/// Carries entries of the log to their files: whole groups from the tail on, at least one, and no more entries than `batch` but where the first group alone is larger, so the first group alone where
/// `batch` is 0. The pieces are written to the stores, which are synced; then the persistent tail moves past the entries, and they are free. Refused where there is nothing to clean: TAIL was HEAD, or the entry at the tail not
/// ready; where CLEANER or HEADER was found held, or before the first group was cleaned a CLEANUP of its pages or its file's STORE; where STOP was found set; where a store refused a write of the first
/// group for want of memory; and after a device fault, which sets STOP. It takes no place in the history, and a refused one has freed no entry and not moved TAIL; where no device has failed it has left
/// all words as they were. Where it tells of STOP its pass cleans nothing any more. Its pass holds nothing then. Takes no memory, and waits for nobody. While no other pass is out no lock is found held, and a batch is answered that there is nothing to clean exactly where STOP was 0 and the log empty.
pub fn try_clean<L: Lines + Drop, B: Backing + Drop>(
    mount: &Mount<L, B>,
    pass: &mut Pass<L, B>,
    batch: u64,
) -> Result<Cleaned, CleanRefusal>
    requires board { IsOf mount.now.board pass.old }
    requires idle { IsIdle pass.old }
    ensures board { IsOf mount.now.board pass.new }
    ensures idle { IsIdle pass.new }
    ensures later { IsLater pass.old pass.new }
    ensures spare { pass.new.spare ≡ pass.old.spare }
    ensures kept { IsUnplaced pass.old.view pass.new.view }
    ensures over { IsCleanOver batch pass.old pass.new result }
    ensures alone { KnowsTaken pass.old.view → IsAlone pass.old.view → IsAnsweredAlone pass.old.view pass.new.view result }
{
    batches_alone_are_answered_by_the_log();
    pass.sees_a_run();
    let board = mount.board();
    let page = board.layout().page as usize;
    let mut room = [0; MOST_PAGE];
    run(board, pass, batch, &mut room[..page])
}
