//! The front of a call that has pages: these, LENGTH, SIZE, STOP and ORDER, and the way back where it is refused there.
ghost use Rattle.std.specs.Prelude.{◌+◌, true, ◌≡◌, ℕ, ◌<◌};
ghost use Rattle.nv_core.specs.state.Passes.{IsAllowed, len_of, plain_call};
ghost use Rattle.nv_op.specs.Ops.{begun_as, call_asked, core_op_of, opened_by};
ghost use Rattle.nv_table.specs.steps.StepContracts.{Postcondition};
ghost use Rattle.nv_mirror.specs.declared.front.FrontControl.TheVariants as fronts;
ghost use Rattle.nv_table.specs.state.Keys.{sizes_of};
ghost use Rattle.nv_table.specs.state.States.{IsOf, PassState};
ghost use Rattle.nv_mirror.specs.Fronts.{front_after_at, locked, Fits, IsOpen, front_call_of, front_op, front_opens, front_after, refuse, front_measure, IsUnderWay};

use crate::Refusal;
use nv_entry::piece_count;
use nv_op::{Asked, Asks, Op, Word, perform_asked};
use nv_pmem::Lines;
use nv_store::Backing;
use nv_table::{Board, Layout, Pass};

/// Where it stands.
#[derive(Clone, Copy, Debug, PartialEq, Eq)]
pub enum FrontControl {
    Begin,
    TakePage,
    LoadLength,
    TakeSize,
    LoadStop,
    LoadOrder,
    /// The front is over: a read goes on with its first page, a write with HEAD.
    Passed,
    /// It gives back what it holds, SIZE first.
    GiveBack { size: bool, refusal: Refusal },
    Over(Refusal),
}

/// The front of a read or a write of at least one byte.
#[derive(Clone, Copy, Debug, PartialEq, Eq)]
pub struct FrontMachine<'a> {
    pub asked: Asked<'a>,
    /// Where it ends in the file.
    pub end: u64,
    /// Its first page among all, and the one behind its last.
    pub first: u64,
    pub last: u64,
    /// How many pages it holds.
    pub held: u64,
    pub sized: bool,
    pub length: u64,
    pub control: FrontControl,
}

impl<'a> FrontMachine<'a> {
    /// The front of a call that is allowed and asks for some bytes. It has made no step yet.
    #[inline(always)]
    pub fn new(layout: Layout, asked: Asked<'a>) -> Self
        requires allowed { IsAllowed (sizes_of layout) (call_asked asked) }
        requires some { 0 < len_of (call_asked asked) }
        ensures fits { Fits (sizes_of layout) result }
        ensures asked { result.asked ≡ asked.entry }
        ensures begins { result.control ≡ fronts.Begin }
    {
        let (at, size) = (asked.at(), asked.size());
        let first = asked.file() * layout.pages + at / layout.page;
        FrontMachine {
            asked,
            end: at + size,
            first,
            last: first + piece_count(at, size, layout.page),
            held: 0,
            sized: false,
            length: 0,
            control: FrontControl::Begin,
        }
    }

    // The next step.
    #[inline(always)]
    fn next(self, layout: Layout) -> Op
        requires { Fits (sizes_of layout) self }
        ensures { result ≡ front_op self.entry }
    {
        // Only the clause speaks of it.
        let _ = layout;
        match self.control {
            FrontControl::Begin | FrontControl::TakePage => Op::Take {
                cell: Word::Page {
                    page: self.first + self.held,
                },
            },
            FrontControl::LoadLength => Op::Load {
                word: Word::Length {
                    file: self.asked.file(),
                },
            },
            FrontControl::TakeSize => Op::Take {
                cell: Word::Size {
                    file: self.asked.file(),
                },
            },
            FrontControl::LoadStop => Op::Load { word: Word::Stop },
            FrontControl::GiveBack { size: true, .. } => Op::Give {
                cell: Word::Size {
                    file: self.asked.file(),
                },
            },
            FrontControl::GiveBack { .. } => Op::Give {
                cell: Word::Page {
                    page: self.first + self.held - 1,
                },
            },
            _ => Op::Load { word: Word::Order },
        }
    }

    // And the call that it begins, if it does.
    #[inline(always)]
    fn opens(self) -> Option<Asked<'a>>
        ensures { result ≡ front_opens self.entry }
    {
        match self.control {
            FrontControl::Begin => Some(self.asked),
            _ => None,
        }
    }

    // It gives back so much.
    #[inline(always)]
    fn refuse(self, size: bool, held: u64, refusal: Refusal) -> FrontMachine<'a>
        ensures { result ≡ refuse self.entry size held refusal }
    {
        let control = if held == 0 && !size {
            FrontControl::Over(refusal)
        } else {
            FrontControl::GiveBack { size, refusal }
        };
        FrontMachine {
            held,
            control,
            ..self
        }
    }

    // It goes on there.
    #[inline(always)]
    fn at(self, control: FrontControl) -> FrontMachine<'a>
        ensures { result ≡ record self.entry { control = control } }
    {
        FrontMachine { control, ..self }
    }

    // It has one page more.
    #[inline(always)]
    fn with_page(self, layout: Layout) -> FrontMachine<'a>
        requires { self.first + self.held < self.last }
        ensures { result ≡ locked (sizes_of layout) self.entry true }
    {
        // Only the clause speaks of it.
        let _ = layout;
        let control = if self.first + self.held + 1 == self.last {
            FrontControl::LoadLength
        } else {
            FrontControl::TakePage
        };
        FrontMachine {
            held: self.held + 1,
            ..self.at(control)
        }
    }

    // It has loaded LENGTH.
    #[inline(always)]
    fn measured(self, layout: Layout, found: u64) -> FrontMachine<'a>
        ensures { result ≡ front_after_at (sizes_of layout) self.entry fronts.LoadLength found }
    {
        // Only the clause speaks of it.
        let _ = layout;
        let control = if self.asked.size() > 0 && found < self.end && !self.sized {
            FrontControl::TakeSize
        } else {
            FrontControl::LoadStop
        };
        FrontMachine {
            length: found,
            ..self.at(control)
        }
    }

    // What it is after it.
    #[inline(always)]
    fn after(self, layout: Layout, found: u64) -> FrontMachine<'a>
        requires { Fits (sizes_of layout) self }
        ensures { result ≡ front_after (sizes_of layout) self.entry found }
    {
        match self.control {
            FrontControl::Begin | FrontControl::TakePage => {
                if found != 0 {
                    let cell = layout.page_lock(self.first + self.held);
                    return self.refuse(false, self.held, Refusal::Busy { cell });
                }
                self.with_page(layout)
            }
            FrontControl::LoadLength => self.measured(layout, found),
            FrontControl::TakeSize if found == 0 => FrontMachine {
                sized: true,
                ..self.at(FrontControl::LoadLength)
            },
            FrontControl::TakeSize => {
                let cell = layout.size(self.asked.file());
                self.refuse(false, self.held, Refusal::Busy { cell })
            }
            FrontControl::LoadStop if found == 0 => self.at(FrontControl::LoadOrder),
            FrontControl::LoadStop => self.refuse(self.sized, self.held, Refusal::Stopped),
            FrontControl::LoadOrder if found < 1 << 60 => self.at(FrontControl::Passed),
            FrontControl::LoadOrder => self.refuse(self.sized, self.held, Refusal::Spent { found }),
            FrontControl::GiveBack {
                size: true,
                refusal,
            } => self.refuse(false, self.held, refusal),
            FrontControl::GiveBack { refusal, .. } => self.refuse(false, self.held - 1, refusal),
            _ => self,
        }
    }

    /// Makes the next step; the first one begins the call as what was asked, which is made as this one.
    #[inline(always)]
    pub fn advance<A: Asks, L: Lines, B: Backing>(
        &mut self,
        board: &Board<L, B>,
        pass: &mut Pass<L, B>,
    )
        requires board { IsOf board.now pass.old }
        requires open { IsOpen self.old.control }
        requires makes { plain_call A.call ≡ front_call_of self.old }
        requires way { (start : PassState) × IsUnderWay self.old start pass.old }
        ensures board { IsOf board.now pass.new }
        ensures one { (found : ℕ) × Postcondition pass.old (begun_as A.call (opened_by (front_opens self.old))) (core_op_of pass.old.view (front_op self.old)) found pass.new
            × (self.new ≡ front_after pass.old.view.opened.sizes self.old found) }
        ensures falls { front_measure self.new < front_measure self.old }
        ensures way { (start : PassState) → IsUnderWay self.old start pass.old → IsUnderWay self.new start pass.new }
    {
        let layout = board.layout();
        let found = perform_asked::<A, L, B>(board, pass, self.opens(), self.next(layout));
        *self = self.after(layout, found);
    }
}
