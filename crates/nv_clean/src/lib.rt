//! The cleaner: batches that carry the log to its files. A machine of a batch is the core's control state, run: what comes next and what follows it are the core's own
//! functions of its batch and of the cells that its pass owns (`next_cleaner_op`, `after_cleaner_op`), and no step is said twice.
#![tactic(auto)]

mod advancing;
mod alone;
mod batch;
mod clean;
mod following;
mod laws;
mod machine;
mod next;
mod owned;
mod retiring;
mod telling;
mod writing;

pub use alone::batches_alone_are_answered_by_the_log;
pub use batch::{CleanControl, CleanMachine, CleanRefusal};
pub use clean::{CleanProgress, Cleaned, try_clean};
pub use laws::batches_leave_whole_groups;
pub use owned::{Cell, MOST_CELLS, OwnedCells};
