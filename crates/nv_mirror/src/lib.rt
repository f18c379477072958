//! Machines of calls that are the core's control state, run: each says which operation comes next and where it stands after it, by pure functions that are the
//! core's order of steps, and one call of `perform` makes the step.
#![tactic(auto)]

mod answers;
mod front;
mod lent;
mod load;
mod load_ways;
mod loading;
mod pageless;
mod read_ways;
mod release;
mod visit;

pub use answers::{Done, Refusal};
pub use front::{FrontControl, FrontMachine};
pub use load::{LoadControl, LoadMachine};
pub use pageless::{PagelessControl, PagelessMachine};
pub use release::{ReleaseControl, ReleaseMachine};
pub use visit::{VisitControl, VisitMachine};
