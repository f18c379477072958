//! The table of a running mount: its words, which change in single atomic steps, and slots for what its cells keep: the header's part, each
//! entry's part, each file's store, and each page's buffer. Threads share a [`Board`] by reference; each steps with a [`Pass`] of its own. There
//! is no lock and no waiting, and no step takes memory.
//!
//! What contracts see of a pass is the run so far: all events of all passes up to its own last one. The table's invariant says that
//! its words and its slots at home are those of the state that one run of the core (`nv_core`) leads to, and that each pass has seen all of its own
//! events. So a step is one event of the core, after the device calls that its pass has made since its last one, and nothing else changes the
//! table. `docs/machine.md` has all of it in words.
//!
//! [`step`] makes a step of any kind; the crates above say what their kinds are by [`StepSpec`], and prove when they may come.
#![tactic(auto)]

mod acting;
mod board;
mod closing;
mod exchanges;
mod laws;
mod layout;
mod opening;
mod pass;
mod passing;
mod rule;
mod seating;
mod seats;
mod slot;
mod stepping;
mod view;
mod workspace;

pub use acting::{Change, Says, StepSpec};
pub use board::{Board, Refused};
pub use closing::Closed;
pub use exchanges::exchange;
pub use laws::{
    a_pass_alone_is_not_refused, a_pass_is_alone_again, passes_stay_between_calls,
    steps_find_what_is_known,
};
pub use layout::{CLEANER, HAND, HEAD, HEADER, Layout, ORDER, STOP, TAIL};
pub use pass::Pass;
pub use seats::{ExportedView, export_view, import_view, join_pass, look_at, split_pass};
pub use slot::{PageBuffer, Shown, Slot};
pub use stepping::{Marks, Moves, step};
pub use view::View;
pub use workspace::Workspace;
