//! The steps of calls as operations: what a machine makes next is an [`Op`] on a [`Word`], and [`perform`] makes it, for all kinds with one contract. It is
//! made where it is the next step by the core's table, and the pass goes on as the core says. So a machine has to say which operation comes next and
//! where it stands after it, and no place of a word, no slot and no arithmetic of a word comes into what it proves.
#![tactic(auto)]

mod asked;
mod cleaner_op;
mod entry_word;
mod kinds;
mod op;
mod performing;
mod word;

pub use asked::Asked;
pub use cleaner_op::CleanerOp;
pub use entry_word::EntryWord;
pub use kinds::Kind;
pub use op::Op;
pub use performing::{Asks, perform, perform_after, perform_asked};
pub use word::Word;
