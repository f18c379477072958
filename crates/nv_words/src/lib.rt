//! Command lines: which words behind a program's name are which command.
//!
//! [`parse_command`] is the one call. What it takes is the definition `command_of` (`specs/Words.antt`): the first word
//! names the command, `clap` reads the options of a run and of a schedule, and each has the range that its definition says.
#![tactic(auto)]

mod numbers;
mod options;
mod parser;
mod parsing;
mod words;

pub use parsing::parse_command;
pub use words::{Command, RunOptions, WordsError};
