//! Traces and reports: the streams that they come and go by, the grammar of their lines, and their text.
#![tactic(auto)]

mod bad_line;
mod call_lines;
mod laws;
mod line;
mod lives;
mod mem_sink;
mod mem_source;
mod part_list;
mod pending_line;
mod plan;
mod read_error;
mod reader;
mod reader_source;
mod report;
mod spelling;
mod statement;
mod steps;
mod streams;
mod token;
mod trace;
mod trace_call;
mod writer_sink;

pub use bad_line::{BadLine, Why};
pub use laws::{
    first_rounds_name_all_files, refused_rounds_are_the_last, rounds_hold_their_calls,
    rounds_make_the_trace, rounds_read_are_first, traces_have_few_tokens,
};
pub use line::read_line;
pub use lives::EndedLife;
pub use mem_sink::MemSink;
pub use mem_source::MemSource;
pub use part_list::{LenList, PartList};
pub use read_error::{LineError, ReadError};
pub use reader::{LineReader, read_trace};
pub use reader_source::ReaderSource;
pub use report::{
    Fate, Refusal, end_line, file_line, history_line, open_line, recovered_line, refused_line,
};
pub use statement::{Statement, place_of};
pub use steps::schedule;
pub use streams::{Failed, Sink, Source, write_all};
pub use token::{Reach, StepName, Token, Turn};
pub use trace::{Descriptor, Form, Trace};
pub use trace_call::{TraceCall, TracedCall};
pub use writer_sink::WriterSink;
