//! Persistent memory as a row of lines: the trait that a region's parts keep, one in memory and one over a file.
#![tactic(auto)]

mod durable;
mod durable_file;
mod fault_counter;
mod file_part;
mod fuse;
mod geometry;
mod laws;
mod lines;
mod mem_line;
mod mem_part;
mod past;
mod picker;
mod told;

pub use durable::store_durably;
pub use durable_file::{open_durable, open_to_read, sync_folder_of};
pub use fault_counter::{FaultCounter, Refused};
pub use file_part::{FilePart, PartError};
pub use fuse::Fuse;
pub use geometry::{BadGeometry, Geometry, GeometryField};
pub use laws::{
    images_follow_calls, loads_follow_calls, rooms_follow_calls, rows_have_states,
    words_leave_more_than_lines,
};
pub use lines::{LineFault, Lines, RegionFault};
pub use mem_part::MemPart;
pub use past::Past;
pub use picker::{Pick, Picker};
