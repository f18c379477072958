//! Recovery: after a power failure the stores are brought to the files that a region and they stand for, and the log is
//! emptied. Recovery may lose power itself, at any device call, and is then begun again.
#![tactic(auto)]

mod apply;
mod empty;
mod error;
mod group;
mod groups;
mod laws;
mod leaders;
mod recovering;

pub use error::RecoverError;
pub use laws::{
    images_stand_for_files, recoveries_give_the_same_files, rows_of_stores_have_states,
};
pub use leaders::Leaders;
pub use recovering::{Recovered, bounds_of, recover, recover_parts, replay_log};
