//! Tests of devices, log entries, files and traces by their public calls. It has no code of its own: a crate with tests is proved
//! twice, and this one has nothing to prove but them.
#![tactic(auto)]

#[cfg(test)]
mod benches;
#[cfg(test)]
mod commits;
#[cfg(test)]
mod parts;
#[cfg(test)]
mod plain_files;
#[cfg(test)]
mod stores;
#[cfg(test)]
mod traces;
