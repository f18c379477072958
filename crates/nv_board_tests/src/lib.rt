//! Tests of the board, of mounts and of their calls, by public calls. It has no code of its own: a crate with tests is proved twice, and this one has
//! nothing to prove but them.
#![tactic(auto)]

#[cfg(test)]
mod boards;
#[cfg(test)]
mod calls;
#[cfg(test)]
mod descriptors;
#[cfg(test)]
mod given;
#[cfg(test)]
mod groups;
#[cfg(test)]
mod machines;
#[cfg(test)]
mod mounts;
#[cfg(test)]
mod vectored;
