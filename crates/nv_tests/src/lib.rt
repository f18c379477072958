//! Tests of regions by their public calls. As `nv_device_tests`, it has no code of its own.
#![tactic(auto)]

#[cfg(test)]
mod given;
#[cfg(test)]
mod openings;
#[cfg(test)]
mod recoveries;
#[cfg(test)]
mod regions;
