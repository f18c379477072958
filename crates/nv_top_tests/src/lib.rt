//! Tests of the top call that are proved too: whole commands, by their words, traces and reports. Their rows, and loops over stops, sizes and
//! failures, run the programs (checks/rows.py, regions.py, schedules.py, stops.py) or stand in checks/tests. As `nv_tests`, it has no code
//! of its own.
#![tactic(auto)]

#[cfg(test)]
mod cases;
#[cfg(test)]
mod commands;
#[cfg(test)]
mod loads;
#[cfg(test)]
mod regions;
#[cfg(test)]
mod schedules;
#[cfg(test)]
mod streams;
