//! Machines that boot from images: lists of events that go in one piece and in pieces, disks that are saved and booted
//! again, disks of which each access fails in its turn, how often a disk is asked for, the arguments of a program,
//! digests of states, sessions that are driven from outside, faults, reports and traces.
#![tactic(auto)]

#[cfg(test)]
mod accesses;
#[cfg(test)]
mod arguments;
#[cfg(test)]
mod disks;
#[cfg(test)]
mod faults;
#[cfg(test)]
mod json_rows;
#[cfg(test)]
mod outages;
#[cfg(test)]
mod pairs;
#[cfg(test)]
mod pieces;
#[cfg(test)]
mod records;
#[cfg(test)]
mod reports_of_many;
#[cfg(test)]
mod rounds;
#[cfg(test)]
mod samples;
#[cfg(test)]
mod saved;
#[cfg(test)]
mod sessions;
#[cfg(test)]
mod shape;
#[cfg(test)]
mod sources;
#[cfg(test)]
mod stops;
#[cfg(test)]
mod tracing;
