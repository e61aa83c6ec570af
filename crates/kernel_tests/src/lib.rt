//! The parts of the machine on worked rows, through their public calls. Each row has the value that is expected,
//! worked out apart from the code.
#![tactic(auto)]

#[cfg(test)]
mod descriptors;
#[cfg(test)]
mod expected;
#[cfg(test)]
mod free_frames;
#[cfg(test)]
mod memory;
#[cfg(test)]
mod page_tables;
#[cfg(test)]
mod places;
#[cfg(test)]
mod processes;
#[cfg(test)]
mod rings;
#[cfg(test)]
mod steps;
#[cfg(test)]
mod typing;
#[cfg(test)]
mod user_memory;
#[cfg(test)]
mod walks;
#[cfg(test)]
mod words;
