//! Files that are written whole: in a folder in memory, in which each step fails in turn, and in a folder of the
//! system.
#![tactic(auto)]

#[cfg(test)]
mod tests;
