//! The jobs of the command line with files in memory, against what they have to write; what is said of a line that
//! says why a job is not done.
#![tactic(auto)]

#[cfg(test)]
mod tests;
