//! What is said of a line that says why a job is not done: each fault has a sentence of its own.
#![tactic(auto)]

#[cfg(test)]
mod tests;
