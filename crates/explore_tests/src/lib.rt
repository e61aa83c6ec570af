//! Searches in which the digests of all states are equal: they find the same.
#![tactic(auto)]

#[cfg(test)]
mod constant;
#[cfg(test)]
mod tests;
