//! Assembly texts as they are written elsewhere: what they are expanded to, and what is wrong with them.
#![tactic(auto)]

#[cfg(test)]
mod tests;
