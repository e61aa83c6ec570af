//! What gdb's protocol has on its wire, and motions along the times of a machine.
#![tactic(auto)]

#[cfg(test)]
mod motions;
#[cfg(test)]
mod packets;
#[cfg(test)]
mod replies;
