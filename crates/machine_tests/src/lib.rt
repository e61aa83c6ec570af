//! Whole runs of the machine, against the values that the definitions of the abstract Unix give on the same programs.
#![tactic(auto)]

#[cfg(test)]
mod alike;
#[cfg(test)]
mod answers;
#[cfg(test)]
mod booting;
#[cfg(test)]
mod computing;
#[cfg(test)]
mod copying;
#[cfg(test)]
mod execs;
#[cfg(test)]
mod failing;
#[cfg(test)]
mod hello;
#[cfg(test)]
mod inodes;
#[cfg(test)]
mod links;
#[cfg(test)]
mod looking;
#[cfg(test)]
mod naming;
#[cfg(test)]
mod nodes;
#[cfg(test)]
mod paths;
#[cfg(test)]
mod pipes;
#[cfg(test)]
mod play;
#[cfg(test)]
mod processes;
#[cfg(test)]
mod saving;
#[cfg(test)]
mod steps;
#[cfg(test)]
mod strides;
#[cfg(test)]
mod typing;
