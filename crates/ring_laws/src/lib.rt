//! Rings: how bytes lie in slots that are used again and again.
//! The definition and its lemmas, which the console and the pipes share; each has the code for its own slots.
#![tactic(auto)]
