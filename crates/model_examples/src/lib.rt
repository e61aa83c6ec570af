//! Worked cases of the definitions in `unixmodel`, which the checker computes.
//! They are words that are instructions, what instructions do, walks of page tables, plans of programs, calls, whole
//! runs, and an image that denotes its files.
//! Each is in `proofs/` with the value that is expected, worked out apart from the definitions.
#![tactic(auto)]
