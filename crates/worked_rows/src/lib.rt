//! Three libraries on worked rows, through their public calls. Each expected value is worked out apart from the code.
//! The assembler: a text's words, or its fault.
//! The cache: how often it reads and writes its device, which blocks leave, and what it does without memory or with a
//! failing device.
//! Programs: their headers and their arguments.
#![tactic(auto)]

#[cfg(test)]
mod asm_products;
#[cfg(test)]
mod asm_texts;
#[cfg(test)]
mod cache_refused;
#[cfg(test)]
mod cache_rising;
#[cfg(test)]
mod cache_rows;
#[cfg(test)]
mod program_arguments;
#[cfg(test)]
mod program_headers;
