//! gdb's remote protocol, without any machine: frames and hexadecimal numbers, written and read.
#![tactic(auto)]

mod actions;
mod frames;
mod hex;
mod laws;
mod packets;
mod reader;

pub use actions::{Action, Going, action_in};
pub use frames::push_frame;
pub use hex::{digit_value, number, push_byte, push_bytes, push_decoded, push_number};
pub use laws::{actions_are_read, digits_are_read, frames_are_heard, packets_are_read};
pub use packets::{
    Id, Numbered, Packet, Part, Parted, Point, Texted, Thread, Threaded, Word, cut, parse,
    thread_in,
};
pub use reader::{Heard, MOST, Reader};
