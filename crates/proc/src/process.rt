//! A process, without its memory.

use unixmodel::process::Mode;

/// All that a process has, except its memory.
#[derive(Clone, Copy, Debug, PartialEq, Eq)]
pub struct Process {
    /// Its number, from 1 on, which no other process has.
    pub pid: u32,
    /// The pid of its parent, and 0 for process 1.
    pub parent: u32,
    /// x0 to x31, while it doesn't run.
    pub registers: [u64; 32],
    /// The address of its next instruction, while it doesn't run.
    pub pc: u64,
    /// Each free, or the number of an open file.
    pub descriptors: [Option<u8>; 16],
    /// The number of the working directory, and 0 once it is given up.
    pub directory: u32,
    /// It ends before it does another instruction.
    pub killed: bool,
    /// Whether it runs, is ready, waits or has ended.
    pub mode: Mode,
}

/// A slot of the table: a process, or none.
pub type Place = Option<Process>;
