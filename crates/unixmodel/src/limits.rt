//! How many of each a machine has, as in xv6's `param.h`.

/// The most processes.
pub const PROCESSES: usize = 64;

/// The descriptors of a process.
pub const DESCRIPTORS: usize = 16;

/// The most open files.
pub const OPEN_FILES: usize = 100;

/// The most pipes.
pub const PIPES: usize = 100;

/// The fewest frames of memory.
pub const FEWEST_FRAMES: u32 = 64;

/// The most frames of memory.
pub const MOST_FRAMES: u32 = 32768;

/// The most keys of a row of a script, and of what a keyboard gives at once: half of what a machine keeps of a typed
/// line.
pub const MOST_KEYS: usize = 64;
