//! An open file, and what it is open on.
ghost use Rattle.std.specs.Prelude.{◌≡◌};
ghost use Rattle.files.specs.Meant.{end_of, target_of};
ghost use Rattle.files.specs.Places.{moved_to};
ghost use Rattle.unixmodel.specs.FileCalls.{node_number};
ghost use Rattle.unixmodel.specs.OpenFiles.{is_end, is_pipe};

/// An end of a pipe.
#[derive(Clone, Copy, Debug, PartialEq, Eq)]
pub enum End {
    Read,
    Write,
}

/// What an open file is open on.
#[derive(Clone, Copy, Debug, PartialEq, Eq)]
pub enum Target {
    /// A file or a directory, from an offset on.
    File { number: u32, offset: u32 },
    /// The console, which is the device of major 1.
    Console { number: u32 },
    /// Any other device.
    Device { number: u32 },
    /// An end of a pipe.
    Pipe { pipe: usize, end: End },
}

/// An open file, which all descriptors that name it share.
#[derive(Clone, Copy, Debug, PartialEq, Eq)]
pub struct OpenFile {
    pub target: Target,
    pub readable: bool,
    pub writable: bool,
}

impl Target {
    /// The number of the node that it is open on.
    pub fn node(&self) -> Option<u32>
        ensures { result ≡ node_number (target_of self.now) }
    {
        match *self {
            Target::File { number, .. } | Target::Console { number } | Target::Device { number } =>
                Some(number),
            Target::Pipe { .. } => None,
        }
    }

    // Sets the offset of a file or a directory.
    pub(crate) fn move_to(&mut self, offset: u32)
        ensures { self.new ≡ moved_to offset self.old }
    {
        if let Target::File { offset: at, .. } = self {
            *at = offset;
        }
    }

    /// Whether it is an end of this pipe.
    pub fn is_pipe(&self, pipe: usize) -> bool
        ensures { result ≡ is_pipe pipe (target_of self.now) }
    {
        match self {
            Target::Pipe { pipe: of, .. } => *of == pipe,
            Target::File { .. } | Target::Console { .. } | Target::Device { .. } => false,
        }
    }

    /// Whether it is this end of this pipe.
    pub fn is_end(&self, pipe: usize, end: End) -> bool
        ensures { result ≡ is_end pipe (end_of end) (target_of self.now) }
    {
        match self {
            Target::Pipe {
                pipe: of,
                end: open,
            } => *of == pipe && *open == end,
            Target::File { .. } | Target::Console { .. } | Target::Device { .. } => false,
        }
    }
}
