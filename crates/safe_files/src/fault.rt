//! Why a file was not written.

/// Why a step was not done.
#[derive(Clone, Copy, Debug, PartialEq, Eq)]
pub enum StepFault {
    /// There is a file of the name.
    Taken,
    /// The folder may not be changed.
    Denied,
    /// All else.
    Failed,
}

/// Why a file was not replaced.
#[derive(Clone, Copy, Debug, PartialEq, Eq)]
pub enum PutFault {
    /// There was no memory for the name of a new file.
    NoMemory,
    /// The folder may not be changed.
    Denied,
    /// A step failed.
    Failed,
    /// A step failed, and the new file, which was begun, could not be removed.
    Left,
}
