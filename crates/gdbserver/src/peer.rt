//! The other end.
ghost use Rattle.std.specs.Prelude.{◌≤◌, length};

/// A debugger, and the host's files of programs.
pub trait Peer {
    /// Reads what the debugger sends next into the front of `bytes`, and returns how many bytes that are: 0 at its end.
    fn hear(&mut self, bytes: &mut [u8]) -> usize
        ensures { result ≤ length bytes.old };

    /// Sends bytes to the debugger, and returns whether they could be sent.
    fn say(&mut self, bytes: &[u8]) -> bool;

    /// The file of the program with a path of the machine, with its symbols if there are any.
    fn program(&mut self, path: &[u8]) -> Option<Vec<u8>>;
}
