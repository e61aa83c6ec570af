//! Where files come from and go to.
ghost use Rattle.std.specs.Prelude.{◌≡◌, ◌≤◌, IfOk, IfSome, IsTrue, None, OnOk, Option, length, vec_len};
ghost use Rattle.host.specs.Files.{Appends, Holds, HoldsFront, HoldsMarked, HostFiles, Writes};

use std::{fmt, io};

/// A file could not be read or written.
#[derive(Clone, Copy)]
pub struct HostFault;

/// Another job holds a file.
#[derive(Clone, Copy)]
pub struct InUse;

/// Why the last file that could not be read or written could not.
#[derive(Clone, Copy)]
pub enum Why {
    /// The host doesn't say.
    Unknown,
    /// Memory was refused.
    NoMemory,
    /// The system refused.
    System(io::Error),
}

/// The first bytes of a file.
#[derive(Drop)]
pub struct Front {
    /// They are all of the file where they are as many as its length.
    pub bytes: Vec<u8>,
    /// How long the whole file is, where it has an end that can be asked for.
    pub length: Option<u64>,
}

/// The terminal that standard error is.
pub trait Screen {
    /// Whether standard output is a terminal, too, so that the console's bytes are on the same screen.
    fn has_console(&self) -> bool;

    /// How many milliseconds have passed since some moment, always the same.
    fn milliseconds(&self) -> u64;

    /// Writes a text at once. What the terminal doesn't take is lost.
    fn show<T: fmt::Display>(&self, text: &T);
}

/// No terminal.
#[derive(Clone, Copy)]
pub struct NoScreen;

impl Screen for NoScreen {
    fn has_console(&self) -> bool {
        false
    }

    fn milliseconds(&self) -> u64 {
        0
    }

    fn show<T: fmt::Display>(&self, _text: &T) {}
}

/// Files by their names, standard input, and the terminal where there is one.
pub trait Host {
    /// Its terminal.
    type Screen: Screen + Drop;

    /// What its names hold, where that is known.
    ghost files: { Self → Option HostFiles } = { λ _. None };

    /// The terminal that standard error is, where it is one.
    fn screen(&self) -> Option<Self::Screen> {
        None
    }

    /// The whole of a file.
    fn read(&mut self, name: &str) -> Result<Vec<u8>, HostFault>
        ensures bytes { IfOk result (λ bytes. Holds name.now bytes.items (files self.old)) }
        ensures same { files self.new ≡ files self.old };

    /// Makes a file of the bytes, instead of the one of that name if there is one.
    fn write(&mut self, name: &str, bytes: &[u8]) -> Result<(), HostFault>
        ensures { OnOk result (Writes name.now bytes.now (files self.old) (files self.new)) };

    /// The first `most` bytes of a file, or all where it has fewer. A host that can stop there reads no more.
    fn read_front(&mut self, name: &str, most: usize) -> Result<Front, HostFault>
        ensures most { IfOk result (λ front. vec_len front.bytes ≤ most) }
        ensures front { IfOk result (λ front. HoldsFront name.now most front (files self.old)) }
        ensures same { files self.new ≡ files self.old }
    {
        let mut bytes = self.read(name)?;
        let length = Some(bytes.len() as u64);
        bytes.truncate(most);
        Ok(Front { bytes, length })
    }

    /// The whole of a file that begins with these bytes; of another one its front, at least as long. A host that can
    /// reads no more.
    fn read_marked(&mut self, name: &str, mark: &[u8]) -> Result<Vec<u8>, HostFault>
        ensures bytes { IfOk result (λ bytes. HoldsMarked name.now mark.now bytes.items (files self.old)) }
        ensures same { files self.new ≡ files self.old }
    {
        let _ = mark;
        self.read(name)
    }

    /// Whether two names are of one file, so that what is written to the one is lost if the other is written.
    fn is_same(&mut self, one: &str, other: &str) -> bool
        ensures equal { one.now ≡ other.now → IsTrue result }
        ensures same { files self.new ≡ files self.old }
    {
        one == other
    }

    /// Holds a file to the end of the job, so that no other job that holds it reads or writes it meanwhile. A host of
    /// one job has nothing to do.
    fn hold(&mut self, _name: &str) -> Result<(), InUse>
        ensures { files self.new ≡ files self.old }
    {
        Ok(())
    }

    /// Appends bytes to a file that is there.
    fn append(&mut self, name: &str, bytes: &[u8]) -> Result<(), HostFault>
        ensures { OnOk result (Appends name.now bytes.now (files self.old) (files self.new)) }
    {
        let _ = name.len();
        let _ = bytes.len();
        Err(HostFault)
    }

    /// Reads from standard input into the front of `bytes`, and returns how many they are: 0 at its end. `None` is
    /// nothing so far, from a terminal that waits only a moment, and from an input that doesn't wait.
    fn type_in(&mut self, bytes: &mut [u8], _is_terminal: bool) -> Result<Option<usize>, HostFault>
        ensures count { IfOk result (λ typed. IfSome typed (λ count. count ≤ length bytes.old)) }
        ensures same { files self.new ≡ files self.old }
    {
        let _ = bytes.len();
        Ok(Some(0))
    }

    /// Whether a second has passed since standard input was read, so that it is read while the machine works, too.
    fn is_due(&mut self) -> bool
        ensures { files self.new ≡ files self.old }
    {
        true
    }

    /// Makes a directory of this name, where there is none.
    fn make_folder(&mut self, _name: &str) -> Result<(), HostFault>
        ensures { files self.new ≡ files self.old }
    {
        Ok(())
    }

    /// How many milliseconds have passed since some moment, always the same; `None` where there is no clock.
    fn milliseconds(&self) -> Option<u64> {
        None
    }

    /// Why the last file that could not be read or written could not.
    fn why(&self) -> Why {
        Why::Unknown
    }
}
