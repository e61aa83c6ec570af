//! What records the script of a play or a session in a file of a host, as it goes.
ghost use Rattle.std.specs.Prelude.{IfOk, IfSome, length, ◌≡◌, ◌≤◌};
ghost use Rattle.run_commands.specs.ScriptFiles.{IsEmptyIn, IsSound, IsWrittenOut, new_recorder, recorder};

use crate::script_file::ScriptFile;
use events::Record;
use host::{Host, HostFault, Why};
use std::alloc::Global;
use std::marker::Model;

/// Records the script of what a machine is given in a file of a host.
///
/// In contracts it is what is known of it.
#[derive(Drop)]
pub struct Scribe<'a, 'b, H: Host> {
    host: &'b mut H,
    file: ScriptFile<'a>,
}

impl<'a, 'b, H: Host> Model for Scribe<'a, 'b, H> {
    ghost use Rattle.run_commands.specs.ScriptFiles.{IsSound, Recorder, recorder};

    ghost Value = { Recorder };

    ghost view = { λ s. recorder (H.files s.host.now) s.host.ghost_name s.file };

    ghost invariant = { λ s. IsSound (H.files s.host.now) s.file };
}

impl<'a, 'b, H: Host> Scribe<'a, 'b, H> {
    /// A scribe of no events so far, whose script goes to the file of this name, which is made with the first lines.
    pub fn new(alloc: Global, host: &'b mut H, name: Option<&'a str>) -> Self
        ensures { result ≡ new_recorder (H.files host.old) host.entry.ghost_name name.entry }
    {
        Scribe {
            host,
            file: ScriptFile::new(alloc, name),
        }
    }

    /// The same, whose file is there, and is empty.
    pub fn begun(alloc: Global, host: &'b mut H, name: Option<&'a str>) -> Self
        requires { IsEmptyIn name (H.files host.old) }
        ensures { result ≡ new_recorder (H.files host.old) host.entry.ghost_name name.entry }
    {
        Scribe {
            host,
            file: ScriptFile::begun(alloc, name),
        }
    }

    /// Ends the line to which events still come.
    pub fn end_line(&mut self)
        ensures { IsWrittenOut self.old self.new }
    {
        self.file.end_line(&mut *self.host);
    }

    /// Writes the lines that wait.
    pub fn write_out(&mut self)
        ensures { IsWrittenOut self.old self.new }
    {
        self.file.write_out(&mut *self.host);
    }

    /// Reads what is typed at the host.
    pub fn type_in(
        &mut self,
        bytes: &mut [u8],
        is_terminal: bool,
    ) -> Result<Option<usize>, HostFault>
        ensures count { IfOk result (λ typed. IfSome typed (λ count. count ≤ length bytes.old)) }
        ensures same { self.new ≡ self.old }
    {
        self.host.type_in(bytes, is_terminal)
    }

    /// Whether a second has passed since that.
    pub fn is_due(&mut self) -> bool
        ensures { self.new ≡ self.old }
    {
        self.host.is_due()
    }

    /// Why the host could not read or write.
    pub fn why(&self) -> Why {
        self.host.why()
    }

    /// The host, and the file as far as it is written.
    pub fn into_parts(self) -> (&'b mut H, ScriptFile<'a>)
        ensures sound { IsSound (H.files result.0.now) result.1 }
        ensures same { recorder (H.files result.0.now) result.0.ghost_name result.1 ≡ self.entry }
    {
        let Scribe { host, file } = self;
        (host, file)
    }
}

impl<H: Host> Record for Scribe<'_, '_, H> {
    ghost use Rattle.std.specs.Prelude.{List, Option, ℕ};

    ghost kept = { λ s. s.kept };

    ghost Rest = { Option (List ℕ) × ℕ };

    ghost rest = { λ s. (s.name, s.host) };

    fn steps(&mut self, count: u32) {
        self.file.steps(&mut *self.host, count);
    }

    fn ticks(&mut self, count: u32) {
        self.file.ticks(&mut *self.host, count);
    }

    fn keys(&mut self, keys: &[u8]) {
        self.file.keys(&mut *self.host, keys);
    }
}
