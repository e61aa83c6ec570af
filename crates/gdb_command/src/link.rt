//! The debugger at standard input and output.
ghost use Rattle.std.specs.Prelude.{◌≡◌, ◌≤◌, length};

use gdbserver::Peer;
use host::{Failure, Host, Why};
use std::io::Write;
use symbolizer::Program;

/// Why a debugger can't be served to its end.
#[derive(Clone, Copy)]
pub(crate) enum LinkFault {
    /// Standard input cannot be read.
    Input(Why),
    /// Standard output took not all.
    Output,
}

impl LinkFault {
    /// What is reported of it.
    pub(crate) fn failure<'a>(&self) -> Failure<'a> {
        match self {
            LinkFault::Input(why) => Failure::Input(*why),
            LinkFault::Output => Failure::Output,
        }
    }
}

/// The debugger at standard input and output, and the programs whose files it reads.
#[derive(Drop)]
pub(crate) struct Link<'h, 'w, H, W> {
    host: &'h mut H,
    stdout: &'w mut W,
    programs: Vec<Program>,
    fault: Option<LinkFault>,
}

// A path from the root without what it begins with: `sh` of `/sh`, `./sh` and `sh`.
fn from_root(path: &[u8]) -> &[u8] {
    match path {
        [b'/', rest @ ..] => rest,
        [b'.', b'/', rest @ ..] => rest,
        _ => path,
    }
}

impl<'h, 'w, H: Host, W: Write> Link<'h, 'w, H, W> {
    /// The debugger at the host's standard input and at this output.
    pub(crate) fn new(host: &'h mut H, stdout: &'w mut W, programs: Vec<Program>) -> Self {
        Link {
            host,
            stdout,
            programs,
            fault: None,
        }
    }

    /// What has failed, if anything has.
    pub(crate) fn fault(&self) -> Option<LinkFault> {
        self.fault
    }
}

impl<H: Host, W: Write> Peer for Link<'_, '_, H, W> {
    fn hear(&mut self, bytes: &mut [u8]) -> usize {
        for _read in 0..u64::MAX {
            match self.host.type_in(bytes, false) {
                Ok(Some(count)) => return count,
                Ok(None) => {}
                Err(_) => {
                    self.fault = Some(LinkFault::Input(self.host.why()));
                    return 0;
                }
            }
        }
        0
    }

    fn say(&mut self, bytes: &[u8]) -> bool {
        let is_said = self.stdout.write_all(bytes).is_ok() && self.stdout.flush().is_ok();
        if !is_said && self.fault.is_none() {
            self.fault = Some(LinkFault::Output);
        }
        is_said
    }

    fn program(&mut self, path: &[u8]) -> Option<Vec<u8>> {
        for program in &self.programs {
            if from_root(program.path.as_slice()) == from_root(path) {
                return program.file.clone().ok();
            }
        }
        None
    }
}
