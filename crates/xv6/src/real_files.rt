//! The host of the program: real files.
ghost use Rattle.std.specs.Prelude.{◌≤◌, IfOk, IfSome, length, vec_len};

use commands::{Front, Host, HostFault, InUse, Screen, Why};
use safe_files::Holding;
use std::alloc::AllocError;
use std::fmt;
use std::fs::{self, File, OpenFile, OpenOptions};
use std::io::{self, ErrorKind, Read, Write};
use std::rt::Files;
use std::time::{Clock, Duration};

/// How many bytes of a short file are read at once, at least.
const LEAST_PIECE: usize = 8 * 1024;

/// How many bytes of a long file are read at once, at most.
const MOST_PIECE: usize = 64 * 1024;

/// How many bytes are copied at once into memory that was never touched: there short copies are faster than a long one.
const COPIED: usize = 2 * 1024;

/// How many seconds a busy machine's keyboard isn't read.
const REST: u64 = 1;

/// How many milliseconds a terminal waits at least before it reports that nothing was typed.
const MOMENT: u128 = 10;

/// How many reads of nothing in a row end sooner at a terminal that is gone.
const MOST_EARLY: u32 = 100;

/// What the system says of standard input that is closed: the program was begun without one.
const CLOSED: i32 = 9;

/// For how many milliseconds standard input that doesn't wait, and a file that another job holds, are left alone.
const PAUSE: u64 = 10;

/// How often it is tried to hold a file: for ten seconds.
const MOST_TRIES: u32 = 1000;

/// Which of the standard streams are terminals.
#[derive(Clone, Copy)]
pub struct Terminals {
    pub is_output: bool,
    pub is_error: bool,
}

/// The terminal that standard error is.
#[derive(Clone, Copy)]
pub struct RealScreen<'a, R> {
    rt: &'a R,
    has_console: bool,
}

impl<R: Clock + Eprint> Screen for RealScreen<'_, R> {
    fn has_console(&self) -> bool {
        self.has_console
    }

    fn milliseconds(&self) -> u64 {
        match self.rt.monotonic() {
            Ok(now) => u64::try_from(now.as_millis()).unwrap_or(u64::MAX),
            Err(_) => 0,
        }
    }

    fn show<T: fmt::Display>(&self, text: &T) {
        let _ = eprint!(self.rt; "{text}");
    }
}

/// The files of the system that the program runs on.
#[derive(Drop)]
pub struct RealFiles<'a, R> {
    rt: &'a R,
    terminals: Terminals,
    error: Option<io::Error>,
    // When standard input was last read, by the clock.
    read_at: Option<Duration>,
    // The file that is held to the end of the job.
    held: Option<File>,
}

impl<'a, R: Files<File = File> + Clock + Input + Eprint + AllocGlobal> RealFiles<'a, R> {
    /// The files of this system, whose standard streams are these terminals.
    pub(crate) fn new(rt: &'a R, terminals: Terminals) -> RealFiles<'a, R> {
        RealFiles {
            rt,
            terminals,
            error: None,
            read_at: None,
            held: None,
        }
    }

    // Whether the last read of standard input, which began then, has ended at once.
    fn is_early(&self, begun: Option<Duration>) -> bool {
        match (begun, self.read_at) {
            (Some(begun), Some(end)) => end.saturating_sub(begun).as_millis() < MOMENT,
            _ => false,
        }
    }

    // Reads standard input once. Nothing was typed where a signal interrupts it, or where it doesn't wait.
    fn read_once(&mut self, bytes: &mut [u8]) -> io::Result<Option<usize>>
        ensures { IfOk result (λ typed. IfSome typed (λ count. count ≤ length bytes.old)) }
    {
        match self.rt.reader().read(bytes) {
            Ok(count) => Ok(Some(count)),
            Err(error) if error.raw_os_error() == Some(CLOSED) => Ok(Some(0)),
            Err(error) if error.kind() == ErrorKind::Interrupted => Ok(None),
            Err(error) if error.kind() == ErrorKind::WouldBlock => {
                self.rt.sleep(Duration::from_millis(PAUSE));
                Ok(None)
            }
            Err(error) => Err(error),
        }
    }

    // What came of a call. Its error is kept.
    fn told<T: Drop>(&mut self, done: io::Result<T>) -> Result<T, HostFault> {
        match done {
            Ok(value) => Ok(value),
            Err(error) => {
                self.error = Some(error);
                Err(HostFault)
            }
        }
    }
}

// Appends a piece to other bytes.
fn append_piece(bytes: &mut Vec<u8>, piece: &[u8]) -> Result<(), AllocError> {
    for part in piece.chunks(COPIED) {
        bytes.extend_from_slice(part)?;
    }
    Ok(())
}

// Appends what a reader has left to other bytes, piece by piece, and reads again where a signal interrupts it.
fn read_rest<R: Read>(reader: &mut R, piece: &mut [u8], bytes: &mut Vec<u8>) -> io::Result<()> {
    for _ in 0..u64::MAX {
        match reader.read(piece) {
            Ok(0) => return Ok(()),
            Ok(count) => append_piece(bytes, &piece[..count])?,
            Err(error) if error.kind() == ErrorKind::Interrupted => {}
            Err(error) => return Err(error),
        }
    }
    Err(io::Error::from(ErrorKind::TimedOut))
}

// The first bytes of a file, and its length: their count where it was read to its end, else the one that the system
// gives, which knows the length of regular files alone.
fn front<R: Files + AllocGlobal>(rt: &R, name: &str, most: usize) -> io::Result<Front>
    ensures { IfOk result (λ front. vec_len front.bytes ≤ most) }
{
    let file = fs::open(rt, name)?;
    let metadata = file.metadata()?;
    let likely = metadata.len().min(most as u64) as usize;
    let mut bytes = Vec::with_capacity(rt.alloc(), likely)?;
    let mut piece = vec![in rt.alloc(); 0; likely.clamp(LEAST_PIECE, MOST_PIECE)]?;
    read_rest(&mut file.take(most as u64), &mut piece, &mut bytes)?;
    bytes.truncate(most);
    let length = if bytes.len() < most {
        Some(bytes.len() as u64)
    } else if metadata.is_file() && metadata.len() >= bytes.len() as u64 {
        Some(metadata.len())
    } else {
        None
    };
    Ok(Front { bytes, length })
}

// The whole of a file that begins with these bytes, and of any other the first bytes, as many as these.
fn marked<R: Files + AllocGlobal>(rt: &R, name: &str, mark: &[u8]) -> io::Result<Vec<u8>> {
    let mut file = fs::open(rt, name)?;
    let mut bytes = Vec::new(rt.alloc());
    let mut piece = vec![in rt.alloc(); 0; MOST_PIECE]?;
    read_rest(
        &mut (&mut file).take(mark.len() as u64),
        &mut piece,
        &mut bytes,
    )?;
    if bytes.starts_with(mark) {
        read_rest(&mut file, &mut piece, &mut bytes)?;
    }
    Ok(bytes)
}

// Appends bytes to a file.
fn append<R: Files>(rt: &R, name: &str, bytes: &[u8]) -> io::Result<()> {
    let mut file = OpenOptions::new().append(true).open(rt, name)?;
    file.write_all(bytes)
}

impl<'a, R: Files<File = File> + Clock + Input + Eprint + AllocGlobal> Host for RealFiles<'a, R> {
    type Screen = RealScreen<'a, R>;

    fn screen(&self) -> Option<RealScreen<'a, R>> {
        self.terminals.is_error.then_some(RealScreen {
            rt: self.rt,
            has_console: self.terminals.is_output,
        })
    }

    fn read(&mut self, name: &str) -> Result<Vec<u8>, HostFault> {
        let done = fs::read(self.rt, name);
        self.told(done)
    }

    fn write(&mut self, name: &str, bytes: &[u8]) -> Result<(), HostFault> {
        let done = safe_files::write(self.rt, name, bytes);
        self.told(done)
    }

    fn read_front(&mut self, name: &str, most: usize) -> Result<Front, HostFault> {
        match front(self.rt, name, most) {
            Ok(front) => Ok(front),
            Err(error) => {
                self.error = Some(error);
                Err(HostFault)
            }
        }
    }

    fn append(&mut self, name: &str, bytes: &[u8]) -> Result<(), HostFault> {
        let done = append(self.rt, name, bytes);
        self.told(done)
    }

    fn read_marked(&mut self, name: &str, mark: &[u8]) -> Result<Vec<u8>, HostFault> {
        let done = marked(self.rt, name, mark);
        self.told(done)
    }

    fn is_same(&mut self, one: &str, other: &str) -> bool {
        one == other || safe_files::is_same(self.rt, one, other)
    }

    fn hold(&mut self, name: &str) -> Result<(), InUse> {
        for _ in 0..MOST_TRIES {
            match safe_files::hold(self.rt, name) {
                Holding::Held(file) => {
                    self.held = Some(file);
                    return Ok(());
                }
                Holding::Unheld => return Ok(()),
                Holding::Busy => self.rt.sleep(Duration::from_millis(PAUSE)),
            }
        }
        Err(InUse)
    }

    fn type_in(&mut self, bytes: &mut [u8], is_terminal: bool) -> Result<Option<usize>, HostFault>
        ensures { IfOk result (λ typed. IfSome typed (λ count. count ≤ length bytes.old)) }
    {
        let most = bytes.len();
        for _ in 0..MOST_EARLY {
            let begun = self.rt.monotonic().ok();
            let typed = self.read_once(bytes);
            self.read_at = self.rt.monotonic().ok();
            match self.told(typed)? {
                Some(0) if is_terminal && self.is_early(begun) => {}
                Some(0) if is_terminal => return Ok(None),
                Some(count) => return Ok(Some(count.min(most))),
                None => return Ok(None),
            }
        }
        Ok(Some(0))
    }

    fn is_due(&mut self) -> bool {
        match (self.rt.monotonic(), self.read_at) {
            (Ok(now), Some(then)) => now.saturating_sub(then).as_secs() >= REST,
            _ => true,
        }
    }

    fn make_folder(&mut self, name: &str) -> Result<(), HostFault> {
        match fs::create_dir(self.rt, name) {
            Err(error) if error.kind() == ErrorKind::AlreadyExists => Ok(()),
            done => self.told(done),
        }
    }

    fn milliseconds(&self) -> Option<u64> {
        let now = self.rt.monotonic().ok()?;
        u64::try_from(now.as_millis()).ok()
    }

    fn why(&self) -> Why {
        match self.error {
            None => Why::Unknown,
            Some(error) if error.kind() == ErrorKind::OutOfMemory => Why::NoMemory,
            Some(error) => Why::System(error),
        }
    }
}
