//! A fault in words.
ghost use Rattle.std.specs.Prelude.{◌≡◌, option_and_then};
ghost use Rattle.next_fault.specs.Causes.{fault_shown, told_in};
ghost use Rattle.unixmodel.specs.Shown.{shown_process};

use crate::access::word;
use crate::traps::cause;
use blockdev::BlockDev;
use machine::Machine;
use std::fmt;
use std::fmt::Display;
use sv39::Translate;
use unixmodel::trap::{Cause, Trap};

/// What explains a trap.
#[derive(Clone, Copy)]
pub enum Why {
    /// The cause says all.
    Cause,
    /// This word is no instruction.
    Word(u32),
    /// The process has no page there.
    NoPage,
    /// The page below the stack, which no program may use.
    Guard,
    /// The page may not be accessed in this way.
    Closed,
    /// The jump goes into what seems to be code of the extension C.
    Compressed,
}

/// The fault of a process: the trap that its next instruction raises.
#[derive(Clone, Copy)]
pub struct Fault {
    pub trap: Trap,
    /// The address of the instruction.
    pub pc: u64,
    pub why: Why,
}

// What explains that an access isn't allowed.
fn barred<D: BlockDev, T: Translate>(machine: &Machine<D, T>, pid: u32, address: u64) -> Why {
    match machine.peek(pid, address / 4096) {
        None => Why::NoPage,
        Some((_, marks)) if !marks.u => Why::Guard,
        Some(_) => Why::Closed,
    }
}

// What explains that a word is no instruction.
fn spelled(word: Option<u32>) -> Why {
    match word {
        Some(word) => Why::Word(word),
        None => Why::Cause,
    }
}

// Whether a word begins with an instruction of the extension C: code of it comes in halves of which the low two bits
// aren't both 1, and a half of zeros is none of it.
fn is_compressed(word: u32) -> bool {
    word % 4 != 3 && word % 0x1_0000 != 0
}

// The same of the word at an address, if it may be fetched.
fn has_halves<D: BlockDev, T: Translate>(machine: &Machine<D, T>, pid: u32, address: u64) -> bool {
    match word(machine, pid, address) {
        Some(word) => is_compressed(word),
        None => false,
    }
}

// What explains a jump to the middle of a word: that word or the next one may be compressed code.
fn strayed<D: BlockDev, T: Translate>(machine: &Machine<D, T>, pid: u32, target: u64) -> Why {
    let (this, next) = (target.wrapping_sub(2), target.wrapping_add(2));
    if has_halves(machine, pid, this) || has_halves(machine, pid, next) {
        Why::Compressed
    } else {
        Why::Cause
    }
}

/// The fault that the next instruction of the process with a pid would raise if it were done now; `None` where it would
/// raise none, and where there is no such process.
pub fn fault_of<D: BlockDev, T: Translate>(machine: &Machine<D, T>, pid: u32) -> Option<Fault>
    ensures { told_in result ≡ option_and_then fault_shown (shown_process machine.now.state pid) }
{
    let trap = cause(machine, pid)?;
    let seen = machine.inspect(pid)?;
    let pc = seen.pc;
    let why = match trap.cause {
        Cause::IllegalInstruction => spelled(word(machine, pid, pc)),
        Cause::InstructionMisaligned => strayed(machine, pid, trap.address),
        Cause::InstructionPageFault | Cause::LoadPageFault | Cause::StorePageFault => {
            barred(machine, pid, trap.address)
        }
        _ => Why::Cause,
    };
    Some(Fault { trap, pc, why })
}

/// A fault, and a name of its instruction's address, where one is known.
#[derive(Clone, Copy)]
pub struct Named<N> {
    pub fault: Fault,
    pub name: Option<N>,
}

// Where an instruction is: `pc 0x88 in sum+0x10 (oops.c:4)`.
#[derive(Clone, Copy)]
struct Location<N> {
    pc: u64,
    name: Option<N>,
}

impl<N: Display + Copy> fmt::Display for Location<N> {
    fn fmt<W: fmt::Write>(&self, f: &mut fmt::Formatter<W>) -> fmt::Result {
        let pc = self.pc;
        write!(f, "pc {pc:#x}")?;
        match self.name {
            Some(name) => write!(f, " in {name}"),
            None => Ok(()),
        }
    }
}

// A word that is no instruction.
fn write_word<N: Display + Copy, W: fmt::Write>(
    f: &mut fmt::Formatter<W>,
    word: u32,
    location: Location<N>,
) -> fmt::Result {
    if word % 4 == 3 {
        return write!(f, "illegal instruction {word:#010x} at {location}");
    }
    let (shown, guess) = if is_compressed(word) {
        (
            word % 0x1_0000,
            "compressed code? compile with -march=rv64im",
        )
    } else {
        (word, "zeros are no code")
    };
    write!(f, "illegal instruction {shown:#x} at {location} ({guess})")
}

impl Fault {
    // Why the jump isn't done.
    fn odd_target(&self) -> &'static str {
        match self.why {
            Why::Compressed => "no multiple of 4 (compressed code? compile with -march=rv64im)",
            _ => "no multiple of 4",
        }
    }

    // Why the page does not permit that.
    fn reason(&self) -> &'static str {
        match (self.why, self.trap.cause) {
            (Why::NoPage, _) => "the process has no page there",
            (Why::Guard, _) => "the page below the stack may not be used (stack overflow?)",
            (_, Cause::InstructionPageFault) => "the page may not be executed",
            (_, Cause::StorePageFault) => "the page may not be written",
            _ => "the page may not be read",
        }
    }
}

impl<N: Display + Copy> Named<N> {
    // Where the instruction is.
    fn location(&self) -> Location<N> {
        Location {
            pc: self.fault.pc,
            name: self.name,
        }
    }

    // What was done at the pc.
    fn write_at<W: fmt::Write>(&self, f: &mut fmt::Formatter<W>, what: &str) -> fmt::Result {
        let location = self.location();
        write!(f, "{what} at {location}")
    }

    // What was done with the address, and why that isn't allowed.
    fn write_access<W: fmt::Write>(
        &self,
        f: &mut fmt::Formatter<W>,
        what: &str,
        reason: &str,
    ) -> fmt::Result {
        let (address, location) = (self.fault.trap.address, self.location());
        write!(f, "{what} {address:#x} at {location}: {reason}")
    }

    // A fetch from a page that does not permit it.
    fn write_fetch<W: fmt::Write>(&self, f: &mut fmt::Formatter<W>) -> fmt::Result {
        let (location, reason) = (self.location(), self.fault.reason());
        write!(f, "fetch at {location}: {reason}")
    }

    // A word that can't be executed.
    fn write_illegal<W: fmt::Write>(&self, f: &mut fmt::Formatter<W>) -> fmt::Result {
        match self.fault.why {
            Why::Word(word) => write_word(f, word, self.location()),
            _ => self.write_at(f, "illegal instruction"),
        }
    }
}

/// As `load from 0x7000008 at pc 0x88 in sum+0x10 (oops.c:4): the process has no page there`.
impl<N: Display + Copy> fmt::Display for Named<N> {
    fn fmt<W: fmt::Write>(&self, f: &mut fmt::Formatter<W>) -> fmt::Result {
        let fault = self.fault;
        match fault.trap.cause {
            Cause::InstructionMisaligned => self.write_access(f, "jump to", fault.odd_target()),
            Cause::IllegalInstruction => self.write_illegal(f),
            Cause::Breakpoint => self.write_at(f, "ebreak"),
            Cause::EnvironmentCall => self.write_at(f, "ecall"),
            Cause::LoadMisaligned => self.write_access(f, "load from", "no multiple of its size"),
            Cause::StoreMisaligned => self.write_access(f, "store to", "no multiple of its size"),
            Cause::InstructionPageFault => self.write_fetch(f),
            Cause::LoadPageFault => self.write_access(f, "load from", fault.reason()),
            Cause::StorePageFault => self.write_access(f, "store to", fault.reason()),
        }
    }
}

impl fmt::Display for Fault {
    fn fmt<W: fmt::Write>(&self, f: &mut fmt::Formatter<W>) -> fmt::Result {
        let unnamed: Named<&str> = Named {
            fault: *self,
            name: None,
        };
        unnamed.fmt(f)
    }
}
