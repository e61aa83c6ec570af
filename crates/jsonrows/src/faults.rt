//! Faults.
ghost use Rattle.std.specs.Prelude.{◌≡◌, is_some};
ghost use Rattle.jsonrows.specs.Causes.{cause_word};

use crate::locations::LocationRow;
use crate::texts::{Latin, Printed};
use addresses::Name;
use isa::register_name;
use next_fault::{Named, Why};
use serde::{Described, Serialize, Serializer};
use unixmodel::instr::Reg;
use unixmodel::trap::Cause;

/// Why a page may not be accessed, or a jump not done.
#[derive(Clone, Copy, Serialize)]
#[serde(rename_all = "snake_case")]
enum Reason {
    NoPage,
    Guard,
    Closed,
    Compressed,
}

/// The registers except x0, by their names.
#[derive(Clone, Copy)]
struct Registers([u64; 32]);

impl Described for Registers {}

impl Serialize for Registers {
    fn serialize<S: Serializer>(&self, out: &mut S) -> Result<(), S::Error> {
        out.begin_map(Some(31))?;
        for number in 1..32u8 {
            out.key(register_name(Reg::new(number)))?;
            out.u64(self.0[usize::from(number)])?;
        }
        out.end_map()
    }
}

/// A fault of a process at an event, and its registers.
#[derive(Clone, Copy, Serialize)]
pub struct FaultRow<'a> {
    at: u64,
    pid: u32,
    program: Option<Latin<'a>>,
    cause: &'static str,
    reason: Option<Reason>,
    pc: u64,
    address: u64,
    word: Option<u32>,
    words: Printed<Named<Name<'a>>>,
    registers: Registers,
    /// What is known of the pc. It is left out where that is nothing.
    #[serde(skip_serializing_if = "Option::is_none")]
    location: Option<LocationRow<'a>>,
}

// The word of a cause.
fn cause_word(cause: Cause) -> &'static str
    ensures { result.now ≡ cause_word cause }
{
    match cause {
        Cause::InstructionMisaligned => "instruction_misaligned",
        Cause::IllegalInstruction => "illegal_instruction",
        Cause::Breakpoint => "breakpoint",
        Cause::EnvironmentCall => "environment_call",
        Cause::LoadMisaligned => "load_misaligned",
        Cause::StoreMisaligned => "store_misaligned",
        Cause::InstructionPageFault => "instruction_page_fault",
        Cause::LoadPageFault => "load_page_fault",
        Cause::StorePageFault => "store_page_fault",
    }
}

// Why the page may not be accessed or the jump not done, and the word that is no instruction.
fn explained(why: Why) -> (Option<Reason>, Option<u32>) {
    match why {
        Why::Cause => (None, None),
        Why::Word(word) => (None, Some(word)),
        Why::NoPage => (Some(Reason::NoPage), None),
        Why::Guard => (Some(Reason::Guard), None),
        Why::Closed => (Some(Reason::Closed), None),
        Why::Compressed => (Some(Reason::Compressed), None),
    }
}

impl<'a> FaultRow<'a> {
    /// A fault of the process with a pid, whose program has this name, at an event. Its pc may have a name, too.
    pub fn new(
        at: u64,
        pid: u32,
        program: Option<Latin<'a>>,
        named: Named<Name<'a>>,
        registers: &[u64; 32],
    ) -> FaultRow<'a>
        ensures at { result.at ≡ at }
        ensures pid { result.pid ≡ pid }
        ensures cause { result.cause.now ≡ cause_word named.entry.fault.trap.cause }
        ensures pc { result.pc ≡ named.entry.fault.pc }
        ensures address { result.address ≡ named.entry.fault.trap.address }
        ensures location { is_some result.location ≡ is_some named.entry.name }
        ensures registers { result.registers.0 ≡ registers.now }
    {
        let fault = named.fault;
        let (reason, word) = explained(fault.why);
        FaultRow {
            at,
            pid,
            program,
            cause: cause_word(fault.trap.cause),
            reason,
            pc: fault.pc,
            address: fault.trap.address,
            word,
            words: Printed(named),
            registers: Registers(*registers),
            location: LocationRow::of(named.name),
        }
    }
}
