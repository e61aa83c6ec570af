//! What is shown of an outcome.
ghost use Rattle.std.specs.Prelude.{IfOk, IfSome, ◌≡◌, true};
ghost use Rattle.events.specs.Scripts.{IsScriptOf};
ghost use Rattle.machine.specs.View.{IsUp};
ghost use Rattle.orders.specs.Paths.{events_of};

use crate::nodes::{Node, NodeFault, nodes_of};
use crate::script_text::script_text;
use crate::search::Explored;
use blockdev::BlockDev;
use console::Writer;
use driver::{Detail, Driver, Watch};
use events::{Command, Unrecorded, parse};
use explore::{Interrupt, Path};
use machine::{Halt, Machine};
use reports::{Reporter, Wanted};
use std::alloc::{AllocError, Global};
use sv39::Translate;
use symbolizer::Symbolizer;
use unixmodel::event::Event;
use waits::{Wait, who_waits};

/// The name of the first program.
const INIT: &[u8] = b"/init";

/// An outcome, with what its script leads to.
#[derive(Drop)]
pub(crate) struct Shown {
    /// The script's text.
    pub(crate) script: String,
    /// How many timer interrupts the script has.
    pub(crate) ticks: usize,
    /// The status of process 1, if it has ended; `None`: all wait.
    pub(crate) status: Option<i32>,
    /// What was printed.
    pub(crate) console: Vec<u8>,
    /// The disk's files.
    pub(crate) nodes: Vec<Node>,
    /// Who waits for what at the end, a line each.
    pub(crate) waits: String,
    /// Whether anybody reads the console, who would go on if more were typed.
    pub(crate) is_typed_for: bool,
}

/// Why an outcome isn't shown.
#[derive(Clone, Copy)]
pub(crate) enum ShownFault {
    NoMemory,
    Machine,
}

impl From<AllocError> for ShownFault {
    ghost use Rattle.std.specs.Prelude.{◌≡◌};
    ghost use Rattle.explore_command.specs.declared.shown.ShownFault.TheVariants.{NoMemory};

    ghost from_gives = { λ _ fault. fault ≡ NoMemory };

    fn from(_fault: AllocError) -> ShownFault {
        ShownFault::NoMemory
    }
}

impl From<NodeFault> for ShownFault {
    ghost use Rattle.std.specs.Prelude.{◌≡◌};
    ghost use Rattle.explore_command.specs.Faults.{shown_as};

    ghost from_gives = { λ fault shown. shown ≡ shown_as fault };

    fn from(fault: NodeFault) -> ShownFault {
        match fault {
            NodeFault::NoMemory => ShownFault::NoMemory,
            NodeFault::Machine => ShownFault::Machine,
        }
    }
}

// Watches a run for the names of programs, and keeps who waits for what at its end.
#[derive(Drop)]
struct Namer {
    alloc: Global,
    reporter: Reporter,
    waits: Result<String, AllocError>,
    is_typed_for: bool,
}

impl Namer {
    fn new(alloc: Global) -> Namer {
        let wanted = Wanted {
            report: true,
            json: false,
            registers: None,
            memory: None,
            faults: false,
        };
        Namer {
            alloc,
            reporter: Reporter::new(alloc, INIT, wanted, Symbolizer::new(alloc)),
            waits: Ok(String::new(alloc)),
            is_typed_for: false,
        }
    }
}

impl Watch for Namer {
    fn detail(&self) -> Detail {
        Detail::Calls
    }

    fn before<D: BlockDev, T: Translate>(&mut self, machine: &Machine<D, T>, event: Event) {
        self.reporter.before(machine, event);
    }

    fn after<D: BlockDev, T: Translate>(
        &mut self,
        machine: &Machine<D, T>,
        _event: Event,
        ended: Result<(), Halt>,
    ) {
        self.reporter.after(machine, ended);
    }

    fn passed<D: BlockDev, T: Translate>(&mut self, _machine: &Machine<D, T>, steps: u32) {
        self.reporter.passed(steps);
    }

    fn end<D: BlockDev, T: Translate>(&mut self, machine: &Machine<D, T>) {
        self.waits = self.reporter.waits(self.alloc, machine);
        self.is_typed_for = who_waits(machine)
            .list
            .iter()
            .any(|waiter| matches!(waiter.wait, Wait::Console));
    }
}

// How many timer interrupts a path has.
fn ticks_of(path: &Path) -> usize {
    path.pieces
        .iter()
        .filter(|piece| piece.interrupt == Interrupt::Tick)
        .count()
}

// The status of process 1, if it has ended.
fn status_of(ended: Result<(), Halt>) -> Result<Option<i32>, ShownFault> {
    match ended {
        Ok(()) => Ok(None),
        Err(Halt::InitEnded(status)) => Ok(Some(status)),
        Err(_) => Err(ShownFault::Machine),
    }
}

// A machine that went along a script, who looked on, what was printed, and how that ended.
#[derive(Drop)]
struct Followed {
    machine: Explored,
    namer: Namer,
    console: Vec<u8>,
    ended: Result<(), Halt>,
}

// Lets a machine go along a script, watched up to its end.
fn follow(alloc: Global, machine: Explored, script: &[Command<'_>]) -> Followed
    requires { IsUp machine }
{
    let mut driver = Driver::new(machine, Unrecorded, Namer::new(alloc), Vec::new(alloc));
    let ended = driver.run(script);
    let (machine, _, mut namer, out) = driver.into_parts();
    namer.end(&machine);
    let (console, _) = out.into_parts();
    Followed {
        machine,
        namer,
        console,
        ended,
    }
}

// Whether a machine takes events.
fn takes_events(alloc: Global, machine: &mut Explored) -> bool
    ensures { result ≡ true → IsUp machine.new }
{
    let mut out = Writer::new(Vec::new(alloc));
    let Ok(()) = machine.steps(0, &mut out) else {
        return false;
    };
    true
}

// Takes the machine of a slot, as a copy of the first one. One that had stopped is refused.
fn take_copy(alloc: Global, first: &Explored, slot: &mut Option<Explored>) -> Option<Explored>
    ensures { IfSome result IsUp }
{
    let mut machine = slot.take()?;
    if machine.copy_from(first) && takes_events(alloc, &mut machine) {
        Some(machine)
    } else {
        None
    }
}

// The commands of a script.
fn commands_of(alloc: Global, text: &str) -> Result<Vec<Command<'_>>, ShownFault> {
    match parse(alloc, text.as_bytes()) {
        Ok(commands) => Ok(commands),
        Err(_) => Err(ShownFault::NoMemory),
    }
}

// Lets a copy of the first machine go along a script.
fn follow_text(
    alloc: Global,
    first: &Explored,
    slot: &mut Option<Explored>,
    text: &str,
) -> Result<Followed, ShownFault> {
    let commands = commands_of(alloc, text)?;
    match take_copy(alloc, first, slot) {
        Some(machine) => Ok(follow(alloc, machine, commands.as_slice())),
        None => Err(ShownFault::Machine),
    }
}

/// What the script of a path leads to, shown by the machine of a slot, which has the size of the first one. The slot is
/// empty after an error.
pub(crate) fn show(
    alloc: Global,
    first: &Explored,
    slot: &mut Option<Explored>,
    path: &Path,
) -> Result<Shown, ShownFault>
    ensures { IfOk result (λ shown. IsScriptOf shown.script.bytes.items (events_of path.now)) }
{
    let script = script_text(alloc, path)?;
    let Followed {
        mut machine,
        namer,
        console,
        ended,
    } = follow_text(alloc, first, slot, script.as_str())?;
    let nodes = nodes_of(alloc, &mut machine);
    *slot = Some(machine);
    let Namer {
        waits,
        is_typed_for,
        ..
    } = namer;
    Ok(Shown {
        script,
        ticks: ticks_of(path),
        status: status_of(ended)?,
        console,
        nodes: nodes?,
        waits: waits?,
        is_typed_for,
    })
}

impl Shown {
    /// Whether nobody can ever go on, whatever is typed.
    pub(crate) fn is_deadlock(&self) -> bool {
        self.status.is_none() && !self.is_typed_for
    }

    // Whether the files are the same.
    fn has_same_nodes(&self, other: &Shown) -> bool {
        for (node, its) in self.nodes.iter().zip(other.nodes.iter()) {
            if node.path.as_slice() != its.path.as_slice() || !node.is_same(its) {
                return false;
            }
        }
        self.nodes.len() == other.nodes.len()
    }

    /// Whether the same is printed, process 1 ends alike, and the files are the same.
    pub(crate) fn is_same(&self, other: &Shown) -> bool {
        self.status == other.status
            && self.console.as_slice() == other.console.as_slice()
            && self.has_same_nodes(other)
    }
}
