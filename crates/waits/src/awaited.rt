//! What a process waits for.
ghost use Rattle.std.specs.Prelude.{◌≡◌, ◌%◌, ◌+◌, ◌^◌, option_and_then, option_map};
ghost use Rattle.machine.specs.Holdings.{target_told};
ghost use Rattle.unixmodel.specs.Files.{slot};
ghost use Rattle.unixmodel.specs.Numbers.{low};
ghost use Rattle.unixmodel.specs.OpenFiles.{OpenFile};
ghost use Rattle.unixmodel.specs.ProcessCalls.{sleep_time};
ghost use Rattle.waits.specs.Waits.{wait_of, wait_on};

use blockdev::BlockDev;
use machine::{Call, Holdings, Machine, OpenOn, Pending};
use sv39::Translate;

/// What a process waits for.
#[derive(Clone, Copy, Default)]
pub enum Wait {
    /// A child that ends.
    #[default]
    Child,
    /// A line of the console.
    Console,
    /// Bytes in the pipe with this number.
    Bytes(usize),
    /// Room in the pipe with this number.
    Room(usize),
    /// This tick.
    Tick(u32),
}

// The tick at which a sleep ends; a time below 0 is 0.
fn end_of_sleep(pending: Pending) -> u32
    ensures { result ≡ (pending.since + sleep_time pending) % 2 ^ 32 }
{
    let ticks = ((pending.args[0] % 0x1_0000_0000) as u32).cast_signed();
    pending.since.wrapping_add(ticks.max(0).cast_unsigned())
}

// What a read or a write waits for that is of this.
fn wait_on(on: OpenOn) -> Wait
    ensures { result ≡ wait_on (target_told on) }
{
    match on {
        OpenOn::ReadEnd { pipe } => Wait::Bytes(pipe),
        OpenOn::WriteEnd { pipe } => Wait::Room(pipe),
        OpenOn::File { .. } | OpenOn::Console { .. } | OpenOn::Device { .. } => Wait::Console,
    }
}

// What a descriptor of a process is open on, by the number that a call takes.
fn open_on<D: BlockDev, T: Translate>(
    machine: &Machine<D, T>,
    holdings: &Holdings,
    descriptor: u64,
) -> Option<OpenOn>
    ensures { option_map target_told result ≡ option_map (λ (f : OpenFile). f.target)
        (option_and_then (slot machine.now.state.opens) (slot holdings.now.descriptors (low descriptor))) }
{
    let descriptor = (descriptor % 0x1_0000_0000) as usize;
    let file = (*holdings.descriptors.get(descriptor)?)?;
    Some(machine.opened(usize::from(file))?.on)
}

/// What the process with a pid waits for; `None` where it doesn't wait, or there is none.
pub fn wait_of<D: BlockDev, T: Translate>(machine: &Machine<D, T>, pid: u32) -> Option<Wait>
    ensures { result ≡ wait_of machine.now.state pid }
{
    let holdings = machine.holdings(pid)?;
    let pending = holdings.pending?;
    match pending.number {
        Call::Wait => Some(Wait::Child),
        Call::Sleep => Some(Wait::Tick(end_of_sleep(pending))),
        Call::Read | Call::Write => {
            let on = open_on(machine, &holdings, pending.args[0])?;
            Some(wait_on(on))
        }
        _ => None,
    }
}
