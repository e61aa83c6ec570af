//! Who is woken where something changes that processes wait for.
ghost use Rattle.std.specs.Prelude.{◌≡◌};
ghost use Rattle.kernel.specs.Watch.{kind_of, waits_on, woken_by};

use crate::ready::has_slept;
use proc::{Process, Table, WaitKind};
use unixmodel::call::Call;
use unixmodel::process::Mode;

/// What processes wait for.
#[derive(Clone, Copy)]
pub enum Channel {
    /// The ticks, with their current count: for those whose sleep is over.
    Ticks(u32),
    /// Bytes and room for bytes: for reads and writes.
    Bytes,
    /// Children that end: for waits.
    Children,
}

// Whether a process waits on a channel.
fn waits_on(process: &Process, channel: Channel) -> bool
    ensures { result ≡ waits_on channel process.now }
{
    let Mode::Waiting(pending) = process.mode else {
        return false;
    };
    match channel {
        Channel::Ticks(now) => match pending.number {
            Call::Sleep => has_slept(now, &pending),
            _ => false,
        },
        Channel::Bytes => matches!(pending.number, Call::Read | Call::Write),
        Channel::Children => matches!(pending.number, Call::Wait),
    }
}

// What those who wait on a channel wait for.
fn kind_of(channel: Channel) -> WaitKind
    ensures { result ≡ kind_of channel }
{
    match channel {
        Channel::Ticks(_) => WaitKind::Time,
        Channel::Bytes => WaitKind::Transfer,
        Channel::Children => WaitKind::Child,
    }
}

/// Wakes each process that waits on a channel: a turn looks at its slot again.
pub fn wakeup(table: &mut Table, channel: Channel)
    ensures { table.new ≡ woken_by channel table.old }
{
    let kind = kind_of(channel);
    let mut from = 0;
    'places: while let Some(at) = table.next_waiting(kind, from) {
        let waits = match table.process(at) {
            Some(process) => waits_on(process, channel),
            None => false,
        };
        if waits {
            table.wake(at);
        }
        from = at + 1;
    }
}
