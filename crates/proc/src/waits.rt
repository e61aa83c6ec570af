//! Where processes may wait.
ghost use Rattle.std.specs.Prelude.{◌≡◌, ◌≤◌, length};
ghost use Rattle.proc.specs.Mask.{all_in};
ghost use Rattle.proc.specs.Waits.{AreWithin, FindsWaiting, IsWithin, call_waits, waits_so, with_place};
ghost use Rattle.unixmodel.specs.State.{holds};

use crate::mask::Mask;
use crate::process::Place;
use unixmodel::call::Call;
use unixmodel::process::Mode;

/// What a process waits for.
#[derive(Clone, Copy, Debug, PartialEq, Eq)]
pub enum WaitKind {
    /// A time: in a sleep.
    Time,
    /// Bytes, or room for them: in a read or a write.
    Transfer,
    /// A child that ends: in a wait.
    Child,
}

// Whether a call waits for that.
fn call_waits(kind: WaitKind, call: Call) -> bool
    ensures { result ≡ call_waits kind call }
{
    match kind {
        WaitKind::Time => matches!(call, Call::Sleep),
        WaitKind::Transfer => matches!(call, Call::Read | Call::Write),
        WaitKind::Child => matches!(call, Call::Wait),
    }
}

// Whether the process in a slot waits for that.
fn waits(place: &Place, kind: WaitKind) -> bool
    ensures { result ≡ holds (waits_so kind) place.now }
{
    let Some(process) = place else {
        return false;
    };
    match process.mode {
        Mode::Waiting(pending) => call_waits(kind, pending.number),
        _ => false,
    }
}

// The first slot from `from` on whose process waits for that, among those where one may. Slots before it where none
// does are taken out.
fn first_waiting(places: &[Place], may: &mut Mask, kind: WaitKind, from: usize) -> Option<usize>
    requires all { length places.now ≡ 64 }
    requires from { from ≤ 64 }
    requires within { IsWithin kind places.now may.old }
    ensures finds { FindsWaiting places.now kind from result }
    ensures within { IsWithin kind places.now may.new }
{
    let mut next = from;
    'places: while let Some(at) = may.first_from(next) {
        if waits(&places[at], kind) {
            return Some(at);
        }
        may.clear(at);
        next = at + 1;
    }
    None
}

/// For each kind of wait the slots in which a process may wait for that. In the others none does.
#[derive(Drop)]
pub(crate) struct WaitPlaces {
    sleeps: Mask,
    transfers: Mask,
    children: Mask,
}

impl WaitPlaces {
    /// A process may wait in each slot.
    pub fn all() -> WaitPlaces
        ensures { result ≡ record { sleeps = all_in 64; transfers = all_in 64; children = all_in 64 } }
    {
        WaitPlaces {
            sleeps: Mask::all(),
            transfers: Mask::all(),
            children: Mask::all(),
        }
    }

    /// The same slots.
    pub fn duplicate(&self) -> WaitPlaces
        ensures { result ≡ self.now }
    {
        WaitPlaces {
            sleeps: self.sleeps.duplicate(),
            transfers: self.transfers.duplicate(),
            children: self.children.duplicate(),
        }
    }

    /// A process may wait in slot `at`, whatever for. Nothing changes past the last slot.
    pub fn set(&mut self, at: usize)
        ensures { self.new ≡ with_place self.old at }
    {
        self.sleeps.set(at);
        self.transfers.set(at);
        self.children.set(at);
    }

    /// The first slot from `from` on whose process waits for that.
    pub fn first(&mut self, places: &[Place], kind: WaitKind, from: usize) -> Option<usize>
        requires all { length places.now ≡ 64 }
        requires from { from ≤ 64 }
        requires within { AreWithin places.now self.old }
        ensures finds { FindsWaiting places.now kind from result }
        ensures within { AreWithin places.now self.new }
    {
        match kind {
            WaitKind::Time => first_waiting(places, &mut self.sleeps, WaitKind::Time, from),
            WaitKind::Transfer => {
                first_waiting(places, &mut self.transfers, WaitKind::Transfer, from)
            }
            WaitKind::Child => first_waiting(places, &mut self.children, WaitKind::Child, from),
        }
    }
}
