//! Bytes of processes that are watched for changes.
ghost use Rattle.std.specs.Prelude.{◌≡◌, ◌+◌, ◌<◌, ◌≤◌};
ghost use Rattle.gdbstate.specs.Watches.{is_same_pid, near_watch, number_in, number_shown, same_number};
ghost use Rattle.gdbstate.specs.Watches.{watch_changed, width_of};

use byteorder::{ByteOrder, LittleEndian};
use timeline::Debuggee;

/// How many bytes are compared as one number.
#[derive(Clone, Copy, PartialEq, Eq, Debug)]
pub enum Width {
    One,
    Four,
    Eight,
}

impl Width {
    /// That of the largest number of at most n bytes that lies on one page from an address on.
    pub fn at(address: u64, most: u64) -> Width
        requires { 0 < most }
        ensures { width_of result ≤ most }
    {
        if address % 8 == 0 && most >= 8 {
            Width::Eight
        } else if address % 4 == 0 && most >= 4 {
            Width::Four
        } else {
            Width::One
        }
    }

    /// How many bytes they are.
    pub fn bytes(self) -> u64
        ensures is { result ≡ width_of self }
        ensures some { 0 < result }
    {
        match self {
            Width::One => 1,
            Width::Four => 4,
            Width::Eight => 8,
        }
    }
}

/// Bytes that are watched, as the number that they were when the motion began, whose lowest byte comes first: `None`
/// where the process had no page there.
#[derive(Clone, Copy)]
pub struct Watched {
    pub pid: u32,
    pub address: u64,
    pub width: Width,
    pub value: Option<u64>,
}

// The number at an offset of a page; `None` where it goes on past its end.
fn number_in(page: &[u8; 4096], at: usize, width: Width) -> Option<u64>
    requires { at < 4096 }
    ensures { result ≡ number_in page.now at width }
{
    if at + width.bytes() as usize > 4096 {
        return None;
    }
    let bytes = &page[at..];
    Some(match width {
        Width::One => u64::from(bytes[0]),
        Width::Four => u64::from(LittleEndian::read_u32(bytes)),
        Width::Eight => LittleEndian::read_u64(bytes),
    })
}

/// The number of bytes at an address of a process, the lowest byte first, whatever the marks of their page are. `None`
/// where it has no page there, or they are not on one page.
#[tactic(auto, unfolding(crate::specs::Watches::number_shown))]
pub fn number_at(machine: &Debuggee, pid: u32, address: u64, width: Width) -> Option<u64>
    ensures { result ≡ number_shown machine.now.state pid address width }
{
    let (page, _) = machine.peek(pid, address / 4096)?;
    number_in(page, (address % 4096) as usize, width)
}

// Whether two numbers are the same, or both are not there.
fn is_same(one: Option<u64>, other: Option<u64>) -> bool
    ensures { result ≡ same_number one other }
{
    match (one, other) {
        (None, None) => true,
        (Some(one), Some(other)) => one == other,
        _ => false,
    }
}

// Whether a process runs, and has this pid.
fn is_same_pid(running: Option<u32>, pid: u32) -> bool
    ensures { result ≡ is_same_pid running pid }
{
    match running {
        Some(running) => running == pid,
        None => false,
    }
}

/// Whether watched bytes are others than they were.
pub(crate) fn has_changed(machine: &Debuggee, one: &Watched) -> bool
    ensures { result ≡ watch_changed machine.now.state one.now }
{
    !is_same(
        number_at(machine, one.pid, one.address, one.width),
        one.value,
    )
}

/// Whether watched bytes are of a process, or others than they were.
pub(crate) fn is_near(machine: &Debuggee, running: Option<u32>, one: &Watched) -> bool
    ensures { result ≡ near_watch machine.now.state running one.now }
{
    is_same_pid(running, one.pid) || has_changed(machine, one)
}
