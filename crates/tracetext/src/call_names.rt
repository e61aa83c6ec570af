//! The calls by their numbers and names.
ghost use Rattle.std.specs.Prelude.{[], ◌≡◌, ◌<◌, IfSome, MatchResult, Some, bytes_eq, false, get_or, slice_index_or};
ghost use Rattle.tracetext.specs.Names.{IsSetOf, call_name, first_unknown, names, number_named, parts};
ghost use Rattle.unixmodel.specs.Calls.{call_of};

use std::fmt;
use unixmodel::call::Call;

/// The call of a number; `None` where no call has it.
pub(crate) fn call_of(number: u32) -> Option<Call>
    ensures { result ≡ call_of number }
{
    match number {
        1 => Some(Call::Fork),
        2 => Some(Call::Exit),
        3 => Some(Call::Wait),
        4 => Some(Call::Pipe),
        5 => Some(Call::Read),
        6 => Some(Call::Kill),
        7 => Some(Call::Exec),
        8 => Some(Call::Fstat),
        9 => Some(Call::Chdir),
        10 => Some(Call::Dup),
        11 => Some(Call::Getpid),
        12 => Some(Call::Sbrk),
        13 => Some(Call::Sleep),
        14 => Some(Call::Uptime),
        15 => Some(Call::Open),
        16 => Some(Call::Write),
        17 => Some(Call::Mknod),
        18 => Some(Call::Unlink),
        19 => Some(Call::Link),
        20 => Some(Call::Mkdir),
        21 => Some(Call::Close),
        _ => None,
    }
}

// Whether a name is that.
fn is(that: &str, name: &str) -> bool
    ensures { result ≡ bytes_eq that.now name.now }
{
    that == name
}

// The name of the call after the first n.
#[tactic(auto, using(crate::proofs::NameLemmas::spelled))]
fn name_at(index: usize) -> &'static str
    requires { index < 21 }
    ensures { result.now ≡ slice_index_or names index [] }
{
    match index {
        0 => "fork",
        1 => "exit",
        2 => "wait",
        3 => "pipe",
        4 => "read",
        5 => "kill",
        6 => "exec",
        7 => "fstat",
        8 => "chdir",
        9 => "dup",
        10 => "getpid",
        11 => "sbrk",
        12 => "sleep",
        13 => "uptime",
        14 => "open",
        15 => "write",
        16 => "mknod",
        17 => "unlink",
        18 => "link",
        19 => "mkdir",
        _ => "close",
    }
}

// The number of the call of a name; `None` where no call has it.
fn number_named(name: &str) -> Option<usize>
    ensures named { result ≡ number_named name.now }
    ensures within { IfSome result (λ number. number < 22) }
{
    for index in 0..21 {
        if is(name_at(index), name) {
            return Some(index + 1);
        }
    }
    None
}

/// The name of the call of a number, or `call_` and the number where no call has it.
#[derive(Clone, Copy)]
pub struct CallName(pub u32);

impl fmt::Display for CallName {
    ghost output = { λ name. Some (call_name name.0) };

    #[tactic(auto, unfolding(crate::specs::Names::call_name))]
    fn fmt<W: fmt::Write>(&self, f: &mut fmt::Formatter<W>) -> fmt::Result {
        let number = self.0;
        match number.checked_sub(1) {
            Some(index) if index < 21 => f.write_str(name_at(index as usize)),
            _ => write!(f, "call_{number}"),
        }
    }
}

/// A set of calls.
#[derive(Clone, Copy, PartialEq, Eq)]
pub struct CallSet {
    // Of each number whether its call is in the set. That of 0 stands for all numbers of no call.
    has: [bool; 22],
}

impl CallSet {
    /// All calls, and the numbers of none.
    pub const ALL: CallSet = CallSet { has: [true; 22] };

    /// The calls of these names, with commas between them; `Err` has the first name that no call has.
    pub fn parse(names: &str) -> Result<CallSet, &str>
        ensures { MatchResult result (IsSetOf (parts names.now))
            (λ name. first_unknown (parts names.now) ≡ Some name.now) }
    {
        let mut set = CallSet { has: [false; 22] };
        for name in names.split(',') {
            let Some(number) = number_named(name) else {
                return Err(name);
            };
            set.has[number] = true;
        }
        Ok(set)
    }

    /// Whether a number's call is in the set.
    pub fn contains(&self, number: u32) -> bool
        ensures { result ≡ get_or self.now.has number (get_or self.now.has 0 false) }
    {
        match self.has.get(number as usize) {
            Some(has) => *has,
            None => self.has[0],
        }
    }
}
