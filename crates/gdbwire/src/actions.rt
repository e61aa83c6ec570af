//! What goes on, and how: the text of a `Resume`.
ghost use Rattle.std.specs.Prelude.{◌≡◌};
ghost use Rattle.gdbwire.specs.Actions.{action_of, going_of};

use crate::hex::number;
use crate::packets::{Thread, cut, thread_in};

/// How a thread goes on.
#[derive(Clone, Copy, PartialEq, Eq)]
pub enum Going {
    /// Up to a stop.
    Continue,
    /// By one instruction.
    Step,
    /// As long as it is at addresses from one up to another, and by one instruction at least.
    Range(u64, u64),
}

/// How some threads go on; no thread is named where all others are meant.
#[derive(Clone, Copy, PartialEq, Eq)]
pub struct Action {
    pub going: Going,
    pub thread: Option<Thread>,
}

// How a thread goes on; a signal that is handed to it is passed over.
#[tactic(auto, unfolding(crate::specs::Actions::going_of))]
fn going_in(text: &[u8]) -> Option<Going>
    ensures { result ≡ going_of text.now }
{
    match text {
        [b'c'] | [b'C', ..] => Some(Going::Continue),
        [b's'] | [b'S', ..] => Some(Going::Step),
        [b'r', range @ ..] => {
            let (from, end) = cut(b',', range)?;
            let from = number(from)?;
            let end = number(end)?;
            Some(Going::Range(from, end))
        }
        _ => None,
    }
}

/// One action of the text of a `Resume`, whose actions are separated by `;`.
#[tactic(auto, unfolding(crate::specs::Actions::action_of))]
pub fn action_in(text: &[u8]) -> Option<Action>
    ensures { result ≡ action_of text.now }
{
    let Some((going, thread)) = cut(b':', text) else {
        let going = going_in(text)?;
        return Some(Action {
            going,
            thread: None,
        });
    };
    let going = going_in(going)?;
    let thread = thread_in(thread)?;
    Some(Action {
        going,
        thread: Some(thread),
    })
}
