//! What is asked by gdb's `monitor`.
ghost use Rattle.std.specs.Prelude.{IfOk, IfSome};
ghost use Rattle.std.specs.List.{All};
ghost use Rattle.gdbanswers.specs.Calls.{IsCall};

use std::alloc::{AllocError, Global};
use tracetext::CallSet;

/// What `monitor` knows.
pub const HELP: &str = "\
ps                    the processes
when                  how many events were before this time, and how many there are
stop-at event N       continue and reverse-continue stop at this time, too
stop-at call NAMES    they stop before these calls, as `read,write`, too; without names before none
stop-at output TEXT   they stop before the events that print the last byte of this text, too; without a text at none
stop-at exit on|off   whether a process stops before it ends
type TEXT             at the end: the keys of TEXT and return, and a million steps
";

/// What is asked.
#[derive(Clone, Copy, PartialEq, Eq)]
pub enum Order<'a> {
    /// `ps`
    Processes,
    /// `when`
    When,
    /// `stop-at event N`
    StopAtEvent(u64),
    /// `stop-at call NAMES`
    StopAtCalls(&'a str),
    /// `stop-at output TEXT`
    StopAtOutput(&'a str),
    /// `stop-at exit on` and `off`
    StopAtExits(bool),
    /// `type TEXT`
    Type(&'a str),
}

// What is asked after `stop-at`.
fn stop_at(text: &str) -> Option<Order<'_>> {
    if let Some(number) = text.strip_prefix("event ") {
        return Some(Order::StopAtEvent(number.parse::<u64>().ok()?));
    }
    if let Some(names) = text.strip_prefix("call ") {
        return Some(Order::StopAtCalls(names));
    }
    if let Some(output) = text.strip_prefix("output ") {
        return Some(Order::StopAtOutput(output));
    }
    match text {
        "output" => Some(Order::StopAtOutput("")),
        "call" => Some(Order::StopAtCalls("")),
        "exit" | "exit on" => Some(Order::StopAtExits(true)),
        "exit off" => Some(Order::StopAtExits(false)),
        _ => None,
    }
}

/// What a text asks; `None` where it is nothing that is known.
pub fn order_in(text: &str) -> Option<Order<'_>> {
    if let Some(rest) = text.strip_prefix("stop-at ") {
        return stop_at(rest);
    }
    if let Some(rest) = text.strip_prefix("type ") {
        return Some(Order::Type(rest));
    }
    match text {
        "ps" => Some(Order::Processes),
        "when" => Some(Order::When),
        _ => None,
    }
}

/// The numbers of calls by their names, with commas between them; `None` where one is no call's. No names are no calls.
pub fn calls_named(alloc: Global, names: &str) -> Result<Option<Vec<u64>>, AllocError>
    ensures { IfOk result (λ found. IfSome found (λ calls. All IsCall calls.items)) }
{
    let mut calls = Vec::new(alloc);
    if names.is_empty() {
        return Ok(Some(calls));
    }
    let Ok(set) = CallSet::parse(names) else {
        return Ok(None);
    };
    'number: for number in 1..=21_u32 {
        if set.contains(number) {
            calls.push(u64::from(number))?;
        }
    }
    Ok(Some(calls))
}
