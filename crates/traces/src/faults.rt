//! Faults in words.

use next_fault::{Fault, Why};
use tracetext::lines::{Detail, FaultText};
use unixmodel::trap::Cause;

// The word for the access that a cause is about.
fn access_of(cause: Cause) -> &'static str {
    match cause {
        Cause::InstructionMisaligned => "jump",
        Cause::IllegalInstruction => "illegal instruction",
        Cause::Breakpoint => "breakpoint",
        Cause::EnvironmentCall => "call",
        Cause::InstructionPageFault => "fetch",
        Cause::LoadMisaligned | Cause::LoadPageFault => "load",
        Cause::StoreMisaligned | Cause::StorePageFault => "store",
    }
}

// Why a page that is there may not be accessed in this way.
fn closed_to(cause: Cause) -> &'static str {
    match cause {
        Cause::InstructionPageFault => " from a page that isn't executable",
        Cause::LoadPageFault => " from a page that isn't readable",
        _ => " to a page that isn't writable",
    }
}

// Why a page may not be accessed.
fn barred(cause: Cause, why: Why) -> &'static str {
    match why {
        Why::NoPage => " where there is no page",
        Why::Guard => match cause {
            Cause::StorePageFault => " to the page below the stack",
            _ => " from the page below the stack",
        },
        _ => closed_to(cause),
    }
}

// Why the access that a cause is about isn't allowed.
fn reason_of(cause: Cause, why: Why) -> &'static str {
    match cause {
        Cause::InstructionMisaligned => " to what is no multiple of 4",
        Cause::IllegalInstruction | Cause::Breakpoint | Cause::EnvironmentCall => "",
        Cause::LoadMisaligned | Cause::StoreMisaligned => " that isn't aligned",
        _ => barred(cause, why),
    }
}

// What is wrong with the access.
fn detail_of(cause: Cause, why: Why) -> Detail {
    match why {
        Why::Word(word) => Detail::Word(word),
        _ => Detail::Reason(reason_of(cause, why)),
    }
}

/// A fault in words, where it is known.
pub(crate) fn fault_text(fault: Option<Fault>) -> FaultText {
    match fault {
        Some(Fault { trap, why, .. }) => FaultText::Known {
            access: access_of(trap.cause),
            detail: detail_of(trap.cause, why),
            address: trap.address,
        },
        None => FaultText::Unknown,
    }
}
