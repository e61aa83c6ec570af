//! Processes, each with one thread of the same number.
ghost use Rattle.std.specs.Prelude.{◌≡◌, ◌++◌, OnOk};
ghost use Rattle.gdbreplies.specs.Replies.{current_sent, more_sent, process_sent, thread_name};
ghost use Rattle.gdbreplies.specs.Replies.{threads_sent};

use gdbwire::{push_bytes, push_number};
use std::alloc::AllocError;

/// Puts the name of a process's thread at the end. An error leaves a beginning of it.
pub fn push_thread(pid: u32, out: &mut Vec<u8>) -> Result<(), AllocError>
    ensures { OnOk result (out.new.items ≡ out.old.items ++ thread_name pid) }
{
    out.extend_from_slice(b"p")?;
    push_number(u64::from(pid), out)?;
    out.extend_from_slice(b".")?;
    push_number(u64::from(pid), out)
}

// Puts the names of threads at the end, each after a comma.
fn push_more(pids: &[u32], out: &mut Vec<u8>) -> Result<(), AllocError>
    ensures { OnOk result (out.new.items ≡ out.old.items ++ more_sent pids.now) }
{
    for pid in pids {
        out.extend_from_slice(b",")?;
        push_thread(*pid, out)?;
    }
    Ok(())
}

/// Puts a list of threads at the end: `m` and their names, or `l` where there are none. An error leaves a beginning of
/// it.
pub fn push_threads(pids: &[u32], out: &mut Vec<u8>) -> Result<(), AllocError>
    ensures { OnOk result (out.new.items ≡ out.old.items ++ threads_sent pids.now) }
{
    let [first, rest @ ..] = pids else {
        return out.extend_from_slice(b"l");
    };
    out.extend_from_slice(b"m")?;
    push_thread(*first, out)?;
    push_more(rest, out)
}

/// Puts the thread that runs at the end. An error leaves a beginning of it.
pub fn push_current(pid: u32, out: &mut Vec<u8>) -> Result<(), AllocError>
    ensures { OnOk result (out.new.items ≡ out.old.items ++ current_sent pid) }
{
    out.extend_from_slice(b"QC")?;
    push_thread(pid, out)
}

/// Puts the architecture at the end, as lldb asks for it, and the process before it where one is meant. An error leaves
/// a beginning of it.
pub fn push_process(pid: Option<u32>, out: &mut Vec<u8>) -> Result<(), AllocError>
    ensures { OnOk result (out.new.items ≡ out.old.items ++ process_sent pid) }
{
    if let Some(pid) = pid {
        out.extend_from_slice(b"pid:")?;
        push_number(u64::from(pid), out)?;
        out.extend_from_slice(b";")?;
    }
    out.extend_from_slice(b"triple:")?;
    push_bytes(b"riscv64-unknown-elf", out)?;
    out.extend_from_slice(b";ptrsize:8;endian:little;")
}
