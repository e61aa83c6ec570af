//! The machine for C. A pointer and a length are a slice, and a handle is a pointer that `xv6_raw_boot` made and that
//! `xv6_raw_close` or `xv6_raw_save` ends; nothing checks that. What an event or a look returns is 0, or why the
//! machine stops.
#![tactic(auto)]

ghost use Rattle.std.specs.Prelude.{◌≡◌, ◌+◌, ◌≢◌, drop, is_some, length, min, replicate};
ghost use Rattle.calls.specs.Computing.{Computes};
ghost use Rattle.kernel.specs.Idle.{is_anyone_asleep, is_idle, running_pid};
ghost use Rattle.machine.specs.View.{IsUp};
ghost use Rattle.session.specs.Copied.{copied};
ghost use Rattle.session.specs.Held.{directory_of, next_fault, wait_of};
ghost use Rattle.session.specs.Played.{Answers, StepAnswers, console_of};
ghost use Rattle.session.specs.Told.{flag, process_of};
ghost use Rattle.unixmodel.specs.Counts.{frames_of};
ghost use Rattle.unixmodel.specs.Files.{slot};
ghost use Rattle.unixmodel.specs.declared.event.Event.TheVariants.{Key, Step, Tick};
ghost use Rattle.unixmodel.specs.Next.{next};
ghost use Rattle.unixmodel.specs.Shown.{shown_page, shown_process};
ghost use Rattle.xv6_c.specs.Numbers.{or_zero};
ghost use Rattle.xv6_c.specs.Puts.{Puts};
ghost use Rattle.xv6_c.specs.Tells.{Boots, DigestTells, NextTells, Numbers, PageTells, PutsDescriptor, PutsPipe};
ghost use Rattle.xv6_c.specs.Tells.{PutsWalk, ReadTells, RefusesBy, RunsTo, SaveTells, StatTells};

mod boxed;
mod images;
mod numbers;
mod opens;
mod puts;
mod sealed;
mod told;
mod walking;

pub use crate::images::{
    xv6_raw_as, xv6_raw_asm, xv6_raw_check, xv6_raw_get, xv6_raw_list, xv6_raw_migrate,
    xv6_raw_mkfs, xv6_raw_put,
};
use crate::numbers::{of_answer, of_fault, of_flag, of_marks, of_pid};
use crate::opens::{get_mut, into_parts};
use crate::puts::{put, put_image, put_number, put_stat};
use crate::sealed::Sealed;
use crate::told::StatTold;
use crate::walking::walk;
use machine::BootFault;
use session::{FaultTold, OpenedTold, ProcessTold, Session, WaitTold};
use std::alloc::Global;
use walks::WalkTold;

/// The version of these functions: the major number times 1000, and the minor one.
#[unsafe(no_mangle)]
pub extern "C" fn xv6_raw_version() -> u32
    ensures { result ≡ 1004 }
{
    1004
}

// Puts the handle of a session: 0, or 4 where there is no memory for it.
fn put_session(alloc: Global, session: Session, out: &mut *mut u8) -> u32
    ensures refused { result ≢ 0 → result ≡ 4 }
    ensures kept { result ≢ 0 → out.new ≡ out.old }
{
    let Ok(boxed) = Box::new(alloc, session) else {
        return of_fault(BootFault::NoMemory);
    };
    *out = Box::into_raw(boxed) as *mut u8;
    0
}

/// Boots a machine from a copy of an image. 0: its handle is at `out`; else why there is none.
#[unsafe(no_mangle)]
pub extern "C" fn xv6_raw_boot(alloc: Global, image: &[u8], frames: u32, out: &mut *mut u8) -> u32
    ensures boots { result ≡ 0 → Boots image.now frames }
    ensures refused { result ≢ 0 → RefusesBy image.now frames result }
    ensures kept { result ≢ 0 → out.new ≡ out.old }
{
    match Session::boot(alloc, image, frames) {
        Ok(session) => put_session(alloc, session, out),
        Err(fault) => of_fault(fault),
    }
}

/// Copies a machine, and the bytes of its console that nobody took yet; nothing of it changes. 0: the copy's handle is
/// at `out`; 4: there is no memory for it.
#[unsafe(no_mangle)]
pub extern "C" fn xv6_raw_copy(machine: &mut Sealed, alloc: Global, out: &mut *mut u8) -> u32
    ensures same { machine.new.session ≡ machine.old.session }
    ensures refused { result ≢ 0 → result ≡ 4 }
    ensures kept { result ≢ 0 → out.new ≡ out.old }
{
    match get_mut(machine).copy() {
        Ok(session) => put_session(alloc, session, out),
        Err(_) => of_fault(BootFault::NoMemory),
    }
}

/// Ends a machine and frees its memory.
#[unsafe(no_mangle)]
pub extern "C" fn xv6_raw_close(machine: Sealed) {
    let _session = into_parts(machine).into_box();
}

/// Takes `times` steps.
#[unsafe(no_mangle)]
pub extern "C" fn xv6_raw_steps(machine: &mut Sealed, times: u32) -> u32
    ensures { Numbers (Answers machine.old.session machine.new.session (replicate times Step)) result }
{
    of_answer(get_mut(machine).steps(times))
}

/// Takes at most `most` steps, while a process runs or is ready, and puts how many at `done`.
#[unsafe(no_mangle)]
pub extern "C" fn xv6_raw_run(machine: &mut Sealed, most: u32, done: &mut u32) -> u32
    ensures { RunsTo machine.old.session machine.new.session most done.new result }
{
    let ran = get_mut(machine).run(most);
    *done = ran.steps;
    of_answer(ran.answer)
}

/// Takes steps that are instructions of the process that runs, at most `most`, up to a call or a fault, and no further
/// than to an address of `stops`. Returns how many were taken.
#[unsafe(no_mangle)]
pub extern "C" fn xv6_raw_compute(machine: &mut Sealed, most: u32, stops: &[u64]) -> u32
    ensures computes { IsUp machine.old.session.machine
        → Computes machine.old.session.machine.state machine.new.session.machine.state stops.now most result }
    ensures stopped { ¬ IsUp machine.old.session.machine
        → (result ≡ 0) × (machine.new.session ≡ machine.old.session) }
    ensures machine { machine.new.session.machine
        ≡ record machine.old.session.machine { state = machine.new.session.machine.state } }
    ensures console { console_of machine.new.session ≡ console_of machine.old.session }
{
    get_mut(machine).compute(most, stops)
}

/// A timer interrupt.
#[unsafe(no_mangle)]
pub extern "C" fn xv6_raw_tick(machine: &mut Sealed) -> u32
    ensures { Numbers (StepAnswers machine.old.session machine.new.session
        (next machine.old.session.machine.state Tick)) result }
{
    of_answer(get_mut(machine).tick())
}

/// A typed byte.
#[unsafe(no_mangle)]
pub extern "C" fn xv6_raw_key(machine: &mut Sealed, byte: u8) -> u32
    ensures { Numbers (StepAnswers machine.old.session machine.new.session
        (next machine.old.session.machine.state (Key byte))) result }
{
    of_answer(get_mut(machine).key(byte))
}

/// Takes the oldest of the console's bytes, as many as there is room for, and returns how many.
#[unsafe(no_mangle)]
pub extern "C" fn xv6_raw_console(machine: &mut Sealed, out: &mut [u8]) -> usize
    ensures count { result ≡ min (length (console_of machine.old.session)) (length out.old) }
    ensures bytes { out.new ≡ copied (console_of machine.old.session) out.old }
    ensures left { console_of machine.new.session ≡ drop result (console_of machine.old.session) }
    ensures same { machine.new.session.machine ≡ machine.old.session.machine }
{
    get_mut(machine).take_console(out)
}

/// 1 where no process runs and none is ready, so that a step changes nothing; else 0.
#[unsafe(no_mangle)]
pub extern "C" fn xv6_raw_is_idle(machine: &mut Sealed) -> u32
    ensures idle { result ≡ flag (is_idle machine.old.session.machine.state) }
    ensures same { machine.new.session ≡ machine.old.session }
{
    of_flag(get_mut(machine).machine().is_idle())
}

/// 1 where a process waits in `sleep`, so that a tick can make it ready; else 0.
#[unsafe(no_mangle)]
pub extern "C" fn xv6_raw_is_anyone_asleep(machine: &mut Sealed) -> u32
    ensures asleep { result ≡ flag (is_anyone_asleep machine.old.session.machine.state) }
    ensures same { machine.new.session ≡ machine.old.session }
{
    of_flag(get_mut(machine).machine().is_anyone_asleep())
}

/// The pid of the process that runs; 0 where none does.
#[unsafe(no_mangle)]
pub extern "C" fn xv6_raw_running(machine: &mut Sealed) -> u32
    ensures pid { result ≡ or_zero (running_pid machine.old.session.machine.state) }
    ensures same { machine.new.session ≡ machine.old.session }
{
    of_pid(get_mut(machine).machine().running())
}

/// The least pid above another; 0 where there is none.
#[unsafe(no_mangle)]
pub extern "C" fn xv6_raw_next_pid(machine: &mut Sealed, after: u32) -> u32
    ensures next { NextTells (λ pid. is_some (shown_process machine.old.session.machine.state pid)) after result }
    ensures same { machine.new.session ≡ machine.old.session }
{
    of_pid(get_mut(machine).machine().next_pid(after))
}

/// Puts a process at `out`: 0, or 1 where there is none.
#[unsafe(no_mangle)]
pub extern "C" fn xv6_raw_process(machine: &mut Sealed, pid: u32, out: &mut ProcessTold) -> u32
    ensures told { Puts (process_of machine.old.session.machine.state pid) out.old out.new result }
    ensures same { machine.new.session ≡ machine.old.session }
{
    put(get_mut(machine).process(pid), out)
}

/// Puts the open file that a descriptor of a process names: 0, or 1 where it names none.
#[unsafe(no_mangle)]
pub extern "C" fn xv6_raw_descriptor(
    machine: &mut Sealed,
    pid: u32,
    descriptor: usize,
    out: &mut OpenedTold,
) -> u32
    ensures put { PutsDescriptor machine.old.session.machine pid descriptor out.old out.new result }
    ensures same { machine.new.session ≡ machine.old.session }
{
    put(get_mut(machine).descriptor(pid, descriptor), out)
}

/// Copies the bytes of a pipe, the oldest first and as many as there is room for, and puts how many it has: 0, or 1
/// where there is no such pipe.
#[unsafe(no_mangle)]
pub extern "C" fn xv6_raw_pipe(
    machine: &mut Sealed,
    number: usize,
    out: &mut [u8],
    count: &mut usize,
) -> u32
    ensures put { PutsPipe (slot machine.old.session.machine.state.pipes number)
        out.old out.new count.old count.new result }
    ensures same { machine.new.session ≡ machine.old.session }
{
    put(get_mut(machine).pipe(number, out), count)
}

/// Puts the call that a process waits in: 0, or 1 where it waits in none.
#[unsafe(no_mangle)]
pub extern "C" fn xv6_raw_wait(machine: &mut Sealed, pid: u32, out: &mut WaitTold) -> u32
    ensures put { Puts (wait_of machine.old.session.machine.state pid) out.old out.new result }
    ensures same { machine.new.session ≡ machine.old.session }
{
    put(get_mut(machine).wait(pid), out)
}

/// The number of the working directory of a process; 0 where it has none.
#[unsafe(no_mangle)]
pub extern "C" fn xv6_raw_directory(machine: &mut Sealed, pid: u32) -> u32
    ensures number { result ≡ or_zero (directory_of machine.old.session.machine.state pid) }
    ensures same { machine.new.session ≡ machine.old.session }
{
    of_pid(get_mut(machine).directory(pid))
}

/// Puts the fault that the next instruction of a process would raise if it were done now: 0, or 1 where it would raise
/// none.
#[unsafe(no_mangle)]
pub extern "C" fn xv6_raw_fault(machine: &mut Sealed, pid: u32, out: &mut FaultTold) -> u32
    ensures put { Puts (next_fault machine.old.session.machine.state pid) out.old out.new result }
    ensures same { machine.new.session ≡ machine.old.session }
{
    put(get_mut(machine).fault(pid), out)
}

/// Copies a page of a process, as much as there is room for. 0: there is none; else the sum of 1 and what a program may
/// do with it: 2 read, 4 write, 8 execute.
#[unsafe(no_mangle)]
pub extern "C" fn xv6_raw_page(machine: &mut Sealed, pid: u32, page: u64, out: &mut [u8]) -> u32
    ensures told { PageTells (shown_page machine.old.session.machine.state pid page) out.old out.new result }
    ensures same { machine.new.session ≡ machine.old.session }
{
    of_marks(get_mut(machine).page(pid, page, out))
}

/// Puts the entries of page tables that the walk of an address reads: 0, or 1 where there is no such process.
#[unsafe(no_mangle)]
pub extern "C" fn xv6_raw_walk(
    machine: &mut Sealed,
    pid: u32,
    address: u64,
    out: &mut WalkTold,
) -> u32
    ensures put { PutsWalk machine.old.session.machine pid address out.old out.new result }
    ensures same { machine.new.session ≡ machine.old.session }
{
    put(walk(get_mut(machine), pid, address), out)
}

/// How many frames are free.
#[unsafe(no_mangle)]
pub extern "C" fn xv6_raw_free_frames(machine: &mut Sealed) -> u32
    ensures count { result + frames_of machine.old.session.machine.state
        ≡ machine.old.session.machine.state.frame_limit }
    ensures same { machine.new.session ≡ machine.old.session }
{
    get_mut(machine).machine().free_frames()
}

/// How many timer ticks the machine has had since it started, modulo 2^32.
#[unsafe(no_mangle)]
pub extern "C" fn xv6_raw_ticks(machine: &mut Sealed) -> u32
    ensures count { result ≡ machine.old.session.machine.state.ticks }
    ensures same { machine.new.session ≡ machine.old.session }
{
    get_mut(machine).machine().ticks()
}

/// The pid that the next fork gives, if it gives one.
#[unsafe(no_mangle)]
pub extern "C" fn xv6_raw_coming_pid(machine: &mut Sealed) -> u32
    ensures pid { result ≡ machine.old.session.machine.state.next_pid }
    ensures same { machine.new.session ≡ machine.old.session }
{
    get_mut(machine).machine().coming_pid()
}

/// Puts the digest of the whole state.
#[unsafe(no_mangle)]
pub extern "C" fn xv6_raw_digest(machine: &mut Sealed, out: &mut u64) -> u32
    ensures { Numbers (DigestTells machine.old.session machine.new.session out.old out.new) result }
{
    put_number(get_mut(machine).digest(), out)
}

/// Puts a node of the disk at `out`.
#[unsafe(no_mangle)]
pub extern "C" fn xv6_raw_stat(machine: &mut Sealed, number: usize, out: &mut StatTold) -> u32
    ensures { Numbers (StatTells machine.old.session machine.new.session number out.old out.new) result }
{
    put_stat(get_mut(machine).stat(number), out)
}

/// Reads a node of the disk from offset `at` on, as much as there is room for, and puts how many bytes it read at
/// `count`.
#[unsafe(no_mangle)]
pub extern "C" fn xv6_raw_read(
    machine: &mut Sealed,
    number: usize,
    at: usize,
    out: &mut [u8],
    count: &mut usize,
) -> u32
    ensures { Numbers (ReadTells machine.old.session machine.new.session number at out.old out.new count.old count.new)
        result }
{
    put_number(get_mut(machine).read(number, at, out), count)
}

/// Ends a machine and frees its memory. It copies the bytes of its disk, which denote the files that are left, as many
/// as there is room for, and puts how many there are at `bytes`.
#[unsafe(no_mangle)]
pub extern "C" fn xv6_raw_save(machine: Sealed, out: &mut [u8], bytes: &mut usize) -> u32
    ensures { Numbers (SaveTells machine.session out.old out.new bytes.old bytes.new) result }
{
    let session = Box::into_inner(into_parts(machine).into_box());
    put_image(session.save(), out, bytes)
}
