//! Results as numbers.
ghost use Rattle.std.specs.Prelude.{◌≡◌, if◌then◌else◌};
ghost use Rattle.session.specs.Told.{flag};
ghost use Rattle.xv6_c.specs.Numbers.{answer_number, fault_number, halt_number, marks_number, or_zero};

use machine::{BootFault, Halt, Perm};

/// Why a machine stops: 1 process 1 ended, 2 the device failed, 3 no memory for the console's bytes, 4 it had stopped
/// before.
pub fn of_halt(halt: Halt) -> u32
    ensures { result ≡ halt_number halt }
{
    match halt {
        Halt::InitEnded(_) => 1,
        Halt::Device => 2,
        Halt::Console => 3,
        Halt::Halted => 4,
    }
}

/// 0, or why the machine stops.
pub fn of_answer(answer: Result<(), Halt>) -> u32
    ensures { result ≡ answer_number answer }
{
    match answer {
        Ok(()) => 0,
        Err(halt) => of_halt(halt),
    }
}

/// Why a machine doesn't boot: 1 the image, 2 the count of frames, 3 the device, 4 no memory, 5 no program `/init`.
pub fn of_fault(fault: BootFault) -> u32
    ensures { result ≡ fault_number fault }
{
    match fault {
        BootFault::Image(_) => 1,
        BootFault::FrameCount => 2,
        BootFault::Device => 3,
        BootFault::NoMemory => 4,
        BootFault::NoInit => 5,
    }
}

/// 1 for yes, 0 for no.
pub fn of_flag(yes: bool) -> u32
    ensures { result ≡ flag yes }
{
    if yes { 1 } else { 0 }
}

/// A pid; 0 where there is none.
pub fn of_pid(pid: Option<u32>) -> u32
    ensures { result ≡ or_zero pid }
{
    match pid {
        None => 0,
        Some(pid) => pid,
    }
}

// A number where it may be done, else 0.
fn when(may: bool, number: u32) -> u32
    ensures { result ≡ (if may then number else 0) }
{
    if may { number } else { 0 }
}

/// 0 where there is no page; else the sum of 1 and what a program may do: 2 read, 4 write, 8 execute.
pub fn of_marks(marks: Option<Perm>) -> u32
    ensures { result ≡ marks_number marks }
{
    match marks {
        None => 0,
        Some(marks) => {
            let read = when(marks.u, 2);
            let write = when(marks.u && marks.w, 4);
            let execute = when(marks.u && marks.x, 8);
            1 + read + write + execute
        }
    }
}
