//! Program files with odd numbers in their headers, as `/init` and by the call exec.
use crate::runs::{AnyMachine, let_go, plain};
use asm::assemble;
use blockdev::MemDisk;
use console::Writer;
use image::{Entry, Manifest, Thing, make};
use machine::{BootFault, Halt, boot};
use std::alloc::{AllocError, Global};
use unixmodel::event::Event;

const INIT: &[u8] = b"/init";

// Executes `/odd`, and turns round where that is refused.
const CALLER: &str = "
        la a0, name
        la a1, none
        li a7, 7
        ecall
        mv s2, a0
stay:   j stay
name:   .ascii \"/odd\\0\\0\\0\\0\"
none:   .dword 0
";

// The size of that program, and the number of s2.
const THREE_PAGES: u64 = 12288;

const S2: usize = 18;

// A file of a header and a program header.
// It says where the program headers are and how many, and how long the segment is in the file and in memory.
// It becomes a program of this many bytes, or is refused.
struct Odd {
    at: u64,
    count: u64,
    file_size: u64,
    size: u64,
    becomes: Option<u64>,
}

// One program header, of a segment of one byte.
const GOOD: Odd = Odd {
    at: 64,
    count: 1,
    file_size: 1,
    size: 1,
    becomes: Some(THREE_PAGES),
};

const ROWS: [Odd; 6] = [
    GOOD,
    // no page but the guard's and the stack's
    Odd {
        count: 0,
        becomes: Some(8192),
        ..GOOD
    },
    Odd {
        count: 65535,
        becomes: None,
        ..GOOD
    },
    Odd {
        at: 0xffff_ffff_ffff_fff0,
        becomes: None,
        ..GOOD
    },
    // as much as no program has
    Odd {
        file_size: 0,
        size: 0x3f_ffff_e000,
        becomes: None,
        ..GOOD
    },
    Odd {
        size: 0,
        becomes: None,
        ..GOOD
    },
];

impl Odd {
    // The bytes of the file. The entry is 0, and the segment, which may be read and executed, begins with the file's
    // first byte.
    fn bytes(&self, alloc: Global) -> Result<Vec<u8>, AllocError> {
        let header = [0x1_0102_464c_457f, 0, 0x1_00f3_0002, 0, self.at, 0];
        let behind = [0x38_0040_0000_0000, self.count];
        let segment = [0x5_0000_0001, 0, 0, 0, self.file_size, self.size, 0x1000];
        let mut bytes = Vec::new(alloc);
        for word in header.iter().chain(&behind).chain(&segment) {
            bytes.extend_from_slice(&word.to_le_bytes())?;
        }
        Ok(bytes)
    }
}

// A file with this path.
fn entry(alloc: Global, path: &[u8], bytes: Vec<u8>) -> Option<Entry> {
    let path = Vec::from_slice(alloc, path).ok()?;
    let thing = Thing::File(bytes);
    Some(Entry { path, thing })
}

// A machine over a disk with these files.
fn booted(alloc: Global, entries: Vec<Entry>) -> Option<Result<AnyMachine<'static>, BootFault>> {
    let image = make(alloc, &Manifest { entries }, 32, 16).ok()?;
    let disk = MemDisk::new(image).ok()?;
    Some(boot(alloc, disk, plain(), 64))
}

// A machine whose `/init` executes the file.
fn calling(alloc: Global, odd: &Odd) -> Option<AnyMachine<'static>> {
    let init = entry(alloc, INIT, assemble(alloc, CALLER).ok()?)?;
    let file = entry(alloc, b"/odd", odd.bytes(alloc).ok()?)?;
    let entries = Vec::from_array(alloc, [init, file]).ok()?;
    booted(alloc, entries)?.ok()
}

// A machine whose `/init` is the file.
fn beginning(alloc: Global, odd: &Odd) -> Option<Result<AnyMachine<'static>, BootFault>> {
    let init = entry(alloc, INIT, odd.bytes(alloc).ok()?)?;
    let entries = Vec::from_array(alloc, [init]).ok()?;
    booted(alloc, entries)
}

// A hundred steps.
fn run_on(alloc: Global, machine: &mut AnyMachine<'static>) -> Result<(), Halt> {
    let mut out = Writer::new(Vec::new(alloc));
    machine.run(&[Event::Step; 100], &mut out)
}

// Whether process 1 ends at address 0, in a program of `size` bytes.
fn ends_at_0(alloc: Global, machine: &mut AnyMachine<'static>, size: u64) -> bool {
    let done = run_on(alloc, machine);
    match machine.inspect(1) {
        Some(seen) => done == Err(Halt::InitEnded(-1)) && seen.pc == 0 && seen.size == size,
        None => false,
    }
}

// Whether exec returns -1, takes no frame, and the program goes on.
fn refuses(alloc: Global, machine: &mut AnyMachine<'static>) -> bool {
    let free = machine.free_frames();
    let done = run_on(alloc, machine);
    match machine.inspect(1) {
        Some(seen) => {
            done.is_ok()
                && seen.registers[S2] == u64::MAX
                && seen.size == THREE_PAGES
                && machine.free_frames() == free
        }
        None => false,
    }
}

// Whether a machine whose `/init` executes the file does as its row says.
fn goes_on(alloc: Global, machine: &mut AnyMachine<'static>, odd: &Odd) -> bool {
    match odd.becomes {
        Some(size) => ends_at_0(alloc, machine, size),
        None => refuses(alloc, machine),
    }
}

// Whether exec executes or refuses the file as its row says.
fn is_executed(alloc: Global, odd: &Odd) -> bool {
    match calling(alloc, odd) {
        Some(mut machine) => {
            let goes = goes_on(alloc, &mut machine, odd);
            let_go(machine);
            goes
        }
        None => false,
    }
}

// Whether a machine that booted the file does as its row says.
fn is_begun(alloc: Global, machine: &mut AnyMachine<'static>, odd: &Odd) -> bool {
    match odd.becomes {
        Some(size) => ends_at_0(alloc, machine, size),
        None => false,
    }
}

// Whether a boot executes or refuses it.
fn is_booted(alloc: Global, odd: &Odd) -> bool {
    match beginning(alloc, odd) {
        Some(Ok(mut machine)) => {
            let begun = is_begun(alloc, &mut machine, odd);
            let_go(machine);
            begun
        }
        Some(Err(fault)) => fault == BootFault::NoInit && odd.becomes.is_none(),
        None => false,
    }
}

/// The first file that is executed or refused in another way than its row says.
pub fn wrong(alloc: Global) -> Option<u64> {
    for (place, odd) in ROWS.iter().enumerate() {
        if !is_executed(alloc, odd) || !is_booted(alloc, odd) {
            return Some(place as u64);
        }
    }
    None
}
