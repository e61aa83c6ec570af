//! Programs of a few instructions, done one by one.
use crate::expected::{expect_case, expect_row, memory, store_all};
use hart::Hart;
use ram::{FrameNo, Ram};
use std::process::Abort;
use sv39::Plain;
use unixmodel::trap::{Cause, Trap};

/// Tables in frames 0 to 2, code in frame 3 at address 0, and a page that may be written in frame 4 at 4096.
fn with_code(rt: &(impl Abort + AllocGlobal), code: [u64; 3]) -> Ram {
    let mut ram = memory(rt, 5);
    store_all(
        rt,
        &mut ram,
        &[
            (0, 0, 0x2000_0401),
            (1, 0, 0x2000_0801),
            (2, 0, 0x2000_0c5b),
            (2, 8, 0x2000_10d7),
            (3, 0, code[0]),
            (3, 8, code[1]),
            (3, 16, code[2]),
        ],
    );
    ram
}

fn start() -> Hart {
    Hart {
        registers: [0; 32],
        pc: 0,
        root: FrameNo(0),
    }
}

const CALL: Trap = Trap {
    cause: Cause::EnvironmentCall,
    address: 20,
};

const FAULT: Trap = Trap {
    cause: Cause::StorePageFault,
    address: 0,
};

// A program, what each of its instructions returns, and what comes of it.
struct Case {
    name: &'static str,
    code: [u64; 3],
    traps: &'static [Option<Trap>],
    registers: &'static [(usize, u64)],
    pc: u64,
    /// A number in memory: its frame, its offset and its value.
    stored: (u32, usize, u64),
}

static CASES: [Case; 2] = [
    Case {
        name: "a program stores, loads, jumps and calls",
        // lui t1, 1; addi t0, x0, -1; sw t0, 8(t1); lwu t2, 8(t1); jalr ra, 21(x0); ecall
        code: [
            0xfff0_0293_0000_1337,
            0x0083_6383_0053_2423,
            0x0000_0073_0150_00e7,
        ],
        traps: &[None, None, None, None, None, Some(CALL)],
        // ra, t0, t1 and t2
        registers: &[(1, 20), (5, u64::MAX), (6, 4096), (7, 0xffff_ffff)],
        pc: 20,
        stored: (4, 8, 0xffff_ffff),
    },
    Case {
        name: "a fault changes nothing",
        // sd x0, 0(x0), on a page that may not be written
        code: [0x0000_0000_0000_3023, 0, 0],
        traps: &[Some(FAULT)],
        registers: &[],
        pc: 0,
        stored: (3, 0, 0x3023),
    },
];

fn has_registers(hart: &Hart, rows: &[(usize, u64)]) -> bool {
    for (n, value) in rows {
        if hart.registers.get(*n) != Some(value) {
            return false;
        }
    }
    true
}

fn has_number(ram: &Ram, frame: u32, at: usize, number: u64) -> bool {
    frame < ram.frame_count() && at <= 4088 && ram.load_u64(FrameNo(frame), at) == number
}

fn expect(rt: &(impl Abort + AllocGlobal), case: &Case) {
    let mut ram = with_code(rt, case.code);
    let mut hart = start();
    let mut trans = Plain::new();
    for (at, trap) in case.traps.iter().enumerate() {
        let is_so = hart.step(&mut ram, &mut trans) == *trap;
        expect_row(rt, is_so, case.name, at);
    }
    let (frame, at, number) = case.stored;
    expect_case(
        rt,
        has_registers(&hart, case.registers)
            && hart.pc == case.pc
            && has_number(&ram, frame, at, number),
        case.name,
    );
}

#[test]
fn instructions_are_done(rt: HostRuntime) {
    for case in &CASES {
        expect(&rt, case);
    }
}
