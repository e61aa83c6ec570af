//! What exec takes and refuses of its arguments.
use crate::disks::{Room, Whole, expect_row, run_of};
use crate::sources::PASSER;
use machine::Seen;

// More steps than the program takes until it turns round.
const STEPS: usize = 20_000;

// Whether it has one argument, and its stack is as one of 4079 bytes leaves it.
fn has_one(seen: &Seen) -> bool {
    seen.registers[10] == 1
        && seen.registers[11] == 8192
        && seen.registers[2] == 8192
        && seen.size == 12288
}

// Whether the page has the argument's pointer, a zero, and its bytes up to the end.
fn is_filled(page: &[u8; 4096]) -> bool {
    page.starts_with(&[0x10, 0x20, 0, 0, 0, 0, 0, 0, 0, 0, 0, 0, 0, 0, 0, 0, 97])
        && page.ends_with(&[97, 0])
}

// Whether its last arguments are those that pass.
fn passes(run: &mut Whole) -> Option<bool> {
    let goes = run.steps(STEPS);
    let seen = run.machine.inspect(1)?;
    let (page, _) = run.machine.peek(1, 2)?;
    Some(goes && has_one(&seen) && is_filled(page))
}

// It goes on where 31 arguments pass that are 32 no longer, and then one of 4079 bytes, which are 4080 no longer.
#[test]
fn as_many_pass_as_fit(rt: HostRuntime) {
    let room = Room {
        frames: 64,
        blocks: 32,
    };
    let mut run = run_of(rt.alloc(), PASSER, 1, room).expect(&rt, "a machine");
    let holds = passes(&mut run);
    run.end();
    expect_row(&rt, "arguments", holds);
}
