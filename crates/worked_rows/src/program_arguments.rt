//! Arguments at the bounds of a stack's page, and how many frames a program needs.
ghost use Rattle.std.specs.Prelude.{◌≡◌, true, false};
ghost use Rattle.spaces.specs.Spaces.{has_space};

use elf::FileHeader;
use programs::{Arguments, Program, read_arguments};
use ram::Ram;
use spaces::Spaces;
use std::process::Abort;
use sv39::Plain;
use vm::Perm;

const HEAP: Perm = Perm {
    w: true,
    x: false,
    u: true,
};

// The address of the string to which all words of argv point.
const STRING: u64 = 4096;

fn expect_space(rt: &impl Abort, spaces: &Spaces<Plain>)
    ensures { has_space spaces.now 0 ≡ true }
{
    assert!(rt; spaces.has_space(0));
}

fn expect_free(rt: &impl Abort, spaces: &Spaces<Plain>)
    ensures { has_space spaces.now 0 ≡ false }
{
    assert!(rt; !spaces.has_space(0));
}

fn write(rt: &impl Abort, spaces: &mut Spaces<Plain>, address: u64, bytes: &[u8]) {
    expect_space(rt, spaces);
    assert!(rt; spaces.write(0, address, bytes));
}

// Slot 0 with three pages.
fn place(rt: &(impl Abort + AllocGlobal)) -> Spaces<Plain> {
    let ram = Ram::new(rt.alloc(), 64).expect(rt, "frames");
    let mut spaces = Spaces::new(rt.alloc(), ram, Plain::new()).expect(rt, "counts");
    expect_free(rt, &spaces);
    assert!(rt; spaces.create(0));
    expect_space(rt, &spaces);
    assert!(rt; spaces.grow(0, 12288, HEAP));
    spaces
}

// What a program of one page gets where argv, at address 0, has `words` words.
// Each of them points to a string of `len` bytes.
fn arguments(rt: &(impl Abort + AllocGlobal), words: u64, len: usize) -> Option<Arguments> {
    let mut spaces = place(rt);
    let string = [b'a'; 4080];
    assert!(rt; len <= 4080);
    write(rt, &mut spaces, STRING, &string[..len]);
    for i in 0..40 {
        if i < words {
            write(rt, &mut spaces, 8 * i, &STRING.to_le_bytes());
        }
    }
    expect_space(rt, &spaces);
    read_arguments(&spaces, 0, 0, 1)
}

#[test]
fn passes_what_fits_on_a_page(rt: HostRuntime) {
    for (words, len, told) in [
        (0, 0, Some((0, 12272))),
        (1, 3, Some((1, 12256))),
        (1, 4079, Some((1, 8192))),
        (1, 4080, None),
        (31, 1, Some((31, 11536))),
        (32, 1, None),
        (40, 1, None),
    ] {
        let told_of = arguments(&rt, words, len).map(|a| (a.count, a.sp));
        assert!(rt; told_of == told, "{words} of {len}");
    }
}

#[test]
fn refuses_argv_that_is_not_readable(rt: HostRuntime) {
    let spaces = place(&rt);
    expect_space(&rt, &spaces);
    for (argv, is_readable) in [
        (12280, true),
        (12281, false),
        (12288, false),
        (0xffff_ffff_ffff_fff8, false),
    ] {
        let told = read_arguments(&spaces, 0, argv, 1);
        assert!(rt; told.is_some() == is_readable, "{argv}");
    }
}

// A program of `pages` pages.
fn program(pages: u64) -> Program
    ensures { result.pages ≡ pages }
{
    Program {
        header: FileHeader {
            entry: 0,
            program_headers: 64,
            count: 1,
        },
        pages,
    }
}

#[test]
fn counts_the_frames_of_a_program(rt: HostRuntime) {
    for (pages, frames) in [(0, 7), (1, 8), (511, 519), (0x3ff_fffe, 67_239_940)] {
        assert!(rt; program(pages).frames() == frames, "{pages} pages");
    }
}
