//! The lines of a commit log for instructions, in the form in which Spike logs them.
ghost use Rattle.std.specs.Prelude.{◌≡◌, ◌<◌, ◌≤◌, ◌+◌, ◌%◌, ◌++◌, [], codes, decimal, length, slice_index};
ghost use Rattle.arrayvec.specs.ArrayVec.{array_vec_len};
ghost use Rattle.tracetext.specs.Commits.{act_of, at_left, at_right, change, commit_line};
ghost use Rattle.tracetext.specs.Commits.{is_silent, load_distance, low_digits, store_distance, stored_text, touched};
ghost use Rattle.tracetext.specs.Commits.{wide, written};
ghost use Rattle.unixmodel.specs.Numbers.{extend};
ghost use Rattle.unixmodel.specs.Spell.{part};

use crate::digits::sixteen;
use arrayvec::ArrayVec;
use itoa::Buffer;

/// The most bytes that a line has: a load's, where the core's number has ten digits.
pub const MOST_LINE: usize = 96;

/// A line.
pub type CommitLine = ArrayVec<u8, MOST_LINE>;

/// What an instruction does that is done.
#[derive(Clone, Copy)]
pub enum Act {
    /// It writes a register.
    Register,
    /// It writes a register with what is at this address.
    Load(u64),
    /// It writes this value's lowest bytes to this address.
    Store(u64, u64),
    /// It writes nothing.
    Nothing,
}

/// An instruction that is done.
#[derive(Clone, Copy)]
pub struct Commit {
    pub core: u32,
    pub pc: u64,
    pub word: u32,
    pub act: Act,
    /// What the register has after it that its word names as the one to be written.
    pub value: u64,
}

// The register of a number.
fn register(registers: &[u64; 32], number: u32) -> u64
    ensures { result ≡ slice_index registers.now (number % 32) }
{
    registers[(number % 32) as usize]
}

// A distance of 12 bits, with its sign.
fn extend(bits: u32) -> u64
    requires { bits < 4096 }
    ensures { result ≡ extend 12 bits }
{
    let distance = u64::from(bits);
    if bits < 0x800 {
        distance
    } else {
        distance + (u64::MAX - 0xfff)
    }
}

// How far from a register a load goes.
fn load_distance(word: u32) -> u64
    ensures { result ≡ load_distance word }
{
    extend(word >> 20)
}

// How far from a register a store goes.
fn store_distance(word: u32) -> u64
    ensures { result ≡ store_distance word }
{
    extend((word >> 25) * 32 + (word >> 7) % 32)
}

// Whether an opcode is that of an instruction that writes nothing.
fn is_silent(opcode: u32) -> bool
    ensures { result ≡ is_silent opcode }
{
    opcode == 0x63 || opcode == 0x0f || opcode == 0x73
}

/// What the instruction of a word does that is done, by the registers before it.
pub fn act_of(word: u32, registers: &[u64; 32]) -> Act
    ensures { result ≡ act_of word registers.now }
{
    let opcode = word % 128;
    let base = register(registers, word >> 15);
    if opcode == 0x03 {
        Act::Load(base.wrapping_add(load_distance(word)))
    } else if opcode == 0x23 {
        let stored = register(registers, word >> 20);
        Act::Store(base.wrapping_add(store_distance(word)), stored)
    } else if is_silent(opcode) {
        Act::Nothing
    } else {
        Act::Register
    }
}

/// The register that a word names as the one to be written.
pub fn target(word: u32, registers: &[u64; 32]) -> u64
    ensures { result ≡ slice_index registers.now (part word 7 5) }
{
    register(registers, word >> 7)
}

// Puts a text after what a line has.
#[inline(always)]
fn put(line: &mut CommitLine, text: &[u8])
    requires { array_vec_len line.old + length text.now ≤ 96 }
    ensures items { line.new.items ≡ line.old.items ++ text.now }
    ensures len { array_vec_len line.new ≡ array_vec_len line.old + length text.now }
{
    match line.try_extend_from_slice(text) {
        Ok(()) => (),
        Err(_) => unreachable!(),
    }
}

// Puts an address or a register's value there.
#[inline(always)]
fn put_wide(line: &mut CommitLine, value: u64)
    requires { array_vec_len line.old ≤ 78 }
    ensures items { line.new.items ≡ line.old.items ++ wide value }
    ensures len { array_vec_len line.new ≡ array_vec_len line.old + 18 }
{
    put(line, b"0x");
    put(line, &sixteen(value));
}

// Puts this many of the lowest digits of a number there.
#[inline(always)]
fn put_last(line: &mut CommitLine, count: usize, value: u64)
    requires room { array_vec_len line.old ≤ 80 }
    requires count { count ≤ 16 }
    ensures items { line.new.items ≡ line.old.items ++ low_digits count value }
    ensures len { array_vec_len line.new ≡ array_vec_len line.old + count }
{
    let digits = sixteen(value);
    put(line, &digits[16 - count..]);
}

// Puts the word of an instruction there, in brackets.
#[inline(always)]
fn put_word(line: &mut CommitLine, word: u32)
    requires { array_vec_len line.old ≤ 76 }
    ensures items { line.new.items ≡ line.old.items ++ codes " (0x" ++ low_digits 8 word ++ codes ")" }
    ensures len { array_vec_len line.new ≡ array_vec_len line.old + 13 }
{
    put(line, b" (0x");
    put_last(line, 8, u64::from(word));
    put(line, b")");
}

// A number below 10, at the right of four columns.
#[inline(always)]
#[tactic(auto, using(crate::proofs::CommitLemmas::one_digit))]
fn one_at_right(number: u32) -> [u8; 4]
    requires { number < 10 }
    ensures { result ≡ at_right (decimal number) }
{
    [b' ', b' ', b' ', b'0' + number as u8]
}

// Puts a core's number there, at the right of four columns.
fn put_core(line: &mut CommitLine, core: u32)
    requires { array_vec_len line.old ≤ 86 }
    ensures items { line.new.items ≡ line.old.items ++ at_right (decimal core) }
    ensures len { array_vec_len line.new ≤ array_vec_len line.old + 10 }
{
    let mut buffer = Buffer::new();
    let text = buffer.format(core).as_bytes();
    let blanks = b"    ";
    put(line, &blanks[text.len().min(4)..]);
    put(line, text);
}

// A number below 100, at the left of two columns.
#[inline(always)]
fn at_left(number: u32) -> [u8; 2]
    requires { number < 100 }
    ensures { result ≡ at_left number }
{
    let number = number as u8;
    if number < 10 {
        [b'0' + number, b' ']
    } else {
        [b'0' + number / 10, b'0' + number % 10]
    }
}

// Puts where memory is read or written.
#[inline(always)]
fn put_touched(line: &mut CommitLine, address: u64)
    requires { array_vec_len line.old ≤ 73 }
    ensures items { line.new.items ≡ line.old.items ++ touched address }
    ensures len { array_vec_len line.new ≡ array_vec_len line.old + 23 }
{
    put(line, b" mem ");
    put_wide(line, address);
}

// Puts the register that is written, and its value.
#[inline(always)]
fn put_written(line: &mut CommitLine, number: u32, value: u64)
    requires room { array_vec_len line.old ≤ 73 }
    requires number { number < 32 }
    ensures items { line.new.items ≡ line.old.items ++ written number value }
    ensures len { array_vec_len line.new ≤ array_vec_len line.old + 23 }
{
    if number == 0 {
        return;
    }
    put(line, b" x");
    put(line, &at_left(number));
    put(line, b" ");
    put_wide(line, value);
}

// Puts the bytes that are stored, the greatest one first.
#[inline(always)]
fn put_stored(line: &mut CommitLine, word: u32, value: u64)
    requires { array_vec_len line.old ≤ 77 }
    ensures items { line.new.items ≡ line.old.items ++ stored_text word value }
    ensures len { array_vec_len line.new ≤ array_vec_len line.old + 19 }
{
    put(line, b" 0x");
    match (word >> 12) % 4 {
        0 => put_last(line, 2, value),
        1 => put_last(line, 4, value),
        2 => put_last(line, 8, value),
        _ => put_last(line, 16, value),
    }
}

impl Commit {
    // Puts the instruction, and its address, after the core's number.
    #[inline(always)]
    fn put_instruction(&self, line: &mut CommitLine)
        requires { array_vec_len line.old ≤ 14 }
        ensures items { line.new.items ≡ line.old.items ++ codes ": 0 " ++ wide self.now.pc ++ codes " (0x"
            ++ low_digits 8 self.now.word ++ codes ")" }
        ensures len { array_vec_len line.new ≡ array_vec_len line.old + 35 }
    {
        put(line, b": 0 ");
        put_wide(line, self.pc);
        put_word(line, self.word);
    }

    // Puts what it changes.
    #[inline(always)]
    fn put_change(&self, line: &mut CommitLine)
        requires { array_vec_len line.old ≤ 49 }
        ensures items { line.new.items ≡ line.old.items ++ change self.now.word self.now.value self.now.act }
        ensures len { array_vec_len line.new ≤ 95 }
    {
        let number = (self.word >> 7) % 32;
        match self.act {
            Act::Nothing => (),
            Act::Register => put_written(line, number, self.value),
            Act::Load(address) => {
                put_written(line, number, self.value);
                put_touched(line, address);
            }
            Act::Store(address, stored) => {
                put_touched(line, address);
                put_stored(line, self.word, stored);
            }
        }
    }

    // Makes a line this instruction's, where the core's number has one digit: so the compiler knows where parts begin.
    #[inline(always)]
    fn put_by_digit(&self, line: &mut CommitLine)
        requires { self.now.core < 10 }
        ensures { line.new.items ≡ commit_line self.now.core self.now.pc self.now.word self.now.act self.now.value }
    {
        line.clear();
        put(line, b"core");
        put(line, &one_at_right(self.core));
        self.put_instruction(line);
        self.put_change(line);
        put(line, b"\n");
    }

    // The same for any core.
    #[inline(never)]
    fn put_by_number(&self, line: &mut CommitLine)
        ensures { line.new.items ≡ commit_line self.now.core self.now.pc self.now.word self.now.act self.now.value }
    {
        line.clear();
        put(line, b"core");
        put_core(line, self.core);
        self.put_instruction(line);
        self.put_change(line);
        put(line, b"\n");
    }

    /// Makes a line this instruction's.
    #[inline(always)]
    pub fn put(&self, line: &mut CommitLine)
        ensures { line.new.items ≡ commit_line self.now.core self.now.pc self.now.word self.now.act self.now.value }
    {
        if self.core < 10 {
            self.put_by_digit(line);
        } else {
            self.put_by_number(line);
        }
    }
}
