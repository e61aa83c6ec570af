//! Programs, and runs of them: a list of acts, each of which does something to the machine or looks at it.
use blockdev::MemDisk;
use console::Writer;
use machine::{
    Halt, Machine, OpenOn, Opened, Pending, Perm, ProcessState, Seen, Stat, boot_flat_with,
};
use ram::{FRAME_SIZE, FrameNo, Ram};
use std::alloc::{AllocError, Global};
use std::cell::Cell;
use std::io;
use std::io::Write;
use std::process::Abort;
use sv39::{Plain, Recent, Tlb, Translate, walk};
use test_translators::{Counting, MOST_PAGES, Noting};
use unixmodel::event::Event;
use unixmodel::trap::Access;

/// -1 in a register.
pub(crate) const MINUS_ONE: u64 = u64::MAX;

pub(crate) const FORK: u64 = 1;

pub(crate) const EXIT: u64 = 2;

pub(crate) const WAIT: u64 = 3;

pub(crate) const PIPE: u64 = 4;

pub(crate) const READ: u64 = 5;

pub(crate) const KILL: u64 = 6;

pub(crate) const EXEC: u64 = 7;

pub(crate) const FSTAT: u64 = 8;

pub(crate) const CHDIR: u64 = 9;

pub(crate) const DUP: u64 = 10;

pub(crate) const GETPID: u64 = 11;

pub(crate) const SBRK: u64 = 12;

pub(crate) const SLEEP: u64 = 13;

pub(crate) const UPTIME: u64 = 14;

pub(crate) const OPEN: u64 = 15;

pub(crate) const WRITE: u64 = 16;

pub(crate) const MKNOD: u64 = 17;

pub(crate) const UNLINK: u64 = 18;

pub(crate) const LINK: u64 = 19;

pub(crate) const MKDIR: u64 = 20;

pub(crate) const CLOSE: u64 = 21;

pub(crate) const READY: ProcessState = ProcessState::Ready;

pub(crate) const RUNNING: ProcessState = ProcessState::Running;

pub(crate) const WAITING: ProcessState = ProcessState::Waiting(WAIT as u32);

pub(crate) const SLEEPING: ProcessState = ProcessState::Waiting(SLEEP as u32);

pub(crate) const READING: ProcessState = ProcessState::Waiting(READ as u32);

pub(crate) const WRITING: ProcessState = ProcessState::Waiting(WRITE as u32);

// Makes one call after the other, by a table after the instructions: a0, a1, a2 and a7 of each.
const CALLER: [u32; 8] = [
    0x0200_0293, // addi t0, zero, 32
    0x0002_b503, // ld   a0, 0(t0)
    0x0082_b583, // ld   a1, 8(t0)
    0x0102_b603, // ld   a2, 16(t0)
    0x0182_b883, // ld   a7, 24(t0)
    0x0000_0073, // ecall
    0x0202_8293, // addi t0, t0, 32
    0xfe9f_f06f, // jal  zero, -24
];

/// The steps of a list of calls to the first answer, and from one answer to the next.
pub(crate) const NEXT_CALL: usize = 7;

// Makes one call after the other, by rows after the instructions.
// A row has a0, a1, a2 and a7, and the address of the row that is next where the call returns 0.
const FAMILY: [u32; 11] = [
    0x0400_0293, // addi t0, zero, 64
    0x0002_b503, // ld   a0, 0(t0)
    0x0082_b583, // ld   a1, 8(t0)
    0x0102_b603, // ld   a2, 16(t0)
    0x0182_b883, // ld   a7, 24(t0)
    0x0000_0073, // ecall
    0x0005_1663, // bne  a0, zero, 12
    0x0202_b283, // ld   t0, 32(t0)
    0xfe5f_f06f, // jal  zero, -28
    0x0282_8293, // addi t0, t0, 40
    0xfddf_f06f, // jal  zero, -36
];

// Where the rows are, and how long one is.
const ROWS: u64 = 64;

const ROW: u64 = 40;

/// The steps of a family to its first answer.
pub(crate) const FIRST_ANSWER: usize = 7;

/// The steps of a family from one answer to the next.
pub(crate) const NEXT_ANSWER: usize = 8;

/// As many bytes as no program prints.
pub(crate) const ROOM: usize = 4096;

/// What a buffer holds before it is read into.
pub(crate) const UNTOLD: u8 = 0xaa;

/// How much is read at once.
pub(crate) const MOST_READ: usize = 64;

/// A call: a0, a1, a2 and its number, and the row that is next where its answer is 0.
#[derive(Clone, Copy)]
pub(crate) struct Row(pub(crate) [u64; 4], pub(crate) u64);

/// A program.
#[derive(Clone, Copy)]
pub(crate) enum Program<'a> {
    /// Instructions, and the bytes after them.
    Words(&'a [u32], &'a [u8]),
    /// Calls, one after the other: a0, a1, a2 and the number of each.
    Calls(&'a [[u64; 4]]),
    /// Calls of a process and of its children.
    Family(&'a [Row]),
}

/// A run of a program, with a name that is printed where it doesn't go as expected.
#[derive(Clone, Copy)]
pub(crate) struct Case<'a> {
    pub(crate) name: &'a str,
    /// How many frames the machine has, and how many bytes its console takes.
    pub(crate) size: (u32, usize),
    pub(crate) program: Program<'a>,
    /// What happens to the machine, and what is expected of it.
    pub(crate) acts: &'a [Act<'a>],
}

/// 64 frames, and a console that takes all that is printed.
pub(crate) const USUAL: (u32, usize) = (64, ROOM);

/// What happens to a machine, or what is expected of it: of one process, by its pid, or of the whole.
#[derive(Clone, Copy)]
pub(crate) enum Act<'a> {
    /// That many steps, none of which stops the machine.
    Steps(usize),
    /// A timer interrupt and a step.
    Turn,
    /// A turn of each process from the second to the one with this pid, and one of the first.
    Round(u32),
    /// Typed keys.
    Keys(&'a [u8]),
    /// A step at which the machine stops.
    Halts(Halt),
    /// A list of events, and why the machine stops at one of them, if it does.
    Runs(&'a [Event], Option<Halt>),
    /// What the next calls of a list return.
    Answers(&'a [u64]),
    /// The same, and how many frames are free after each.
    Answered(&'a [(u64, u32)]),
    /// What was printed so far.
    Printed(&'a [u8]),
    /// How many frames are free.
    Free(u32),
    /// The value of a0 of the process with this pid.
    Answer(u32, u64),
    /// What a process is doing.
    Is(u32, ProcessState),
    /// The pid of a process's parent.
    Parent(u32, u32),
    /// Its pc.
    Pc(u32, u64),
    /// Its size in bytes.
    Size(u32, u64),
    /// Whether it was killed.
    Killed(u32, bool),
    /// Its registers x0 to x31.
    Registers(u32, &'a [u64; 32]),
    /// There is no process with this pid.
    Gone(u32),
    /// The least pid above this one.
    Next(u32, Option<u32>),
    /// What the first descriptors of a process name, after which all are free; its directory; and the call that it
    /// waits in.
    Holds(u32, &'a [Option<u8>], u32, Option<Pending>),
    /// What the open file with this number is open on, whether for reading and for writing, and how many descriptors
    /// name it.
    Opens(usize, OpenOn, (bool, bool), u32),
    /// There is no open file with this number.
    Closed(usize),
    /// The bytes of the pipe with this number.
    Pipe(usize, Option<&'a [u8]>),
    /// Whether no process runs and none is ready, and whether one sleeps.
    Idle(bool, bool),
    /// The bytes from an address of a process on.
    Bytes(u32, u64, &'a [u8]),
    /// The marks of a page of a process, and its first bytes, after which all are zero.
    Page(u32, u64, Perm, &'a [u8]),
    /// There is no such page of this process.
    NoPage(u32, u64),
    /// There are no tables of this process's pages.
    NoTables(u32),
    /// The byte that the tables of process 1 reach at an address, for this access.
    Reaches(u64, Access, u8),
    /// The tables of process 1 don't allow this access.
    Faults(u64, Access),
    /// Whether the tables of a process let a store through at an address.
    Stores(u32, u64, bool),
    /// What a machine reports of a node of the disk, by its number.
    Node(usize, Option<Stat>),
    /// The bytes of a node from an offset on, into a buffer of that many bytes.
    Reads(usize, usize, usize, &'a [u8]),
    /// Nothing can be read from the disk any more.
    Mute,
}

fn flat(alloc: Global, words: &[u32], rest: &[u8]) -> Result<Vec<u8>, AllocError> {
    let mut bytes = Vec::new(alloc);
    for word in words {
        bytes.extend_from_slice(&word.to_le_bytes())?;
    }
    bytes.extend_from_slice(rest)?;
    Ok(bytes)
}

fn put(bytes: &mut Vec<u8>, numbers: &[u64]) -> Result<(), AllocError> {
    for number in numbers {
        bytes.extend_from_slice(&number.to_le_bytes())?;
    }
    Ok(())
}

fn caller(alloc: Global, calls: &[[u64; 4]]) -> Result<Vec<u8>, AllocError> {
    let mut bytes = flat(alloc, &CALLER, &[])?;
    for call in calls {
        put(&mut bytes, call)?;
    }
    Ok(bytes)
}

fn family(alloc: Global, rows: &[Row]) -> Result<Vec<u8>, AllocError> {
    let mut bytes = flat(alloc, &FAMILY, &[0; 20])?;
    for Row([a0, a1, a2, number], next) in rows {
        let next = ROWS.wrapping_add(ROW.wrapping_mul(*next));
        put(&mut bytes, &[*a0, *a1, *a2, *number, next])?;
    }
    Ok(bytes)
}

impl Program<'_> {
    /// Its bytes.
    pub(crate) fn bytes(self, alloc: Global) -> Result<Vec<u8>, AllocError> {
        match self {
            Program::Words(words, rest) => flat(alloc, words, rest),
            Program::Calls(calls) => caller(alloc, calls),
            Program::Family(rows) => family(alloc, rows),
        }
    }
}

// Whether the machine stopped for this reason, or went on.
fn stops(done: Result<(), Halt>, why: Option<Halt>) -> bool {
    match (done, why) {
        (Ok(()), None) => true,
        (Err(found), Some(expected)) => found == expected,
        _ => false,
    }
}

// The process that the act is about, or process 1.
fn pid_of(act: Act<'_>) -> u32 {
    match act {
        Act::Answer(pid, _)
        | Act::Is(pid, _)
        | Act::Parent(pid, _)
        | Act::Pc(pid, _)
        | Act::Size(pid, _)
        | Act::Killed(pid, _)
        | Act::Registers(pid, _) => pid,
        _ => 1,
    }
}

// Whether a process is as the act says.
fn tells(seen: &Seen, act: Act<'_>) -> bool {
    match act {
        Act::Answer(_, a0) => seen.registers[10] == a0,
        Act::Is(_, state) => seen.state == state,
        Act::Parent(_, parent) => seen.parent == parent,
        Act::Pc(_, pc) => seen.pc == pc,
        Act::Size(_, size) => seen.size == size,
        Act::Killed(_, killed) => seen.killed == killed,
        Act::Registers(_, registers) => seen.registers == *registers,
        _ => false,
    }
}

// Whether a page has these bytes at an offset.
fn holds(page: &[u8; FRAME_SIZE], place: usize, bytes: &[u8]) -> bool {
    match page.get(place..) {
        Some(rest) => rest.starts_with(bytes),
        None => false,
    }
}

// Whether a page has nothing but zeros from an offset on.
fn is_zero(page: &[u8; FRAME_SIZE], place: usize) -> bool {
    match page.get(place..) {
        Some(rest) => [0; FRAME_SIZE].starts_with(rest),
        None => false,
    }
}

// Whether a buffer that was read into begins with these bytes, and holds no others.
pub(crate) fn is_front(out: &[u8; MOST_READ], bytes: &[u8]) -> bool {
    out.starts_with(bytes) && out.iter().skip(bytes.len()).all(|byte| *byte == UNTOLD)
}

// The byte at a physical address.
fn byte_at(ram: &Ram, pa: u64) -> Option<u8> {
    let frame = FrameNo((pa / 4096 % 0x8_0000) as u32);
    if frame.0 < ram.frame_count() {
        Some(ram.frame(frame)[(pa % 4096) as usize])
    } else {
        None
    }
}

/// A console that takes one byte at a time, `room` bytes in all, and then none.
#[derive(Drop)]
pub(crate) struct Narrow {
    taken: Vec<u8>,
    room: usize,
}

impl Write for Narrow {
    fn write(&mut self, buf: &[u8]) -> io::Result<usize> {
        match buf.first() {
            Some(byte) if self.taken.len() < self.room => {
                self.taken.push(*byte)?;
                Ok(1)
            }
            _ => Ok(0),
        }
    }

    fn flush(&mut self) -> io::Result<()> {
        Ok(())
    }
}

/// A console that takes `room` bytes.
pub(crate) fn narrow_console(alloc: Global, room: usize) -> Writer<Narrow> {
    let taken = Vec::new(alloc);
    Writer::new(Narrow { taken, room })
}

// A machine, what it prints, and how many calls of a list returned what they should.
#[derive(Drop)]
struct Play<T: Translate> {
    machine: Machine<MemDisk, T>,
    out: Writer<Narrow>,
    answered: usize,
}

impl<T: Translate> Play<T> {
    // Boots the program of a case over a translator.
    fn boot(alloc: Global, case: Case<'_>, translator: T) -> Option<Play<T>> {
        let (frames, room) = case.size;
        let bytes = case.program.bytes(alloc).ok()?;
        let machine = boot_flat_with(alloc, bytes.as_slice(), translator, frames).ok()?;
        Some(Play {
            machine,
            out: narrow_console(alloc, room),
            answered: 0,
        })
    }

    fn event(&mut self, event: Event) -> Result<(), Halt> {
        self.machine.step(event, &mut self.out)
    }

    fn steps(&mut self, count: usize) -> bool {
        let count = u32::try_from(count).unwrap_or(u32::MAX);
        self.machine.steps(count, &mut self.out).is_ok()
    }

    fn turns(&mut self) -> bool {
        self.event(Event::Tick).is_ok() && self.steps(1)
    }

    fn keys(&mut self, keys: &[u8]) -> bool {
        for key in keys {
            if self.event(Event::Key(*key)).is_err() {
                return false;
            }
        }
        true
    }

    fn runs(&mut self, events: &[Event]) -> Result<(), Halt> {
        self.machine.run(events, &mut self.out)
    }

    fn holds(&self, pid: u32, address: u64, bytes: &[u8]) -> bool {
        match self.machine.peek(pid, address / 4096) {
            Some((page, _)) => holds(page, (address % 4096) as usize, bytes),
            None => false,
        }
    }

    fn is_page(&self, pid: u32, page: u64, marks: Perm, bytes: &[u8]) -> bool {
        match self.machine.peek(pid, page) {
            Some((page, perm)) => {
                perm == marks && holds(page, 0, bytes) && is_zero(page, bytes.len())
            }
            None => false,
        }
    }

    fn reached(&self, address: u64, access: Access) -> Option<u8> {
        let (ram, root) = self.machine.tables(1)?;
        let pa = walk(ram, root, address, access).ok()?;
        byte_at(ram, pa)
    }

    fn faults(&self, address: u64, access: Access) -> bool {
        match self.machine.tables(1) {
            Some((ram, root)) => walk(ram, root, address, access).is_err(),
            None => false,
        }
    }

    fn stores(&self, pid: u32, address: u64) -> Option<bool> {
        let (ram, root) = self.machine.tables(pid)?;
        Some(walk(ram, root, address, Access::Store).is_ok())
    }

    fn tells(&self, act: Act<'_>) -> bool {
        let pid = pid_of(act);
        match self.machine.inspect(pid) {
            Some(seen) => seen.pid == pid && tells(&seen, act),
            None => false,
        }
    }

    // Whether these are the first descriptors of a process, after which all are free, with its directory and its call.
    fn keeps(
        &self,
        pid: u32,
        front: &[Option<u8>],
        directory: u32,
        pending: Option<Pending>,
    ) -> bool {
        match self.machine.holdings(pid) {
            Some(held) => {
                held.descriptors.starts_with(front)
                    && held
                        .descriptors
                        .iter()
                        .skip(front.len())
                        .all(|name| name.is_none())
                    && held.directory == directory
                    && held.pending == pending
            }
            None => false,
        }
    }

    // Whether a pipe holds these bytes.
    fn pipes(&self, number: usize, bytes: Option<&[u8]>) -> bool {
        match (self.machine.pipe(number), bytes) {
            (Some((front, back)), Some(bytes)) => match bytes.get(front.len()..) {
                Some(rest) => bytes.starts_with(front) && rest == back,
                None => false,
            },
            (None, None) => true,
            _ => false,
        }
    }

    // Whether the machine lists what the act says.
    fn lists(&self, act: Act<'_>) -> bool {
        match act {
            Act::Next(after, pid) => self.machine.next_pid(after) == pid,
            Act::Holds(pid, front, directory, pending) => self.keeps(
                pid, front, directory, pending,
            ),
            Act::Opens(file, on, (readable, writable), descriptors) => {
                self.machine.opened(file)
                    == Some(Opened {
                        on,
                        readable,
                        writable,
                        descriptors,
                    })
            }
            Act::Closed(file) => self.machine.opened(file).is_none(),
            Act::Pipe(number, bytes) => self.pipes(number, bytes),
            Act::Idle(idle, asleep) => {
                self.machine.is_idle() == idle && self.machine.is_anyone_asleep() == asleep
            }
            _ => self.tells(act),
        }
    }

    // Whether the machine is as the act says.
    fn shows(&self, act: Act<'_>) -> bool {
        match act {
            Act::Free(free) => self.machine.free_frames() == free,
            Act::Printed(text) => self.out.get_ref().taken.as_slice() == text,
            Act::Gone(pid) => self.machine.inspect(pid).is_none()
                && self.machine.holdings(pid).is_none(),
            Act::Bytes(pid, address, bytes) => self.holds(pid, address, bytes),
            Act::Page(pid, page, marks, bytes) => self.is_page(pid, page, marks, bytes),
            Act::NoPage(pid, page) => self.machine.peek(pid, page).is_none(),
            Act::NoTables(pid) => self.machine.tables(pid).is_none(),
            Act::Reaches(address, access, byte) => self.reached(address, access) == Some(byte),
            Act::Faults(address, access) => self.faults(address, access),
            Act::Stores(pid, address, through) => self.stores(pid, address) == Some(through),
            _ => self.lists(act),
        }
    }

    // Whether these are the bytes of a node from an offset on, read into `room` bytes, and no others are written.
    fn reads(&mut self, number: usize, at: usize, room: usize, bytes: &[u8]) -> bool {
        let mut out = [UNTOLD; MOST_READ];
        let Some(part) = out.get_mut(..room) else {
            return false;
        };
        match self.machine.read_inode(number, at, part) {
            Ok(count) => count == bytes.len() && is_front(&out, bytes),
            Err(_) => false,
        }
    }

    // Whether the next call of a list returns this.
    fn answers_next(&mut self, a0: u64) -> bool {
        let holds = self.steps(NEXT_CALL) && self.tells(Act::Answer(1, a0));
        self.answered = self.answered.saturating_add(usize::from(holds));
        holds
    }

    // Whether the next calls of a list return these.
    fn answers(&mut self, answers: &[u64]) -> bool {
        answers.iter().all(|a0| self.answers_next(*a0))
    }

    // Whether they do, and each leaves that many frames free.
    fn answers_and_leaves(&mut self, answers: &[(u64, u32)]) -> bool {
        for (a0, free) in answers {
            if !self.answers_next(*a0) || self.machine.free_frames() != *free {
                return false;
            }
        }
        true
    }

    // Whether a timer interrupt gives the turn to the process with this pid.
    fn turns_to(&mut self, pid: u32) -> bool {
        self.turns() && self.tells(Act::Is(pid, RUNNING))
    }

    // Whether the turn goes from the first process on to the one with this pid, and round.
    fn goes_round(&mut self, last: u32) -> bool {
        for pid in 2..=last {
            if !self.turns_to(pid) {
                return false;
            }
        }
        self.turns_to(1)
    }

    fn is_mute(&mut self) -> bool {
        let mut out = [UNTOLD; MOST_READ];
        self.machine.stat_inode(1) == Err(Halt::Halted)
            && self.machine.read_inode(1, 0, &mut out) == Err(Halt::Halted)
            && is_front(&out, &[])
    }

    // Whether the act goes as it says.
    fn does(&mut self, act: Act<'_>) -> bool {
        match act {
            Act::Steps(count) => self.steps(count),
            Act::Turn => self.turns(),
            Act::Round(last) => self.goes_round(last),
            Act::Keys(keys) => self.keys(keys),
            Act::Halts(why) => stops(self.event(Event::Step), Some(why)),
            Act::Runs(events, why) => stops(self.runs(events), why),
            Act::Answers(answers) => self.answers(answers),
            Act::Answered(answers) => self.answers_and_leaves(answers),
            Act::Node(number, stat) => self.machine.stat_inode(number) == Ok(stat),
            Act::Reads(number, at, room, bytes) => self.reads(number, at, room, bytes),
            Act::Mute => self.is_mute(),
            _ => self.shows(act),
        }
    }

    // The number of the first act that doesn't go as it says.
    fn first_wrong(&mut self, acts: &[Act<'_>]) -> Option<usize> {
        for (number, act) in acts.iter().enumerate() {
            if !self.does(*act) {
                return Some(number);
            }
        }
        None
    }

    // The disk that it leaves, or why there is none.
    fn saved(self) -> Result<MemDisk, Halt> {
        let Play {
            machine,
            out: _,
            answered: _,
        } = self;
        machine.save()
    }
}

/// It holds what a row of a table says.
pub(crate) fn holds_at(rt: &impl Abort, row: usize, holds: bool) {
    assert!(rt; holds, "row {row}");
}

// All acts of a case go as they say.
// Else prints its name, the number of the act that doesn't, and how many calls returned what they should before it.
fn none_wrong(rt: &impl Abort, name: &str, wrong: Option<usize>, done: usize) {
    if let Some(act) = wrong {
        assert!(rt; false, "{name}: act {act}, after {done} calls");
    }
}

// Boots the program of a case over a translator, and does its acts.
fn played<T: Translate>(rt: &(impl Abort + AllocGlobal), case: Case<'_>, translator: T) -> Play<T> {
    let mut play = Play::boot(rt.alloc(), case, translator).expect(rt, case.name);
    let wrong = play.first_wrong(case.acts);
    none_wrong(rt, case.name, wrong, play.answered);
    play
}

/// The same, and gives the machine up: the disk that it leaves, or why there is none.
pub(crate) fn saved<T: Translate>(
    rt: &(impl Abort + AllocGlobal),
    case: Case<'_>,
    translator: T,
) -> Result<MemDisk, Halt> {
    played(rt, case, translator).saved()
}

// The same, and lets the machine go.
fn run_over<T: Translate>(rt: &(impl Abort + AllocGlobal), case: Case<'_>, translator: T) {
    let _play = played(rt, case, translator);
}

// Whether instructions are fetched in an act.
fn fetches(act: Act<'_>) -> bool {
    match act {
        Act::Steps(_)
        | Act::Turn
        | Act::Round(_)
        | Act::Runs(_, None)
        | Act::Answers(_)
        | Act::Answered(_) => true,
        _ => false,
    }
}

// Over a translator that counts: boot fences, and instructions are fetched where there are steps.
fn run_counted(rt: &(impl Abort + AllocGlobal), case: Case<'_>) {
    let (fetched, fences) = (Cell::new(0), Cell::new(0));
    run_over(rt, case, Counting::new(&fetched, &fences));
    let name = case.name;
    let is_still = !case.acts.iter().any(|act| fetches(*act));
    assert!(rt;
        fences.get() > 0 && (is_still || fetched.get() > 0),
        "{name}: what was counted"
    );
}

// Over each translator.
fn run_over_each(rt: &(impl Abort + AllocGlobal), case: Case<'_>) {
    let alloc = rt.alloc();
    run_over(rt, case, Plain::new());
    run_over(rt, case, Tlb::<64>::new());
    run_over(rt, case, Recent::new(Plain::new()));
    run_over(rt, case, Noting::new(alloc, 0));
    run_over(rt, case, Noting::new(alloc, MOST_PAGES));
    run_counted(rt, case);
}

/// Each of these runs goes as it says, over each translator.
pub(crate) fn run_each(rt: &(impl Abort + AllocGlobal), cases: &[Case<'_>]) {
    for case in cases {
        run_over_each(rt, *case);
    }
}
