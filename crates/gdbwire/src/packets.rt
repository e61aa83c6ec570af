//! Packets: what gdb asks.
ghost use Rattle.std.specs.Prelude.{◌≡◌, ◌<◌, map, option_map};
ghost use Rattle.gdbwire.specs.Packets.{cut, file_part_of, head_among, id_of, packet_for, packet_of, part_of, point_of};
ghost use Rattle.gdbwire.specs.Packets.{program_part_of, thread_of};
ghost use Rattle.gdbwire.specs.declared.packets.Packet.TheVariants as packet;

use crate::hex::number;

/// A process or a thread.
#[derive(Clone, Copy, PartialEq, Eq)]
pub enum Id {
    /// `-1`: all of them.
    All,
    /// The one with this number; 0 is any.
    One(u64),
}

/// A thread of a process: `pPROCESS.THREAD`.
#[derive(Clone, Copy, PartialEq, Eq)]
pub struct Thread {
    pub process: Id,
    pub thread: Id,
}

/// `count` bytes, from an offset or an address on.
#[derive(Clone, Copy, PartialEq, Eq)]
pub struct Part {
    pub from: u64,
    pub count: u64,
}

/// Words that are a packet.
#[derive(Clone, Copy, PartialEq, Eq)]
pub enum Word {
    /// `QStartNoAckMode`: frames are no longer acknowledged.
    StartNoAcks,
    /// `!`: the other end stays where a program has ended.
    Extend,
    /// `?`: why the program stopped.
    LastStop,
    /// `qfThreadInfo`: the threads.
    FirstThreads,
    /// `qsThreadInfo`: the threads that were not listed yet.
    MoreThreads,
    /// `qC`: the thread that runs.
    CurrentThread,
    /// `qAttached`: whether the program was there before.
    IsAttached,
    /// `g`: the registers.
    Registers,
    /// `vCont?`: in which ways a program goes on.
    ResumeKinds,
    /// `bs`: one step back.
    StepBack,
    /// `bc`: back to the last stop.
    ContinueBack,
    /// `k`: ends the debugger.
    Kill,
    /// `qHostInfo`: the architecture.
    HostInfo,
    /// `qProcessInfo`: the architecture, and the process.
    ProcessInfo,
}

/// Words that a number follows.
#[derive(Clone, Copy, PartialEq, Eq)]
pub enum Numbered {
    /// `vFile:setfs:`: files are those that a process sees; of 0 those of the debugger.
    FileSystem,
    /// `vFile:fstat:`: the size of an open file.
    FileStatus,
    /// `vFile:close:`: an open file is closed.
    CloseFile,
    /// `p`: a register.
    Register,
    /// `D;`: a process is let go.
    Detach,
    /// `vKill;`: a process is ended.
    KillProcess,
    /// `qAttached:`: whether a process was there before.
    IsAttachedTo,
}

/// Words that a thread follows.
#[derive(Clone, Copy, PartialEq, Eq)]
pub enum Threaded {
    /// `qThreadExtraInfo,`: a thread's description.
    Words,
    /// `T`: whether a thread is there.
    IsAlive,
    /// `Hg`: whose registers, memory and breaks are meant.
    Looks,
    /// `Hc`: whose steps are meant.
    Steps,
}

/// Words that a part follows.
#[derive(Clone, Copy, PartialEq, Eq)]
pub enum Parted {
    /// `m`: of the memory.
    Memory,
    /// `qXfer:features:read:target.xml:`: of the description of the registers.
    Description,
}

/// Words that text follows.
#[derive(Clone, Copy, PartialEq, Eq)]
pub enum Texted {
    /// `qSupported:`: what the other end knows.
    Supported,
    /// `qRcmd,`: a command for the debugger, as digits.
    Command,
    /// `vCont;`: what goes on, and how.
    Resume,
    /// `vRun;`: a program begins again.
    Run,
    /// `vFile:open:`: a file's path, as digits, and how it is opened.
    OpenFile,
    /// `M`: bytes for the memory, as digits.
    WriteMemory,
    /// `X`: bytes for the memory.
    WriteBytes,
    /// `G`: the registers, as digits.
    WriteRegisters,
    /// `P`: a register, as digits.
    WriteRegister,
}

/// At what a program stops.
#[derive(Clone, Copy, PartialEq, Eq)]
pub enum Point {
    /// An instruction at which there is a break.
    Break,
    /// An instruction that the hart looks out for.
    HardwareBreak,
    /// A write.
    Write,
    /// A read.
    Read,
    /// A read or a write.
    Access,
}

/// The word of a packet.
#[derive(Clone, Copy)]
pub(crate) enum Head {
    Word(Word),
    Numbered(Numbered),
    Threaded(Threaded),
    Parted(Parted),
    Texted(Texted),
    ProgramPath,
    ReadFile,
    Set(Point),
    Clear(Point),
}

/// What gdb asks. Text is the end of the body, so that only its length is given here.
#[derive(Clone, Copy, PartialEq, Eq)]
pub enum Packet {
    /// A word alone.
    Word(Word),
    /// A word, and a number.
    Numbered(Numbered, u64),
    /// A word, and a thread.
    Threaded(Threaded, Thread),
    /// A word, and a part.
    Parted(Parted, Part),
    /// A word, and text.
    Texted(Texted, usize),
    /// `qXfer:exec-file:read:`: a part of the path of the program of a process.
    ProgramPath(u64, Part),
    /// `vFile:pread:`: a part of an open file.
    ReadFile(u64, Part),
    /// `Z`: the program stops there; conditions are text.
    Set(Point, Part, usize),
    /// `z`: it stops there no more.
    Clear(Point, Part, usize),
}

// The words, each with its head; one that begins with another comes before it.
const HEADS: [(&[u8], Head); 48] = [
    (b"QStartNoAckMode", Head::Word(Word::StartNoAcks)),
    (b"!", Head::Word(Word::Extend)),
    (b"?", Head::Word(Word::LastStop)),
    (b"qfThreadInfo", Head::Word(Word::FirstThreads)),
    (b"qsThreadInfo", Head::Word(Word::MoreThreads)),
    (b"qC", Head::Word(Word::CurrentThread)),
    (b"qAttached:", Head::Numbered(Numbered::IsAttachedTo)),
    (b"qAttached", Head::Word(Word::IsAttached)),
    (b"g", Head::Word(Word::Registers)),
    (b"vCont?", Head::Word(Word::ResumeKinds)),
    (b"bs", Head::Word(Word::StepBack)),
    (b"bc", Head::Word(Word::ContinueBack)),
    (b"k", Head::Word(Word::Kill)),
    (b"qHostInfo", Head::Word(Word::HostInfo)),
    (b"qProcessInfo", Head::Word(Word::ProcessInfo)),
    (b"vFile:setfs:", Head::Numbered(Numbered::FileSystem)),
    (b"vFile:fstat:", Head::Numbered(Numbered::FileStatus)),
    (b"vFile:close:", Head::Numbered(Numbered::CloseFile)),
    (b"p", Head::Numbered(Numbered::Register)),
    (b"D;", Head::Numbered(Numbered::Detach)),
    (b"vKill;", Head::Numbered(Numbered::KillProcess)),
    (b"qThreadExtraInfo,", Head::Threaded(Threaded::Words)),
    (b"T", Head::Threaded(Threaded::IsAlive)),
    (b"Hg", Head::Threaded(Threaded::Looks)),
    (b"Hc", Head::Threaded(Threaded::Steps)),
    (b"m", Head::Parted(Parted::Memory)),
    (
        b"qXfer:features:read:target.xml:",
        Head::Parted(Parted::Description),
    ),
    (b"qSupported:", Head::Texted(Texted::Supported)),
    (b"qRcmd,", Head::Texted(Texted::Command)),
    (b"vCont;", Head::Texted(Texted::Resume)),
    (b"vRun;", Head::Texted(Texted::Run)),
    (b"vFile:open:", Head::Texted(Texted::OpenFile)),
    (b"M", Head::Texted(Texted::WriteMemory)),
    (b"X", Head::Texted(Texted::WriteBytes)),
    (b"G", Head::Texted(Texted::WriteRegisters)),
    (b"P", Head::Texted(Texted::WriteRegister)),
    (b"qXfer:exec-file:read:", Head::ProgramPath),
    (b"vFile:pread:", Head::ReadFile),
    (b"Z0,", Head::Set(Point::Break)),
    (b"Z1,", Head::Set(Point::HardwareBreak)),
    (b"Z2,", Head::Set(Point::Write)),
    (b"Z3,", Head::Set(Point::Read)),
    (b"Z4,", Head::Set(Point::Access)),
    (b"z0,", Head::Clear(Point::Break)),
    (b"z1,", Head::Clear(Point::HardwareBreak)),
    (b"z2,", Head::Clear(Point::Write)),
    (b"z3,", Head::Clear(Point::Read)),
    (b"z4,", Head::Clear(Point::Access)),
];

/// What comes before the first byte `at`, and after it; `None` where there is no such byte.
pub fn cut(at: u8, text: &[u8]) -> Option<(&[u8], &[u8])>
    ensures { option_map (λ two. (two.0.now, two.1.now)) result ≡ cut at text.now }
{
    for (index, byte) in text.iter().enumerate() {
        if *byte == at {
            return Some((&text[..index], &text[index + 1..]));
        }
    }
    None
}

// A process or a thread.
#[tactic(auto, unfolding(crate::specs::Packets::id_of))]
fn id_in(text: &[u8]) -> Option<Id>
    ensures { result ≡ id_of text.now }
{
    if text == b"-1".as_slice() {
        return Some(Id::All);
    }
    Some(Id::One(number(text)?))
}

/// The thread that a text names; of a process alone all threads are meant, and of a thread alone any process.
#[tactic(auto, unfolding(crate::specs::Packets::thread_of))]
pub fn thread_in(text: &[u8]) -> Option<Thread>
    ensures { result ≡ thread_of text.now }
{
    let Some(rest) = text.strip_prefix(b"p") else {
        let thread = id_in(text)?;
        return Some(Thread {
            process: Id::One(0),
            thread,
        });
    };
    let Some((process, thread)) = cut(b'.', rest) else {
        let process = id_in(rest)?;
        return Some(Thread {
            process,
            thread: Id::All,
        });
    };
    let process = id_in(process)?;
    let thread = id_in(thread)?;
    Some(Thread { process, thread })
}

// `count` bytes, from an offset on.
#[tactic(auto, unfolding(crate::specs::Packets::part_of))]
fn part_in(text: &[u8]) -> Option<Part>
    ensures { result ≡ part_of text.now }
{
    let (from, count) = cut(b',', text)?;
    let from = number(from)?;
    let count = number(count)?;
    Some(Part { from, count })
}

// A process, and a part of the path of its program.
#[tactic(auto, unfolding(crate::specs::Packets::program_part_of))]
fn program_part(text: &[u8]) -> Option<(u64, Part)>
    ensures { result ≡ program_part_of text.now }
{
    let (pid, rest) = cut(b':', text)?;
    let pid = number(pid)?;
    let part = part_in(rest)?;
    Some((pid, part))
}

// An open file, and a part of it, of which the count comes first.
#[tactic(auto, unfolding(crate::specs::Packets::file_part_of))]
fn file_part(text: &[u8]) -> Option<(u64, Part)>
    ensures { result ≡ file_part_of text.now }
{
    let (file, rest) = cut(b',', text)?;
    let file = number(file)?;
    let Part { from, count } = part_in(rest)?;
    Some((
        file,
        Part {
            from: count,
            count: from,
        },
    ))
}

// At which addresses a program stops, and how many bytes its conditions have.
#[tactic(auto, unfolding(crate::specs::Packets::point_of))]
fn point_in(text: &[u8]) -> Option<(Part, usize)>
    ensures { result ≡ point_of text.now }
{
    let Some((place, conditions)) = cut(b';', text) else {
        let part = part_in(text)?;
        return Some((part, 0));
    };
    let part = part_in(place)?;
    Some((part, conditions.len()))
}

// The first of some heads whose word a body begins with, and what follows the word.
fn among<'a>(heads: &[(&[u8], Head)], body: &'a [u8]) -> Option<(Head, &'a [u8])>
    ensures { option_map (λ two. (two.0, two.1.now)) result
        ≡ head_among (map (λ row. (row.0.now, row.1)) heads.now) body.now }
{
    for (word, head) in heads {
        if body.starts_with(*word) {
            return Some((*head, &body[word.len()..]));
        }
    }
    None
}

// The packet with a head, and what follows its word.
fn packet_with(head: Head, rest: &[u8]) -> Option<Packet>
    ensures { result ≡ packet_for head rest.now }
{
    match head {
        Head::Word(word) if rest.is_empty() => Some(Packet::Word(word)),
        Head::Word(_) => None,
        Head::Numbered(kind) => Some(Packet::Numbered(kind, number(rest)?)),
        Head::Threaded(kind) => Some(Packet::Threaded(kind, thread_in(rest)?)),
        Head::Parted(kind) => Some(Packet::Parted(kind, part_in(rest)?)),
        Head::Texted(kind) => Some(Packet::Texted(kind, rest.len())),
        Head::ProgramPath => {
            let (pid, part) = program_part(rest)?;
            Some(Packet::ProgramPath(pid, part))
        }
        Head::ReadFile => {
            let (file, part) = file_part(rest)?;
            Some(Packet::ReadFile(file, part))
        }
        Head::Set(kind) => {
            let (part, conditions) = point_in(rest)?;
            Some(Packet::Set(kind, part, conditions))
        }
        Head::Clear(kind) => {
            let (part, conditions) = point_in(rest)?;
            Some(Packet::Clear(kind, part, conditions))
        }
    }
}

/// The packet that a body is; `None` where its word is not known, or what follows is not what the word asks for.
#[tactic(auto, unfolding(crate::specs::Packets::packet_of))]
pub fn parse(body: &[u8]) -> Option<Packet>
    ensures { result ≡ packet_of body.now }
{
    let (head, rest) = among(&HEADS, body)?;
    packet_with(head, rest)
}
