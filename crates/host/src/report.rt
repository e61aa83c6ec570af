//! What the program reports of how a job ended.
ghost use Rattle.std.specs.Prelude.{◌≡◌};
ghost use Rattle.clap.specs.Values.{kind_of};
ghost use Rattle.host.specs.Reports.{IsPrintStatus, IsRefusalStatus};
ghost use Rattle.host.specs.Reports.{assembly_name, assembly_number, boot_name, boot_number, image_name, image_number};
ghost use Rattle.host.specs.Reports.{make_name, make_number, migrate_name, migrate_number, program_name};
ghost use Rattle.host.specs.Reports.{program_number, status_of, tree_name, tree_number};

use crate::host::Why;
use asm::{AsmFault, AsmKind};
use clap::Error;
use clap::error::ErrorKind;
use elf::ElfFault;
use image::{ImageFault, MakeFault, MigrateFault};
use machine::{BootFault, Halt};
use std::fmt;
use std::io::Write;
use tree::TreeFault;

/// How a run ended.
#[derive(Clone, Copy)]
pub enum End {
    /// The script came to its end.
    Running,
    /// The machine halted.
    Halted(Halt),
}

impl End {
    /// The status to exit with: 0 where the script came to its end or process 1 has ended, else 1.
    pub fn status(&self) -> u8
        ensures { result ≡ status_of self.now }
    {
        match self {
            End::Running | End::Halted(Halt::InitEnded(_)) => 0,
            _ => 1,
        }
    }
}

impl fmt::Display for End {
    fn fmt<W: fmt::Write>(&self, f: &mut fmt::Formatter<W>) -> fmt::Result {
        match self {
            End::Running => f.write_str("running"),
            End::Halted(Halt::InitEnded(status)) => write!(f, "halt 1 InitEnded {status}"),
            End::Halted(Halt::Device) => f.write_str("halt 2 Device"),
            End::Halted(Halt::Console) => f.write_str("halt 3 Console"),
            End::Halted(Halt::Halted) => f.write_str("halt 4 Halted"),
        }
    }
}

/// Why a job was not done.
#[derive(Clone, Copy)]
pub enum Failure<'a> {
    /// The file of this name cannot be read.
    Read(&'a str),
    /// The file of this name cannot be written.
    Write(&'a str),
    /// What is written to this name would be lost, or another file that the words name.
    Twice(&'a str),
    /// Another job holds the file of this name.
    InUse(&'a str),
    /// Standard input cannot be read.
    Input(Why),
    /// The line of this number in the script is no command.
    Script(usize),
    /// The line of this number in the manifest can't be read.
    Manifest(usize),
    /// The machine does not boot.
    Boot(BootFault),
    /// The image is not made.
    Make(MakeFault),
    /// The image does not denote files.
    Image(ImageFault),
    /// The image is not migrated.
    Migrate(MigrateFault),
    /// The path is no directory of the image.
    Tree(TreeFault),
    /// The text is not assembled.
    Assembly(AsmFault),
    /// The file is no program.
    Program(ElfFault),
    /// No call has this name.
    Call(&'a str),
    /// The machine failed.
    Machine,
    /// There are more events, states or runs than can be counted.
    TooMany,
    /// Standard output took not all that was written to it.
    Output,
    /// The program itself found no memory.
    NoMemory,
}

impl fmt::Display for Failure<'_> {
    fn fmt<W: fmt::Write>(&self, f: &mut fmt::Formatter<W>) -> fmt::Result {
        match self {
            Failure::Read(name) => write_name(f, "cannot read ", name),
            Failure::Write(name) => write_name(f, "cannot write ", name),
            Failure::Twice(name) => write!(f, "{name} is named twice"),
            Failure::InUse(name) => write!(f, "{name} is in use"),
            Failure::Input(why) => write_why(f, *why),
            Failure::Script(line) => write_number(f, "script line ", *line),
            Failure::Manifest(line) => write_number(f, "manifest line ", *line),
            Failure::Boot(fault) => write_fault(f, boot_fault(*fault)),
            Failure::Make(fault) => write_fault(f, make_fault(*fault)),
            Failure::Image(fault) => write_fault(f, image_fault(*fault)),
            Failure::Migrate(fault) => write_fault(f, migrate_fault(*fault)),
            Failure::Tree(fault) => write_fault(f, tree_fault(*fault)),
            Failure::Assembly(fault) => write_odd_line(f, *fault),
            Failure::Program(fault) => write_fault(f, program_fault(*fault)),
            Failure::Call(name) => write_name(f, "no call ", name),
            Failure::Machine => f.write_str("the machine failed"),
            Failure::TooMany => f.write_str("there are too many events, states or runs"),
            Failure::Output => f.write_str("cannot write standard output"),
            Failure::NoMemory => f.write_str("no memory"),
        }
    }
}

// The line that ends with a name.
fn write_name<W: fmt::Write>(f: &mut fmt::Formatter<W>, front: &str, name: &str) -> fmt::Result {
    write!(f, "{front}{name}")
}

// That standard input cannot be read, and why.
fn write_why<W: fmt::Write>(f: &mut fmt::Formatter<W>, why: Why) -> fmt::Result {
    f.write_str("cannot read standard input")?;
    match why {
        Why::System(error) => write!(f, ": {error}"),
        Why::NoMemory | Why::Unknown => Ok(()),
    }
}

// The line that ends with the number of a text's line.
fn write_number<W: fmt::Write>(f: &mut fmt::Formatter<W>, front: &str, line: usize) -> fmt::Result {
    write!(f, "{front}{line}")
}

// The line of a text that is not assembled: the number of its line, and of the fault, and the fault's name.
fn write_odd_line<W: fmt::Write>(f: &mut fmt::Formatter<W>, fault: AsmFault) -> fmt::Result {
    let line = fault.line;
    let (number, name) = assembly_fault(fault.kind);
    write!(f, "line {line}: {number} {name}")
}

// The line of a fault: its number and its name.
fn write_fault<W: fmt::Write>(f: &mut fmt::Formatter<W>, fault: (u8, &'static str)) -> fmt::Result {
    let (number, name) = fault;
    write!(f, "fault {number} {name}")
}

// A boot's fault; of an image that is refused the image's own.
fn boot_fault(fault: BootFault) -> (u8, &'static str)
    ensures number { result.0 ≡ boot_number fault }
    ensures name { result.1.now ≡ boot_name fault }
{
    match fault {
        BootFault::Image(fault) => image_fault(fault),
        BootFault::FrameCount => (2, "FrameCount"),
        BootFault::Device => (3, "Device"),
        BootFault::NoMemory => (4, "NoMemory"),
        BootFault::NoInit => (5, "NoInit"),
    }
}

// What is wrong with a manifest.
fn make_fault(fault: MakeFault) -> (u8, &'static str)
    ensures number { result.0 ≡ make_number fault }
    ensures name { result.1.now ≡ make_name fault }
{
    match fault {
        MakeFault::Name => (1, "Name"),
        MakeFault::Twice => (2, "Twice"),
        MakeFault::Blocks => (3, "Blocks"),
        MakeFault::Inodes => (4, "Inodes"),
        MakeFault::Parent => (5, "Parent"),
        MakeFault::Numbers => (6, "Numbers"),
        MakeFault::NoMemory => (7, "NoMemory"),
    }
}

// What is wrong with an image.
fn image_fault(fault: ImageFault) -> (u8, &'static str)
    ensures number { result.0 ≡ image_number fault }
    ensures name { result.1.now ≡ image_name fault }
{
    match fault {
        ImageFault::Length => (1, "Length"),
        ImageFault::Magic => (2, "Magic"),
        ImageFault::Numbers => (3, "Numbers"),
        ImageFault::NodeType => (4, "NodeType"),
        ImageFault::Address => (5, "Address"),
        ImageFault::SharedBlock => (6, "SharedBlock"),
        ImageFault::Bitmap => (7, "Bitmap"),
        ImageFault::Size => (8, "Size"),
        ImageFault::Entry => (9, "Entry"),
        ImageFault::Links => (10, "Links"),
        ImageFault::Unreached => (11, "Unreached"),
        ImageFault::Device => (12, "Device"),
        ImageFault::NoMemory => (13, "NoMemory"),
    }
}

// Why an image is not migrated; of an old one that is refused the image's own fault.
fn migrate_fault(fault: MigrateFault) -> (u8, &'static str)
    ensures number { result.0 ≡ migrate_number fault }
    ensures name { result.1.now ≡ migrate_name fault }
{
    match fault {
        MigrateFault::Image(fault) => image_fault(fault),
        MigrateFault::Blocks => (2, "Blocks"),
        MigrateFault::NoMemory => (3, "NoMemory"),
    }
}

// Why a path is no directory.
fn tree_fault(fault: TreeFault) -> (u8, &'static str)
    ensures number { result.0 ≡ tree_number fault }
    ensures name { result.1.now ≡ tree_name fault }
{
    match fault {
        TreeFault::NotFound => (1, "NotFound"),
        TreeFault::NotDir => (2, "NotDir"),
        TreeFault::Exists => (3, "Exists"),
        TreeFault::IsDir => (4, "IsDir"),
        TreeFault::NotEmpty => (5, "NotEmpty"),
        TreeFault::DotName => (6, "DotName"),
        TreeFault::DeadDir => (7, "DeadDir"),
        TreeFault::Links => (8, "Links"),
        TreeFault::Blocks => (9, "Blocks"),
        TreeFault::Inodes => (10, "Inodes"),
        TreeFault::Full => (11, "Full"),
        TreeFault::Device => (12, "Device"),
    }
}

// What is wrong with a line of an assembly text.
fn assembly_fault(kind: AsmKind) -> (u8, &'static str)
    ensures number { result.0 ≡ assembly_number kind }
    ensures name { result.1.now ≡ assembly_name kind }
{
    match kind {
        AsmKind::Syntax => (1, "Syntax"),
        AsmKind::Mnemonic => (2, "Mnemonic"),
        AsmKind::Operand => (3, "Operand"),
        AsmKind::Range => (4, "Range"),
        AsmKind::Label => (5, "Label"),
        AsmKind::Twice => (6, "Twice"),
        AsmKind::Align => (7, "Align"),
        AsmKind::NoMemory => (8, "NoMemory"),
    }
}

// Why a file is no program.
fn program_fault(fault: ElfFault) -> (u8, &'static str)
    ensures number { result.0 ≡ program_number fault }
    ensures name { result.1.now ≡ program_name fault }
{
    match fault {
        ElfFault::Magic => (1, "Magic"),
        ElfFault::Sizes => (2, "Sizes"),
        ElfFault::Align => (3, "Align"),
        ElfFault::Overlap => (4, "Overlap"),
        ElfFault::Short => (5, "Short"),
    }
}

/// Prints why a job was not done, and returns the status to exit with.
pub fn tell<E: Write>(failure: &Failure<'_>, stderr: &mut E) -> u8
    ensures { result ≡ 1 }
{
    let _ = writeln!(stderr, "{failure}");
    1
}

/// Writes a text to standard output, and flushes that; where it is not taken, a line says so.
/// Returns the status to exit with.
pub fn print<T: fmt::Display, W: Write, E: Write>(text: &T, stdout: &mut W, stderr: &mut E) -> u8
    ensures { IsPrintStatus result }
{
    if write!(stdout, "{text}").is_err() || stdout.flush().is_err() {
        return tell(&Failure::Output, stderr);
    }
    0
}

// Prints an error of this kind.
fn refuse_as<W: Write, E: Write>(
    kind: ErrorKind,
    error: &Error,
    stdout: &mut W,
    stderr: &mut E,
) -> u8
    ensures { IsRefusalStatus kind result }
{
    match kind {
        ErrorKind::OutOfMemory => tell(&Failure::NoMemory, stderr),
        ErrorKind::DisplayHelp | ErrorKind::DisplayVersion => print(error, stdout, stderr),
        _ => {
            let _ = write!(stderr, "{error}");
            2
        }
    }
}

/// Prints why the words are no job, or the help that they ask for, and returns the status.
/// It is 0 for help, 2 for words that are no job, 1 where memory or standard output is wanting.
pub fn refuse<W: Write, E: Write>(error: &Error, stdout: &mut W, stderr: &mut E) -> u8
    ensures { IsRefusalStatus (kind_of error.now) result }
{
    refuse_as(error.kind(), error, stdout, stderr)
}
