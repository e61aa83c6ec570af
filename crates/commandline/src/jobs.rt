//! What the program can do.

use std::num::NonZeroU64;

/// A command, with its words, numbers and flags.
#[derive(Clone, Copy, PartialEq, Eq)]
pub enum Job<'a> {
    /// Boots a flat program and gives it the events of a script.
    Flat(Flat<'a>),
    /// Boots a machine from a disk image and gives it the events of a script.
    Run(Run<'a>),
    /// Boots a machine from a disk image and gives it what is typed.
    Live(Live<'a>),
    /// Boots a machine from a disk image and gives it the events of a play, which waits for what the machine does.
    Play(Play<'a>),
    /// Does as `Run`, and shows what each process does.
    Trace(Trace<'a>),
    /// Boots a machine from a disk image for a debugger at standard input and output.
    Gdb(Gdb<'a>),
    /// Prints what a debugger's own commands have to set before.
    GdbInit,
    /// Boots a machine from a disk image and gives it its events in every order.
    Explore(Explore<'a>),
    /// Makes a disk image.
    Mkfs(Mkfs<'a>),
    /// Checks a disk image.
    Check(Check<'a>),
    /// Lists a directory of a disk image.
    Ls(Ls<'a>),
    /// Reads a file of a disk image.
    Get(Get<'a>),
    /// Writes a file of a disk image.
    Put(Put<'a>),
    /// Makes an image of one of the small format.
    Migrate(Migrate<'a>),
    /// Assembles a text.
    Asm(Asm<'a>),
    /// Assembles texts as they are written for other assemblers.
    As(As<'a>),
    /// Shows the instructions of a program file.
    Dump(Dump<'a>),
}

/// What is reported of a run besides the console's bytes and how it ended.
#[derive(Clone, Copy, PartialEq, Eq)]
pub struct Telling<'a> {
    /// Whether a report is printed: why the machine stopped, each fault, and what each process is.
    pub report: bool,
    /// The name of the file to which the same is written as JSON, where it is.
    pub json: Option<&'a str>,
    /// The pid of the process whose registers are printed, where any are.
    pub registers: Option<NonZeroU64>,
    /// The pid of the process whose pages are printed, where any are.
    pub memory: Option<NonZeroU64>,
    /// Whether the status to exit with is that of process 1.
    pub status: bool,
    /// Whether a terminal shows how many steps are done.
    pub progress: bool,
    /// Whether each fault is printed as it comes.
    pub faults: bool,
    /// The name of the directory that has programs' files with symbols, where there is one.
    pub symbols: Option<&'a str>,
}

/// The words of the command `flat`.
#[derive(Clone, Copy, PartialEq, Eq)]
pub struct Flat<'a> {
    /// How many frames the memory has.
    pub frames: u32,
    /// Whether translations go through a lookaside buffer.
    pub tlb: bool,
    /// What is reported of it.
    pub telling: Telling<'a>,
    /// The name of the program's file.
    pub file: &'a str,
    /// The name of the script's file.
    pub script: &'a str,
}

/// The words of the command `run`.
#[derive(Clone, Copy, PartialEq, Eq)]
pub struct Run<'a> {
    /// How many frames the memory has.
    pub frames: u32,
    /// Whether translations go through a lookaside buffer.
    pub tlb: bool,
    /// The number of the disk's access that fails, counted from 1, where one is to fail.
    pub fail: Option<NonZeroU64>,
    /// The name of the file to which the saved image is written, where it is to be saved.
    pub save: Option<&'a str>,
    /// What is reported of it.
    pub telling: Telling<'a>,
    /// The name of the image's file.
    pub image: &'a str,
    /// The name of the script's file.
    pub script: &'a str,
}

/// The words of the command `play`.
#[derive(Clone, Copy, PartialEq, Eq)]
pub struct Play<'a> {
    /// The words that it shares with `run`. Its script is the play.
    pub run: Run<'a>,
    /// The name of the file to which the script is written that gives a machine the same events, where one is.
    pub script: Option<&'a str>,
}

/// Which of its events a trace shows.
#[derive(Clone, Copy, PartialEq, Eq)]
pub struct Part<'a> {
    /// The pid of the only process, where there is one.
    pub pid: Option<NonZeroU64>,
    /// The names of the only calls with commas between them, where there are any.
    pub calls: Option<&'a str>,
    /// The number of the first event, counted from 1; where there is none, the first of all.
    pub from: Option<NonZeroU64>,
    /// The number of the last event; where there is none, the last of all.
    pub to: Option<NonZeroU64>,
}

/// How the lines of a trace are written.
#[derive(Clone, Copy, PartialEq, Eq)]
pub struct Lines {
    /// How many bytes are shown of a buffer.
    pub bytes: u32,
    /// Whether equal calls that follow each other are shown one by one.
    pub each: bool,
    /// Whether a line begins with the number of its event.
    pub time: bool,
    /// Whether it is shown which process gets the hart.
    pub turns: bool,
    /// Whether a log of commits has the pid where it has the number of the core.
    pub core_is_pid: bool,
}

/// The words of the command `trace`.
#[derive(Clone, Copy, PartialEq, Eq)]
pub struct Trace<'a> {
    /// The words that it shares with `run`.
    pub run: Run<'a>,
    /// Whether its script is a play.
    pub play: bool,
    /// Which events are shown.
    pub part: Part<'a>,
    /// How the lines are written.
    pub lines: Lines,
    /// The name of the file to which the lines are written, where it isn't standard error.
    pub text: Option<&'a str>,
    /// The name of the file to which Chrome's trace events are written, where they are.
    pub perfetto: Option<&'a str>,
    /// The name of the file to which a log of commits is written, where one is.
    pub commits: Option<&'a str>,
    /// The name of the file to which a line of JSON is written for each event, where they are.
    pub jsonl: Option<&'a str>,
}

/// The words of the command `gdb`.
#[derive(Clone, Copy, PartialEq, Eq)]
pub struct Gdb<'a> {
    /// How many frames the memory has.
    pub frames: u32,
    /// How many megabytes the copies of the machine take at most, from which it goes back.
    pub memory: u32,
    /// The name of the file to which the script is written that has what was typed, where one is.
    pub recorded: Option<&'a str>,
    /// The name of the directory that has programs' files with symbols, where there is one.
    pub symbols: Option<&'a str>,
    /// The name of the image's file.
    pub image: &'a str,
    /// The name of the script's file, where there is one.
    pub script: Option<&'a str>,
}

/// How far an exploration goes.
#[derive(Clone, Copy, PartialEq, Eq)]
pub struct Reach {
    /// How many timer interrupts come at most while a process runs, where that is bounded.
    pub ticks: Option<u32>,
    /// How many states are looked at, at most.
    pub states: u32,
    /// How many seconds it takes at most, where that is bounded.
    pub seconds: Option<NonZeroU64>,
    /// Whether a timer interrupt is tried before every instruction.
    pub fine: bool,
    /// How many runs with drawn interrupts follow where a bound was met, where any do.
    pub random: Option<NonZeroU64>,
    /// What they are drawn by.
    pub seed: u32,
}

/// The words of the command `explore`.
#[derive(Clone, Copy, PartialEq, Eq)]
pub struct Explore<'a> {
    /// How many frames the memory has.
    pub frames: u32,
    /// How far it goes.
    pub reach: Reach,
    /// The name of the directory to which the scripts are written, where they are.
    pub scripts: Option<&'a str>,
    /// The name of the file that has the bytes that are wanted on the console, where any are.
    pub want: Option<&'a str>,
    /// The status with which process 1 is to end, where one is wanted.
    pub status: Option<i32>,
    /// The name of the image's file.
    pub image: &'a str,
    /// The name of the file of the script that has what is typed, where anything is.
    pub script: Option<&'a str>,
}

/// The words of the command `mkfs`.
#[derive(Clone, Copy, PartialEq, Eq)]
pub struct Mkfs<'a> {
    /// How many blocks of 1024 bytes the image has.
    pub size: u32,
    /// How many inodes it has.
    pub inodes: u32,
    /// The name of the manifest's file.
    pub manifest: &'a str,
    /// The name of the image's file, which is written.
    pub image: &'a str,
}

/// The word of the command `check`.
#[derive(Clone, Copy, PartialEq, Eq)]
pub struct Check<'a> {
    /// The name of the image's file.
    pub image: &'a str,
}

/// The words of the command `ls`.
#[derive(Clone, Copy, PartialEq, Eq)]
pub struct Ls<'a> {
    /// Whether the directories below are listed, too.
    pub recursive: bool,
    /// The name of the image's file.
    pub image: &'a str,
    /// The path of the directory, from the root.
    pub path: &'a str,
}

/// The words of the command `get`.
#[derive(Clone, Copy, PartialEq, Eq)]
pub struct Get<'a> {
    /// The name of the image's file.
    pub image: &'a str,
    /// The path of the file, from the root.
    pub path: &'a str,
    /// The name of the file to which its bytes are written, where it isn't standard output.
    pub out: Option<&'a str>,
}

/// The words of the command `put`.
#[derive(Clone, Copy, PartialEq, Eq)]
pub struct Put<'a> {
    /// The name of the image's file, which is written.
    pub image: &'a str,
    /// The path of the file, from the root.
    pub path: &'a str,
    /// The name of the file of the host that has its bytes.
    pub file: &'a str,
}

/// The words of the command `migrate`.
#[derive(Clone, Copy, PartialEq, Eq)]
pub struct Migrate<'a> {
    /// The name of the old image's file.
    pub old: &'a str,
    /// The name of the new image's file, which is written.
    pub new: &'a str,
}

/// The words of the command `asm`.
#[derive(Clone, Copy, PartialEq, Eq)]
pub struct Asm<'a> {
    /// The name of the text's file.
    pub text: &'a str,
    /// The name of the program's file, which is written.
    pub elf: &'a str,
}

/// The names of one to eight files.
#[derive(Clone, Copy, PartialEq, Eq)]
pub struct Files<'a> {
    pub first: &'a str,
    pub second: Option<&'a str>,
    pub third: Option<&'a str>,
    pub fourth: Option<&'a str>,
    pub fifth: Option<&'a str>,
    pub sixth: Option<&'a str>,
    pub seventh: Option<&'a str>,
    pub eighth: Option<&'a str>,
}

/// The words of the command `as`.
#[derive(Clone, Copy, PartialEq, Eq)]
pub struct As<'a> {
    /// The names of the texts' files.
    pub texts: Files<'a>,
    /// The name of the program's file, where it isn't the first text's without its end.
    pub out: Option<&'a str>,
    /// Whether the text in the language of `asm` is printed, and no file written.
    pub expand: bool,
    /// Whether the file has the labels and the lines of the texts.
    pub debug: bool,
    /// Whether directives that have no effect are reported.
    pub verbose: bool,
}

/// The words of the command `dump`.
#[derive(Clone, Copy, PartialEq, Eq)]
pub struct Dump<'a> {
    /// Whether addresses are named by the file's symbols and line numbers.
    pub names: bool,
    /// The name of the program's file.
    pub elf: &'a str,
}

/// The words of the command `live`.
#[derive(Clone, Copy, PartialEq, Eq)]
pub struct Live<'a> {
    /// How many frames the memory has.
    pub frames: u32,
    /// How many steps there are between two ticks while a process is ready, where the words say.
    pub quantum: Option<NonZeroU64>,
    /// The name of the file to which the script of the session is written, where one is.
    pub script: Option<&'a str>,
    /// The name of the file to which the saved image is written, where it is to be saved.
    pub save: Option<&'a str>,
    /// Whether standard input is a terminal, on which a read of nothing means that no key came for a while.
    pub terminal: bool,
    /// Whether a typed line is edited at the terminal before the machine gets its keys.
    pub edit: bool,
    /// The name of the directory that has programs' files with symbols, where there is one.
    pub symbols: Option<&'a str>,
    /// The name of the image's file.
    pub image: &'a str,
}
