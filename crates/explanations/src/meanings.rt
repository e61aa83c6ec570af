//! What each line means.
ghost use Rattle.std.specs.Prelude.{◌≡◌, map, option_map};
ghost use Rattle.explanations.specs.Meanings.{among, meaning_of, of_image, own, row_of, stands};

/// What a command works on: a line means after one command what it need not mean after another.
#[derive(Clone, Copy, Debug, PartialEq, Eq)]
pub enum Topic {
    /// A machine: `flat`, `run`, `live`, `play` and `trace`.
    Machine,
    /// A manifest: `mkfs`.
    Making,
    /// An image: `check`.
    Image,
    /// A path on an image: `ls`, `get` and `put`.
    Files,
    /// An image of the small format: `migrate`.
    Migration,
    /// An assembly text: `asm`.
    Assembly,
    /// A program file: `dump`.
    Program,
}

/// A line, or the beginning of one, and what it means.
type Meaning = (&'static str, &'static str);

/// Lines of every command.
const COMMON: [Meaning; 2] = [
    (
        "no memory",
        "the program itself found no memory: end other programs, or take a smaller image",
    ),
    (
        "cannot write standard output",
        "standard output took not all: is the disk full, or the reader gone?",
    ),
];

/// Lines of commands that run a machine.
const MACHINE: [Meaning; 8] = [
    (
        "running",
        "the script came to its end, and the machine goes on: --report says what each process does",
    ),
    (
        "halt 2 Device",
        "an access of the disk failed; nothing was saved",
    ),
    (
        "halt 3 Console",
        "standard output took not all of the console's bytes: is the disk full, or the reader gone? nothing was saved",
    ),
    ("halt 4 Halted", "the machine had stopped before"),
    ("fault 2 FrameCount", "--frames takes 64 to 32768"),
    (
        "fault 3 Device",
        "an access of the disk failed as the machine booted: --fail N asks for that",
    ),
    (
        "fault 4 NoMemory",
        "the host has no memory for that many frames: take fewer",
    ),
    (
        "fault 5 NoInit",
        "there is no /init on the image, or it is no program (xv6 dump shows), or the frames don't suffice for it",
    ),
];

/// Faults of a manifest.
const MAKING: [Meaning; 7] = [
    (
        "fault 1 Name",
        "a name of the manifest is none: each is of 1 to 14 bytes, and a path begins with /",
    ),
    ("fault 2 Twice", "a path is listed twice in the manifest"),
    (
        "fault 3 Blocks",
        "the files take more blocks than --size gives, which takes up to 131072, or one of them is too long",
    ),
    (
        "fault 4 Inodes",
        "there are more entries than --inodes gives, which takes up to 8192",
    ),
    (
        "fault 5 Parent",
        "an entry is in a directory that no earlier line lists",
    ),
    (
        "fault 6 Numbers",
        "--size takes 32 to 131072 and --inodes 16 to 8192, and the image needs room for them",
    ),
    (
        "fault 7 NoMemory",
        "the host has no memory for the image: take a smaller --size",
    ),
];

/// Faults of an image.
const IMAGE: [Meaning; 13] = [
    (
        "fault 1 Length",
        "the file's length is not the one that its super block says: is it cut off, or no image?",
    ),
    (
        "fault 2 Magic",
        "it is no image of the large format: xv6 migrate OLD NEW makes one of the small format, xv6 mkfs a new one",
    ),
    (
        "fault 3 Numbers",
        "the numbers of the super block don't fit one another",
    ),
    (
        "fault 4 NodeType",
        "an inode has an unknown type, or the root is no directory",
    ),
    (
        "fault 5 Address",
        "an inode names a block that is no data block, or one where its size asks for none",
    ),
    ("fault 6 SharedBlock", "a block is named twice"),
    (
        "fault 7 Bitmap",
        "the bitmap doesn't mark just the blocks that are in use",
    ),
    (
        "fault 8 Size",
        "an inode has a size that its type can't have",
    ),
    (
        "fault 9 Entry",
        "an entry of a directory is wrong: its name, or the inode that it names",
    ),
    (
        "fault 10 Links",
        "an inode's count of links isn't the number of its names",
    ),
    (
        "fault 11 Unreached",
        "an inode in use isn't reached from the root",
    ),
    ("fault 12 Device", "an access of the disk failed"),
    (
        "fault 13 NoMemory",
        "the host has no memory to check the image",
    ),
];

/// Faults of a path on an image.
const FILES: [Meaning; 7] = [
    (
        "fault 1 NotFound",
        "there is nothing of this name on the image: xv6 ls IMAGE / shows what there is",
    ),
    ("fault 2 NotDir", "what has this name is no directory"),
    (
        "fault 3 Exists",
        "what has this name is a device, to which no file is written",
    ),
    ("fault 4 IsDir", "what has this name is a directory"),
    (
        "fault 9 Blocks",
        "the image has no blocks left for that, or the bytes are more than a file can have, 67382272",
    ),
    ("fault 10 Inodes", "the image has no inodes left for that"),
    ("fault 11 Full", "the directory or the file takes no more"),
];

/// Faults of an image that is migrated, which come before those of an image.
const MIGRATION: [Meaning; 3] = [
    (
        "fault 2 Magic",
        "it is no image of the small format: one of the large format is used as it is, and xv6 check looks at it",
    ),
    (
        "fault 2 Blocks",
        "the files take more blocks in the large format than the image has: put fewer on it",
    ),
    (
        "fault 3 NoMemory",
        "the host has no memory for the new image",
    ),
];

/// Faults of a program file.
const PROGRAM: [Meaning; 5] = [
    (
        "fault 1 Magic",
        "the file does not begin as an ELF file: xv6 asm makes one, and docs/PROGRAMS.md says how C is compiled",
    ),
    (
        "fault 2 Sizes",
        "a segment has more bytes in the file than in memory, or ends past the last address",
    ),
    (
        "fault 3 Align",
        "a segment does not begin where a page begins: link with the linker script of examples/c",
    ),
    (
        "fault 4 Overlap",
        "a segment begins before the last page of the one before it ends",
    ),
    (
        "fault 5 Short",
        "the file ends before its headers or segments do: is it cut off?",
    ),
];

/// The fault of an assembly text that is of no line of it.
const ASSEMBLY: [Meaning; 1] = [(
    "line 0: 8 NoMemory",
    "the host has no memory for the program",
)];

/// Beginnings of lines.
const BEGINNINGS: [Meaning; 7] = [
    (
        "halt 1 InitEnded",
        "process 1 ended with that status: -1 of a fault of its own, which --report names, or killed",
    ),
    (
        "cannot read standard input",
        "standard input gave an error, and the session ended",
    ),
    (
        "cannot read",
        "the file cannot be read, or is a text that is no UTF-8",
    ),
    ("cannot write", "the file cannot be written"),
    ("no call", "a name that --calls lists is none of a call"),
    (
        "script line",
        "the line is none of `step N`, `tick N`, `keys HEX` and `type TEXT`; N is up to 1000000000",
    ),
    (
        "manifest line",
        "the line is none of `dir PATH`, `file PATH HOSTFILE` and `dev PATH MAJOR MINOR`",
    ),
];

/// Ends of lines: what is wrong with a line of a play or of an assembly text, or with a name.
const ENDS: [Meaning; 10] = [
    (
        ": no such command",
        "a line of a play begins with step, tick, keys, type, until, every, random or repeat",
    ),
    (
        ": 1 Syntax",
        "a character past ASCII, a string that has no end, or a word that begins with no letter or dot",
    ),
    (": 2 Mnemonic", "there is no such instruction or directive"),
    (
        ": 3 Operand",
        "the operands are not those of the instruction",
    ),
    (
        ": 4 Range",
        "a number or an offset doesn't fit its field, or the program gets too long",
    ),
    (": 5 Label", "no line defines the label"),
    (": 6 Twice", "an earlier line defines the label"),
    (
        ": 7 Align",
        "an instruction has an address that is no multiple of 4 (.pad 4 before it), or an offset is odd",
    ),
    (
        " is named twice",
        "another file that the words name would be lost: give each output a name of its own",
    ),
    (
        " is in use",
        "another command works on the image: try again once it has ended",
    ),
];

/// What a play prints that waited in vain, and what that means.
const IN_VAIN: Meaning = (
    ": not reached in ",
    "the machine didn't come to that in that many steps: --report says what each process does",
);

// Where a text is in the lines that have it.
#[derive(Clone, Copy)]
enum Place {
    Whole,
    Begin,
    End,
    Within,
}

// Whether a line has a text there.
fn stands(text: &str, place: Place, line: &str) -> bool
    ensures { result ≡ stands place text.now line.now }
{
    match place {
        Place::Whole => line == text,
        Place::Begin => line.as_bytes().starts_with(text.as_bytes()),
        Place::End => line.as_bytes().ends_with(text.as_bytes()),
        Place::Within => line.contains(text),
    }
}

// What a line means that has one of these texts there.
fn among(meanings: &[Meaning], place: Place, line: &str) -> Option<&'static str>
    ensures { option_map (λ means. means.now) result ≡ among place line.now (map row_of meanings.now) }
{
    for (text, means) in meanings {
        if stands(text, place, line) {
            return Some(*means);
        }
    }
    None
}

// The lines of a topic alone.
fn own(topic: Topic) -> &'static [Meaning]
    ensures { map row_of result.now ≡ own topic }
{
    match topic {
        Topic::Machine => &MACHINE,
        Topic::Making => &MAKING,
        Topic::Image => &[],
        Topic::Files => &FILES,
        Topic::Migration => &MIGRATION,
        Topic::Assembly => &ASSEMBLY,
        Topic::Program => &PROGRAM,
    }
}

// The lines of a topic that come of an image which is read first.
fn of_image(topic: Topic) -> &'static [Meaning]
    ensures { map row_of result.now ≡ of_image topic }
{
    match topic {
        Topic::Machine | Topic::Image | Topic::Files | Topic::Migration => &IMAGE,
        Topic::Making | Topic::Assembly | Topic::Program => &[],
    }
}

/// What a line means that ends a command on this topic, and what to do.
pub fn meaning(topic: Topic, line: &str) -> Option<&'static str>
    ensures { option_map (λ means. means.now) result ≡ meaning_of topic line.now }
{
    among(own(topic), Place::Whole, line)
        .or(among(of_image(topic), Place::Whole, line))
        .or(among(&COMMON, Place::Whole, line))
        .or(among(&BEGINNINGS, Place::Begin, line))
        .or(among(&ENDS, Place::End, line))
        .or(among(&[IN_VAIN], Place::Within, line))
}
