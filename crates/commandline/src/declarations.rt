//! The commands, and the words that they take.

pub(crate) const EXAMPLE: &str = "\
Example: hello.bin is a program of RV64IM instructions, loaded at address 0, and hello.txt says
what happens to the machine, one command a line:

    step 1000       1000 instructions or turns
    tick 1          a timer interrupt
    type ls         the keys l, s and return
    keys 7f04       keys by their codes

xv6 flat --frames 128 hello.bin hello.txt

The console's bytes go to standard output. At the end standard error has `running`, or how the
machine came to a halt, as `halt 1 InitEnded 0`.

A disk image is made of what a manifest lists, one entry a line, a directory before what is in it:

    dir /bin
    file /bin/hello hello.bin
    dev /console 1 0

xv6 mkfs --size 64 --inodes 16 manifest.txt disk.img
xv6 check disk.img
xv6 ls disk.img /bin

The second prints `ok 4 inodes 3 blocks`: what is in use. The third prints a line for each entry:
its name, its type (1 a directory, 2 a file, 3 a device), its inode and its size.

An image of the small format, which has files of up to 274432 bytes, is refused as `fault 2 Magic`.
One of the large format, with the same files, is made of it, and told as `check` tells it:

xv6 migrate old.img new.img

A machine boots from an image that has a program /init, and leaves another:

xv6 run --save after.img disk.img script.txt

It can be shown a disk of which an access fails, here the 50th: `halt 2 Device` is the answer, or
`fault 3 Device` where the machine meets it as it boots, and nothing is saved:

xv6 run --fail 50 disk.img script.txt

One types at it in a session, here what standard input has; a record of that is a script:

echo ls | xv6 live --record record.txt disk.img
xv6 run disk.img record.txt

What a run does is shown call by call, and what the machine is at its end:

xv6 trace disk.img script.txt
xv6 run --report disk.img script.txt

A long run tells on a terminal how far it is:

xv6 run --progress disk.img script.txt

A race shows in one order of events of thousands; each order of calls is tried, and the outcomes are printed:

xv6 explore disk.img

A play waits for the shell's prompt, for a text, and for idle and quiet machines, where a script counts steps:

    until prompt 10000000
    type ls
    until prompt 10000000

xv6 play disk.img play.txt

Files of an image are read and written by name:

xv6 get disk.img /README readme.txt
xv6 put disk.img /hello hello.bin

With --explain a command says more of what is wrong, in a line behind the usual one.

Programs are written as assembly texts:

    start:  li a7, 11       # getpid
            ecall
            j start

xv6 asm start.s start
xv6 dump start

Texts for other assemblers, as GNU as, RARS and Venus, go to another command:

xv6 as hello.s

`xv6 dump start` prints a line for each word, the first `00000000: 000008b7 lui a7, 0x0`.";

// How a word of a command is given.
#[derive(Clone, Copy)]
pub(crate) enum Given<'a> {
    // It has to be there.
    Bare,
    // It may be left out.
    Last,
    // As an option with a number, of this default.
    Number(&'a str),
    // As an option with a number from 1 on, that may be left out; help calls it so.
    Count(&'a str),
    // As an option with a number from 2 on, that may be left out; help calls it so.
    Several(&'a str),
    // As an option with a number, that may be left out; help calls it so.
    Amount(&'a str),
    // As an option with a number of 32 bits with a sign, that may be left out; help calls it so.
    Signed(&'a str),
    // As an option that may be left out; help calls its value so.
    Option(&'a str),
    // As an option that has a letter, too; help calls its value OUT.
    Short(char),
    // Once to eight times.
    Each,
    // As a flag, which is left out or given once.
    Flag,
    // As a flag that has a letter, too.
    Letter(char),
}

// A word of a command.
#[derive(Clone, Copy)]
pub(crate) struct Word<'a> {
    pub(crate) name: &'a str,
    pub(crate) given: Given<'a>,
    pub(crate) help: &'a str,
}

// A command, and the words that it takes.
#[derive(Clone, Copy)]
pub(crate) struct Declared<'a> {
    pub(crate) name: &'a str,
    pub(crate) about: &'a str,
    // What help ends with.
    pub(crate) example: &'a str,
    pub(crate) words: &'a [Word<'a>],
}

const FRAMES: Word<'static> = Word {
    name: "frames",
    given: Given::Number("256"),
    help: "Frames of 4096 bytes, 64 to 32768",
};

const TLB: Word<'static> = Word {
    name: "tlb",
    given: Given::Flag,
    help: "Translates through a lookaside buffer of 64 translations, as a hart does; what is printed is the same",
};

const FAIL: Word<'static> = Word {
    name: "fail",
    given: Given::Count("N"),
    help: "Lets the N-th access of the disk fail, 1 to 4294967295, to see what the machine does then",
};

const SAVE: Word<'static> = Word {
    name: "save",
    given: Given::Option("OUT"),
    help: "Where the image is written that the machine leaves, without its processes",
};

const REPORT: Word<'static> = Word {
    name: "report",
    given: Given::Flag,
    help: "Prints at the end why the machine stopped, each fault, and what each process is",
};

const JSON: Word<'static> = Word {
    name: "json",
    given: Given::Option("FILE"),
    help: "Where the same is written as JSON, for programs",
};

const REGISTERS: Word<'static> = Word {
    name: "registers",
    given: Given::Count("PID"),
    help: "Prints at the end the registers of the process with this pid",
};

const MEMORY: Word<'static> = Word {
    name: "memory",
    given: Given::Count("PID"),
    help: "Prints at the end the pages of the process with this pid, with their marks",
};

const STATUS: Word<'static> = Word {
    name: "status",
    given: Given::Flag,
    help: "Exits with the low eight bits of process 1's status, where it has ended",
};

const PROGRESS: Word<'static> = Word {
    name: "progress",
    given: Given::Flag,
    help: "Shows on a terminal how many steps are done; `live` and `play` do so by themselves",
};

const FAULTS: Word<'static> = Word {
    name: "faults",
    given: Given::Flag,
    help: "Prints on standard error each fault of a process as it comes",
};

const SYMBOLS: Word<'static> = Word {
    name: "symbols",
    given: Given::Option("DIR"),
    help: "Takes names for addresses of /NAME from DIR/NAME.elf, where that is there, in place of the image's file",
};

const EXPLAIN: Word<'static> = Word {
    name: "explain",
    given: Given::Flag,
    help: "Says more of what is wrong, in a line after the usual one",
};

const SCRIPT: Word<'static> = Word {
    name: "SCRIPT",
    given: Given::Bare,
    help: "What happens: lines `step N`, `tick N`, `keys HEX` and `type TEXT`",
};

const BOOTED: Word<'static> = Word {
    name: "IMAGE",
    given: Given::Bare,
    help: "The image, which has a program /init",
};

const IMAGE: Word<'static> = Word {
    name: "IMAGE",
    given: Given::Bare,
    help: "The image",
};

const PROGRAM_FILE: Word<'static> = Word {
    name: "ELF",
    given: Given::Bare,
    help: "The program's file",
};

const FLAT: [Word<'static>; 12] = [
    FRAMES,
    TLB,
    REPORT,
    JSON,
    REGISTERS,
    MEMORY,
    STATUS,
    PROGRESS,
    FAULTS,
    EXPLAIN,
    Word {
        name: "FILE",
        given: Given::Bare,
        help: "The program: instructions and bytes, from address 0 on",
    },
    SCRIPT,
];

const RUN: [Word<'static>; 15] = [
    FRAMES, TLB, FAIL, SAVE, REPORT, JSON, REGISTERS, MEMORY, STATUS, PROGRESS, FAULTS, SYMBOLS,
    EXPLAIN, BOOTED, SCRIPT,
];

const TRACE: [Word<'static>; 28] = [
    FRAMES,
    TLB,
    FAIL,
    SAVE,
    REPORT,
    JSON,
    REGISTERS,
    MEMORY,
    STATUS,
    PROGRESS,
    SYMBOLS,
    EXPLAIN,
    Word {
        name: "pid",
        given: Given::Count("PID"),
        help: "Shows the process with this pid alone",
    },
    Word {
        name: "calls",
        given: Given::Option("NAMES"),
        help: "Shows these calls alone, as `read,write`",
    },
    Word {
        name: "from",
        given: Given::Count("N"),
        help: "Shows nothing before the N-th event, counted from 1",
    },
    Word {
        name: "to",
        given: Given::Count("N"),
        help: "Shows nothing after the N-th event",
    },
    Word {
        name: "bytes",
        given: Given::Number("32"),
        help: "Bytes that are shown of a buffer",
    },
    Word {
        name: "each",
        given: Given::Flag,
        help: "Shows equal calls that follow each other one by one",
    },
    Word {
        name: "time",
        given: Given::Flag,
        help: "Begins each line with the number of its event",
    },
    Word {
        name: "turns",
        given: Given::Flag,
        help: "Shows which process gets the hart",
    },
    Word {
        name: "text",
        given: Given::Option("FILE"),
        help: "Where the lines are written, in place of standard error",
    },
    Word {
        name: "perfetto",
        given: Given::Option("FILE"),
        help: "Where the same is written as Chrome's trace events, for ui.perfetto.dev",
    },
    Word {
        name: "commits",
        given: Given::Option("FILE"),
        help: "Where a line is written for each instruction, as Spike's log of commits",
    },
    Word {
        name: "core-is-pid",
        given: Given::Flag,
        help: "Has the pid where a log of commits has the number of the core",
    },
    Word {
        name: "jsonl",
        given: Given::Option("FILE"),
        help: "Where a line of JSON is written for each call, wait, fault and end, for programs",
    },
    Word {
        name: "play",
        given: Given::Flag,
        help: "Takes SCRIPT as a play, with `until`, `every`, `repeat` and `random`, too",
    },
    BOOTED,
    SCRIPT,
];

const PLAY: [Word<'static>; 16] = [
    FRAMES,
    TLB,
    FAIL,
    SAVE,
    REPORT,
    JSON,
    REGISTERS,
    MEMORY,
    STATUS,
    PROGRESS,
    FAULTS,
    SYMBOLS,
    EXPLAIN,
    Word {
        name: "script",
        given: Given::Option("OUT"),
        help: "Where the script is written, line by line, that gives a machine the same events",
    },
    BOOTED,
    Word {
        name: "PLAY",
        given: Given::Bare,
        help: "What happens: a script's lines, and `until`, `every`, `repeat` and `random`",
    },
];

const GDB: [Word<'static>; 8] = [
    FRAMES,
    Word {
        name: "memory",
        given: Given::Number("1024"),
        help: "Megabytes that copies of the machine take at most, by which one goes back faster",
    },
    Word {
        name: "record",
        given: Given::Option("OUT"),
        help: "Where the script is written at the end that gives a machine the same events, with what was typed",
    },
    Word {
        name: "init",
        given: Given::Flag,
        help: "Prints the lines that gdb needs before, for a course's .gdbinit, and does no more",
    },
    SYMBOLS,
    EXPLAIN,
    Word {
        name: "IMAGE",
        given: Given::Last,
        help: "The image, which has a program /init",
    },
    Word {
        name: "SCRIPT",
        given: Given::Last,
        help: "What happens, as `run` takes it: a million steps, if left out",
    },
];

const EXPLORE: [Word<'static>; 13] = [
    FRAMES,
    Word {
        name: "ticks",
        given: Given::Amount("K"),
        help: "Tries at most K timer interrupts while a process runs; any number of them, if left out",
    },
    Word {
        name: "states",
        given: Given::Number("1000000"),
        help: "Looks at N states at most",
    },
    Word {
        name: "seconds",
        given: Given::Count("S"),
        help: "Takes S seconds at most",
    },
    Word {
        name: "fine",
        given: Given::Flag,
        help: "Tries a timer interrupt before every instruction, not before calls and faults alone: the outcomes are the same",
    },
    Word {
        name: "scripts",
        given: Given::Option("DIR"),
        help: "Writes the script of each outcome, DIR/1.script and so on, for `run`, `trace` and `gdb`",
    },
    Word {
        name: "want",
        given: Given::Option("FILE"),
        help: "Wants the bytes of FILE on the console, and stops at the first outcome that differs",
    },
    Word {
        name: "status",
        given: Given::Signed("N"),
        help: "Wants process 1 to end with status N (--status=-1), and stops at the first that differs",
    },
    Word {
        name: "random",
        given: Given::Count("N"),
        help: "Where a bound was met, goes on with N runs whose timer interrupts are drawn",
    },
    Word {
        name: "seed",
        given: Given::Number("1"),
        help: "What they are drawn by",
    },
    EXPLAIN,
    BOOTED,
    Word {
        name: "SCRIPT",
        given: Given::Last,
        help: "Has what is typed where nobody is ready; its own steps and ticks aren't used",
    },
];

const MKFS: [Word<'static>; 5] = [
    Word {
        name: "size",
        given: Given::Number("2000"),
        help: "Blocks of 1024 bytes, 32 to 131072",
    },
    Word {
        name: "inodes",
        given: Given::Number("200"),
        help: "Inodes, 16 to 8192",
    },
    EXPLAIN,
    Word {
        name: "MANIFEST",
        given: Given::Bare,
        help: "What is made: lines `dir PATH`, `file PATH HOSTFILE` and `dev PATH MAJOR MINOR`",
    },
    Word {
        name: "IMAGE",
        given: Given::Bare,
        help: "The image, which is written",
    },
];

const CHECK: [Word<'static>; 2] = [EXPLAIN, IMAGE];

const LS: [Word<'static>; 4] = [
    Word {
        name: "recursive",
        given: Given::Letter('R'),
        help: "Lists the directories below, too",
    },
    EXPLAIN,
    IMAGE,
    Word {
        name: "PATH",
        given: Given::Bare,
        help: "The directory's path, from the root",
    },
];

const GET: [Word<'static>; 4] = [
    EXPLAIN,
    IMAGE,
    Word {
        name: "PATH",
        given: Given::Bare,
        help: "The file's path, from the root",
    },
    Word {
        name: "OUT",
        given: Given::Last,
        help: "Where its bytes are written, in place of standard output",
    },
];

const PUT: [Word<'static>; 4] = [
    EXPLAIN,
    Word {
        name: "IMAGE",
        given: Given::Bare,
        help: "The image, which is written",
    },
    Word {
        name: "PATH",
        given: Given::Bare,
        help: "The file's path, from the root, which is made or made anew",
    },
    Word {
        name: "FILE",
        given: Given::Bare,
        help: "The file of the host that has its bytes",
    },
];

const MIGRATE: [Word<'static>; 3] = [
    EXPLAIN,
    Word {
        name: "OLD",
        given: Given::Bare,
        help: "The image of the small format",
    },
    Word {
        name: "NEW",
        given: Given::Bare,
        help: "The image of the large format, which is written",
    },
];

const ASM: [Word<'static>; 3] = [
    EXPLAIN,
    Word {
        name: "TEXT",
        given: Given::Bare,
        help: "The text",
    },
    Word {
        name: "ELF",
        given: Given::Bare,
        help: "The program's file, which is written",
    },
];

const AS: [Word<'static>; 6] = [
    Word {
        name: "out",
        given: Given::Short('o'),
        help: "The program's file, which is written: the first text's name without .s, if left out",
    },
    Word {
        name: "expand",
        given: Given::Flag,
        help: "Prints the text that `xv6 asm` takes, and writes no file",
    },
    Word {
        name: "debug",
        given: Given::Letter('g'),
        help: "Adds the labels and the lines of the texts, for debuggers and for the names of addresses",
    },
    Word {
        name: "verbose",
        given: Given::Letter('v'),
        help: "Names the directives that say nothing here",
    },
    EXPLAIN,
    Word {
        name: "FILE",
        given: Given::Each,
        help: "The texts, 1 to 8; the program begins at the first instruction of the first one",
    },
];

const DUMP: [Word<'static>; 3] = [
    Word {
        name: "names",
        given: Given::Flag,
        help: "Names functions, labels and lines of texts, by the file's symbols and DWARF line numbers",
    },
    EXPLAIN,
    PROGRAM_FILE,
];

const LIVE: [Word<'static>; 9] = [
    FRAMES,
    Word {
        name: "quantum",
        given: Given::Several("N"),
        help: "Steps between two ticks while a process is ready, from 2 on, 10000 if left out",
    },
    Word {
        name: "record",
        given: Given::Option("SCRIPT"),
        help: "Where the script is written, line by line, that gives a machine the same events",
    },
    SAVE,
    Word {
        name: "terminal",
        given: Given::Flag,
        help: "Standard input is a terminal whose read ends after a tenth of a second (make live): ^A x ends the session, ^P shows the processes",
    },
    Word {
        name: "edit",
        given: Given::Flag,
        help: "With --terminal, cursor keys, Home, End, Delete, ^W, ^U, ^K and a history edit a line before the machine gets its keys",
    },
    SYMBOLS,
    EXPLAIN,
    BOOTED,
];

pub(crate) const COMMANDS: [Declared<'static>; 16] = [
    Declared {
        name: "flat",
        about: "Boots a flat program and runs a script of events",
        example: "\
Example, where script.txt has lines as `step 1000`, `tick 1` and `type ls`:

xv6 flat --frames 128 hello.bin script.txt",
        words: &FLAT,
    },
    Declared {
        name: "run",
        about: "Boots a machine from a disk image and runs a script of events",
        example: "\
Example, which leaves the image after the run, and tells who waits for what at its end:

xv6 run --report --save after.img disk.img script.txt",
        words: &RUN,
    },
    Declared {
        name: "live",
        about: "Boots a machine from a disk image and gives it what is typed",
        example: "\
Example, which keeps a script of the session and runs it again:

echo ls | xv6 live --record record.txt disk.img
xv6 run disk.img record.txt",
        words: &LIVE,
    },
    Declared {
        name: "play",
        about: "Boots a machine from a disk image and runs a play, which waits for what the machine does",
        example: "\
Example, where play.txt has a wait for the shell, a line that is typed, and a wait for the end of what it does:

    until prompt 10000000
    type ls
    until prompt 10000000

A play also waits for a text that was printed (until \"TEXT\" N), until nobody is ready (until idle N), until nobody
sleeps either (until quiet N), and for the end of process 1 (until halt N); N is the most steps.

xv6 play disk.img play.txt",
        words: &PLAY,
    },
    Declared {
        name: "trace",
        about: "Does as `run`, and shows each call, fault and end of a process",
        example: "\
Example, the calls of forks and pipes alone, and the same run for a viewer of traces:

xv6 trace --calls fork,pipe,wait disk.img script.txt
xv6 trace --perfetto trace.json disk.img script.txt",
        words: &TRACE,
    },
    Declared {
        name: "gdb",
        about: "Lets gdb debug the processes of a run, forward and back",
        example: "\
Example, at the prompt of gdb-multiarch, which begins the program itself and speaks to it through a pipe:

    source lines.gdb
    target extended-remote | xv6 gdb --symbols DIR disk.img script.txt
    break count.c:7
    continue
    watch counter
    reverse-continue

The last goes back to the store that gave the counter its value. What gdb needs before is written by

xv6 gdb --init > lines.gdb

Registers and memory can't be written: what is debugged is what `xv6 run disk.img script.txt` does.
`monitor help` says what else there is: ps, when, stop-at and type.",
        words: &GDB,
    },
    Declared {
        name: "explore",
        about: "Tries every order of calls, and prints the different outcomes",
        example: "\
Example, of a program whose two processes count in one file:

xv6 explore --scripts out counter.img

    2 outcomes under all schedules: [..]
      0 ticks   halt 1 InitEnded 2   2 ends   console \"\"   files 6c0f37cc   out/1.script
      1 tick   halt 1 InitEnded 1   1 end   console \"\"   files 351a9f30   out/2.script
    differ in: status; /n has \"2\", or \"1\"

A timer interrupt may come before any instruction, but matters only by the calls before it: each order of calls is
tried, with each order of interrupts and typed bytes. An outcome is what the console, process 1's status and the files
are at the end, or who waits for whom for good. Its script has the fewest interrupts that lead to it:

xv6 trace --turns counter.img out/2.script
xv6 gdb counter.img out/2.script

The exit status is 0 for one outcome under all schedules, 1 for several, or one that isn't wanted, and 3 where something
wasn't looked at, which is printed: interrupts beyond --ticks, states beyond --states, time (uptime), a process that
runs on without an end.",
        words: &EXPLORE,
    },
    Declared {
        name: "mkfs",
        about: "Makes a disk image of what a manifest lists",
        example: "\
Example, where manifest.txt has a directory, a file of the host and the console:

    dir /bin
    file /bin/hello hello.bin
    dev /console 1 0

xv6 mkfs --size 64 --inodes 16 manifest.txt disk.img",
        words: &MKFS,
    },
    Declared {
        name: "check",
        about: "Checks that a disk image denotes files",
        example: "\
Example, which prints `ok 4 inodes 3 blocks`, or `fault N Name`, told in full:

xv6 check --explain disk.img",
        words: &CHECK,
    },
    Declared {
        name: "ls",
        about: "Lists a directory of a disk image",
        example: "\
Example, all directories; a line has name, type (1 a directory, 2 a file, 3 a device), inode, size:

xv6 ls -R disk.img /",
        words: &LS,
    },
    Declared {
        name: "get",
        about: "Reads a file of a disk image",
        example: "\
Example, to the terminal, and to a file:

xv6 get disk.img /README
xv6 get disk.img /README readme.txt",
        words: &GET,
    },
    Declared {
        name: "put",
        about: "Writes a file of a disk image",
        example: "\
Example:

xv6 put disk.img /hello hello",
        words: &PUT,
    },
    Declared {
        name: "migrate",
        about: "Makes an image of the large format of one of the small format",
        example: "\
Example:

xv6 migrate old.img new.img",
        words: &MIGRATE,
    },
    Declared {
        name: "asm",
        about: "Makes a program file of an assembly text",
        example: "\
Example, where start.s is a text as `start: li a7, 11`, `ecall`, `j start`, a line each:

xv6 asm start.s start",
        words: &ASM,
    },
    Declared {
        name: "as",
        about: "Makes a program file of texts for other assemblers: GNU as, RARS, Venus",
        example: "\
Example, where hello.s has sections, `la`, `call`, `li` of any number, `.asciz`, macros and the like:

xv6 as hello.s
xv6 as main.s lib.s -o program
xv6 as -g oops.s
xv6 as --expand hello.s

The first writes the program's file hello, the third one with the lines of its text, for gdb and for
`xv6 dump --names`; the last prints the text that `xv6 asm` takes. All that is
wrong is printed at once, each fault as `hello.s:7:9: beqz takes a register and a label: beqz a0, done`.
`.globl` lets another text use a label, and `.include \"lib.s\"` reads a text beside the one that names it.",
        words: &AS,
    },
    Declared {
        name: "dump",
        about: "Shows the instructions of a program file",
        example: "\
Example, a line for each word, as `00000000: 000008b7 lui a7, 0x0`:

xv6 dump start
xv6 dump --names oops

The second, of a program of `gcc -g`, has a line `sum+0x10 (oops.c:4):` where a line of its text begins.",
        words: &DUMP,
    },
];
