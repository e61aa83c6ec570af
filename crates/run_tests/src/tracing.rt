//! Stored runs of small programs: the exact text, the shape of the spans, and lines of the commit log.
ghost use Rattle.std.specs.Prelude.{IfSome};
ghost use Rattle.machine.specs.View.{IsUp};

use crate::disks::{Given, expect_row, image_with};
use crate::reports_of_many::{KILLS_ITSELF, READERS};
use crate::samples::{CAT, ECHO, FAULTS, FILES, FORKS, GROWS, KINDS, SHELL, SLEEPER, TWICE};
use crate::shape::is_well_shaped;
use crate::stops::LOOP;
use blockdev::MemDisk;
use driver::Driver;
use events::{Command, Unrecorded};
use machine::{Machine, boot};
use std::alloc::Global;
use sv39::Plain;
use symbolizer::Symbolizer;
use traces::{CallSet, Form, SinkFault, Sinks, Tracer, Trouble, Wanted};

// A sink for each form, of which the text may fail.
#[derive(Drop)]
struct Pages {
    text: String,
    spans: String,
    commits: String,
    events: String,
    is_text_full: bool,
}

impl Pages {
    fn new(alloc: Global, is_text_full: bool) -> Pages {
        Pages {
            text: String::new(alloc),
            spans: String::new(alloc),
            commits: String::new(alloc),
            events: String::new(alloc),
            is_text_full,
        }
    }
}

impl Sinks for Pages {
    fn put(&mut self, form: Form, bytes: &[u8]) -> Result<(), SinkFault> {
        if form == Form::Text && self.is_text_full {
            return Err(SinkFault);
        }
        let page = match form {
            Form::Text => &mut self.text,
            Form::Spans => &mut self.spans,
            Form::Commits => &mut self.commits,
            Form::Events => &mut self.events,
        };
        let Ok(line) = str::from_utf8(bytes) else {
            return Err(SinkFault);
        };
        match page.push_str(line) {
            Ok(()) => Ok(()),
            Err(_) => Err(SinkFault),
        }
    }
}

/// Which steps of a run a tracer is shown.
#[derive(Clone, Copy, PartialEq, Eq)]
enum Shown {
    /// Each.
    Each,
    /// Calls, faults and turns, with the number of those between.
    Calls,
}

/// How many steps there are before each tick.
const ROUND: u32 = 300;

// Three rounds of steps and a tick, and a typed line, up to the end of process 1. Returns who looked on.
fn play(alloc: Global, machine: Machine<MemDisk, Plain>, tracer: Tracer<Pages>) -> Tracer<Pages>
    requires { IsUp machine }
{
    let mut driver = Driver::new(machine, Unrecorded, tracer, Vec::new(alloc));
    let _ = driver.run(&[
        Command::Step(ROUND),
        Command::Tick(1),
        Command::Step(ROUND),
        Command::Tick(1),
        Command::Step(ROUND),
        Command::Tick(1),
        Command::Type(b"a"),
    ]);
    let (_, _, tracer, _) = driver.into_parts();
    tracer
}

/// What of a run is wanted.
#[derive(Clone, Copy, PartialEq, Eq)]
enum Part {
    Whole,
    /// Some calls of process 2.
    Calls,
    /// All from an event on at which process 1 waits in a call.
    Later,
    /// All up to an event at which process 1 runs.
    Early,
    /// No call but exit.
    Ends,
    /// No call but wait.
    Waits,
    /// All, and who gets the hart and loses it.
    Turns,
    /// All from an event on that doesn't come.
    Never,
}

/// A run of programs, and what of it is wanted: the text, lines that the log of commits has and one that it hasn't, and
/// parts of the lines of events.
struct Case {
    name: &'static str,
    files: &'static [(&'static str, Given<'static>)],
    part: Part,
    is_text_full: bool,
    text: &'static str,
    commits: &'static [&'static str],
    // Lines of events.
    events: &'static [&'static str],
    missing: Option<&'static str>,
}

/// All three forms.
const FORMS: Wanted = Wanted {
    text: true,
    spans: true,
    commits: true,
    events: true,
    ..Wanted::ALL
};

/// A part: some calls of process 2.
const PART: Wanted = Wanted {
    pid: Some(2),
    from: 83,
    to: 93,
    joins: false,
    times: true,
    turns: true,
    core_is_pid: true,
    ..FORMS
};

/// The rest of a run, from where process 1 waits for its children.
const LATER: Wanted = Wanted { from: 83, ..FORMS };

/// The beginning of a run, which ends between two calls.
const EARLY: Wanted = Wanted { to: 8, ..FORMS };

/// What is shown of turns, with times.
const TURNS: Wanted = Wanted {
    times: true,
    turns: true,
    ..FORMS
};

/// Nothing.
const NEVER: Wanted = Wanted {
    from: 100_000,
    ..FORMS
};

/// The programs of the first run.
const PIPELINE: [(&str, Given<'static>); 4] = [
    ("/console", Given::Console),
    ("/init", Given::Program(SHELL)),
    ("/echo", Given::Program(ECHO)),
    ("/cat", Given::Program(CAT)),
];

/// Code that is loaded by hand, what calls returned and wrote, a load, a store and a branch.
const COMMITS: [&str; 6] = [
    "# pid 1 size 12288\n# pid 1 pc 0x0000000000000000\n# pid 1 x2 0x0000000000002fe0\n",
    "core   0: 0 0x0000000000000048 (0x00488893) x17 0x0000000000000004\n# pid 1 pipe = 0\n# pid 1 mem 0x0000000000002fa0 0300000004000000\n",
    "# pid 1 wait = 3\n# pid 1 mem 0x0000000000002fd8 00000000\ncore   0: 0 0x",
    "core   0: 0 0x0000000000000060 (0x00442503) x10 0x0000000000000004 mem 0x0000000000002fa4\n",
    "core   0: 0 0x0000000000000114 (0x00a5b023) mem 0x0000000000000198 0x000000000000018c\n",
    "# pid 3 read = 3\n# pid 3 mem 0x0000000000000058 68690a\ncore   0: 0 0x0000000000000024 (0x00050613) x12 0x0000000000000003\ncore   0: 0 0x0000000000000028 (0x00060e63)\n",
];

/// A pipe, a fork, a wait for children, a program, bytes through a pipe, and ends with what was open.
const EVENTS: [&str; 9] = [
    "{\"event\":\"begin\",\"version\":1}\n{\"event\":\"call\",",
    "\"call\":\"open\",\"since\":",
    "\"result\":0,\"path\":\"console\"}\n",
    "\"result\":0,\"ends\":[3,4]}\n",
    "\"call\":\"wait\",\"arguments\":[0],\"waits\":{\"call\":\"wait\",\"kind\":\"child\",\"pids\":[2,3],\"pipe\":null,\"tick\":null},\"status\":null}\n",
    "\"result\":2,\"path\":\"echo\",\"argv\":[\"echo\",\"hi\"],\"cut\":false}\n",
    "\"pid\":2,\"program\":\"echo\",\"parent\":1,\"how\":\"exit\",\"status\":3,\"killer\":null,\"descriptors\":[{\"descriptor\":0,\"on\":{\"kind\":\"console\",",
    "\"pid\":3,\"program\":\"cat\",\"call\":\"read\",",
    "\"result\":3,\"data\":\"hi\\n\",\"cut\":false}\n",
];

/// Slices of the hart and of calls, one of which waits, a child, bytes through a pipe, and an end that is waited for.
/// Each is at the number of events before it.
const SPANS: [&str; 15] = [
    "\"call\":\"write(1, \\\"\\\\n\\\", 1)\",",
    "\"args\":{\"call\":\"exit(3)\",\"answer\":\"?\"}}",
    "\"args\":{\"call\":\"exec(\\\"echo\\\", [\\\"echo\\\", \\\"hi\\\"])\",\"answer\":\"2\"}}",
    "\"cat\":\"call\",\"name\":\"open\",\"ts\":7,\"dur\":1,\"pid\":1,\"tid\":2,",
    "\"cat\":\"life\",\"name\":\"born\",\"ts\":24,\"dur\":1,\"pid\":2,\"tid\":2}",
    "{\"ph\":\"s\",\"cat\":\"fork\",\"name\":\"fork\",\"id\":1,\"ts\":23,\"pid\":1,\"tid\":2}",
    "{\"ph\":\"f\",\"bp\":\"e\",\"cat\":\"fork\",\"name\":\"fork\",\"id\":1,\"ts\":24,\"pid\":2,\"tid\":2}",
    "\"cat\":\"hart\",\"name\":\"runs\",\"ts\":1,\"dur\":41,\"pid\":1,\"tid\":1}",
    "{\"ph\":\"C\",\"name\":\"pipe 0\",\"ts\":79,\"pid\":0,\"args\":{\"bytes\":1}}",
    "{\"ph\":\"C\",\"name\":\"pipe 0\",\"ts\":124,\"pid\":0,\"args\":{\"bytes\":0}}",
    "\"name\":\"bytes\",\"id\":3,\"ts\":78,\"pid\":2,\"tid\":2}",
    "\"name\":\"bytes\",\"id\":3,\"ts\":123,\"pid\":3,\"tid\":2}",
    "\"name\":\"wait\",\"ts\":41,\"dur\":108,\"pid\":1,\"tid\":2,",
    "\"name\":\"end\",\"id\":6,\"ts\":91,\"pid\":2,\"tid\":2}",
    "\"name\":\"end\",\"id\":6,\"ts\":148,\"pid\":1,\"tid\":2}",
];

/// The child writes more bytes than a pipe holds, which the parent reads twice.
const FILLS: &str = "
        addi a0, sp, -16
        li a7, 4
        ecall
        li a7, 1
        ecall
        beq a0, zero, child
        li a0, 0
        addi a1, sp, -1024
        li a2, 512
        li a7, 5
        ecall
        li a0, 0
        ecall
        li a0, 0
        li a7, 2
        ecall
child:  li a0, 1
        li a1, 0
        li a2, 600
        li a7, 16
        ecall
        li a0, 0
        li a7, 2
        ecall
";

/// Puts 3 bytes into a pipe, closes both its ends, and reads the byte that it puts into the next one.
const PIPES: &str = "
        addi a0, sp, -16
        li a7, 4
        ecall
        li a0, 1
        li a1, 0
        li a2, 3
        li a7, 16
        ecall
        li a0, 0
        li a7, 21
        ecall
        li a0, 1
        ecall
        addi a0, sp, -16
        li a7, 4
        ecall
        li a0, 1
        li a2, 1
        li a7, 16
        ecall
        li a0, 0
        addi a1, sp, -16
        li a7, 5
        ecall
        li a0, 0
        li a7, 2
        ecall
";

/// Puts two bytes into a pipe, and reads one after the other.
const HALVES: &str = "
        addi a0, sp, -16
        li a7, 4
        ecall
        li a0, 1
        li a1, 0
        li a2, 2
        li a7, 16
        ecall
        li a0, 0
        addi a1, sp, -16
        li a2, 1
        li a7, 5
        ecall
        li a0, 0
        ecall
        li a0, 0
        li a7, 2
        ecall
";

/// Puts 17 bytes into a pipe, one by one, and reads them all.
const WRITES: &str = "
        addi a0, sp, -16
        li a7, 4
        ecall
        li a1, 0
        li a2, 1
        li s0, 17
        li a7, 16
again:  li a0, 1
        ecall
        addi s0, s0, -1
        bne s0, zero, again
        li a0, 0
        addi a1, sp, -32
        li a2, 17
        li a7, 5
        ecall
        li a0, 0
        li a7, 2
        ecall
";

/// A whole run of which the spans alone are looked at.
const DRAWN: Case = Case {
    name: "",
    files: &[],
    part: Part::Whole,
    is_text_full: false,
    text: "",
    commits: &[],
    events: &[],
    missing: None,
};

/// A run, parts that its spans have, and what they haven't.
struct Drawing {
    case: Case,
    spans: &'static [&'static str],
    missing: Option<&'static str>,
}

static DRAWINGS: [Drawing; 12] = [
    Drawing {
        case: Case {
            name: "a shell pipes echo into cat",
            files: &PIPELINE,
            ..DRAWN
        },
        spans: &SPANS,
        missing: None,
    },
    // A slice of a write, and the bytes that it puts into the pipe as it begins and as it ends.
    Drawing {
        case: Case {
            name: "a write waits for room",
            files: &[("/init", Given::Program(FILLS))],
            ..DRAWN
        },
        spans: &[
            "\"name\":\"write\",\"ts\":27,\"dur\":6,\"pid\":2,\"tid\":2,",
            "{\"ph\":\"C\",\"name\":\"pipe 0\",\"ts\":28,\"pid\":0,\"args\":{\"bytes\":512}}",
            "{\"ph\":\"C\",\"name\":\"pipe 0\",\"ts\":33,\"pid\":0,\"args\":{\"bytes\":88}}",
            "{\"ph\":\"s\",\"cat\":\"pipe\",\"name\":\"bytes\",\"id\":2,\"ts\":28,\"pid\":2,\"tid\":2}",
            "{\"ph\":\"s\",\"cat\":\"pipe\",\"name\":\"bytes\",\"id\":3,\"ts\":32,\"pid\":2,\"tid\":2}",
            "{\"ph\":\"f\",\"bp\":\"e\",\"cat\":\"pipe\",\"name\":\"bytes\",\"id\":3,\"ts\":38,\"pid\":1,\"tid\":2}",
        ],
        missing: None,
    },
    // The bytes of the first pipe go nowhere, so that there is one arrow.
    Drawing {
        case: Case {
            name: "a pipe with bytes is closed",
            files: &[("/init", Given::Program(PIPES))],
            ..DRAWN
        },
        spans: &[
            "{\"ph\":\"C\",\"name\":\"pipe 0\",\"ts\":22,\"pid\":0,\"args\":{\"bytes\":0}}",
            "{\"ph\":\"s\",\"cat\":\"pipe\",\"name\":\"bytes\",\"id\":1,\"ts\":32,\"pid\":1,\"tid\":2}",
            "{\"ph\":\"f\",\"bp\":\"e\",\"cat\":\"pipe\",\"name\":\"bytes\",\"id\":1,\"ts\":38,\"pid\":1,\"tid\":2}",
        ],
        missing: Some("\"id\":2"),
    },
    Drawing {
        case: Case {
            name: "a write is read in two parts",
            files: &[("/init", Given::Program(HALVES))],
            ..DRAWN
        },
        spans: &[
            "\"name\":\"bytes\",\"id\":1,\"ts\":13,\"pid\":1,\"tid\":2}",
            "\"name\":\"bytes\",\"id\":1,\"ts\":24,\"pid\":1,\"tid\":2}",
        ],
        missing: Some("\"id\":2"),
    },
    // The 17th write is kept with the one before.
    Drawing {
        case: Case {
            name: "17 writes that nobody has read",
            files: &[("/init", Given::Program(WRITES))],
            ..DRAWN
        },
        spans: &[
            "\"name\":\"bytes\",\"id\":15,\"ts\":85,\"pid\":1,\"tid\":2}",
            "\"name\":\"bytes\",\"id\":15,\"ts\":105,\"pid\":1,\"tid\":2}",
        ],
        missing: Some("\"id\":16"),
    },
    Drawing {
        case: Case {
            name: "ticks and keys",
            files: &[("/init", Given::Program(SLEEPER))],
            ..DRAWN
        },
        spans: &[
            "{\"ph\":\"i\",\"s\":\"g\",\"name\":\"tick\",\"ts\":300,\"pid\":0,\"tid\":0}",
            "{\"ph\":\"i\",\"s\":\"g\",\"name\":\"key \\\"a\\\"\",\"ts\":903,\"pid\":0,\"tid\":0}",
            "\"name\":\"key \\\"\\\\n\\\"\",\"ts\":904,\"pid\":0,\"tid\":0}",
            "\"ph\":\"B\",\"cat\":\"call\",\"name\":\"sleep\",",
            "\"name\":\"sleep\",\"ts\":17,\"dur\":295,\"pid\":2,\"tid\":2,",
        ],
        missing: None,
    },
    Drawing {
        case: Case {
            name: "a part ends while a process runs",
            files: &[("/init", Given::Program(GROWS))],
            part: Part::Early,
            ..DRAWN
        },
        spans: &["\"name\":\"runs\",\"ts\":1,\"dur\":7,\"pid\":1,\"tid\":1}"],
        missing: Some("-4096"),
    },
    // Process 2 sleeps on where the part ends.
    Drawing {
        case: Case {
            name: "a call that waits at the end is none of those that are wanted",
            files: &[("/init", Given::Program(SLEEPER))],
            part: Part::Calls,
            ..DRAWN
        },
        spans: &[
            "\"args\":{\"name\":\"machine\"}},
{\"ph\":\"M\",\"name\":\"process_name\",\"pid\":2,\"args\":{\"name\":\"/init\"}},
{\"ph\":\"M\",\"name\":\"process_sort_index\",\"pid\":2,\"args\":{\"sort_index\":2}},
{\"ph\":\"M\",\"name\":\"thread_name\",\"pid\":2,\"tid\":1,\"args\":{\"name\":\"hart\"}},
{\"ph\":\"M\",\"name\":\"thread_name\",\"pid\":2,\"tid\":2,\"args\":{\"name\":\"calls\"}}
]}
",
        ],
        missing: Some("\"ph\":\"B\""),
    },
    Drawing {
        case: Case {
            name: "another process waits, too",
            files: &[("/init", Given::Program(READERS))],
            part: Part::Calls,
            ..DRAWN
        },
        spans: &["\"ph\":\"B\",\"cat\":\"call\",\"name\":\"read\","],
        missing: Some("\"pid\":1,"),
    },
    Drawing {
        case: Case {
            name: "another process runs",
            files: &[("/init", Given::Program(LOOP))],
            part: Part::Calls,
            ..DRAWN
        },
        spans: &["\"args\":{\"name\":\"machine\"}}\n]}\n"],
        missing: None,
    },
    // An arrow leaves no end whose call isn't shown.
    Drawing {
        case: Case {
            name: "waits alone",
            files: &[("/init", Given::Program(FORKS))],
            part: Part::Waits,
            ..DRAWN
        },
        spans: &["\"name\":\"wait\",\"ts\":"],
        missing: Some("\"ph\":\"s\""),
    },
    Drawing {
        case: Case {
            name: "a run ends before the part begins",
            files: &[("/init", Given::Program(SLEEPER))],
            part: Part::Never,
            ..DRAWN
        },
        spans: &["\"args\":{\"name\":\"machine\"}}\n]}\n"],
        missing: None,
    },
];

/// A child that faults, and its parent that gets the status and faults, too.
const FAULT_EVENTS: [&str; 4] = [
    "\"pid\":2,\"program\":\"/init\",\"cause\":\"store_page_fault\",\"reason\":\"no_page\",\"pc\":40,\"address\":1048580,\"word\":null,",
    "\"pid\":2,\"program\":\"/init\",\"parent\":1,\"how\":\"fault\",\"status\":-1,\"killer\":null,\"descriptors\":[]}\n",
    "\"result\":2,\"status\":-1}\n",
    "\"cause\":\"breakpoint\",\"reason\":null,\"pc\":32,\"address\":32,\"word\":null,",
];

/// A sleep, a kill, the end that comes of it, and a number of no call.
const KILL_EVENTS: [&str; 5] = [
    "\"call\":\"sleep\",\"arguments\":[100],\"waits\":{\"call\":\"sleep\",\"kind\":\"tick\",\"pids\":[],\"pipe\":null,\"tick\":100}}\n",
    "\"call\":\"kill\",\"since\":",
    "\"parent\":1,\"how\":\"killed\",\"status\":-1,\"killer\":1,\"descriptors\":[]}\n",
    "\"arguments\":[1,12256,0],\"result\":-1}\n",
    "{\"event\":\"end\",\"at\":905}\n",
];

/// Two writes of a byte and an end.
const PART_EVENTS: [&str; 3] = [
    "{\"event\":\"call\",\"at\":83,\"pid\":2,\"program\":\"echo\",\"call\":\"write\",\"since\":83,",
    "\"result\":1,\"data\":\"\\n\",\"cut\":false}\n{\"event\":\"exit\",\"at\":92,",
    "{\"event\":\"end\",\"at\":",
];

// Each run with its whole text, worked out from the programs and the table of calls.
static CASES: [Case; 7] = [
    Case {
        name: "a shell pipes echo into cat",
        files: &PIPELINE,
        part: Part::Whole,
        is_text_full: false,
        text: "[pid 1] open(\"console\", O_RDWR) = 0
[pid 1] dup(0) = 1
[pid 1] dup(0) = 2
[pid 1] pipe([3, 4]) = 0
[pid 1] fork() = 2
[pid 1] close(4) = 0
[pid 1] fork() = 3
[pid 1] close(3) = 0
[pid 1] wait(NULL <unfinished ...>
[pid 2] close(1) = 0
[pid 2] dup(4) = 1
[pid 2] close(3) = 0
[pid 2] close(4) = 0
[pid 2] exec(\"echo\", [\"echo\", \"hi\"]) = 2
[pid 2] write(1, \"hi\\n\", 1) = 1 (3 times)
[pid 2] exit(3) = ?
[pid 2] +++ ended with 3 +++
[pid 3] close(0) = 0
[pid 3] dup(3) = 0
[pid 3] close(3) = 0
[pid 3] exec(\"cat\", [\"cat\"]) = 1
[pid 3] read(0, \"hi\\n\", 512) = 3
[pid 3] write(1, \"hi\\n\", 3) = 3
[pid 3] read(0, \"\", 512) = 0
[pid 3] exit(0) = ?
[pid 3] +++ ended with 0 +++
[pid 1] <... wait resumed> NULL) = 2
[pid 1] wait([0]) = 3
[pid 1] exit(0) = ?
[pid 1] +++ ended with 0 +++
",
        commits: &COMMITS,
        events: &EVENTS,
        missing: None,
    },
    Case {
        name: "processes wait for all their children",
        files: &[
            ("/console", Given::Console),
            ("/init", Given::Program(FORKS)),
        ],
        part: Part::Whole,
        is_text_full: false,
        text: "[pid 1] fork() = 2
[pid 1] fork() = 3
[pid 1] wait(NULL <unfinished ...>
[pid 2] fork() = 4
[pid 2] wait(NULL <unfinished ...>
[pid 3] wait(NULL) = -1
[pid 3] exit(0) = ?
[pid 3] +++ ended with 0 +++
[pid 4] wait(NULL) = -1
[pid 4] exit(0) = ?
[pid 4] +++ ended with 0 +++
[pid 1] <... wait resumed> NULL) = 3
[pid 1] wait(NULL <unfinished ...>
[pid 2] <... wait resumed> NULL) = 4
[pid 2] wait(NULL) = -1
[pid 2] exit(0) = ?
[pid 2] +++ ended with 0 +++
[pid 1] <... wait resumed> NULL) = 2
[pid 1] wait(NULL) = -1
[pid 1] exit(0) = ?
[pid 1] +++ ended with 0 +++
",
        commits: &[],
        events: &[],
        missing: None,
    },
    Case {
        name: "faults",
        files: &[
            ("/console", Given::Console),
            ("/init", Given::Program(FAULTS)),
        ],
        part: Part::Whole,
        is_text_full: false,
        text: "[pid 1] fork() = 2
[pid 1] wait(0x2fd8 <unfinished ...>
[pid 2] --- fault store where there is no page at 0x100004, pc 0x28 ---
[pid 2] +++ ended with -1 +++
[pid 1] <... wait resumed> [-1]) = 2
[pid 1] --- fault breakpoint at 0x20, pc 0x20 ---
[pid 1] +++ ended with -1 +++
",
        commits: &[],
        events: &FAULT_EVENTS,
        missing: None,
    },
    Case {
        name: "sleeps and kills",
        files: &[
            ("/console", Given::Console),
            ("/init", Given::Program(SLEEPER)),
        ],
        part: Part::Whole,
        is_text_full: false,
        text: "[pid 1] fork() = 2
[pid 1] sleep(1 <unfinished ...>
[pid 2] sleep(100 <unfinished ...>
[pid 1] <... sleep resumed>) = 0
[pid 1] kill(2) = 0
[pid 1] wait(NULL <unfinished ...>
[pid 2] +++ killed by pid 1 +++
[pid 1] <... wait resumed> NULL) = 2
[pid 1] getpid() = 1 (2 times)
[pid 1] call_99(0x1, 0x2fe0, 0x0) = -1
[pid 1] kill(-1) = -1
[pid 1] sleep(100 <unfinished ...>
",
        commits: &[],
        events: &KILL_EVENTS,
        missing: None,
    },
    Case {
        name: "a part is printed",
        files: &PIPELINE,
        part: Part::Calls,
        is_text_full: false,
        text: "83 [pid 2] write(1, \"i\", 1) = 1
87 [pid 2] write(1, \"\\n\", 1) = 1
92 [pid 2] +++ ended with 3 +++
",
        commits: &["core   2: 0 0x"],
        events: &PART_EVENTS,
        missing: Some("core   0"),
    },
    Case {
        name: "a log of commits begins inside a call that waits",
        files: &PIPELINE,
        part: Part::Later,
        is_text_full: false,
        text: "[pid 2] write(1, \"i\\n\", 1) = 1 (2 times)
[pid 2] exit(3) = ?
[pid 2] +++ ended with 3 +++
[pid 3] close(0) = 0
[pid 3] dup(3) = 0
[pid 3] close(3) = 0
[pid 3] exec(\"cat\", [\"cat\"]) = 1
[pid 3] read(0, \"hi\\n\", 512) = 3
[pid 3] write(1, \"hi\\n\", 3) = 3
[pid 3] read(0, \"\", 512) = 0
[pid 3] exit(0) = ?
[pid 3] +++ ended with 0 +++
[pid 1] <... wait resumed> NULL) = 2
[pid 1] wait([0]) = 3
[pid 1] exit(0) = ?
[pid 1] +++ ended with 0 +++
",
        commits: &[
            "# pid 1 size 12288\n# pid 1 pc 0x00000000000000a0\n",
            "# pid 1 wait = 2\ncore   0: 0 0x00000000000000a4 ",
        ],
        events: &["{\"event\":\"begin\",\"version\":1}\n{\"event\":\"call\",\"at\":83,"],
        missing: None,
    },
    Case {
        name: "sbrk takes a page away and gives one",
        files: &[
            ("/console", Given::Console),
            ("/init", Given::Program(GROWS)),
        ],
        part: Part::Whole,
        is_text_full: false,
        text: "[pid 1] sbrk(4096) = 12288
[pid 1] sbrk(-4096) = 16384
[pid 1] exit(0) = ?
[pid 1] +++ ended with 0 +++
",
        commits: &[
            "# pid 1 sbrk = 12288\n# pid 1 size 16384\n",
            "# pid 1 sbrk = 16384\n# pid 1 size 12288\n",
        ],
        events: &[
            "\"call\":\"sbrk\",\"since\":",
            "\"arguments\":[-4096],\"result\":16384}\n",
        ],
        missing: None,
    },
];

// In a table of their own, since one of all is too long for the prover.
static FURTHER_CASES: [Case; 7] = [
    Case {
        name: "a part ends between two calls",
        files: &[
            ("/console", Given::Console),
            ("/init", Given::Program(GROWS)),
        ],
        part: Part::Early,
        is_text_full: false,
        text: "[pid 1] sbrk(4096) = 12288\n",
        commits: &[],
        events: &[],
        missing: Some("sbrk = 16384"),
    },
    Case {
        name: "calls that name files",
        files: &[("/init", Given::Program(FILES))],
        part: Part::Whole,
        is_text_full: false,
        text: "[pid 1] mknod(\"c\", 1, 7) = 0
[pid 1] open(\"f\", O_WRONLY|O_CREATE|O_TRUNC) = 0
[pid 1] write(0, \"0123456789abcdef0123456789abcdef\", 32) = 32
[pid 1] write(0, \"0123456789abcdef0123456789abcdef\"..., 33) = 33
[pid 1] fstat(0, 0x2fc0) = 0
[pid 1] read(0, 0x2fc0, 33) = -1
[pid 1] link(\"f\", \"g\") = 0
[pid 1] unlink(\"f\") = 0
[pid 1] mkdir(\"d\") = 0
[pid 1] chdir(\"d\") = 0
[pid 1] open(\"g\", O_WRONLY|O_RDWR|0x804) = -1
[pid 1] open(\"g\", O_RDONLY|O_TRUNC) = -1
[pid 1] unlink(0x10000) = -1
[pid 1] write(0, 0x10000, -1) = -1
[pid 1] write(0, 0x10000, 3) = -1
[pid 1] pipe(0x10000) = -1
[pid 1] exec(\"g\", []) = -1
[pid 1] exec(\"g\", [\"0123456789abcdef0123456789abcdef\"...]) = -1
[pid 1] exit(0) = ?
[pid 1] +++ ended with 0 +++
",
        commits: &[
            "# pid 1 mem 0x00000000000001c0 7300000063006600670064003031323334353637383961626364656630313233
# pid 1 mem 0x00000000000001e0 3435363738396162636465663000000000000000000000000000000000000000
# pid 1 mem 0x0000000000002fe0 f02f0000",
            "# pid 1 fstat = 0\n# pid 1 mem 0x0000000000002fc0 010000000400000002000100000000004100000000000000\ncore",
        ],
        events: &[
            "\"arguments\":[452,1,7],\"result\":0,\"path\":\"c\"}\n",
            "\"result\":32,\"data\":\"0123456789abcdef0123456789abcdef\",\"cut\":false}\n",
            "\"result\":33,\"data\":\"0123456789abcdef0123456789abcdef\",\"cut\":true}\n",
            "\"result\":-1,\"data\":null,",
            "\"result\":0,\"path\":\"f\",\"new_path\":\"g\"}\n",
            "\"result\":-1,\"path\":null}\n",
            "\"call\":\"pipe\",",
            "\"result\":-1,\"ends\":null}\n",
            "\"result\":-1,\"path\":\"g\",\"argv\":null,\"cut\":false}\n",
            "\"path\":\"g\",\"argv\":[\"0123456789abcdef0123456789abcdef\"],\"cut\":true}\n",
            "\"program\":\"/init\",\"parent\":0,\"how\":\"exit\",",
        ],
        missing: None,
    },
    Case {
        name: "a child is killed twice before it has a turn",
        files: &[
            ("/console", Given::Console),
            ("/init", Given::Program(TWICE)),
        ],
        part: Part::Whole,
        is_text_full: false,
        text: "[pid 1] open(\"console\", O_WRONLY) = 0
[pid 1] fork() = 2
[pid 1] fork() = 3
[pid 1] kill(3) = 0
[pid 1] wait(NULL <unfinished ...>
[pid 2] kill(3) = 0
[pid 2] exit(0) = ?
[pid 2] +++ ended with 0 +++
[pid 3] +++ killed by pid 1 +++
[pid 1] <... wait resumed> NULL) = 2
[pid 1] wait(NULL) = 3
[pid 1] exit(0) = ?
[pid 1] +++ ended with 0 +++
",
        commits: &["# pid 3 x31 0x0000000000000005\n"],
        events: &[
            "\"how\":\"killed\",\"status\":-1,\"killer\":1,\
             \"descriptors\":[{\"descriptor\":0,\"on\":{\"kind\":\"console\",",
        ],
        missing: Some(" 0000000000000000000000000000000000000000000000000000000000000000\n"),
    },
    Case {
        name: "process 1 kills itself",
        files: &[("/init", Given::Program(KILLS_ITSELF))],
        part: Part::Whole,
        is_text_full: false,
        text: "[pid 1] getpid() = 1
[pid 1] kill(1) = 0
[pid 1] +++ killed by pid 1 +++
",
        commits: &[],
        events: &[
            "\"call\":\"kill\",\"since\":7,\"arguments\":[1],\"result\":0}\n",
            "{\"event\":\"exit\",\"at\":7,\"pid\":1,\"program\":\"/init\",\"parent\":0,\
             \"how\":\"killed\",\"status\":-1,\"killer\":1,",
        ],
        missing: None,
    },
    Case {
        name: "turns and ticks",
        files: &[("/init", Given::Program(LOOP))],
        part: Part::Turns,
        is_text_full: false,
        text: "1 [pid 1] --- turn ---
301 [pid 1] --- tick ---
302 [pid 1] --- turn ---
602 [pid 1] --- tick ---
603 [pid 1] --- turn ---
903 [pid 1] --- tick ---
",
        commits: &[],
        events: &[
            "{\"event\":\"turn\",\"at\":1,\"pid\":1,\"program\":\"/init\"}\n{\"event\":\"tick\",\"at\":301,\"pid\":1,",
        ],
        missing: None,
    },
    Case {
        name: "faults of each kind",
        files: &[("/init", Given::Program(KINDS))],
        part: Part::Ends,
        is_text_full: false,
        text: "[pid 2] --- fault jump to what is no multiple of 4 at 0x2, pc 0x58 ---
[pid 2] +++ ended with -1 +++
[pid 3] --- fault illegal instruction 0x00000000 at 0x60, pc 0x60 ---
[pid 3] +++ ended with -1 +++
[pid 4] --- fault load that isn't aligned at 0x1, pc 0x68 ---
[pid 4] +++ ended with -1 +++
[pid 5] --- fault store that isn't aligned at 0x1, pc 0x70 ---
[pid 5] +++ ended with -1 +++
[pid 6] --- fault load where there is no page at 0x10000, pc 0x7c ---
[pid 6] +++ ended with -1 +++
[pid 7] --- fault load from the page below the stack at 0x1000, pc 0x84 ---
[pid 7] +++ ended with -1 +++
[pid 8] --- fault store to the page below the stack at 0x1000, pc 0x8c ---
[pid 8] +++ ended with -1 +++
[pid 9] --- fault fetch from a page that isn't executable at 0x2000, pc 0x2000 ---
[pid 9] +++ ended with -1 +++
[pid 1] exit(0) = ?
[pid 1] +++ ended with 0 +++
",
        commits: &[],
        events: &[],
        missing: None,
    },
    Case {
        name: "a full sink is reported",
        files: &PIPELINE,
        part: Part::Whole,
        is_text_full: true,
        text: "",
        commits: &[],
        events: &[],
        missing: None,
    },
];

// What is wanted of a run. The log of commits has each step.
fn wanted_of(case: &Case, shown: Shown) -> Option<Wanted> {
    let mut wanted = match case.part {
        Part::Whole | Part::Ends | Part::Waits => FORMS,
        Part::Calls => PART,
        Part::Later => LATER,
        Part::Early => EARLY,
        Part::Never => NEVER,
        Part::Turns => TURNS,
    };
    wanted.commits = shown == Shown::Each;
    match case.part {
        Part::Calls => wanted.calls = CallSet::parse("read,write").ok()?,
        Part::Ends => wanted.calls = CallSet::parse("exit").ok()?,
        Part::Waits => wanted.calls = CallSet::parse("wait").ok()?,
        Part::Whole | Part::Later | Part::Early | Part::Never | Part::Turns => (),
    }
    Some(wanted)
}

// The machine of a run's programs.
fn booted(alloc: Global, case: &Case) -> Option<Machine<MemDisk, Plain>>
    ensures { IfSome result IsUp }
{
    let image = image_with(alloc, case.files, 64)?;
    let disk = MemDisk::new(image).ok()?;
    match boot(alloc, disk, Plain::new(), 256) {
        Ok(machine) => Some(machine),
        Err(_) => None,
    }
}

// A tracer of what is wanted of a run.
fn tracer_of(alloc: Global, case: &Case, shown: Shown) -> Option<Tracer<Pages>> {
    let wanted = wanted_of(case, shown)?;
    let pages = Pages::new(alloc, case.is_text_full);
    Tracer::new(alloc, wanted, Symbolizer::new(alloc), pages).ok()
}

// Whether a text lacks these words, if there are any.
fn lacks(text: &str, words: Option<&str>) -> bool {
    match words {
        Some(words) => !text.contains(words),
        None => true,
    }
}

// Whether a log of commits has the case's lines.
fn has_commits(case: &Case, commits: &str) -> bool {
    for lines in case.commits {
        if !commits.contains(*lines) {
            return false;
        }
    }
    lacks(commits, case.missing)
}

// Whether the text fails where its sink is full, and nothing else does.
fn ends(case: &Case, done: Result<(), Trouble>) -> bool {
    if case.is_text_full {
        done == Err(Trouble::Lost(Form::Text))
    } else {
        done.is_ok()
    }
}

// Whether the lines of events have the case's parts, in this order.
fn has_events(case: &Case, events: &str) -> bool {
    let mut rest = events;
    for part in case.events {
        let Some(at) = rest.find(*part) else {
            return false;
        };
        rest = &rest[at..];
    }
    true
}

// Whether pages are as the case says.
fn are_right(alloc: Global, case: &Case, pages: &Pages) -> bool {
    pages.text.as_str() == case.text
        && is_well_shaped(alloc, pages.spans.as_str())
        && has_commits(case, pages.commits.as_str())
        && has_events(case, pages.events.as_str())
}

// Whether two have the same bytes, except for the log of commits.
fn are_same(one: &Pages, other: &Pages) -> bool {
    one.text == other.text && one.spans == other.spans && one.events == other.events
}

// What is written of a run that is shown so, from its boot to its end, and whether it is the whole.
fn pages_of(alloc: Global, case: &Case, shown: Shown) -> Option<(Pages, Result<(), Trouble>)> {
    let tracer = tracer_of(alloc, case, shown)?;
    let machine = booted(alloc, case)?;
    Some(play(alloc, machine, tracer).finish())
}

// Whether what is written of a run is as the case says, and the same where calls alone are shown.
fn holds(alloc: Global, case: &Case) -> Option<bool> {
    let (pages, done) = pages_of(alloc, case, Shown::Each)?;
    let (seen, seen_done) = pages_of(alloc, case, Shown::Calls)?;
    let is_right = ends(case, done) && are_right(alloc, case, &pages);
    Some(is_right && ends(case, seen_done) && are_same(&pages, &seen))
}

// Whether the spans of a run are as a drawing says.
fn has_spans(alloc: Global, drawing: &Drawing) -> Option<bool> {
    let (pages, _) = pages_of(alloc, &drawing.case, Shown::Each)?;
    let text = pages.spans.as_str();
    let has_all = drawing.spans.iter().all(|span| text.contains(*span));
    Some(has_all && lacks(text, drawing.missing))
}

#[test]
fn spans_have_the_times_of_steps(rt: HostRuntime) {
    for drawing in &DRAWINGS {
        expect_row(&rt, drawing.case.name, has_spans(rt.alloc(), drawing));
    }
}

// Whether the trace of a run that has no events has its beginning and its end.
fn has_ends(alloc: Global) -> Option<bool> {
    let (pages, done) = tracer_of(alloc, &CASES[0], Shown::Each)?.finish();
    let events = "{\"event\":\"begin\",\"version\":1}\n{\"event\":\"end\",\"at\":0}\n";
    let is_framed = is_well_shaped(alloc, pages.spans.as_str());
    Some(done.is_ok() && is_framed && pages.events.as_str() == events)
}

#[test]
fn runs_are_told(rt: HostRuntime) {
    expect_row(&rt, "no events", has_ends(rt.alloc()));
    for case in &CASES {
        expect_row(&rt, case.name, holds(rt.alloc(), case));
    }
    let is_refused = CallSet::parse("read,wrote") == Err("wrote");
    expect_row(&rt, "a call that is none", Some(is_refused));
}

#[test]
fn further_runs_are_told(rt: HostRuntime) {
    for case in &FURTHER_CASES {
        expect_row(&rt, case.name, holds(rt.alloc(), case));
    }
}
