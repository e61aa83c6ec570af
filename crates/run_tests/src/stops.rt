//! Programs as `/init`, what happens to them, and all that is reported of that.
use crate::disks::{Given, Whole, expect_row, image_with, run_on};
use crate::samples;
use machine::Halt;
use reports::{Outcome, PlayEnd, Reporter, Told, Wanted};
use std::alloc::Global;
use std::process::Abort;
use sv39::Plain;
use symbolizer::Symbolizer;
use unixmodel::event::Event;

const FRAMES: u32 = 64;

pub(crate) const LOOP: &str = "start: j start\n";

/// Reads a pipe whose both ends it has.
const DEADLOCK: &str = "
        addi a0, sp, -16
        li a7, 4
        ecall
        li a0, 0
        addi a1, sp, -16
        li a2, 1
        li a7, 5
        ecall
";

const SLEEPER: &str = "
        li a0, 7
        li a7, 13
        ecall
";

/// Stores to its code, which may be read and executed alone.
const CRASH: &str = "
        li a0, 0
        sd zero, 0(a0)
";

/// The same after calls of uptime, getpid, close, dup and write.
const CALLER: &str = "
        li a7, 14
        ecall
        li a7, 11
        ecall
        li a0, 7
        li a7, 21
        ecall
        li a0, 9
        li a7, 10
        ecall
        li a0, 1
        li a1, 16
        li a2, 3
        li a7, 16
        ecall
        sd zero, 0(zero)
";

/// The child executes a program of compressed code; the parent opens the console then, and reads it.
const COMPRESSED: &str = "
        li a7, 1
        ecall
        bne a0, zero, parent
        la a0, wc
        la a1, words
        li a7, 7
        ecall
parent: li a0, 0
        li a7, 3
        ecall
        la a0, name
        li a1, 1
        li a7, 17
        ecall
        la a0, name
        li a1, 2
        li a7, 15
        ecall
        addi a1, sp, -16
        li a2, 1
        li a7, 5
        ecall
words:  .dword 0
wc:     .ascii \"wc\\0\"
name:   .ascii \"console\\0\"
";

/// The parent waits for a child that fills a pipe.
const FULL: &str = "
        addi a0, sp, -16
        li a7, 4
        ecall
        li a7, 1
        ecall
        bne a0, zero, parent
        li a0, 1
        li a1, 0
        li a2, 600
        li a7, 16
        ecall
parent: li a0, 1
        li a7, 21
        ecall
        li a0, 0
        li a7, 3
        ecall
";

/// What is asked for: a report, as text or as JSON, or the pages or the registers of a process.
pub(crate) enum Asked {
    Report,
    Json,
    Pages(u32),
    Registers(u32),
}

/// A program as `/init`; how many steps are made, and ticks after them, and how often; how the run ended after all;
/// what is asked for, what the text begins with, and parts of the JSON.
pub(crate) struct Row {
    pub(crate) name: &'static str,
    pub(crate) init: &'static str,
    pub(crate) steps: u32,
    pub(crate) ticks: u32,
    pub(crate) rounds: u32,
    pub(crate) outcome: Outcome,
    pub(crate) asked: Asked,
    pub(crate) text: &'static str,
    pub(crate) json: &'static [&'static str],
}

/// The events came to their end, and they were no play's.
pub(crate) const RAN: Outcome = Outcome {
    halt: None,
    play: None,
};

static ROWS: [Row; 16] = [
    Row {
        name: "a loop",
        init: LOOP,
        steps: 100,
        ticks: 0,
        rounds: 1,
        outcome: RAN,
        asked: Asked::Report,
        text: "\
report: 100 steps, 0 ticks, 0 keys
stopped: the events are used up while pid 1 (/init) runs
pid 1 (/init) runs; parent 0, pc 0x0, 12288 bytes, 9 frames
free frames: 55
",
        json: &[],
    },
    Row {
        name: "a process reads a pipe whose both ends it has",
        init: DEADLOCK,
        steps: 100,
        ticks: 1,
        rounds: 1,
        outcome: RAN,
        asked: Asked::Report,
        text: "\
report: 100 steps, 1 ticks, 0 keys
stopped: nobody is ready
pid 1 (/init) reads a pipe whose write end it itself holds; parent 0, pc 0x30, 12288 bytes, 9 frames
  0: read end of pipe 0
  1: write end of pipe 0
free frames: 54
",
        json: &[],
    },
    Row {
        name: "a process sleeps",
        init: SLEEPER,
        steps: 100,
        ticks: 3,
        rounds: 1,
        outcome: RAN,
        asked: Asked::Report,
        text: "\
report: 100 steps, 3 ticks, 0 keys
stopped: nobody is ready
pid 1 (/init) sleeps until tick 7; parent 0, pc 0x14, 12288 bytes, 9 frames
free frames: 55
",
        json: &[],
    },
    Row {
        name: "a process stores to its code",
        init: CRASH,
        steps: 100,
        ticks: 0,
        rounds: 1,
        outcome: RAN,
        asked: Asked::Report,
        text: "\
report: 4 steps, 0 ticks, 0 keys
stopped: process 1 ended with status -1
pid 1 (/init) ended with status -1; parent 0, pc 0x8, 12288 bytes, 9 frames
free frames: 55
fault: pid 1 (/init): store to 0x0 at pc 0x8: the page may not be written
  ra   0x0000000000000000  sp   0x0000000000002fe0  gp   0x0000000000000000
  tp   0x0000000000000000  t0   0x0000000000000000  t1   0x0000000000000000
  t2   0x0000000000000000  s0   0x0000000000000000  s1   0x0000000000000000
  a0   0x0000000000000000  a1   0x0000000000002fe0  a2   0x0000000000000000
  a3   0x0000000000000000  a4   0x0000000000000000  a5   0x0000000000000000
  a6   0x0000000000000000  a7   0x0000000000000000  s2   0x0000000000000000
  s3   0x0000000000000000  s4   0x0000000000000000  s5   0x0000000000000000
  s6   0x0000000000000000  s7   0x0000000000000000  s8   0x0000000000000000
  s9   0x0000000000000000  s10  0x0000000000000000  s11  0x0000000000000000
  t3   0x0000000000000000  t4   0x0000000000000000  t5   0x0000000000000000
  t6   0x0000000000000000
",
        json: &[],
    },
    Row {
        name: "a child executes compressed code",
        init: COMPRESSED,
        steps: 1000,
        ticks: 0,
        rounds: 1,
        outcome: RAN,
        asked: Asked::Report,
        text: "\
report: 1000 steps, 0 ticks, 0 keys
stopped: nobody is ready
pid 1 (/init) reads the console; parent 0, pc 0x90, 12288 bytes, 9 frames
  0: console
free frames: 55
fault: pid 2 (wc): illegal instruction 0x1141 at pc 0x0 (compressed code? compile with -march=rv64im)
  call at 19: exec(0x98, 0x90) = 0
  ra   0x0000000000000000  sp   0x0000000000002ff0  gp   0x0000000000000000
  tp   0x0000000000000000  t0   0x0000000000000000  t1   0x0000000000000000
  t2   0x0000000000000000  s0   0x0000000000000000  s1   0x0000000000000000
  a0   0x0000000000000000  a1   0x0000000000002ff0  a2   0x0000000000000000
  a3   0x0000000000000000  a4   0x0000000000000000  a5   0x0000000000000000
  a6   0x0000000000000000  a7   0x0000000000000007  s2   0x0000000000000000
  s3   0x0000000000000000  s4   0x0000000000000000  s5   0x0000000000000000
  s6   0x0000000000000000  s7   0x0000000000000000  s8   0x0000000000000000
  s9   0x0000000000000000  s10  0x0000000000000000  s11  0x0000000000000000
  t3   0x0000000000000000  t4   0x0000000000000000  t5   0x0000000000000000
  t6   0x0000000000000000
",
        json: &[],
    },
    Row {
        name: "a process stores to its code after five calls",
        init: CALLER,
        steps: 100,
        ticks: 0,
        rounds: 1,
        outcome: RAN,
        asked: Asked::Report,
        text: "\
report: 27 steps, 0 ticks, 0 keys
stopped: process 1 ended with status -1
pid 1 (/init) ended with status -1; parent 0, pc 0x64, 12288 bytes, 9 frames
free frames: 55
fault: pid 1 (/init): store to 0x0 at pc 0x64: the page may not be written
  call at 7: getpid() = 1
  call at 12: close(7) = -1
  call at 17: dup(9) = -1
  call at 26: write(1, 0x10, 3) = -1
  ra   0x0000000000000000  sp   0x0000000000002fe0  gp   0x0000000000000000
  tp   0x0000000000000000  t0   0x0000000000000000  t1   0x0000000000000000
  t2   0x0000000000000000  s0   0x0000000000000000  s1   0x0000000000000000
  a0   0xffffffffffffffff  a1   0x0000000000000010  a2   0x0000000000000003
  a3   0x0000000000000000  a4   0x0000000000000000  a5   0x0000000000000000
  a6   0x0000000000000000  a7   0x0000000000000010  s2   0x0000000000000000
  s3   0x0000000000000000  s4   0x0000000000000000  s5   0x0000000000000000
  s6   0x0000000000000000  s7   0x0000000000000000  s8   0x0000000000000000
  s9   0x0000000000000000  s10  0x0000000000000000  s11  0x0000000000000000
  t3   0x0000000000000000  t4   0x0000000000000000  t5   0x0000000000000000
  t6   0x0000000000000000
",
        json: &[],
    },
    Row {
        name: "a child fills a pipe",
        init: FULL,
        steps: 1000,
        ticks: 0,
        rounds: 1,
        outcome: RAN,
        asked: Asked::Report,
        text: "\
report: 1000 steps, 0 ticks, 0 keys
stopped: nobody is ready
pid 1 (/init) waits for pid 2 (/init); parent 0, pc 0x6c, 12288 bytes, 9 frames
  0: read end of pipe 0
pid 2 (/init) writes to a full pipe whose read end pid 1 (/init) and it itself hold; parent 1, pc 0x44, 12288 bytes, 9 frames
  0: read end of pipe 0
  1: write end of pipe 0
free frames: 45
",
        json: &[],
    },
    Row {
        name: "a process that sleeps, as JSON",
        init: SLEEPER,
        steps: 100,
        ticks: 3,
        rounds: 1,
        outcome: RAN,
        asked: Asked::Json,
        text: "",
        json: &[
            "\
{
  \"version\": 1,
  \"steps\": 100,
  \"ticks\": 3,
  \"keys\": 0,
  \"stopped\": {
    \"why\": \"idle\",
    \"status\": null,
    \"pid\": null
  },
  \"play\": null,
  \"processes\": [
    {
      \"pid\": 1,
      \"parent\": 0,
      \"program\": \"/init\",
      \"state\": \"waiting\",
      \"status\": null,
      \"waits\": {
        \"call\": \"sleep\",
        \"kind\": \"tick\",
        \"pids\": [],
        \"pipe\": null,
        \"tick\": 7
      },
      \"killed\": false,
      \"pc\": 20,
      \"size\": 12288,
      \"frames\": 9,
      \"descriptors\": []
    }
  ],
  \"ended\": [],
  \"more_ended\": 0,
  \"free_frames\": 55,
  \"faults\": [],
  \"more_faults\": 0
}",
        ],
    },
    Row {
        name: "a process reads its own pipe, as JSON",
        init: DEADLOCK,
        steps: 100,
        ticks: 0,
        rounds: 1,
        outcome: Outcome {
            halt: None,
            play: Some(PlayEnd::Unreached { line: 4, steps: 99 }),
        },
        asked: Asked::Json,
        text: "",
        json: &[
            "  \"play\": {\n    \"end\": \"unreached\",\n    \"line\": 4,\n    \"steps\": 99\n  },\n",
            "\
      \"waits\": {
        \"call\": \"read\",
        \"kind\": \"bytes\",
        \"pids\": [
          1
        ],
        \"pipe\": 0,
        \"tick\": null
      },
",
            "\
        {
          \"descriptor\": 1,
          \"on\": {
            \"kind\": \"write_end\",
            \"number\": 0,
            \"offset\": null
          },
          \"readable\": false,
          \"writable\": true
        }
      ]
",
        ],
    },
    Row {
        name: "a child fills a pipe, as JSON, and the disk fails in the save",
        init: FULL,
        steps: 1000,
        ticks: 0,
        rounds: 1,
        outcome: Outcome {
            halt: Some(Halt::Device),
            play: Some(PlayEnd::Halted),
        },
        asked: Asked::Json,
        text: "",
        json: &[
            "    \"why\": \"device\",\n",
            "    \"end\": \"halted\",\n    \"line\": null,\n    \"steps\": null\n",
            "        \"call\": \"wait\",\n        \"kind\": \"child\",\n        \"pids\": [\n          2\n        ],\n",
            "        \"call\": \"write\",\n        \"kind\": \"room\",\n        \"pids\": [\n          1,\n          2\n        ],\n        \"pipe\": 0,\n",
        ],
    },
    Row {
        name: "a fault, as JSON",
        init: CRASH,
        steps: 100,
        ticks: 0,
        rounds: 1,
        outcome: RAN,
        asked: Asked::Json,
        text: "",
        json: &[
            "    \"why\": \"ended\",\n    \"status\": -1,\n",
            "\
  \"ended\": [
    {
      \"at\": 4,
      \"pid\": 1,
      \"program\": \"/init\",
      \"parent\": 0,
      \"how\": \"fault\",
      \"status\": -1,
      \"killer\": null
    }
  ],
",
            "\
  \"faults\": [
    {
      \"at\": 4,
      \"pid\": 1,
      \"program\": \"/init\",
      \"cause\": \"store_page_fault\",
      \"reason\": \"closed\",
      \"pc\": 8,
      \"address\": 0,
      \"word\": null,
      \"words\": \"store to 0x0 at pc 0x8: the page may not be written\",
      \"registers\": {
        \"ra\": 0,
        \"sp\": 12256,
",
        ],
    },
    Row {
        name: "a word that is no instruction, as JSON",
        init: COMPRESSED,
        steps: 1000,
        ticks: 0,
        rounds: 1,
        outcome: RAN,
        asked: Asked::Json,
        text: "",
        json: &[
            "        \"call\": \"read\",\n        \"kind\": \"console\",\n        \"pids\": [],\n",
            "      \"cause\": \"illegal_instruction\",\n      \"reason\": null,\n      \"pc\": 0,\n      \"address\": 0,\n      \"word\": 3825602881,\n",
            "      \"pid\": 2,\n      \"program\": \"wc\",\n      \"parent\": 1,\n      \"how\": \"fault\",\n",
            "\
      \"calls\": [
        {
          \"since\": 19,
          \"call\": \"exec\",
          \"arguments\": [
            152,
            144
          ],
          \"result\": 0
        }
      ]
",
        ],
    },
    Row {
        name: "a process that is killed, as JSON",
        init: samples::SLEEPER,
        steps: 300,
        ticks: 1,
        rounds: 3,
        outcome: RAN,
        asked: Asked::Json,
        text: "",
        json: &[
            "      \"pid\": 2,\n      \"program\": \"/init\",\n      \"parent\": 1,\n      \"how\": \"killed\",\n      \"status\": -1,\n      \"killer\": 1\n",
        ],
    },
    Row {
        name: "the registers of a process that is gone, as they were at its fault",
        init: COMPRESSED,
        steps: 1000,
        ticks: 0,
        rounds: 1,
        outcome: RAN,
        asked: Asked::Registers(2),
        text: "\
pid 2 (wc): registers at its fault
  pc   0x0000000000000000
  ra   0x0000000000000000 0
  sp   0x0000000000002ff0 12272
",
        json: &[],
    },
    // Its pages, of which there are three; and those of a process that is not there.
    Row {
        name: "the pages of a process",
        init: LOOP,
        steps: 100,
        ticks: 0,
        rounds: 1,
        outcome: RAN,
        asked: Asked::Pages(1),
        text: "\
pid 1: 12288 bytes, 3 pages
  0x00000000 to 0x00000fff r-x
  0x00001000 to 0x00001fff ---
  0x00002000 to 0x00002fff rw-
",
        json: &[],
    },
    Row {
        name: "the pages of no process",
        init: LOOP,
        steps: 100,
        ticks: 0,
        rounds: 1,
        outcome: RAN,
        asked: Asked::Pages(7),
        text: "pid 7: no process\n",
        json: &[],
    },
];

// What is wanted of a reporter.
fn wanted_of(asked: &Asked) -> Wanted {
    let mut wanted = Wanted {
        report: false,
        json: false,
        registers: None,
        memory: None,
        faults: false,
    };
    match asked {
        Asked::Report => wanted.report = true,
        Asked::Json => wanted.json = true,
        Asked::Pages(pid) => wanted.memory = Some(*pid),
        Asked::Registers(pid) => wanted.registers = Some(*pid),
    }
    wanted
}

// A machine whose `/init` is this program, whose code may not be written, beside a `/wc` of compressed code.
fn booted(alloc: Global, init: &str) -> Option<Whole> {
    let files = [
        ("/init", Given::ReadOnly(init)),
        ("/wc", Given::ReadOnly("        .word 0xe4061141\n")),
    ];
    let image = image_with(alloc, &files, 64)?;
    run_on(alloc, image, Plain::new(), FRAMES)
}

/// Which steps a reporter is shown: each, or calls, faults and turns, with the number of those between.
#[derive(Clone, Copy, PartialEq, Eq)]
enum Shown {
    Each,
    Calls,
}

// An event that a reporter is shown; whether the machine goes on.
fn give(run: &mut Whole, reporter: &mut Reporter, event: Event) -> bool {
    reporter.before(&run.machine, event);
    let ended = run.event(event);
    reporter.after(&run.machine, ended);
    ended.is_ok()
}

// Instructions that a reporter isn't shown: how many of that many steps are left.
fn pass(run: &mut Whole, reporter: &mut Reporter, shown: Shown, left: u32) -> u32 {
    if shown == Shown::Each {
        return left;
    }
    let passed = run.machine.compute(left, &[]);
    if passed > 0 {
        reporter.passed(passed);
    }
    left.saturating_sub(passed)
}

// That many steps, up to the first at which the machine halts.
fn steps(run: &mut Whole, reporter: &mut Reporter, shown: Shown, times: u32) {
    let mut left = times;
    for _piece in 0..times {
        left = pass(run, reporter, shown, left);
        if left == 0 || !give(run, reporter, Event::Step) {
            return;
        }
        left = left.saturating_sub(1);
    }
}

// That many ticks.
fn ticks(run: &mut Whole, reporter: &mut Reporter, times: u32) {
    for _made in 0..times {
        if !give(run, reporter, Event::Tick) {
            return;
        }
    }
}

// What is printed of a row's run.
fn told_of(alloc: Global, run: &mut Whole, row: &Row, shown: Shown) -> Option<Told> {
    let symbolizer = Symbolizer::new(alloc);
    let mut reporter = Reporter::new(alloc, b"/init", wanted_of(&row.asked), symbolizer);
    for _round in 0..row.rounds {
        steps(run, &mut reporter, shown, row.steps);
        ticks(run, &mut reporter, row.ticks);
    }
    let looked = reporter.look(alloc, &run.machine).ok()?;
    reporter.tell(alloc, &looked, row.outcome).ok()
}

// Whether a text has these parts, where there is one, and there is none without parts.
fn has_parts(text: Option<&str>, parts: &[&str]) -> bool {
    match text {
        Some(text) => !parts.is_empty() && parts.iter().all(|part| text.contains(*part)),
        None => parts.is_empty(),
    }
}

// Whether that is what the row says; of registers the text has more.
fn tells(alloc: Global, run: &mut Whole, row: &Row, shown: Shown) -> Option<bool> {
    let told = told_of(alloc, run, row, shown)?;
    let text = told.text.as_str();
    let is_text = match row.asked {
        Asked::Registers(_) => text.starts_with(row.text),
        _ => text == row.text,
    };
    Some(is_text && has_parts(told.json.as_deref(), row.json))
}

fn holds(alloc: Global, row: &Row, shown: Shown) -> Option<bool> {
    let mut run = booted(alloc, row.init)?;
    let holds = tells(alloc, &mut run, row, shown);
    run.end();
    holds
}

/// The row holds, whether the reporter is shown each step or calls, faults and turns alone.
pub(crate) fn expect_report(rt: &(impl Abort + AllocGlobal), row: &Row) {
    expect_row(rt, row.name, holds(rt.alloc(), row, Shown::Each));
    expect_row(rt, row.name, holds(rt.alloc(), row, Shown::Calls));
}

#[test]
fn reports_tell_why(rt: HostRuntime) {
    for row in &ROWS {
        expect_report(&rt, row);
    }
}
