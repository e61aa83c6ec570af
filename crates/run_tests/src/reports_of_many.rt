//! What is reported of several processes, of those that ended, and of what they have open.
use crate::stops::{Asked, LOOP, RAN, Row, expect_report};
use machine::Halt;
use reports::{Outcome, PlayEnd};

/// Two processes read a pipe whose both ends both have.
pub(crate) const READERS: &str = "
        addi a0, sp, -16
        li a7, 4
        ecall
        li a7, 1
        ecall
        li a0, 0
        addi a1, sp, -24
        li a2, 1
        li a7, 5
        ecall
";

/// Executes a file that is not there, and goes on.
const NOT_THERE: &str = "
        la a0, name
        la a1, words
        li a7, 7
        ecall
again:  j again
words:  .dword 0
name:   .ascii \"nope\\0\"
";

/// Waits for 66 children, one after the other, each of which stores to its code.
const FAULTS: &str = "
        li s0, 66
again:  li a7, 1
        ecall
        beq a0, zero, child
        li a0, 0
        li a7, 3
        ecall
        addi s0, s0, -1
        bne s0, zero, again
        li a0, 0
        li a7, 2
        ecall
child:  sd zero, 0(zero)
";

/// The first child kills the second, which the parent killed before it had a turn.
const KILLERS: &str = "
        li a7, 1
        ecall
        beq a0, zero, killer
        li a7, 1
        ecall
        beq a0, zero, victim
        li a0, 3
        li a7, 6
        ecall
        li a0, 0
        li a7, 3
        ecall
        li a0, 0
        li a7, 3
        ecall
victim: j victim
killer: li a0, 3
        li a7, 6
        ecall
        li a0, 0
        li a7, 2
        ecall
";

/// Kills itself.
pub(crate) const KILLS_ITSELF: &str = "
        li a7, 11
        ecall
        li a7, 6
        ecall
";

/// Kills a child that has had no turn yet.
const MARKED: &str = "
        li a7, 1
        ecall
        beq a0, zero, again
        li a7, 6
        ecall
again:  j again
";

/// A child ends with status 3, and its parent sleeps.
const ENDED: &str = "
        li a7, 1
        ecall
        beq a0, zero, child
        li a0, 1
        li a7, 13
        ecall
again:  j again
child:  li a0, 3
        li a7, 2
        ecall
";

/// Reads four bytes of its own file, and has the console open for writing alone.
const OPENED: &str = "
        la a0, init
        li a1, 0
        li a7, 15
        ecall
        addi a1, sp, -16
        li a2, 4
        li a7, 5
        ecall
        la a0, name
        li a1, 1
        li a7, 17
        ecall
        la a0, name
        li a1, 1
        li a7, 15
        ecall
again:  j again
init:   .ascii \"/init\\0\"
name:   .ascii \"console\\0\"
";

/// Has numbers below 0 in three registers, and one of more than 32 bits.
const NEGATIVE: &str = "
        li ra, -1
        li gp, -2
        slli tp, ra, 40
        srli t0, ra, 24
again:  j again
";

/// Takes 8192 bytes more.
const LARGER: &str = "
        li a0, 8192
        li a7, 12
        ecall
again:  j again
";

// A row of a run of steps alone, of which a report is wanted.
const REPORTED: Row = Row {
    name: "",
    init: LOOP,
    steps: 100,
    ticks: 0,
    rounds: 1,
    outcome: RAN,
    asked: Asked::Report,
    text: "",
    json: &[],
};

static ROWS: [Row; 15] = [
    Row {
        name: "two processes read a pipe whose both ends both have",
        init: READERS,
        text: "\
report: 100 steps, 0 ticks, 0 keys
stopped: nobody is ready
pid 1 (/init) reads a pipe whose write end it itself and pid 2 (/init) hold; parent 0, pc 0x3c, 12288 bytes, 9 frames
  0: read end of pipe 0
  1: write end of pipe 0
pid 2 (/init) reads a pipe whose write end pid 1 (/init) and it itself hold; parent 1, pc 0x3c, 12288 bytes, 9 frames
  0: read end of pipe 0
  1: write end of pipe 0
free frames: 45
",
        ..REPORTED
    },
    Row {
        name: "a program that is not there is executed",
        init: NOT_THERE,
        text: "\
report: 100 steps, 0 ticks, 0 keys
stopped: the events are used up while pid 1 (/init) runs
pid 1 (/init) runs; parent 0, pc 0x1c, 12288 bytes, 9 frames
free frames: 55
",
        ..REPORTED
    },
    Row {
        name: "66 faults",
        init: FAULTS,
        steps: 5000,
        asked: Asked::Json,
        json: &[
            "      \"pid\": 67,\n      \"program\": \"/init\",\n",
            "  \"more_ended\": 0,\n",
            "  \"more_faults\": 2\n}",
        ],
        ..REPORTED
    },
    Row {
        name: "a child is killed twice before it has a turn",
        init: KILLERS,
        asked: Asked::Json,
        json: &[
            "\
      \"pid\": 2,
      \"program\": \"/init\",
      \"parent\": 1,
      \"how\": \"exit\",
      \"status\": 0,
      \"killer\": null
",
            "\
      \"pid\": 3,
      \"program\": \"/init\",
      \"parent\": 1,
      \"how\": \"killed\",
      \"status\": -1,
      \"killer\": 1
    }
  ],
",
        ],
        ..REPORTED
    },
    Row {
        name: "process 1 kills itself",
        init: KILLS_ITSELF,
        asked: Asked::Json,
        json: &[
            "    \"why\": \"ended\",\n    \"status\": -1,\n",
            "\
      \"at\": 7,
      \"pid\": 1,
      \"program\": \"/init\",
      \"parent\": 0,
      \"how\": \"killed\",
      \"status\": -1,
      \"killer\": 1
",
        ],
        ..REPORTED
    },
    Row {
        name: "a process that is marked to be killed",
        init: MARKED,
        text: "\
report: 100 steps, 0 ticks, 0 keys
stopped: the events are used up while pid 1 (/init) runs
pid 1 (/init) runs; parent 0, pc 0x1c, 12288 bytes, 9 frames
pid 2 (/init) is ready; parent 1, pc 0xc, 12288 bytes, 9 frames, killed
free frames: 46
",
        ..REPORTED
    },
    Row {
        name: "a child that nobody waits for, and a tick after which a sleep is over",
        init: ENDED,
        ticks: 1,
        text: "\
report: 100 steps, 1 ticks, 0 keys
stopped: the events are used up while a process is ready
pid 1 (/init) sleeps until tick 1; parent 0, pc 0x24, 12288 bytes, 9 frames
pid 2 (/init) ended with status 3; parent 1, pc 0x3c, 12288 bytes, 9 frames
free frames: 46
",
        ..REPORTED
    },
    Row {
        name: "a play that is done, after a tick",
        ticks: 1,
        outcome: Outcome {
            halt: None,
            play: Some(PlayEnd::Done),
        },
        asked: Asked::Json,
        json: &[
            "    \"why\": \"ready\",\n    \"status\": null,\n    \"pid\": null\n",
            "    \"end\": \"done\",\n    \"line\": null,\n    \"steps\": null\n",
        ],
        ..REPORTED
    },
    Row {
        name: "bytes of the console that are lost",
        outcome: Outcome {
            halt: Some(Halt::Console),
            play: None,
        },
        asked: Asked::Json,
        json: &["    \"why\": \"console\",\n"],
        ..REPORTED
    },
    Row {
        name: "bytes of the console that are lost, as a text",
        outcome: Outcome {
            halt: Some(Halt::Console),
            play: None,
        },
        text: "\
report: 100 steps, 0 ticks, 0 keys
stopped: the console's bytes were not all taken
pid 1 (/init) runs; parent 0, pc 0x0, 12288 bytes, 9 frames
free frames: 55
",
        ..REPORTED
    },
    Row {
        name: "a machine that takes no events",
        outcome: Outcome {
            halt: Some(Halt::Halted),
            play: None,
        },
        asked: Asked::Json,
        json: &["    \"why\": \"halted\",\n"],
        ..REPORTED
    },
    Row {
        name: "what descriptors are open on",
        init: OPENED,
        text: "\
report: 100 steps, 0 ticks, 0 keys
stopped: the events are used up while pid 1 (/init) runs
pid 1 (/init) runs; parent 0, pc 0x6c, 12288 bytes, 9 frames
  0: file 2 at 4
  1: console
free frames: 55
",
        ..REPORTED
    },
    Row {
        name: "what descriptors are open on, as JSON",
        init: OPENED,
        asked: Asked::Json,
        json: &[
            "\
        {
          \"descriptor\": 0,
          \"on\": {
            \"kind\": \"file\",
            \"number\": 2,
            \"offset\": 4
          },
          \"readable\": true,
          \"writable\": false
        },
        {
          \"descriptor\": 1,
          \"on\": {
            \"kind\": \"console\",
            \"number\": 4,
            \"offset\": null
          },
          \"readable\": false,
          \"writable\": true
        }
",
        ],
        ..REPORTED
    },
    Row {
        name: "pages with the same marks are one line",
        init: LARGER,
        asked: Asked::Pages(1),
        text: "\
pid 1: 20480 bytes, 5 pages
  0x00000000 to 0x00000fff r-x
  0x00001000 to 0x00001fff ---
  0x00002000 to 0x00004fff rw-
",
        ..REPORTED
    },
    Row {
        name: "registers below 0 and of more than 32 bits",
        init: NEGATIVE,
        asked: Asked::Registers(1),
        text: "\
pid 1 (/init): registers
  pc   0x0000000000000018
  ra   0xffffffffffffffff -1
  sp   0x0000000000002fe0 12256
  gp   0xfffffffffffffffe -2
  tp   0xffffff0000000000 -1099511627776
  t0   0x000000ffffffffff 1099511627775
",
        ..REPORTED
    },
];

#[test]
fn reports_tell_of_many(rt: HostRuntime) {
    for row in &ROWS {
        expect_report(&rt, row);
    }
}
