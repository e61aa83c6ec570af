//! Traces in files.
use crate::tests::living::desk_of;
use crate::tests::runs::{HELLO, INIT, with_image};
use crate::tests::telling::expect_parts;
use crate::tests::{UNTOLD, expect, expect_text, expect_that};
use commands::perform::perform;
use commands::{Job, Lines, Part, Run, Trace};
use std::num::NonZeroU64;
use std::process::Abort;

const LINES: Lines = Lines {
    bytes: 32,
    each: false,
    time: false,
    turns: false,
    core_is_pid: false,
};

pub const ALL: Trace<'static> = Trace {
    run: Run {
        frames: 64,
        tlb: false,
        fail: None,
        save: None,
        telling: UNTOLD,
        image: "image",
        script: "record",
    },
    part: Part {
        pid: None,
        calls: None,
        from: None,
        to: None,
    },
    lines: LINES,
    text: None,
    perfetto: None,
    commits: None,
    jsonl: None,
    play: false,
};

const TEXT: &str =
    "[pid 1] write(1, \"hi\\n\", 3) = -1\n[pid 1] exit(0) = ?\n[pid 1] +++ ended with 0 +++\n";

// What is traced into the file, if it is that, and whether the image that is left can be written and the boot fails.
struct Row {
    name: &'static str,
    text: Option<&'static str>,
    perfetto: Option<&'static str>,
    commits: Option<&'static str>,
    jsonl: Option<&'static str>,
    // The events, and whether they are those of a play.
    events: &'static str,
    play: bool,
    save: Option<&'static str>,
    fail: u64,
    // How long the file may get, standard error and status, and how the file ends.
    room: usize,
    stderr: &'static str,
    status: u8,
    end: &'static str,
}

const ENDED: &str = "halt 1 InitEnded 0\n";

const TOLD_AND_ENDED: &str =
    "[pid 1] write(1, \"hi\\n\", 3) = -1\n[pid 1] exit(0) = ?\n[pid 1] +++ ended with 0 +++\n\
    halt 1 InitEnded 0\n";

const LOST: &str = "halt 1 InitEnded 0\ncannot write record\n";

const TOLD_AND_LOST: &str =
    "[pid 1] write(1, \"hi\\n\", 3) = -1\n[pid 1] exit(0) = ?\n[pid 1] +++ ended with 0 +++\n\
    halt 1 InitEnded 0\ncannot write record\n";

const UNSAVED: &str = "halt 1 InitEnded 0\ncannot write none\n";

const UNREAD: &str = "script:1: until: more has to follow\n";

const UNBOOTED: &str = "fault 3 Device\n";

// What the file has before.
const OLD: &str = "an old trace";

// The end of a file of events.
const LAST_EVENTS: &str = "\"arguments\":[1,32,3],\"result\":-1,\"data\":\"hi\\n\",\"cut\":false}\n\
    {\"event\":\"exit\",\"at\":9,\"pid\":1,\"program\":\"/init\",\"parent\":0,\"how\":\"exit\",\"status\":0,\
    \"killer\":null,\"descriptors\":[]}\n\
    {\"event\":\"end\",\"at\":9}\n";

static TRACED: [Row; 10] = [
    Row {
        name: "a text in a file",
        text: Some("record"),
        perfetto: None,
        commits: None,
        jsonl: None,
        events: "step 9",
        play: false,
        save: None,
        fail: 0,
        room: 1000,
        stderr: ENDED,
        status: 0,
        end: TEXT,
    },
    Row {
        name: "a trace for Perfetto in a file",
        text: None,
        perfetto: Some("record"),
        commits: None,
        jsonl: None,
        events: "step 9",
        play: false,
        save: None,
        fail: 0,
        room: 10000,
        stderr: TOLD_AND_ENDED,
        status: 0,
        end: "\n]}\n",
    },
    Row {
        name: "commits in a file",
        text: None,
        perfetto: None,
        commits: Some("record"),
        jsonl: None,
        events: "step 9",
        play: false,
        save: None,
        fail: 0,
        room: 10000,
        stderr: TOLD_AND_ENDED,
        status: 0,
        end: "(0x00200893) x17 0x0000000000000002\n# pid 1 ended with 0\n",
    },
    Row {
        name: "lines of events in a file",
        text: None,
        perfetto: None,
        commits: None,
        jsonl: Some("record"),
        events: "step 9",
        play: false,
        save: None,
        fail: 0,
        room: 10000,
        stderr: TOLD_AND_ENDED,
        status: 0,
        end: LAST_EVENTS,
    },
    Row {
        name: "lines of the events of a play",
        text: None,
        perfetto: None,
        commits: None,
        jsonl: Some("record"),
        events: "until halt 9 # or not",
        play: true,
        save: None,
        fail: 0,
        room: 10000,
        stderr: TOLD_AND_ENDED,
        status: 0,
        end: LAST_EVENTS,
    },
    Row {
        name: "a play that can't be read",
        text: None,
        perfetto: None,
        commits: None,
        jsonl: Some("record"),
        events: "until",
        play: true,
        save: None,
        fail: 0,
        room: 10000,
        stderr: UNREAD,
        status: 1,
        end: OLD,
    },
    Row {
        name: "a text that finds no room",
        text: Some("record"),
        perfetto: None,
        commits: None,
        jsonl: None,
        events: "step 9",
        play: false,
        save: None,
        fail: 0,
        room: 10,
        stderr: LOST,
        status: 1,
        end: "",
    },
    Row {
        name: "commits that find no room",
        text: None,
        perfetto: None,
        commits: Some("record"),
        jsonl: None,
        events: "step 9",
        play: false,
        save: None,
        fail: 0,
        room: 10,
        stderr: TOLD_AND_LOST,
        status: 1,
        end: "",
    },
    Row {
        name: "a run that can't be saved",
        text: Some("record"),
        perfetto: None,
        commits: None,
        jsonl: None,
        events: "step 9",
        play: false,
        save: Some("none"),
        fail: 0,
        room: 1000,
        stderr: UNSAVED,
        status: 1,
        end: TEXT,
    },
    Row {
        name: "a boot that fails",
        text: Some("record"),
        perfetto: None,
        commits: None,
        jsonl: None,
        events: "step 9",
        play: false,
        save: None,
        fail: 1,
        room: 1000,
        stderr: UNBOOTED,
        status: 1,
        end: OLD,
    },
];

fn job_of(row: &Row) -> Job<'static> {
    Job::Trace(Trace {
        run: Run {
            fail: NonZeroU64::new(row.fail),
            save: row.save,
            script: "script",
            ..ALL.run
        },
        text: row.text,
        perfetto: row.perfetto,
        commits: row.commits,
        jsonl: row.jsonl,
        play: row.play,
        ..ALL
    })
}

// Traces a run of up to nine steps.
fn expect_traced(rt: &(impl Abort + AllocGlobal), image: &[u8], row: &Row) {
    let name = ("a trace", row.name);
    let mut desk = desk_of(rt.alloc(), image, b"", row.room).expect(rt, "memory");
    desk.script = row
        .events
        .as_bytes()
        .to_vec(rt.alloc())
        .expect(rt, "memory");
    desk.record = OLD.as_bytes().to_vec(rt.alloc()).expect(rt, "memory");
    expect(
        rt,
        name,
        &mut desk,
        &job_of(row),
        ("", row.stderr, row.status),
    );
    let same = desk.record.as_slice().ends_with(row.end.as_bytes());
    expect_that(rt, name, "its file", same);
}

// What is asked of a trace, and the text of the file.
struct Asked {
    name: &'static str,
    lines: Lines,
    text: &'static str,
}

static ASKED: [Asked; 2] = [
    Asked {
        name: "with times",
        lines: Lines {
            time: true,
            ..LINES
        },
        text: "6 [pid 1] write(1, \"hi\\n\", 3) = -1\n9 [pid 1] exit(0) = ?\n9 [pid 1] +++ ended with 0 +++\n",
    },
    Asked {
        name: "with turns",
        lines: Lines {
            turns: true,
            ..LINES
        },
        text: "[pid 1] --- turn ---\n[pid 1] write(1, \"hi\\n\", 3) = -1\n\
            [pid 1] exit(0) = ?\n[pid 1] +++ ended with 0 +++\n",
    },
];

fn expect_asked(rt: &(impl Abort + AllocGlobal), image: &[u8], asked: &Asked) {
    let name = ("a trace", asked.name);
    let mut desk = desk_of(rt.alloc(), image, b"", 10000).expect(rt, "memory");
    desk.script = b"step 9".to_vec(rt.alloc()).expect(rt, "memory");
    let job = Job::Trace(Trace {
        run: Run {
            script: "script",
            ..ALL.run
        },
        lines: asked.lines,
        text: Some("record"),
        ..ALL
    });
    expect(rt, name, &mut desk, &job, ("", ENDED, 0));
    expect_text(rt, name, desk.record.as_slice(), asked.text);
}

const NAMED: &str = "pid 1 (/init) ended with status 0; parent 0, pc 0x20, 12288 bytes, 9 frames\n";

// A report of a run that is traced.
fn expect_report(rt: &(impl Abort + AllocGlobal), image: &[u8]) {
    let mut desk = desk_of(rt.alloc(), image, b"", 10000).expect(rt, "memory");
    desk.record = b"step 9".to_vec(rt.alloc()).expect(rt, "memory");
    let mut words = ALL;
    words.run.telling.report = true;
    let mut out = Vec::new(rt.alloc());
    let mut err = Vec::new(rt.alloc());
    let _ = perform(
        rt.alloc(),
        &Job::Trace(words),
        &mut desk,
        &mut out,
        &mut err,
    );
    let parts = &[TEXT, "report: 9 steps, 0 ticks, 0 keys\n", NAMED];
    expect_parts(rt, ("a trace", "with a report"), err.as_slice(), parts);
}

fn expect_all_traced(rt: &(impl Abort + AllocGlobal)) {
    let files = with_image(rt, HELLO, INIT, 32);
    for row in &TRACED {
        expect_traced(rt, files.image.as_slice(), row);
    }
    for asked in &ASKED {
        expect_asked(rt, files.image.as_slice(), asked);
    }
    expect_report(rt, files.image.as_slice());
}

#[test]
fn traces_go_to_files(rt: HostRuntime) {
    expect_all_traced(&rt);
}
