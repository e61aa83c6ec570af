//! Stored plays, and the scripts that they come to.
use crate::tests::living::LISTENS;
use crate::tests::runs::{WITH_CONSOLE, with_image};
use crate::tests::telling::{expect_explained, expect_parts};
use crate::tests::{UNTOLD, expect, expect_that, text_of};
use commands::perform::perform;
use commands::{Host, HostFault, Job, NoScreen, Play, Run, Telling};
use std::alloc::{AllocError, Global};
use std::process::Abort;

// The files `image` and `play`, and `script`, which alone can be written.
#[derive(Drop)]
struct Stage {
    image: Vec<u8>,
    play: Vec<u8>,
    script: Vec<u8>,
}

impl Host for Stage {
    type Screen = NoScreen;

    fn read(&mut self, name: &str) -> Result<Vec<u8>, HostFault> {
        let found = if name == "image" {
            &self.image
        } else if name == "play" {
            &self.play
        } else if name == "script" {
            &self.script
        } else {
            return Err(HostFault);
        };
        found.clone().map_err(|_| HostFault)
    }

    fn write(&mut self, name: &str, bytes: &[u8]) -> Result<(), HostFault> {
        self.script.clear();
        self.append(name, bytes)
    }

    fn append(&mut self, name: &str, bytes: &[u8]) -> Result<(), HostFault> {
        if name != "script" {
            return Err(HostFault);
        }
        self.script.extend_from_slice(bytes).map_err(|_| HostFault)
    }
}

fn stage_of(alloc: Global, image: &[u8], play: &str) -> Result<Stage, AllocError> {
    Ok(Stage {
        image: image.to_vec(alloc)?,
        play: play.as_bytes().to_vec(alloc)?,
        script: Vec::new(alloc),
    })
}

fn run(script: &str, tlb: bool) -> Run<'_> {
    Run {
        frames: 256,
        tlb,
        fail: None,
        save: None,
        telling: UNTOLD,
        image: "image",
        script,
    }
}

// A play on an image.
pub fn play_on(image: &'static str, script: &'static str) -> Job<'static> {
    let mut run = run(script, false);
    run.image = image;
    Job::Play(Play { run, script: None })
}

pub fn play_of(tlb: bool, script: Option<&'static str>) -> Job<'static> {
    Job::Play(Play {
        run: run("play", tlb),
        script,
    })
}

// The first process waits for its children. Its child reads lines, and for each its own child prints `$ `, as it does
// itself, and `x` two ticks later.
const PROMPTS: &str = "\
    la a0, console\n li a1, 2\n li a7, 15\n ecall\n li a7, 1\n ecall\n beq a0, zero, shell\n\
    waits: li a0, 0\n li a7, 3\n ecall\n j waits\n\
    shell: li a0, 0\n la a1, prompt\n li a2, 2\n li a7, 16\n ecall\n\
    li a0, 0\n la a1, line\n li a2, 100\n li a7, 5\n ecall\n li a7, 1\n ecall\n beq a0, zero, job\n\
    li a0, 0\n li a7, 3\n ecall\n j shell\n\
    job: li a0, 0\n la a1, prompt\n li a2, 2\n li a7, 16\n ecall\n li a0, 2\n li a7, 13\n ecall\n\
    li a0, 0\n la a1, said\n li a2, 2\n li a7, 16\n ecall\n li a0, 0\n li a7, 2\n ecall\n\
    console: .ascii \"console\\0\"\nprompt: .ascii \"$ \"\nsaid: .ascii \"x\\n\"\nline: .zero 100\n";

// A play, standard output, standard error, status, and the script that it comes to.
type Row = (&'static str, &'static str, &'static str, u8, &'static str);

static PLAYED: [Row; 18] = [
    ("", "", "running\n", 0, ""),
    (
        "# nothing\n\n   step 3 # steps\nstep 4\n",
        "",
        "running\n",
        0,
        "step 7\n",
    ),
    (
        "every 3 tick\nstep 4\nstep 4\nevery 0 tick\nstep 1\n",
        "",
        "running\n",
        0,
        "step 3\ntick 1\nstep 3\ntick 1\nstep 3\n",
    ),
    (
        "repeat 2 {\n  tick 2\n  repeat 0 {\n    step 9\n  }\n  repeat 2 {\n    step 1\n  }\n}\ntick 1",
        "",
        "running\n",
        0,
        "tick 2\nstep 2\ntick 2\nstep 2\ntick 1\n",
    ),
    (
        "random 1 2 tick\nstep 8\n",
        "",
        "running\n",
        0,
        "step 1\ntick 1\nstep 4\ntick 1\nstep 1\ntick 1\nstep 1\ntick 1\nstep 1\n",
    ),
    (
        "until \"\\x61\\t\\\\\\\"\" 3\nstep 1",
        "",
        "play:1: not reached in 3 steps\n",
        1,
        "step 3\n",
    ),
    (
        "tick 1\nuntil idle 0",
        "",
        "play:2: not reached in 0 steps\n",
        1,
        "tick 1\n",
    ),
    (
        "until halt 5",
        "",
        "play:1: not reached in 5 steps\n",
        1,
        "step 5\n",
    ),
    (
        "until idle 1000\ntype a\nuntil \"a\\na\\n\" 1000",
        "a\n",
        "play:3: not reached in 8 steps; nobody is ready: pid 1 sleeps until tick 2\n",
        1,
        "",
    ),
    (
        "until idle 1000\ntype a\nevery 100 tick\nuntil \"a\\na\\n\" 1000\nkeys 04\nuntil halt 1000\nstep 5",
        "a\na\n\x04",
        "halt 1 InitEnded 7\n",
        0,
        "",
    ),
    (
        "every 50 tick\nrepeat 3 {\n  until idle 1000\n  type x\n  step 500\n}",
        "x\nx\nx\nx\nx\nx\n",
        "running\n",
        0,
        "",
    ),
    (
        "random 7 50 tick\nrepeat 2 {\n  until idle 1000\n  type y\n  step 2000\n}",
        "y\ny\ny\ny\n",
        "running\n",
        0,
        "",
    ),
    (
        "until prompt 1000\ntype a\nevery 100 tick\nuntil prompt 1000\nkeys 04\nuntil halt 1000",
        "a\na\n\x04",
        "halt 1 InitEnded 7\n",
        0,
        "",
    ),
    (
        "until quiet 0",
        "",
        "play:1: not reached in 0 steps\n",
        1,
        "",
    ),
    (
        "until prompt 16",
        "",
        "play:1: not reached in 16 steps\n",
        1,
        "step 16\n",
    ),
    (
        "until quiet 17\nuntil prompt 0\nuntil halt 1000000000",
        "",
        "play:3: not reached in 0 steps; nobody is ready: pid 1 reads the console\n",
        1,
        "step 17\n",
    ),
    (
        "until quiet 17\ntype a\nuntil idle 1000\nuntil quiet 1000",
        "a\n",
        "play:4: not reached in 0 steps; nobody is ready: pid 1 sleeps until tick 2\n",
        1,
        "step 17\nkeys 610a\nstep 8\n",
    ),
    (
        "until idle 17\nrepeat 1000000000 {\nrepeat 1000000000 {\nuntil idle 5\nevery 9 tick\n}\n}\nstep 9",
        "",
        "running\n",
        0,
        "step 26\ntick 1\n",
    ),
];

// The same with `PROMPTS`. A prompt is not the text of one, and no program that sleeps.
static PROMPTED: [Row; 4] = [
    (
        "every 100 tick\nuntil prompt 1000\ntype a\nuntil prompt 1000\ntype b\nuntil prompt 1000",
        "$ a\n$ x\n$ b\n$ x\n$ ",
        "running\n",
        0,
        "",
    ),
    (
        "every 100 tick\nuntil prompt 1000\ntype a\nuntil \"$ \" 1000\nuntil \"\\n$ \" 1000\nuntil quiet 1000",
        "$ a\n$ x\n$ ",
        "running\n",
        0,
        "",
    ),
    (
        "until prompt 1000\ntype a\nuntil idle 1000\nuntil prompt 1000",
        "$ a\n$ ",
        "play:4: not reached in 0 steps; nobody is ready: pid 1 waits for a child; pid 2 waits for a child; pid 3 \
            sleeps until tick 2\n",
        1,
        "",
    ),
    (
        "until prompt 1000\ntype a\nuntil \"x\" 1000\n",
        "$ a\n$ ",
        "play:3: not reached in 26 steps; nobody is ready: pid 1 waits for a child; pid 2 waits for a child; pid 3 \
            sleeps until tick 2\n",
        1,
        "",
    ),
];

// A script, run on the same image, prints what the play printed, and ends as it did unless that waited in vain.
fn expect_played(rt: &(impl Abort + AllocGlobal), image: &[u8], row: &Row, tlb: bool) {
    let (play, stdout, stderr, status, script) = *row;
    let mut stage = stage_of(rt.alloc(), image, play).expect(rt, "memory");
    let job = play_of(tlb, Some("script"));
    expect(
        rt,
        ("a play", play),
        &mut stage,
        &job,
        (stdout, stderr, status),
    );
    let same = script.is_empty() || stage.script.as_slice() == script.as_bytes();
    expect_that(rt, ("a play", play), "its script", same);
    let replay = Job::Run(run("script", tlb));
    let line = if status == 0 { stderr } else { "running\n" };
    expect(
        rt,
        ("its script", play),
        &mut stage,
        &replay,
        (stdout, line, 0),
    );
}

// Plays that can't be read, and what is printed of them: the line, the word, and why.
static FAULTS: [(&str, &str); 34] = [
    ("untill", "play:1: untill: no such command\n"),
    (
        "step 1\n\n  # none\ntick",
        "play:4: tick: more has to follow\n",
    ),
    ("step x", "play:1: x: no number up to 1000000000\n"),
    (
        "step 1000000001",
        "play:1: 1000000001: no number up to 1000000000\n",
    ),
    ("step -1", "play:1: -1: no number up to 1000000000\n"),
    ("step 1 2", "play:1: 2: nothing may follow here\n"),
    (
        "step 1 # 2\ntick 1 x",
        "play:2: x: nothing may follow here\n",
    ),
    ("keys 7", "play:1: 7: no pairs of hexadecimal digits\n"),
    ("keys 7G", "play:1: 7G: no pairs of hexadecimal digits\n"),
    ("keys", "play:1: keys: more has to follow\n"),
    ("until", "play:1: until: more has to follow\n"),
    (
        "until halted 5",
        "play:1: halted: no \"text\", prompt, quiet, idle or halt\n",
    ),
    (
        "step 1\nuntil promt 5",
        "play:2: promt: no \"text\", prompt, quiet, idle or halt\n",
    ),
    ("until prompt", "play:1: prompt: more has to follow\n"),
    (
        "until quiet 1000000001",
        "play:1: 1000000001: no number up to 1000000000\n",
    ),
    ("until idle", "play:1: idle: more has to follow\n"),
    ("until \"$ \"", "play:1: \"$ \": more has to follow\n"),
    ("until \"$ 5", "play:1: \"$ 5: no quote ends it\n"),
    ("until \"\\\" 5", "play:1: \"\\\" 5: no quote ends it\n"),
    ("until \"\" 5", "play:1: \"\": no text of 1 to 64 bytes\n"),
    (
        "until \"0123456789abcdef0123456789abcdef0123456789abcdef0123456789abcdef.\" 5",
        "play:1: \"0123456789abcdef0123456789abcdef0123456789abcdef0123456789abcdef.\": no text of 1 to 64 bytes\n",
    ),
    ("until \"\\q\" 5", "play:1: \"\\q\": an unknown escape\n"),
    ("until \"\\x4\" 5", "play:1: \"\\x4\": an unknown escape\n"),
    (
        "until \"\\x4G\" 5",
        "play:1: \"\\x4G\": an unknown escape\n",
    ),
    ("every 5", "play:1: every: more has to follow\n"),
    ("every 5 tack", "play:1: tack: tick is wanted here\n"),
    ("every tick", "play:1: tick: no number up to 1000000000\n"),
    (
        "random 1 tick",
        "play:1: tick: no number up to 1000000000\n",
    ),
    ("random 1 2 ticks", "play:1: ticks: tick is wanted here\n"),
    ("repeat 2", "play:1: repeat: more has to follow\n"),
    (
        "repeat 2 {\nstep 1\nrepeat 3 {\n}",
        "play:1: repeat: no } ends it\n",
    ),
    ("repeat 2 {\nrepeat 3 {", "play:2: repeat: no } ends it\n"),
    ("step 1\n}", "play:2: }: no repeat is open\n"),
    (
        "repeat 1 {\nrepeat 1 {\nrepeat 1 {\nrepeat 1 {\nrepeat 1 {\nrepeat 1 {\nrepeat 1 {\nrepeat 1 {\n repeat 1 {",
        "play:9: repeat: more than 8 in one another\n",
    ),
];

fn expect_fault(rt: &(impl Abort + AllocGlobal), play: &str, line: &str) {
    let mut stage = stage_of(rt.alloc(), &[], play).expect(rt, "memory");
    let job = play_of(false, None);
    expect(rt, ("a fault", play), &mut stage, &job, ("", line, 1));
}

fn expect_faults(rt: &(impl Abort + AllocGlobal)) {
    for (play, line) in &FAULTS {
        expect_fault(rt, play, line);
    }
}

fn expect_word_meant(rt: &(impl Abort + AllocGlobal)) {
    let mut stage = stage_of(rt.alloc(), &[], "untill").expect(rt, "memory");
    let more = "explain: untill: did you mean until?\n";
    let line = "play:1: untill: no such command";
    expect_explained(rt, &mut stage, &play_of(false, None), line, more);
}

fn expect_all_played(rt: &(impl Abort + AllocGlobal), image: &[u8], rows: &[Row]) {
    for row in rows {
        expect_played(rt, image, row, false);
        expect_played(rt, image, row, true);
    }
}

// The steps of a machine on which nobody is ready are counted, and not watched one by one.
fn expect_idle_counted(rt: &(impl Abort + AllocGlobal), image: &[u8]) {
    let text = "until idle 17\nevery 500000000 tick\nuntil \"x\" 1000000000";
    let mut stage = stage_of(rt.alloc(), image, text).expect(rt, "memory");
    let mut words = run("play", false);
    words.telling.report = true;
    let job = Job::Play(Play {
        run: words,
        script: None,
    });
    let told = "report: 1000000017 steps, 2 ticks, 0 keys\nstopped: nobody is ready\n";
    let mut out = Vec::new(rt.alloc());
    let mut err = Vec::new(rt.alloc());
    let ended = perform(rt.alloc(), &job, &mut stage, &mut out, &mut err);
    let is_told = err.as_slice().starts_with(told.as_bytes());
    expect_that(
        rt,
        ("a play", text),
        text_of(err.as_slice()),
        is_told && ended == 1,
    );
}

// What the report of a play as JSON, in the file `script`, says of the play.
const ENDS: &[(&str, &str)] = &[
    ("step 1", "    \"end\": \"done\",\n"),
    ("until halt 1", "    \"end\": \"unreached\",\n"),
    (
        "until prompt 1000\nkeys 04\nuntil halt 1000",
        "    \"end\": \"halted\",\n",
    ),
];

fn expect_end(rt: &(impl Abort + AllocGlobal), image: &[u8], text: &str, part: &str) {
    let mut stage = stage_of(rt.alloc(), image, text).expect(rt, "memory");
    let words = run("play", false);
    let telling = Telling {
        json: Some("script"),
        ..words.telling
    };
    let job = Job::Play(Play {
        run: Run { telling, ..words },
        script: None,
    });
    let mut out = Vec::new(rt.alloc());
    let mut err = Vec::new(rt.alloc());
    let _ = perform(rt.alloc(), &job, &mut stage, &mut out, &mut err);
    expect_parts(rt, ("a play", text), stage.script.as_slice(), &[part]);
}

fn expect_ends(rt: &(impl Abort + AllocGlobal), image: &[u8]) {
    for (text, part) in ENDS {
        expect_end(rt, image, text, part);
    }
}

fn expect_plays(rt: &(impl Abort + AllocGlobal)) {
    let files = with_image(rt, LISTENS, WITH_CONSOLE, 32);
    expect_all_played(rt, files.image.as_slice(), &PLAYED);
    expect_idle_counted(rt, files.image.as_slice());
    expect_ends(rt, files.image.as_slice());
    let files = with_image(rt, PROMPTS, WITH_CONSOLE, 32);
    expect_all_played(rt, files.image.as_slice(), &PROMPTED);
    expect_faults(rt);
    expect_word_meant(rt);
}

#[test]
fn scripts_of_plays_print_the_same(rt: HostRuntime) {
    expect_plays(&rt);
}
