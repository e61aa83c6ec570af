//! The faults of each topic: each has a sentence, no two have the same, and no other topic's fault has one.
use crate::tests::{Name, expect_that};
use explanations::{Topic, meaning};
use std::process::Abort;

// A topic, and the lines of its own faults, by their numbers.
type Faults = (Topic, &'static [&'static str]);

static FAULTS: [Faults; 6] = [
    (
        Topic::Machine,
        &[
            "fault 2 FrameCount",
            "fault 3 Device",
            "fault 4 NoMemory",
            "fault 5 NoInit",
        ],
    ),
    (
        Topic::Making,
        &[
            "fault 1 Name",
            "fault 2 Twice",
            "fault 3 Blocks",
            "fault 4 Inodes",
            "fault 5 Parent",
            "fault 6 Numbers",
            "fault 7 NoMemory",
        ],
    ),
    (
        Topic::Image,
        &[
            "fault 1 Length",
            "fault 2 Magic",
            "fault 3 Numbers",
            "fault 4 NodeType",
            "fault 5 Address",
            "fault 6 SharedBlock",
            "fault 7 Bitmap",
            "fault 8 Size",
            "fault 9 Entry",
            "fault 10 Links",
            "fault 11 Unreached",
            "fault 12 Device",
            "fault 13 NoMemory",
        ],
    ),
    (
        Topic::Files,
        &[
            "fault 1 NotFound",
            "fault 2 NotDir",
            "fault 3 Exists",
            "fault 4 IsDir",
            "fault 9 Blocks",
            "fault 10 Inodes",
            "fault 11 Full",
        ],
    ),
    (Topic::Migration, &["fault 2 Blocks", "fault 3 NoMemory"]),
    (
        Topic::Program,
        &[
            "fault 1 Magic",
            "fault 2 Sizes",
            "fault 3 Align",
            "fault 4 Overlap",
            "fault 5 Short",
        ],
    ),
];

// Whether a command on the one topic may come to a fault of the other: what reads an image comes to those of images,
// too.
fn may_have(topic: Topic, other: Topic) -> bool {
    let reads_image = matches!(topic, Topic::Machine | Topic::Files | Topic::Migration);
    topic == other || (reads_image && other == Topic::Image)
}

fn expect_lines(rt: &impl Abort, topic: Topic, faults: &Faults) {
    let (other, lines) = *faults;
    for line in lines {
        let has = meaning(topic, line).is_some();
        expect_that(
            rt,
            ("a fault", line),
            "a sentence",
            has == may_have(topic, other),
        );
    }
}

fn expect_topic(rt: &impl Abort, topic: Topic) {
    for faults in &FAULTS {
        expect_lines(rt, topic, faults);
    }
}

// How many lines of a topic have this sentence.
fn count_meaning(topic: Topic, lines: &[&str], sentence: Option<&str>) -> usize {
    lines
        .iter()
        .filter(|line| meaning(topic, line) == sentence)
        .count()
}

fn expect_own(rt: &impl Abort, faults: &Faults) {
    let (topic, lines) = *faults;
    for line in lines {
        let count = count_meaning(topic, lines, meaning(topic, line));
        expect_that(rt, ("a fault", line), "its own sentence", count == 1);
    }
}

// A topic, a line of it, and words that its sentence has.
type Row = (Topic, &'static str, &'static str);

static ROWS: [Row; 12] = [
    (
        Topic::Image,
        "fault 2 Magic",
        "of the large format: xv6 migrate",
    ),
    (
        Topic::Files,
        "fault 2 Magic",
        "of the large format: xv6 migrate",
    ),
    (
        Topic::Migration,
        "fault 2 Magic",
        "no image of the small format",
    ),
    (Topic::Migration, "fault 3 Numbers", "super block"),
    (Topic::Making, "fault 6 Numbers", "--inodes"),
    (Topic::Files, "fault 3 Exists", "a device"),
    (Topic::Files, "fault 9 Blocks", "67382272"),
    (Topic::Making, "fault 3 Blocks", "--size"),
    (Topic::Migration, "fault 2 Blocks", "large format"),
    (Topic::Machine, "j is named twice", "another file"),
    (Topic::Files, "a.img is in use", "try again"),
    (
        Topic::Machine,
        "cannot read standard input: Is a directory",
        "standard input gave an error",
    ),
];

fn expect_words(rt: &impl Abort, name: Name<'_>, topic: Topic, words: &str) {
    let said = meaning(topic, name.1).unwrap_or("");
    expect_that(rt, name, words, said.contains(words));
}

fn expect_rows(rt: &impl Abort) {
    for (topic, line, words) in &ROWS {
        expect_words(rt, ("a sentence", line), *topic, words);
    }
}

fn expect_topics(rt: &impl Abort) {
    for faults in &FAULTS {
        expect_topic(rt, faults.0);
        expect_own(rt, faults);
    }
    expect_topic(rt, Topic::Assembly);
}

#[test]
fn each_fault_has_a_sentence(rt: HostRuntime) {
    expect_topics(&rt);
    expect_rows(&rt);
}
