//! Lines of recorded events.

use events::{Record, Transcript};
use std::alloc::{AllocError, Global};

// What is recorded when a line is typed between steps.
fn typed(alloc: Global) -> Transcript {
    let mut transcript = Transcript::new(alloc);
    transcript.steps(200);
    transcript.steps(0);
    transcript.steps(15);
    transcript.keys(b"hi");
    transcript.keys(b"\n");
    transcript.ticks(1);
    transcript.ticks(2);
    transcript.steps(0);
    transcript
}

// The text of what is recorded.
fn text_of(alloc: Global, transcript: &Transcript, wanted: &str) -> Result<bool, AllocError> {
    let text = transcript.text(alloc)?;
    Ok(text.as_str() == wanted)
}

#[test]
fn events_of_one_kind_are_one_line(rt: HostRuntime) {
    let transcript = typed(rt.alloc());
    let is_so = text_of(rt.alloc(), &transcript, "step 215\nkeys 68690a\ntick 3\n");
    assert!(rt; is_so == Ok(true));
}

#[test]
fn lines_have_64_keys_and_a_billion_steps_at_most(rt: HostRuntime) {
    let mut transcript = Transcript::new(rt.alloc());
    transcript.keys(&[0x61; 65]);
    transcript.steps(999_999_999);
    transcript.steps(2);
    let text = transcript.text(rt.alloc()).expect(&rt, "memory");
    assert!(rt;
        text.as_str()
            .ends_with("61\nkeys 61\nstep 999999999\nstep 2\n")
            && text.len() == 164
    );
}
