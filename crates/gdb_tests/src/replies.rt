//! Bodies as the protocol has them, from gdb's manual.
use gdbreplies::{
    Signal, Stop, push_current, push_description, push_end, push_exec, push_file_part,
    push_file_status, push_part, push_registers, push_stop, push_threads,
};
use gdbwire::Part;
use std::alloc::AllocError;

// A stop of process 2, and its body.
const STOPS: [(Stop, &[u8]); 8] = [
    (Stop::Stepped, b"T05thread:p2.2;"),
    (Stop::Broke, b"T05swbreak:;thread:p2.2;"),
    (Stop::Wrote(0x4010), b"T05watch:4010;thread:p2.2;"),
    (Stop::Accessed(0), b"T05awatch:0;thread:p2.2;"),
    (Stop::Forked(17), b"T05fork:p11.11;thread:p2.2;"),
    (Stop::Begins, b"T05replaylog:begin;thread:p2.2;"),
    (Stop::Faults(Signal::Segmentation), b"T0bthread:p2.2;"),
    (Stop::Interrupted, b"T02thread:p2.2;"),
];

#[test]
fn stops_are_written_as_the_protocol_has_them(rt: HostRuntime) {
    for (stop, body) in &STOPS {
        let mut out = Vec::new(rt.alloc());
        push_stop(2, *stop, &mut out).expect(&rt, "memory");
        assert!(rt; out.as_slice() == *body);
    }
}

// What is sent of processes and their ends, one after the other.
fn push_words(out: &mut Vec<u8>) -> Result<(), AllocError> {
    push_threads(&[], out)?;
    push_threads(&[1, 16], out)?;
    push_current(2, out)?;
    push_exec(2, b"/a", out)?;
    push_end(3, 255, out)
}

#[test]
fn processes_are_written_as_the_protocol_has_them(rt: HostRuntime) {
    let mut out = Vec::new(rt.alloc());
    push_words(&mut out).expect(&rt, "memory");
    assert!(rt;
        out.as_slice() == b"lmp1.1,p10.10QCp2.2T05exec:2f61;thread:p2.2;Wff;process:3".as_slice()
    );
}

// A part of ten bytes, and what is sent.
const PARTS: [(Part, &[u8]); 4] = [
    (Part { from: 0, count: 4 }, b"m0123"),
    (Part { from: 4, count: 6 }, b"l456789"),
    (
        Part {
            from: 9,
            count: u64::MAX,
        },
        b"l9",
    ),
    (
        Part {
            from: u64::MAX,
            count: 1,
        },
        b"l",
    ),
];

#[test]
fn parts_of_documents_end_with_the_document(rt: HostRuntime) {
    for (part, body) in &PARTS {
        let mut out = Vec::new(rt.alloc());
        push_part(b"0123456789", *part, &mut out).expect(&rt, "memory");
        assert!(rt; out.as_slice() == *body);
    }
    let mut out = Vec::new(rt.alloc());
    push_file_part(b"0123456789", Part { from: 8, count: 16 }, &mut out).expect(&rt, "memory");
    assert!(rt; out.as_slice() == b"F2;89".as_slice());
}

#[test]
fn registers_and_files_have_their_lengths(rt: HostRuntime) {
    let mut registers = [0; 32];
    registers[1] = 0x0102_0304_0506_0708;
    let mut out = Vec::new(rt.alloc());
    push_registers(&registers, 0x28, &mut out).expect(&rt, "memory");
    assert!(rt;
        out.len() == 528
            && out
                .as_slice()
                .starts_with(b"00000000000000000807060504030201000000")
    );
    assert!(rt; out.as_slice().ends_with(b"002800000000000000"));
    out.clear();
    push_file_status(0x1234, &mut out).expect(&rt, "memory");
    assert!(rt;
        out.len() == 68
            && out
                .as_slice()
                .starts_with(b"F40;\0\0\0\0\0\0\0\0\0\0\x81\xed\0\0\0\x01")
    );
    out.clear();
    push_description(&mut out).expect(&rt, "memory");
    assert!(rt;
        out.as_slice()
            .ends_with(b"offset=\"256\" generic=\"pc\"/></feature></target>")
    );
}
