//! Lines as docs/REPORT.md has them.

use jsonrows::{
    Argument, BeginRow, Bytes, CallRow, EndRow, EndedRow, ExitRow, Handed, How, Kind, Latin,
    Printed, TurnRow, VERSION, line,
};
use std::alloc::{AllocError, Global};
use tracetext::CallName;

// A line for a text that is written with each byte.
fn call_of(alloc: Global) -> Result<String, AllocError> {
    let mut handed = Handed::nothing();
    handed.data = Some(Some(Bytes(b"a\"\n\x00\xe9".to_vec(alloc)?)));
    handed.cut = Some(true);
    let arguments = [
        Argument::Int(-1),
        Argument::Address(u64::MAX),
        Argument::Int(4),
    ];
    let row = CallRow {
        at: 9,
        pid: 2,
        program: Some(Latin(b"/sh")),
        call: Printed(CallName(16)),
        since: 7,
        arguments: &arguments,
        result: -1,
        handed,
    };
    line(alloc, Kind::Call, row)
}

// A line of a call that has nothing in memory, and of one whose path can't be read.
fn path_of(alloc: Global, path: Option<Option<Bytes>>) -> Result<String, AllocError> {
    let mut handed = Handed::nothing();
    handed.path = path;
    let row = CallRow {
        at: 1,
        pid: 1,
        program: None,
        call: Printed(CallName(99)),
        since: 1,
        arguments: &[],
        result: 0,
        handed,
    };
    line(alloc, Kind::Call, row)
}

fn exit_of(alloc: Global) -> Result<String, AllocError> {
    let ended = EndedRow {
        at: 3,
        pid: 2,
        program: None,
        parent: 1,
        how: How::Killed,
        status: -1,
        killer: Some(1),
    };
    let descriptors = Vec::new(alloc);
    line(alloc, Kind::Exit, ExitRow { ended, descriptors })
}

#[test]
fn lines_have_their_members(rt: HostRuntime) {
    let alloc = rt.alloc();
    let begin = line(alloc, Kind::Begin, BeginRow { version: VERSION }).expect(&rt, "memory");
    assert_eq!(rt; begin.as_str(), "{\"event\":\"begin\",\"version\":1}\n");
    let call = call_of(alloc).expect(&rt, "memory");
    assert_eq!(rt;
        call.as_str(),
        "{\"event\":\"call\",\"at\":9,\"pid\":2,\"program\":\"/sh\",\"call\":\"write\",\"since\":7,\
        \"arguments\":[-1,18446744073709551615,4],\"result\":-1,\"data\":\"a\\\"\\n\\u0000\u{e9}\",\"cut\":true}\n"
    );
    let none = path_of(alloc, None).expect(&rt, "memory");
    assert_eq!(rt;
        none.as_str(),
        "{\"event\":\"call\",\"at\":1,\"pid\":1,\"program\":null,\"call\":\"call_99\",\"since\":1,\
        \"arguments\":[],\"result\":0}\n"
    );
    let unread = path_of(alloc, Some(None)).expect(&rt, "memory");
    assert!(rt; unread.as_str().ends_with("\"result\":0,\"path\":null}\n"));
    let exit = exit_of(alloc).expect(&rt, "memory");
    assert_eq!(rt;
        exit.as_str(),
        "{\"event\":\"exit\",\"at\":3,\"pid\":2,\"program\":null,\"parent\":1,\"how\":\"killed\",\
        \"status\":-1,\"killer\":1,\"descriptors\":[]}\n"
    );
    let turn = line(
        alloc,
        Kind::Turn,
        TurnRow {
            at: 5,
            pid: 1,
            program: Some(Latin(b"/init")),
        },
    );
    let turn = turn.expect(&rt, "memory");
    assert_eq!(rt;
        turn.as_str(),
        "{\"event\":\"turn\",\"at\":5,\"pid\":1,\"program\":\"/init\"}\n"
    );
    let end = line(alloc, Kind::End, EndRow { at: 6 }).expect(&rt, "memory");
    assert_eq!(rt; end.as_str(), "{\"event\":\"end\",\"at\":6}\n");
}
