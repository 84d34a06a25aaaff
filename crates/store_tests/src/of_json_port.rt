//! Lines of JSON: each kind of line is read where memory is there.
use itpg_base::TextCode;
use itpg_edit::Edit;
use json_port::{JsonFault, JsonLine, read_json};
use std::alloc::Global;
use std::test::Fail;

// Whether the line lets the object `a` exist from -3 to 7.
fn lives(alloc: Global, line: &[u8]) -> bool {
    match &read_json(alloc, line) {
        Ok(JsonLine::Edit(Edit::Live { id, from, to })) => {
            id.bytes() == b"a".as_slice() && *from == -3 && *to == 7
        }
        _ => false,
    }
}

// How many labels the node has that the line declares.
fn labels(alloc: Global, line: &[u8]) -> Option<usize> {
    match &read_json(alloc, line) {
        Ok(JsonLine::Edit(Edit::AddNode { labels, .. })) => Some(labels.len()),
        _ => None,
    }
}

// Whether the line has this fault.
fn is_bad(alloc: Global, line: &[u8], code: TextCode) -> bool {
    matches!(read_json(alloc, line), Err(JsonFault::Bad(found)) if found == code)
}

#[test]
fn edits_are_read(rt: HostRuntime) -> Result<(), Fail> {
    let alloc = rt.alloc();
    assert!(rt; matches!(read_json(alloc, b" \t\r"), Ok(JsonLine::Blank)));
    assert!(rt;
        lives(
            alloc,
            b"{\"op\":\"live\",\"id\":\"a\",\"from\":-3,\"to\":7}\r"
        )
    );
    assert!(rt;
        lives(
            alloc,
            b" { \"to\" : 7, \"from\":-3, \"id\":null, \"id\":\"\\u0061\", \"op\":\"live\" } "
        )
    );
    assert_eq!(rt;
        labels(
            alloc,
            b"{\"op\":\"node\",\"id\":\"a\",\"labels\":[\"T\",\"S\",\"T\"]}"
        ),
        Some(2)
    );
    Ok(())
}

#[test]
fn plain_lines_are_handed_out(rt: HostRuntime) -> Result<(), Fail> {
    let line = read_json(rt.alloc(), b"{\"op\":\"text\",\"line\":\"ask (x:Person)\"}");
    let Ok(JsonLine::Text(plain)) = &line else {
        return Err("a plain line".into());
    };
    assert_eq!(rt; plain.bytes(), b"ask (x:Person)".as_slice());
    Ok(())
}

#[test]
fn faults_are_named(rt: HostRuntime) -> Result<(), Fail> {
    let alloc = rt.alloc();
    assert!(rt; is_bad(alloc, b"# no comment", TextCode::Text));
    assert!(rt; is_bad(alloc, b"{\"op\":\"live\",\"id\":\"a\"}", TextCode::Text));
    assert!(rt;
        is_bad(
            alloc,
            b"{\"op\":\"extend\",\"lo\":0,\"hi\":1000000000001}",
            TextCode::Number
        )
    );
    assert!(rt;
        is_bad(
            alloc,
            b"{\"op\":\"drop\",\"id\":\"aaaaaaaaaaaaaaaaaaaaaaaaaaaaaaaaaaaaaaaaaaaaaaaaaaaaaaaaaaaaaaaaa\"}",
            TextCode::Name
        )
    );
    Ok(())
}
