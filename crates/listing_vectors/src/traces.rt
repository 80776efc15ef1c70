use listing::report::{LONGEST, add_listing};
use std::alloc::{AllocError, Global};
use std::test::Fail;

// A put by node 0 at raw 1000: point 7 is set to -9.000.
const PUT: [u8; 18] = *b"\x05\x00\x00\x00\x00\x00\x00\x00\x03\xe8\x00\x00\x00\x07\xff\xff\xdc\xd8";

// A send by node 0 to itself at raw 1000, but for the last byte of the message's number.
const SEND: [u8; 14] = *b"\x02\x00\x00\x00\x00\x00\x00\x00\x03\xe8\x00\x00\x00\x00";

// The loss of the message 0.
const LOSS: [u8; 5] = *b"\x04\x00\x00\x00\x00";

// A set-up of one node, with points.
const SETUP: [u8; 11] = *b"\x00\x01\x00\x00\x00\x00\x00\x00\x00\x00\x00";

// Each kind's byte, the length of its body, and the lines behind a set-up of a record with a body of zero bytes, as the format has
// them and not by `Kind`.
const KINDS: [(u8, usize, &str); 9] = [
    (0, 10, "2 refused 5\nend 1 1\n"),
    (1, 9, "2 refused 8\nend 1 1\n"),
    (2, 14, "2 refused 8\nend 1 1\n"),
    (3, 13, "2 refused 13\nend 1 1\n"),
    (4, 4, "2 refused 13\nend 1 1\n"),
    (5, 17, "2 refused 8\nend 1 1\n"),
    (6, 29, "2 refused 6\nend 1 1\n"),
    (7, 12, "2 read none\nend 2 0\n"),
    (8, 24, "2 refused 6\nend 1 1\n"),
];

// The listing of a trace.
fn listing_of(heap: Global, trace: &[u8]) -> Result<String, AllocError> {
    let mut text = String::new(heap);
    add_listing(&mut text, heap, trace)?;
    Ok(text)
}

// The listing of a set-up and some bytes behind it.
fn listing_behind(heap: Global, behind: &[u8]) -> Result<String, AllocError> {
    let mut trace = SETUP.to_vec(heap)?;
    trace.extend_from_slice(behind)?;
    listing_of(heap, &trace)
}

// The listing of a set-up and a record behind it, of a kind and a body of so many zero bytes.
fn listing_of_kind(heap: Global, kind: u8, len: usize) -> Result<String, AllocError> {
    let mut trace = SETUP.to_vec(heap)?;
    trace.push(kind)?;
    for _ in 0..len {
        trace.push(0)?;
    }
    listing_of(heap, &trace)
}

#[test]
fn each_kind_of_zero_bytes_is_listed(rt: HostRuntime) -> Result<(), Fail> {
    for (kind, len, text) in KINDS {
        let listed = listing_of_kind(rt.alloc(), kind, len)?;
        assert_eq!(rt; listed.as_str().strip_prefix("1 setup\n"), Some(text));
    }
    Ok(())
}

#[test]
fn each_kind_cut_short_is_bad(rt: HostRuntime) -> Result<(), Fail> {
    for (kind, len, _) in KINDS {
        for kept in 0..len {
            let listed = listing_of_kind(rt.alloc(), kind, kept)?;
            assert_eq!(rt; listed.as_str(), "1 setup\nbad 2 at 11\nend 1 0\n");
        }
    }
    Ok(())
}

#[test]
fn an_unknown_kind_is_bad(rt: HostRuntime) -> Result<(), Fail> {
    let alone = listing_of(rt.alloc(), &[9])?;
    assert_eq!(rt; alone.as_str(), "bad 1 at 0\nend 0 0\n");
    let behind = listing_behind(rt.alloc(), &[4, 0, 0, 0, 1, 255, 0])?;
    assert_eq!(rt;
        behind.as_str(),
        "1 setup\n2 refused 13\nbad 1 at 16\nend 1 1\n"
    );
    Ok(())
}

// A first record that is no set-up, and one out of range: no node, 17 nodes, a key kind of 2, a lead and a backstep of a day and 1 ms.
#[test]
fn a_first_record_that_sets_nothing_up_is_bad(rt: HostRuntime) -> Result<(), Fail> {
    let listed = listing_of(rt.alloc(), &[4, 0, 0, 0, 1])?;
    assert_eq!(rt; listed.as_str(), "bad 5 at 0\nend 0 0\n");
    for bytes in [
        b"\x00\x00\x00\x00\x00\x00\x00\x00\x00\x00\x00",
        b"\x00\x11\x00\x00\x00\x00\x00\x00\x00\x00\x00",
        b"\x00\x01\x02\x00\x00\x00\x00\x00\x00\x00\x00",
        b"\x00\x01\x00\x05\x26\x5c\x01\x00\x00\x00\x00",
        b"\x00\x01\x00\x00\x00\x00\x00\x05\x26\x5c\x01",
    ] {
        let listed = listing_of(rt.alloc(), bytes)?;
        assert_eq!(rt; listed.as_str(), "bad 4 at 0\nend 0 0\n");
    }
    Ok(())
}

// Tags: a put, one with a tag that is no name, one by a point, a note behind it, and a read of the first.
#[test]
fn tags_are_listed(rt: HostRuntime) -> Result<(), Fail> {
    let trace = b"\x00\x01\x01\x00\x00\x00\x00\x00\x00\x00\x00\
        \x06\x00\x00\x00\x00\x00\x00\x00\x03\xe8PUMP-A\x00\x00\x00\x00\x00\x00\x00\x00\x00\x00\x00\x00\x00\x05\
        \x06\x00\x00\x00\x00\x00\x00\x00\x03\xe8PUMP A\x00\x00\x00\x00\x00\x00\x00\x00\x00\x00\x00\x00\x00\x05\
        \x05\x00\x00\x00\x00\x00\x00\x00\x03\xe8\x00\x00\x00\x07\x00\x00\x00\x05\
        \x01\x00\x00\x00\x00\x00\x00\x00\x03\xe9\
        \x08\x00\x00\x00\x00\x03\xe8\x00\x00PUMP-A\x00\x00\x00\x00\x00\x00\x00\x00\x00\x00";
    let listed = listing_of(rt.alloc(), trace)?;
    assert_eq!(rt;
        listed.as_str(),
        "1 setup\n2 put 0 1000.0 drift 0\n3 refused 3\n4 refused 6\n\
        5 note 0 1001.0 drift 0\n6 read 5 1000.0 0\nend 4 2\n"
    );
    Ok(())
}

#[test]
fn an_empty_trace_has_only_its_end(rt: HostRuntime) -> Result<(), Fail> {
    let listed = listing_of(rt.alloc(), &[])?;
    assert_eq!(rt; listed.as_str(), "end 0 0\n");
    Ok(())
}

// As many losses as fill a trace behind a set-up.
fn losses(heap: Global) -> Result<Vec<u8>, AllocError> {
    LOSS.repeat(heap, (LONGEST - SETUP.len()) / LOSS.len())
}

#[test]
fn a_trace_of_65536_bytes_is_listed(rt: HostRuntime) -> Result<(), Fail> {
    let listed = listing_behind(rt.alloc(), &losses(rt.alloc())?)?;
    assert!(rt; listed.as_str().ends_with("13106 refused 13\nend 1 13105\n"));
    Ok(())
}

#[test]
fn a_byte_more_is_too_long(rt: HostRuntime) -> Result<(), Fail> {
    let mut bytes = losses(rt.alloc())?;
    bytes.push(4)?;
    let listed = listing_behind(rt.alloc(), &bytes)?;
    assert_eq!(rt; listed.as_str(), "too long\n");
    Ok(())
}

// Sixteen nodes and a day are in range; 64 messages may be under way, and there is room for 1,024 versions.
#[test]
fn limits_are_in_range(rt: HostRuntime) -> Result<(), Fail> {
    let listed = listing_of(rt.alloc(), b"\x00\x10\x01\x05\x26\x5c\x00\x05\x26\x5c\x00")?;
    assert_eq!(rt; listed.as_str(), "1 setup\nend 1 0\n");
    let mut sends = Vec::new(rt.alloc());
    for number in 0..65 {
        sends.extend_from_slice(&SEND)?;
        sends.push(number)?;
    }
    let listed = listing_behind(rt.alloc(), &sends)?;
    assert!(rt;
        listed
            .as_str()
            .ends_with("65 send 0 1000.63 drift 0\n66 refused 12\nend 65 1\n")
    );
    let listed = listing_behind(rt.alloc(), &PUT.repeat(rt.alloc(), 1025)?)?;
    assert!(rt;
        listed.as_str().ends_with("1025 put 0 1000.1023 drift 0\n1026 refused 16\nend 1025 1\n")
    );
    Ok(())
}
