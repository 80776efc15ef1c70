use keys::tag::Tag;
use std::test::Fail;

// A name with zero bytes behind it.
fn padded(name: &str) -> [u8; 16] {
    let mut bytes = [0; 16];
    for (place, &byte) in bytes.iter_mut().zip(name.as_bytes()) {
        *place = byte;
    }
    bytes
}

// The tag of these bytes, or the number of the refusal.
fn tag(bytes: &[u8; 16]) -> Result<Tag, u8> {
    Tag::try_from(bytes).map_err(|refusal| refusal.number())
}

#[test]
fn names_are_taken(rt: HostRuntime) -> Result<(), Fail> {
    for name in ["A", "Z", "0", "9", "-", "PUMP-17", "ABCDEFGHIJKLMNOP"] {
        let bytes = padded(name);
        let tag = tag(&bytes).expect(&rt, "a name");
        assert_eq!(rt; tag.name(), name.as_bytes());
        assert_eq!(rt; tag.bytes(), &bytes);
        assert_eq!(rt; format!(in rt.alloc(); "{tag}")?.as_str(), name);
    }
    Ok(())
}

#[test]
fn others_are_refused(rt: HostRuntime) {
    for name in ["", "a", "Az", "A B", "A_", "A/", "A:", "A@", "A[", "Ä"] {
        assert_eq!(rt; tag(&padded(name)), Err(3), "{name}");
    }
    assert_eq!(rt; tag(b"A\0B\0\0\0\0\0\0\0\0\0\0\0\0\0"), Err(3));
    assert_eq!(rt; tag(b"A\0\0\0\0\0\0\0\0\0\0\0\0\0\0B"), Err(3));
    assert_eq!(rt; tag(b"A\0\0\0\0\0\0\0\0\0\0\0\0\0\0\x01"), Err(3));
    assert_eq!(rt; tag(b"\0ABCDEFGHIJKLMNO"), Err(3));
}

#[test]
fn names_are_in_order(rt: HostRuntime) {
    let names = [
        "-",
        "0",
        "A",
        "A-",
        "A0",
        "A1",
        "AA",
        "ABCDEFGHIJKLMNOP",
        "B",
    ];
    for (place, low) in names.iter().enumerate() {
        for high in &names[place + 1..] {
            let low = tag(&padded(low)).expect(&rt, "a name");
            let high = tag(&padded(high)).expect(&rt, "a name");
            assert!(rt; low < high, "{low:?} {high:?}");
        }
    }
}
