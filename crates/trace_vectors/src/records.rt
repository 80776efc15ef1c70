use std::iter;
use std::test::Fail;
use trace::reader::entry_at;
use trace::records::{Key, KeyBytes, Record};
use trace::round::{copy_record, write_and_read};

// A put by node 0 at raw 1000: point 7 is set to -9.000.
const PUT: [u8; 18] = *b"\x05\x00\x00\x00\x00\x00\x00\x00\x03\xe8\x00\x00\x00\x07\xff\xff\xdc\xd8";

// Each kind's byte and the length of its body, as the format has them and not by `Kind`.
const KINDS: [(u8, usize); 9] = [
    (0, 10),
    (1, 9),
    (2, 14),
    (3, 13),
    (4, 4),
    (5, 17),
    (6, 29),
    (7, 12),
    (8, 24),
];

#[test]
fn put_is_written(rt: HostRuntime) -> Result<(), Fail> {
    let key = Key {
        offset: 0,
        bytes: KeyBytes::Point(&[0, 0, 0, 7]),
    };
    let put = Record::Put {
        node: 0,
        raw: 1000,
        key,
        value: -9000,
    };
    let mut buffer = [0xaa; 20];
    let behind = put.write_to(&mut buffer, 1)?;
    assert_eq!(rt; behind, 19);
    assert_eq!(rt; &buffer[1..19], PUT.as_slice());
    assert_eq!(rt; buffer[0], 0xaa);
    assert_eq!(rt; buffer[19], 0xaa);
    Ok(())
}

#[test]
fn put_is_read(rt: HostRuntime) -> Result<(), Fail> {
    let entry = entry_at(&PUT, 0)?.ok_or("none")?;
    let Record::Put {
        node,
        raw,
        key: Key {
            offset,
            bytes: KeyBytes::Point(point),
        },
        value,
    } = entry.record
    else {
        return Err(Fail::new("another kind"));
    };
    assert_eq!(rt; node, 0);
    assert_eq!(rt; raw, 1000);
    assert_eq!(rt; offset, 10);
    assert_eq!(rt; u32::from_be_bytes(*point), 7);
    assert_eq!(rt; value, -9000);
    Ok(())
}

// A record of each kind, with a body of the bytes 1, 2, 3 and so on, is copied byte for byte, and
// read back from the copy.
#[test]
fn every_kind_round(rt: HostRuntime) -> Result<(), Fail> {
    for (kind, len) in KINDS {
        let bytes = iter::once(kind)
            .chain((1..=len).map(|i| (i % 256) as u8))
            .collect::<Vec<u8>>(rt.alloc())?;
        let mut buffer = [0xaa; 40];
        let behind = copy_record(bytes.as_slice(), 0, &mut buffer, 3)?.ok_or("none")?;
        assert_eq!(rt; behind, len.saturating_add(4));
        assert_eq!(rt; buffer.get(3..behind).ok_or("short")?, bytes.as_slice());
        let entry = entry_at(&buffer, 3)?.ok_or("none")?;
        let mut second = [0xbb; 40];
        let back = &write_and_read(&entry.record, &mut second, 3);
        let found = back.found?;
        assert_eq!(rt; found.offset, 3);
        assert_eq!(rt;
            back.buffer.get(3..behind).ok_or("short")?,
            bytes.as_slice()
        );
    }
    Ok(())
}
