use crate::{ReadRefusal, key, number, put_all, read_all};
use pd_io::{MemSink, MemSource, PutFault, SureSource};
use std::test::Fail;

#[test]
fn numbers_have_one_spelling(rt: HostRuntime) {
    let rows: [(&[u8], Option<u64>); 14] = [
        (b"0", Some(0)),
        (b"7", Some(7)),
        (b"262143", Some(262_143)),
        (b"18446744073709551615", Some(u64::MAX)),
        (b"18446744073709551616", None),
        (b"99999999999999999999", None),
        (b"184467440737095516150", None),
        (b"", None),
        (b"00", None),
        (b"01", None),
        (b"+1", None),
        (b"-1", None),
        (b"1 ", None),
        (b"1a", None),
    ];
    for (word, value) in rows {
        assert_eq!(rt; number(word), value);
    }
}

#[test]
fn inputs_are_read_whole_or_refused(rt: HostRuntime) -> Result<(), Fail> {
    let alloc = rt.alloc();
    let rows = [
        (10, 0, Ok(b"abcdefg".as_slice())),
        (7, 0, Ok(b"abcdefg".as_slice())),
        (6, 0, Err(ReadRefusal::TooLong)),
        (6, 4, Err(ReadRefusal::TooLong)),
        (10, 1, Err(ReadRefusal::ReadFault)),
        (10, 3, Err(ReadRefusal::ReadFault)),
    ];
    for (limit, fails, wanted) in rows {
        let text = b"abcdefg".to_vec(alloc)?;
        let mut source = MemSource::new(text, 3, vec![in alloc; fails]?);
        match read_all(alloc, &mut source, limit) {
            Ok(text) => assert_eq!(rt; Ok(text.as_slice()), wanted, "limit {limit}"),
            Err(refusal) => assert_eq!(rt; Err(refusal), wanted, "limit {limit}"),
        }
    }
    let mut none = SureSource::new(Vec::new(alloc));
    assert!(rt; read_all(alloc, &mut none, 0)?.is_empty());
    Ok(())
}

#[test]
fn texts_are_written_whole_or_cut(rt: HostRuntime) -> Result<(), Fail> {
    let alloc = rt.alloc();
    let rows = [
        (0, Ok(()), b"abcdefg".as_slice()),
        (1, Err(PutFault::Failed), b"".as_slice()),
        (3, Err(PutFault::Failed), b"abcdef".as_slice()),
    ];
    for (fails, wanted, written) in rows {
        let mut sink = MemSink::new(alloc, 3, vec![in alloc; fails]?);
        assert_eq!(rt; put_all(&mut sink, b"abcdefg"), wanted);
        assert_eq!(rt; sink.bytes(), written);
    }
    Ok(())
}

// Words with the key that they spell.
const KEYS: [(&[u8], Option<&[u8]>); 12] = [
    (b"-", Some(b"")),
    (b"61", Some(b"a")),
    (b"00ff", Some(b"\x00\xff")),
    (b"aBcD", Some(b"\xab\xcd")),
    (
        b"7480000000000000FF",
        Some(b"t\x80\x00\x00\x00\x00\x00\x00\xff"),
    ),
    (b"6", None),
    (b"616", None),
    (b"6g", None),
    (b"--", None),
    (b"-61", None),
    (b"0x61", None),
    (b"6 1", None),
];

#[test]
fn keys_are_spelled_in_hexadecimal_digits(rt: HostRuntime) -> Result<(), Fail> {
    for (word, expected) in KEYS {
        let spelled = key(rt.alloc(), word)?;
        assert_eq!(rt; spelled.as_ref().map(|bytes| bytes.as_slice()), expected);
    }
    Ok(())
}
