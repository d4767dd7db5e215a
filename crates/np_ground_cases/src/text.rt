use np_text::{
    Line, Name, Word, address, is_numeral, lines, number, prefix, put_address, put_bytes,
    put_number, split_once, word_list, words,
};
use std::collections::{BTreeMap, HashMap};
use std::test::Fail;

#[test]
fn texts_are_cut_into_lines(rt: HostRuntime) {
    for (text, count) in [
        ("", 0),
        ("\n", 1),
        ("a", 1),
        ("a\n", 1),
        ("a\n\n", 2),
        ("\r\n\tb", 2),
    ] {
        assert_eq!(rt; lines(text.as_bytes()).count(), count, "in {text:?}");
    }
    let mut left = lines(b"one\r\n two");
    assert_eq!(rt;
        left.next(),
        Some(Line {
            number: 1,
            bytes: b"one\r"
        })
    );
    assert_eq!(rt;
        left.next(),
        Some(Line {
            number: 2,
            bytes: b" two"
        })
    );
    assert_eq!(rt; left.next(), None);
}

#[test]
fn lines_are_cut_into_words(rt: HostRuntime) -> Result<(), Fail> {
    for blank in ["", " ", "\t \r"] {
        assert_eq!(rt; words(blank.as_bytes()).next(), None, "in {blank:?}");
    }
    let list = word_list(rt.alloc(), b" \tpermit  ip\r")?;
    assert_eq!(rt;
        list.as_slice(),
        [
            Word {
                at: 2,
                bytes: b"permit"
            },
            Word {
                at: 10,
                bytes: b"ip"
            },
        ]
        .as_slice()
    );
    Ok(())
}

#[test]
fn words_are_split_once(rt: HostRuntime) {
    for (bytes, parts) in [
        ("1-2-3", Some(("1", "2-3"))),
        ("-", Some(("", ""))),
        ("12", None),
        ("", None),
    ] {
        match (split_once(bytes.as_bytes(), b'-'), parts) {
            (Some((before, after)), Some(parts)) => {
                assert_eq!(rt; before, parts.0.as_bytes(), "{bytes:?}");
                assert_eq!(rt; after, parts.1.as_bytes(), "{bytes:?}");
            }
            (split, parts) => assert_eq!(rt; split.is_some(), parts.is_some(), "{bytes:?}"),
        }
    }
}

#[test]
fn words_say_numbers(rt: HostRuntime) {
    for (word, max, value) in [
        ("0", 0, Some(0)),
        ("4294967296", 4_294_967_295, None),
        ("4294967296", u64::MAX, Some(4_294_967_296)),
        ("00000000000000000000000000000000007", 7, Some(7)),
        ("18446744073709551615", u64::MAX, Some(u64::MAX)),
        ("18446744073709551616", u64::MAX, None),
        ("99999999999999999999999999", u64::MAX, None),
        ("", 9, None),
        ("+1", 9, None),
        ("1a", 9, None),
    ] {
        assert_eq!(rt; number(word.as_bytes(), max), value, "{word:?} up to {max}");
    }
    for (word, value) in [
        ("99999999999999999999999999", true),
        ("0", true),
        ("", false),
        ("1a", false),
    ] {
        assert_eq!(rt; is_numeral(word.as_bytes()), value, "{word:?}");
    }
}

#[test]
fn words_say_addresses(rt: HostRuntime) {
    for (word, value) in [
        ("10.1.2.3", Some(0x0a01_0203)),
        ("255.255.255.255", Some(u32::MAX)),
        ("000.000.000.007", Some(7)),
        ("256.1.1.1", None),
        ("1.2.3", None),
        ("1.2.3.4.5", None),
        ("1.2.3.0004", None),
        ("1..2.3", None),
        ("", None),
    ] {
        assert_eq!(rt; address(word.as_bytes()), value, "{word:?}");
    }
    for (word, value) in [
        ("10.1.2.3", Some((0x0a01_0203, 32))),
        ("10.1.2.3/8", Some((0x0a00_0000, 8))),
        ("10.1.2.3/031", Some((0x0a01_0202, 31))),
        ("10.1.2.3/0", Some((0, 0))),
        ("10.0.0.0/33", None),
        ("10.0.0.0/", None),
        ("10.0.0/8", None),
        ("10.0.0.0/8/8", None),
    ] {
        assert_eq!(rt; prefix(word.as_bytes()), value, "{word:?}");
    }
}

#[test]
fn texts_and_names_are_made(rt: HostRuntime) -> Result<(), Fail> {
    let mut out = Vec::new(rt.alloc());
    for value in [0, 9, 10, 4_294_967_295, u64::MAX] {
        put_number(&mut out, value)?;
        put_bytes(&mut out, b", ")?;
    }
    put_address(&mut out, 0xc0a8_00ff)?;
    assert_eq!(rt;
        out.as_slice(),
        b"0, 9, 10, 4294967295, 18446744073709551615, 192.168.0.255".as_slice()
    );
    let name = Name::of(rt.alloc(), b"r1")?;
    assert_eq!(rt; name.bytes(), b"r1".as_slice());
    assert_eq!(rt; name, name.copy(rt.alloc())?);
    assert_eq!(rt; name, name.clone()?);
    let other = Name::from_vec(b"r10".to_vec(rt.alloc())?);
    assert_ne!(rt; name, other);
    assert!(rt; name < other);
    assert!(rt; Name::of(rt.alloc(), b"Z")? < name);
    let mut order = BTreeMap::new(rt.alloc());
    order.insert(other, 2u8)?;
    order.insert(name.copy(rt.alloc())?, 1)?;
    assert_eq!(rt; order.get(&name), Some(&1));
    let mut places = HashMap::new(rt.alloc());
    places.insert(name.copy(rt.alloc())?, 7u8)?;
    assert_eq!(rt; places.get(&name), Some(&7));
    Ok(())
}
