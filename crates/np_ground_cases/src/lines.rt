use np_lines::{
    LineError, LineFault, ended, first_word, is_text, next_word, statement_words, within,
};
use np_text::word_list;
use std::alloc::AllocError;
use std::test::Fail;

/// What a reader may find wrong with a line.
#[derive(Clone, Copy, Debug, PartialEq, Eq)]
enum Cause {
    Missing,
    More,
    Many,
}

/// The cause of a fault. `None` where memory ran out.
fn cause_of(error: LineError<Cause>) -> Option<Cause> {
    match error {
        LineError::Faulty(cause) => Some(cause),
        LineError::Memory(_) => None,
    }
}

/// The error that one of memory becomes.
fn out_of_memory<E: From<AllocError>>(error: AllocError) -> E {
    E::from(error)
}

#[test]
fn lines_are_skipped_or_judged(rt: HostRuntime) -> Result<(), Fail> {
    for (line, text, first, count) in [
        ("area a 10.0.0.0/8", true, "area", 3),
        ("\t depth\t4\r", true, "depth", 2),
        ("caf\u{e9} x", false, "caf\u{e9}", 2),
        ("a\u{7f}~", false, "a\u{7f}~", 1),
        ("a#b", true, "a#b", 1),
    ] {
        assert_eq!(rt; is_text(line.as_bytes()), text, "{line:?}");
        assert!(rt;
            first_word(line.as_bytes(), b'#') == Some(first.as_bytes()),
            "{line:?}"
        );
        match statement_words(rt.alloc(), line.as_bytes(), b'#')? {
            Some(words) => assert_eq!(rt; words.len(), count, "{line:?}"),
            None => assert!(rt; false, "{line:?} is skipped"),
        }
    }
    for line in ["", " \t\r", "#", " #a b", "# a"] {
        assert!(rt; first_word(line.as_bytes(), b'#').is_none(), "{line:?}");
        assert!(rt;
            statement_words(rt.alloc(), line.as_bytes(), b'#')?.is_none(),
            "{line:?}"
        );
    }
    assert!(rt; first_word(b"#a", b'!').is_some());
    Ok(())
}

#[test]
fn words_are_judged_one_after_another(rt: HostRuntime) -> Result<(), Fail> {
    let words = word_list(rt.alloc(), b"goal all")?;
    match next_word(words.as_slice(), Cause::Missing) {
        Ok((first, rest)) => {
            assert_eq!(rt; first, b"goal".as_slice());
            assert_eq!(rt; rest.len(), 1);
            assert_eq!(rt;
                ended(rest, 7, Cause::More).map_err(cause_of),
                Err(Some(Cause::More))
            );
        }
        Err(_) => assert!(rt; false, "there is a word"),
    }
    match next_word(&[], Cause::Missing) {
        Ok(_) => assert!(rt; false, "there is no word"),
        Err(error) => assert_eq!(rt; cause_of(error), Some(Cause::Missing)),
    }
    assert_eq!(rt; ended(&[], 7, Cause::More).map_err(cause_of), Ok(7));
    assert_eq!(rt; within(256, 255, 7, Cause::Many).map_err(cause_of), Ok(7));
    assert_eq!(rt;
        within(256, 256, 7, Cause::Many).map_err(cause_of),
        Err(Some(Cause::Many))
    );
    let error: LineError<Cause> = out_of_memory(AllocError);
    assert_eq!(rt; cause_of(error), None);
    let fault = LineFault {
        line: 3,
        why: Cause::Many,
    };
    assert_eq!(rt; fault, fault.clone()?);
    assert_ne!(rt;
        fault,
        LineFault {
            line: 4,
            why: Cause::Many
        }
    );
    Ok(())
}
