//! Sets of atoms.

use np_atomset::AtomSet;
use std::test::Fail;

// The words of a full set of each length, as a reader of bits would write them.
#[test]
fn fills_words_up_to_the_length(rt: HostRuntime) -> Result<(), Fail> {
    let table: [(usize, &[u64]); 5] = [
        (0, &[]),
        (1, &[1]),
        (63, &[0x7fff_ffff_ffff_ffff]),
        (64, &[0xffff_ffff_ffff_ffff]),
        (65, &[0xffff_ffff_ffff_ffff, 1]),
    ];
    for (n, words) in table {
        let mut set = AtomSet::new(rt.alloc(), n)?;
        let full = AtomSet::full(rt.alloc(), n)?;
        assert_eq!(rt; set.first(), None, "at {n}");
        assert_eq!(rt; full.words(), words, "at {n}");
        assert_eq!(rt; set.join_with(&full), n > 0, "at {n}");
        assert!(rt; !set.join_with(&full), "at {n}");
        assert_eq!(rt; set.words(), words, "at {n}");
    }
    Ok(())
}

#[test]
fn loses_one_of_seventy_members(rt: HostRuntime) -> Result<(), Fail> {
    let mut set = AtomSet::full(rt.alloc(), 70)?;
    set.remove(69);
    assert_eq!(rt; set.first(), Some(0));
    assert!(rt; !set.has(69) && set.has(68));
    let copy = set.copy(rt.alloc())?;
    assert_eq!(rt; copy, set);
    assert_eq!(rt; copy.len(), 70);
    set.insert(69);
    assert_ne!(rt; copy, set);
    Ok(())
}

#[test]
fn finds_the_least_member_past_the_first_word(rt: HostRuntime) -> Result<(), Fail> {
    let mut set = AtomSet::new(rt.alloc(), 130)?;
    set.insert(129);
    set.insert(66);
    assert_eq!(rt; set.first(), Some(66));
    let mut other = AtomSet::full(rt.alloc(), 130)?;
    other.remove(66);
    set.meet_with(&other);
    assert_eq!(rt; set.first(), Some(129));
    set.minus_with(&other);
    assert_eq!(rt; set.first(), None);
    Ok(())
}
