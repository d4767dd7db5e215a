//! Stacks of security associations.

use np_stack::{Full, HeaderStack};

#[test]
fn keeps_its_list_at_the_limit(rt: HostRuntime) {
    let mut stack = HeaderStack::<2>::new();
    assert_eq!(rt; stack.len(), 0);
    assert_eq!(rt; stack.top(), None);
    for (id, answer) in [(1, Ok(())), (2, Ok(())), (3, Err(Full))] {
        assert_eq!(rt; stack.push(id), answer, "at {id}");
    }
    assert_eq!(rt; stack.len(), 2);
    for (place, id) in [(0, Some(1)), (1, Some(2)), (2, None)] {
        assert_eq!(rt; stack.get(place), id, "at {place}");
    }
    let mut wider = stack.widen::<3>();
    for (place, id) in [(0, Some(1)), (1, Some(2)), (2, None)] {
        assert_eq!(rt; wider.get(place), id, "at {place}");
    }
    assert_eq!(rt; wider.push(3), Ok(()));
    assert_eq!(rt; wider.top(), Some(3));
    assert!(rt; stack.contains(1) && !stack.contains(3));
    for id in [Some(2), Some(1), None] {
        assert_eq!(rt; stack.pop(), id);
    }
}
