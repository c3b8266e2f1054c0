// Cases are read by their digits, whatever byte stands behind a number: no clause says what a case is.
use crate::cases::next_case;

// A colon behind a number, and bytes behind the case.
#[test]
fn any_byte_ends_a_number(rt: HostRuntime) {
    let found = next_case(b"5:3\tx\nabc\nrest");
    assert!(rt; found.is_some());
    if let Some((case, rest)) = found {
        assert_eq!(rt; case.rows, 5);
        assert_eq!(rt; case.text, b"abc".as_slice());
        assert_eq!(rt; case.name.len(), 1);
        assert_eq!(rt; rest.len(), 4);
    }
}

// A number that is too large is the largest, and none at all is 0.
#[test]
fn numbers_at_the_ends(rt: HostRuntime) {
    let large = next_case(b"18446744073709551616 0 x\n\n");
    assert_eq!(rt; large.map(|(case, _)| case.rows), Some(usize::MAX));
    let none = next_case(b" 0 x\n\n");
    assert_eq!(rt; none.map(|(case, _)| case.rows), Some(0));
    assert!(rt; next_case(b"1 4 x\nabc\n").is_none());
}
