// The call from C has an answer where there is memory: no clause can say that there is.
use super::*;

// The order of thread 1 does not look at the credit check of thread 0. It may come first, which
// takes five rows to tell; four are refused.
#[test]
fn answers(rt: HostRuntime) {
    let text =
        b"(open 2 (0 0))\n(write 0 0 7)\n(write 1 1 9)\n(rule (implies (gt 1 0) (once (gt 0 0))))\n";
    let mut threads = [7u8; 3];
    let found = linked_predict(rt.alloc(), text, 5, &mut threads);
    assert_eq!(rt; found.outcome, 1);
    assert_eq!(rt; found.pairs, 5);
    assert_eq!(rt; found.events, 2);
    assert_eq!(rt; threads, [1, 0, 7]);
    let short = linked_predict(rt.alloc(), text, 4, &mut threads);
    assert_eq!(rt; short.outcome, 2);
    assert_eq!(rt; short.number, 22);
}
