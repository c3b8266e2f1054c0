// The engine run on the small machine, with room to spare, just enough, too little and none.
use super::*;
use explore::{NoPath, explore, path_back};
use rows::Full;

// Room to spare: six rows are listed, the seventh stays as it was, and row 4 is found by 0 and 1.
#[test]
fn all_fit(rt: HostRuntime) {
    let mut rows = [BLANK; 7];
    assert_eq!(rt; explore(&Walk, &mut rows), Ok(6));
    assert_eq!(rt; rows[5].node, 34);
    assert_eq!(rt; rows[6].node, 99);
    let mut labels = [7u8; 3];
    assert_eq!(rt; path_back(&rows, 4, &mut labels), Ok(2));
    assert_eq!(rt; labels[1], 1);
    assert_eq!(rt; labels[2], 7);
    assert_eq!(rt; path_back(&rows, 7, &mut labels), Err(NoPath::NoRow));
    assert_eq!(rt; path_back(&rows, 4, &mut labels[..1]), Err(NoPath::Short));
}

// Exactly enough room is enough; one row fewer is not, and no row at all holds nothing.
#[test]
fn room_counts(rt: HostRuntime) {
    let mut enough = [BLANK; 6];
    assert_eq!(rt; explore(&Walk, &mut enough), Ok(6));
    let mut short = [BLANK; 5];
    assert_eq!(rt; explore(&Walk, &mut short), Err(Full));
    let mut none: [Step; 0] = [];
    assert_eq!(rt; explore(&Walk, &mut none), Err(Full));
}
