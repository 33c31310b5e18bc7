//! The mode of a new file, since no device in memory has owners or groups.

use file_tree::mode::new_mode;

/// An old mode, whether owner and group are kept, and the new mode.
type Row = (u32, bool, bool, u32);

static ROWS: [Row; 8] = [
    (0o640, true, true, 0o640),
    (0o4755, true, true, 0o4755),
    (0o4755, false, true, 0o755),
    // A member of the old group is now one of the others, and the other way round.
    (0o640, true, false, 0o600),
    (0o604, true, false, 0o600),
    (0o664, true, false, 0o644),
    (0o646, true, false, 0o644),
    (0o2775, true, false, 0o755),
];

#[test]
fn who_is_not_the_owner_gets_no_right_more(rt: HostRuntime) {
    for row in &ROWS {
        let (old, has_owner, has_group, wanted) = *row;
        let given = new_mode(old, has_owner, has_group);
        assert_eq!(&rt; given, wanted, "{old} {has_owner} {has_group}");
    }
}
