//! Limits at both ends, and the statuses.

use program::{Limits, MOST_BYTES, MOST_FACTS, Status, Version};

/// Numbers of bytes and of facts, and whether they are limits.
const NUMBERS: &[(u64, u64, bool)] = &[
    (1, 1, true),
    (MOST_BYTES, MOST_FACTS, true),
    (0, 1, false),
    (1, 0, false),
    (MOST_BYTES + 1, 1, false),
    (1, MOST_FACTS + 1, false),
];

/// They are limits in either version, which these keep.
#[test]
fn limits(rt: HostRuntime) {
    for row in NUMBERS {
        let (bytes, facts, taken) = *row;
        for version in [Version::One, Version::Two] {
            let kept = Limits::new(bytes, facts, version).map(|limits| limits.version);
            assert!(rt;
                kept == taken.then_some(version),
                "{bytes} {facts} {version:?}"
            );
        }
    }
}

#[test]
fn statuses(rt: HostRuntime) {
    let all = [
        Status::Done,
        Status::Rejected,
        Status::Usage,
        Status::Refused,
        Status::Memory,
        Status::Limit,
        Status::File,
    ];
    for (code, status) in all.iter().enumerate() {
        assert!(rt; status.code() as usize == code);
    }
}
