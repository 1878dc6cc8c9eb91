//! What a manager refuses to open.
use model::ConflictRule;
use pdtcli::{Manager, OpenFault};
use std::test::Fail;
use test_fixtures::base_table;

#[test]
fn an_opening_is_refused_by_its_limits(rt: HostRuntime) -> Result<(), Fail> {
    for (label, recent, limit, want) in [
        ("no recent commits", 0, 3, OpenFault::BadLimit),
        ("too many of them", 65_537, 3, OpenFault::BadLimit),
        ("no rows", 64, 0, OpenFault::BadLimit),
        (
            "a limit past the largest",
            64,
            2_147_483_648,
            OpenFault::BadLimit,
        ),
        ("a row too many", 64, 2, OpenFault::TooManyRows),
    ] {
        let found = Manager::open(
            rt.alloc(),
            base_table(rt.alloc())?,
            recent,
            limit,
            ConflictRule::ByColumn,
        )
        .err();
        assert!(&rt; found == Some(want), "at {label}");
    }
    Ok(())
}
