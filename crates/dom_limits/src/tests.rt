use super::*;
use std::test::Fail;

#[test]
fn each_limit_is_the_number_of_the_manual(rt: HostRuntime) -> Result<(), Fail> {
    for (counted, limit) in [
        (Counted::Variables, 100_000),
        (Counted::Constraints, 100_000),
        (Counted::ArrayEntries, 100_000),
        (Counted::ArgumentEntries, 2_000_000),
        (Counted::Free, 4096),
    ] {
        assert_eq!(rt; counted.limit(), limit, "{counted:?}");
    }
    Ok(())
}
