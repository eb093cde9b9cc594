use super::*;
use std::test::Fail;

fn shared<T: Send + Sync>(_: &T) {}

#[test]
fn an_array_has_as_many_places_as_its_sizes_multiplied(rt: HostRuntime) -> Result<(), Fail> {
    let most = IndexSet {
        lo: i64::MIN,
        hi: i64::MAX,
    };
    let two = IndexSet { lo: -1, hi: 0 };
    let three = IndexSet { lo: 1, hi: 3 };
    let none = IndexSet { lo: 2, hi: 1 };
    assert_eq!(rt; (three.size(), none.size()), (3, 0));
    let cases: [(&[IndexSet], u64, bool); 8] = [
        (&[], 1, true),
        (&[three], 3, true),
        (&[three, two], 6, true),
        (&[three, two], 5, false),
        (&[three, none, two], 0, true),
        (&[most, most, none], 0, true),
        (&[most], u64::MAX, false),
        (&[most, most], 0, false),
    ];
    for (sets, length, right) in cases {
        let list = IndexSets::from_vec(sets.to_vec(rt.alloc())?);
        shared(&list);
        assert_eq!(rt; list.as_slice(), sets);
        assert_eq!(rt; list.count_is(length), right, "{sets:?} {length}");
    }
    Ok(())
}
