//! Sets of soft numbers.
use terms::SoftSet;

#[test]
fn a_set_takes_numbers_below_64(rt: HostRuntime) {
    let set = SoftSet::empty().insert(0).insert(63).insert(64);
    assert_eq!(rt; set.len(), 2);
    assert!(rt; set.has(63) && !set.has(64));
    assert_eq!(rt; SoftSet::full(64).len(), 64);
    assert_eq!(rt; SoftSet::full(65).len(), 64);
    assert!(rt; set.all_below(64) && !set.all_below(63));
    assert!(rt; SoftSet::empty().all_below(0));
    assert_eq!(rt; set.remove(64).remove(0).len(), 1);
    assert_eq!(rt; SoftSet::of(&[63, 0, 64, 0]), set);
    assert_eq!(rt; SoftSet::from_mask(1 << 63 | 1), set);
}

#[test]
fn members_come_lowest_first(rt: HostRuntime) {
    assert_eq!(rt; SoftSet::empty().first(), None);
    assert_eq!(rt; SoftSet::empty().members().next(), None);
    let set = SoftSet::empty().insert(63).insert(0).insert(5);
    assert_eq!(rt; set.first(), Some(0));
    assert!(rt; set.members().eq([0, 5, 63]));
    assert_eq!(rt; set.remove(0).remove(5).first(), Some(63));
    assert!(rt; SoftSet::full(64).members().eq(0..64));
}
