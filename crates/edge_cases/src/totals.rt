//! Weights and costs.
use std::cmp::Ordering;
use std::test::Fail;
use terms::SoftSet;
use weights::{Levels, Plain, WeightKind, cost_of};

#[test]
fn a_plain_total_passes_32_bits_and_stops_at_64(rt: HostRuntime) {
    let one = Plain::new(1);
    let total = Plain::new(4_294_967_295).sum(one);
    assert_eq!(rt; total, Some(Plain::new(4_294_967_296)));
    let most = Plain::new(u64::MAX);
    assert_eq!(rt; most.sum(one), None);
    assert_eq!(rt; most.sum(Plain::zero()), Some(most));
}

#[test]
fn a_level_total_stops_at_32_bits_in_each_place(rt: HostRuntime) -> Result<(), Fail> {
    let total = Levels::new(0, 5, 1)
        .sum(Levels::new(1, 0, 2))
        .ok_or("not held")?;
    assert_eq!(rt; total.to_numbers(), (1, 5, 3));
    assert_eq!(rt; Levels::new(u32::MAX, 0, 0).sum(Levels::new(1, 0, 0)), None);
    assert_eq!(rt; Levels::new(0, u32::MAX, 0).sum(Levels::new(0, 1, 0)), None);
    assert_eq!(rt; Levels::new(0, 0, u32::MAX).sum(Levels::new(0, 0, 1)), None);
    Ok(())
}

#[test]
fn the_first_level_that_differs_decides(rt: HostRuntime) {
    assert_eq!(rt;
        Levels::new(0, 9, 9).cmp(&Levels::new(1, 0, 0)),
        Ordering::Less
    );
    assert_eq!(rt;
        Levels::new(2, 3, 4).cmp(&Levels::new(2, 3, 4)),
        Ordering::Equal
    );
    assert_eq!(rt;
        Levels::new(2, 4, 0).cmp(&Levels::new(2, 3, 9)),
        Ordering::Greater
    );
}

#[test]
fn only_numbers_that_stand_for_a_weight_give_one(rt: HostRuntime) -> Result<(), Fail> {
    let back = Plain::from_numbers((7, 0, 0)).ok_or("no weight")?;
    assert_eq!(rt; back.to_numbers(), (7, 0, 0));
    assert_eq!(rt; Plain::from_numbers((7, 0, 1)), None);
    assert_eq!(rt; Levels::from_numbers((4_294_967_296, 0, 0)), None);
    let back = Levels::from_numbers((1, 2, 4_294_967_295)).ok_or("no weight")?;
    assert_eq!(rt; back.to_numbers(), (1, 2, 4_294_967_295));
    Ok(())
}

#[test]
fn a_set_costs_what_its_members_weigh(rt: HostRuntime) {
    let weights = [Plain::new(3), Plain::new(5), Plain::new(4)];
    let cost = cost_of(&weights, SoftSet::empty().insert(1).insert(2));
    assert_eq!(rt; cost, Some(Plain::new(9)));
    let none = cost_of(&weights, SoftSet::empty().insert(40));
    assert_eq!(rt;
        none,
        Some(Plain::new(0)),
        "a number without a weight adds nothing"
    );
    let full = [Plain::new(u64::MAX), Plain::new(1)];
    assert_eq!(rt; cost_of(&full, SoftSet::full(2)), None);
}

#[test]
fn weights_are_written_in_base_ten(rt: HostRuntime) -> Result<(), Fail> {
    let plain = Plain::new(u64::MAX).to_string(rt.alloc())?;
    assert!(rt; plain.as_str() == "18446744073709551615");
    let three = Levels::new(0, 10, u32::MAX).to_string(rt.alloc())?;
    assert!(rt; three.as_str() == "0,10,4294967295");
    Ok(())
}
