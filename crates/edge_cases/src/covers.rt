//! Which quick cover comes is left open by the contracts; this is the rule of each maker.
use maker_branch::BranchAndBoundMaker;
use maker_count::CountThroughMaker;
use makers::CoverMaker;
use std::test::Fail;
use terms::SoftSet;
use weights::Plain;

/// The quick cover of a maker, once it has these weights and cores.
fn quick_cover<C: CoverMaker<Weight = Plain> + Drop>(
    mut maker: C,
    weights: &[u64],
    cores: &[&[usize]],
) -> Result<SoftSet, Fail> {
    for weight in weights {
        maker
            .add_weight(Plain::new(*weight))
            .map_err(|_| "a weight is refused")?;
    }
    for core in cores {
        maker
            .add_core(SoftSet::of(core))
            .map_err(|_| "a core is refused")?;
    }
    Ok(maker.cover())
}

#[test]
fn counting_through_spares_the_lowest_numbers_first(rt: HostRuntime) -> Result<(), Fail> {
    let maker = CountThroughMaker::new(rt.alloc())?;
    let cover = quick_cover(maker, &[2, 3, 4], &[&[0, 1], &[1, 2], &[0, 2]])?;
    assert_eq!(rt; cover, SoftSet::of(&[1, 2]));
    Ok(())
}

// Number 0 costs least for each core that it meets. With 4, it comes to 80, and what is left without it to 68.
#[test]
fn the_greedy_cover_spares_the_heaviest_first(rt: HostRuntime) -> Result<(), Fail> {
    let cores: [&[usize]; 4] = [&[0, 1], &[0, 2], &[0, 3], &[1, 4]];
    let maker = BranchAndBoundMaker::new(rt.alloc())?;
    let heavy = quick_cover(maker, &[50, 34, 17, 17, 30], &cores)?;
    assert_eq!(rt; heavy, SoftSet::of(&[1, 2, 3]));
    let cores: [&[usize]; 4] = [&[3], &[2, 4], &[1, 2], &[0, 4]];
    let maker = BranchAndBoundMaker::new(rt.alloc())?;
    let forced = quick_cover(maker, &[9, 9, 1, 50, 1], &cores)?;
    assert_eq!(rt; forced, SoftSet::of(&[2, 3, 4]));
    Ok(())
}

// Number 3 meets both cores for 3; number 2 does for 4, and so do 0 and 1 together.
#[test]
fn the_greedy_cover_takes_what_meets_most_cores_for_its_weight(
    rt: HostRuntime,
) -> Result<(), Fail> {
    let maker = BranchAndBoundMaker::new(rt.alloc())?;
    let cover = quick_cover(maker, &[2, 2, 4, 3], &[&[0, 2, 3], &[1, 2, 3]])?;
    assert_eq!(rt; cover, SoftSet::of(&[3]));
    Ok(())
}
