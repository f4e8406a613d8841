//! Makers that differ, or that hold other weights and cores than were taken: each of them is told.
use super::large::show_plain;
use super::pair::Pair;
use super::taken::Taken;
use crate::faults::Fault;
use maker_branch::BranchAndBoundMaker;
use maker_count::CountThroughMaker;
use makers::CoverMaker;
use std::alloc::{AllocError, Global};
use std::test::Fail;
use terms::SoftSet;
use weights::Plain;

/// Weights, and cores by their masks.
#[derive(Clone, Copy)]
struct Side<'c> {
    weights: &'c [u64],
    cores: &'c [u64],
}

impl Side<'_> {
    fn enter(self, maker: &mut impl CoverMaker<Weight = Plain>) {
        for amount in self.weights {
            let _ = maker.add_weight(Plain::new(*amount));
        }
        for mask in self.cores {
            let _ = maker.add_core(SoftSet::from_mask(*mask));
        }
    }

    fn taken(self, alloc: Global) -> Result<Taken<Plain>, AllocError> {
        let weights = self.weights.iter().map(|amount| Plain::new(*amount));
        let cores = self.cores.iter().map(|mask| SoftSet::from_mask(*mask));
        Ok(Taken {
            weights: weights.collect(alloc)?,
            cores: cores.collect(alloc)?,
        })
    }
}

/// What is told of two makers, where the third weights and cores count as taken.
fn told(alloc: Global, sides: [Side<'_>; 3]) -> Result<Option<Fault>, Fail> {
    let [first, second, third] = sides;
    let mut reference = CountThroughMaker::new(alloc)?;
    first.enter(&mut reference);
    let mut tested = BranchAndBoundMaker::new(alloc)?;
    second.enter(&mut tested);
    let pair = Pair {
        reference,
        tested,
        taken: third.taken(alloc)?,
    };
    Ok(compare(&pair).err())
}

fn compare<R: CoverMaker<Weight = Plain>, T: CoverMaker<Weight = Plain>>(
    pair: &Pair<R, T>,
) -> Result<(), Fault> {
    pair.compare_counts()?;
    pair.compare_cost(SoftSet::of(&[0]))?;
    pair.compare_covers()?;
    Ok(())
}

#[test]
fn makers_that_differ_are_told(rt: HostRuntime) -> Result<(), Fail> {
    let alloc = rt.alloc();
    let of = |cores| Side {
        weights: &[2, 3, 4],
        cores,
    };
    let none = of(&[]);
    let fewer = Side {
        weights: &[2, 3],
        cores: &[],
    };
    let dearer = Side {
        weights: &[3, 3, 4],
        cores: &[],
    };
    let (first, second, pair) = (of(&[0b01]), of(&[0b10]), of(&[0b11]));
    let (singles, pairs) = (of(&[0b01, 0b10]), of(&[0b011, 0b101]));
    assert_eq!(rt; told(alloc, [pair, pair, pair])?, None);
    assert_eq!(rt; told(alloc, [none, fewer, none])?, Some(Fault::SoftCounts));
    assert_eq!(rt; told(alloc, [none, dearer, none])?, Some(Fault::Cost));
    assert_eq!(rt;
        told(alloc, [singles, pair, pair])?,
        Some(Fault::CoreCounts)
    );
    assert_eq!(rt; told(alloc, [second, pair, pair])?, Some(Fault::LeastCosts));
    assert_eq!(rt; told(alloc, [first, first, second])?, Some(Fault::NoCover));
    assert_eq!(rt; told(alloc, [singles, singles, pairs])?, Some(Fault::Spare));
    Ok(())
}

#[test]
fn wrong_costs_of_large_stores_are_told(rt: HostRuntime) -> Result<(), Fail> {
    let weights = [2, 3].map(Plain::new);
    let pair = SoftSet::of(&[0, 1]);
    assert!(rt; show_plain(&rt, "A pair", &weights, &[pair], 2).is_ok());
    assert!(rt; show_plain(&rt, "A pair", &weights, &[pair], 3).is_err());
    let twice = show_plain(&rt, "A pair", &weights, &[pair, pair], 2);
    assert!(rt; twice.is_err(), "one core is kept");
    Ok(())
}
