//! The branch-and-bound maker: it finds a least cover by settling one soft number after another.
#![tactic(auto)]

mod branch_and_bound;
mod branches;
mod greedy;
mod loads;
mod lower_bounds;
mod multiples;
mod narrowing;
mod order;
mod scores;

pub use branch_and_bound::BranchAndBoundMaker;

#[cfg(test)]
mod tests {
    // What no clause says: what a search tries first.
    use super::*;
    use branches::Branch;
    use loads::Loads;
    use lower_bounds::LowerBound;
    use makers::CoverMaker;
    use order::Order;
    use scores::Scores;
    use std::alloc::Global;
    use std::test::Fail;
    use terms::SoftSet;
    use weights::Plain;

    /// A maker with these weights and cores.
    fn maker(
        alloc: Global,
        weights: &[u64],
        cores: &[&[usize]],
    ) -> Result<BranchAndBoundMaker<Plain>, Fail> {
        let mut maker = BranchAndBoundMaker::new(alloc)?;
        for weight in weights {
            maker
                .add_weight(Plain::new(*weight))
                .map_err(|_| "a weight is refused")?;
        }
        for core in cores {
            maker
                .add_core(SoftSet::of(core))
                .map_err(|_| "a core is refused")?;
        }
        Ok(maker)
    }

    // The numbers 5 and 7 are not heavy. The core {0, 1} is met, and of {4, 7} only 4 is left. The scores of what is left of
    // the others come to 48, 64 and 32, and that of 4 is 32.
    #[test]
    fn cores_of_heavy_numbers_with_low_scores_come_first(rt: HostRuntime) -> Result<(), Fail> {
        let cores: [&[usize]; 5] = [&[0, 1], &[2, 3], &[3, 4], &[5, 6], &[4, 7]];
        let maker = maker(rt.alloc(), &[1; 8], &cores)?;
        let branch = Branch::all().with(0).without(7);
        let scores = Scores::of(&maker.store, &branch, |_| 16);
        let heavy = SoftSet::of(&[0, 1, 2, 3, 4, 6]);
        let mut order = Order::of(&maker.store, &branch, &scores, heavy);
        for index in [4, 1, 2, 3] {
            assert_eq!(rt; order.take_first(), Some(index));
        }
        assert_eq!(rt; order.take_first(), None);
        Ok(())
    }

    // A load of 3 is put on the first two numbers, of the weights 6, 3 and 2.
    #[test]
    fn what_a_number_can_still_bear_limits_an_amount_and_lets_it_seem_dear(
        rt: HostRuntime,
    ) -> Result<(), Fail> {
        let maker = maker(rt.alloc(), &[6, 3, 2], &[])?;
        let mut loads = Loads::new(Plain::new(2));
        loads.raise(&maker.store, SoftSet::of(&[0, 1]), Plain::new(3));
        let most = |numbers: &[usize]| loads.most_for(&maker.store, SoftSet::of(numbers));
        assert_eq!(rt; most(&[0]), Plain::new(3));
        assert_eq!(rt; most(&[1]), Plain::new(0), "it bears no more");
        assert_eq!(rt; most(&[2]), Plain::new(2));
        assert_eq!(rt; most(&[0, 2]), Plain::new(2));
        assert!(rt; loads.has_room(SoftSet::of(&[0, 2])));
        assert!(rt; !loads.has_room(SoftSet::of(&[0, 1])), "1 is full");
        let seems = |number, cost| loads.seems_dear(&maker.store, number, Plain::new(cost));
        assert!(rt; seems(1, 3) && !seems(1, 4));
        assert!(rt; seems(0, 6) && !seems(0, 7));
        Ok(())
    }

    #[test]
    fn sixteen_of_a_heavy_number_weigh_no_less_than_the_heaviest(
        rt: HostRuntime,
    ) -> Result<(), Fail> {
        let maker = maker(rt.alloc(), &[2, 3, 48], &[])?;
        assert_eq!(rt; maker.heavy, SoftSet::of(&[1, 2]));
        assert_eq!(rt; maker.blank.base.lightest, Plain::new(2));
        Ok(())
    }

    // The first core bears 2 and the other 4. With 1 the covers cost 3, and what the other core bears.
    #[test]
    fn a_number_is_dear_by_the_raises_of_the_other_cores(rt: HostRuntime) -> Result<(), Fail> {
        let maker = maker(rt.alloc(), &[2, 3, 4, 5], &[&[0, 1], &[2, 3]])?;
        let (store, all) = (&maker.store, Branch::all());
        let base = Loads::of_chosen(store, &all, maker.blank.base.lightest);
        let scores = Scores::of(store, &all, |_| 1);
        let order = Order::of(store, &all, &scores, SoftSet::empty());
        let bound = LowerBound::of(store, &all, base, order, Plain::new(9));
        assert!(rt; bound.loads.reaches(Plain::new(6)) && !bound.loads.reaches(Plain::new(7)));
        assert!(rt; bound.is_dear_with(store, &all, 1, Plain::new(7)));
        assert!(rt; !bound.is_dear_with(store, &all, 1, Plain::new(8)));
        Ok(())
    }
}
