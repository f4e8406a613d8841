//! The branches of a search for a least cover, by the numbers that are settled.
ghost use Rattle.std.specs.Prelude.{◌≡◌, IfSome, IsNone, IsTrue};
ghost use Rattle.terms.specs.Masks.{below};
ghost use Rattle.terms.specs.declared.limits.TheConstants.{SOFT_PLACES};

use terms::SoftSet;

/// The covers in which every chosen number is, and none that was left out.
#[derive(Clone, Copy, Debug)]
pub(crate) struct Branch {
    pub(crate) chosen: SoftSet,
    pub(crate) out: SoftSet,
    ghost chosen_fit: { IsTrue (below SOFT_PLACES chosen) },
    ghost out_fit: { IsTrue (below SOFT_PLACES out) },
}

impl Branch {
    ghost use Rattle.maker_branch.specs.Branches.{meets_in, Forced, NoneOf, With};

    /// All covers: no number is settled.
    #[tactic(auto, using(crate::proofs::SetLaws::below_none))]
    pub(crate) fn all() -> Branch
        ensures chosen { result.chosen ≡ 0 }
        ensures out { result.out ≡ 0 }
    {
        Branch {
            chosen: SoftSet::empty(),
            out: SoftSet::empty(),
        }
    }

    /// The covers that have the number.
    pub(crate) fn with(&self, number: usize) -> Branch
        ensures chosen { With self.now.chosen number result.chosen }
        ensures out { result.out ≡ self.now.out }
    {
        Branch {
            chosen: self.chosen.insert(number),
            out: self.out,
        }
    }

    /// The covers that do not have the number.
    pub(crate) fn without(&self, number: usize) -> Branch
        ensures chosen { result.chosen ≡ self.now.chosen }
        ensures out { With self.now.out number result.out }
    {
        Branch {
            chosen: self.chosen,
            out: self.out.insert(number),
        }
    }

    /// The branch, with one more number chosen where the core has only that one left; none where it has none left.
    pub(crate) fn with_last(&self, core: SoftSet) -> Option<Branch>
        ensures none { IsNone result → NoneOf (meets_in self.now core) }
        ensures forced { IfSome result (Forced (meets_in self.now core) self.now) }
    {
        if core.intersects(self.chosen) {
            return Some(*self);
        }
        let rest = core.minus(self.out);
        let number = rest.first()?;
        if rest.remove(number).is_empty() {
            Some(self.with(number))
        } else {
            Some(*self)
        }
    }
}
