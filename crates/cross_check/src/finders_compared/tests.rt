//! Finders that differ, or that hold other clauses than were accepted, and wrong answers: each of them is told.
use super::accepted::{Accepted, UNTOUCHED};
use super::inputs::{Call, Kind};
use super::pair::Pair;
use crate::faults::Fault;
use crate::tables::Tables;
use crate::tally::Outcome;
use finders::{Answer, Finder};
use std::alloc::{AllocError, Global};
use std::test::Fail;
use terms::{Refusal, SoftSet};

/// A number of variables, a hard clause and a soft one.
#[derive(Clone, Copy)]
struct Side<'c> {
    variables: usize,
    hard: Option<&'c [i32]>,
    soft: Option<&'c [i32]>,
}

impl<'c> Side<'c> {
    fn enter(self, finder: &mut impl Finder) {
        if let Some(clause) = self.hard {
            let _ = finder.add_hard(clause);
        }
        if let Some(clause) = self.soft {
            let _ = finder.add_soft(clause);
        }
    }

    /// These clauses as those that were accepted.
    fn accepted(self, alloc: Global) -> Result<Accepted<'c>, AllocError> {
        let mut accepted = Accepted::new(alloc, self.variables);
        if let Some(clause) = self.hard {
            accepted.add(Kind::Hard, clause)?;
        }
        if let Some(clause) = self.soft {
            accepted.add(Kind::Soft, clause)?;
        }
        Ok(accepted)
    }
}

/// What the call shows on two finders, where the third clauses count as accepted.
fn shown(alloc: Global, sides: [Side<'_>; 3], call: &Call) -> Result<Option<Fault>, Fail> {
    let [first, second, third] = sides;
    let mut tables = Tables::new(alloc, 4, 4)?;
    let mut reference = tables.count_through(first.variables);
    first.enter(&mut reference);
    let mut others = Tables::new(alloc, 4, 4)?;
    let mut tested = others.count_through(second.variables);
    second.enter(&mut tested);
    let mut pair = Pair {
        reference,
        tested,
        accepted: third.accepted(alloc)?,
        alloc,
    };
    Ok(pair.make(call).err())
}

#[test]
fn finders_that_differ_are_told(rt: HostRuntime) -> Result<(), Fail> {
    let alloc = rt.alloc();
    let of = |variables: usize| Side {
        variables,
        hard: None,
        soft: None,
    };
    let (two, three) = (of(2), of(3));
    let (first, second) = ([1], [2]);
    let hard = Side {
        hard: Some(&first),
        ..two
    };
    let void = Side {
        hard: Some(&[]),
        ..two
    };
    let soft = Side {
        soft: Some(&first),
        ..two
    };
    let other = Side {
        soft: Some(&second),
        ..two
    };
    let clause = Call::Add(Kind::Hard, vec![in alloc; 3]?);
    let nothing = Call::Ask {
        set: SoftSet::empty(),
        bytes: 2,
    };
    let wish = Call::Ask {
        set: SoftSet::of(&[0]),
        bytes: 2,
    };
    let ones = Call::Broken(vec![in alloc; 1, 1, 1]?);
    let last = Call::Broken(vec![in alloc; 0, 1]?);
    let table = [
        ([two, two, two], &ones, None),
        ([three, two, two], &ones, Some(Fault::Variables)),
        ([two, three, two], &ones, Some(Fault::Variables)),
        ([soft, two, two], &ones, Some(Fault::SoftCounts)),
        ([two, soft, two], &ones, Some(Fault::SoftCounts)),
        ([soft, soft, soft], &last, None),
        ([soft, other, soft], &last, Some(Fault::Broken)),
        ([soft, soft, other], &last, Some(Fault::Broken)),
        ([three, two, two], &last, Some(Fault::Refusals)),
        ([two, three, two], &last, Some(Fault::Refusals)),
        ([hard, hard, hard], &nothing, None),
        ([two, hard, hard], &nothing, Some(Fault::NoModel)),
        ([hard, two, hard], &nothing, Some(Fault::NoModel)),
        ([void, two, two], &nothing, Some(Fault::Answers)),
        ([two, two, two], &wish, None),
        ([three, two, two], &wish, Some(Fault::Refusals)),
        ([soft, two, soft], &wish, Some(Fault::Refusals)),
        ([two, three, two], &clause, Some(Fault::Refusals)),
    ];
    for (number, (sides, call, wanted)) in table.into_iter().enumerate() {
        assert_eq!(rt; shown(alloc, sides, call)?, wanted, "line {number}");
    }
    Ok(())
}

#[test]
fn wrong_answers_of_a_finder_are_told(rt: HostRuntime) -> Result<(), Fail> {
    let mut accepted = Accepted::new(rt.alloc(), 2);
    accepted.add(Kind::Hard, &[1, 2])?;
    accepted.add(Kind::Soft, &[-1])?;
    accepted.add(Kind::Soft, &[-2])?;
    let set = SoftSet::of(&[1]);
    let model = |buffer: &[u8]| accepted.check(set, Ok(Answer::Model), buffer).err();
    assert_eq!(rt; model(&[1, 0, UNTOUCHED]), None);
    assert_eq!(rt; model(&[1]), Some(Fault::ShortBuffer));
    assert_eq!(rt;
        model(&[0, 0]),
        Some(Fault::NoModel),
        "it breaks the hard clause"
    );
    assert_eq!(rt;
        model(&[0, 1]),
        Some(Fault::NoModel),
        "it breaks what was asked for"
    );
    assert_eq!(rt; model(&[1, 2]), Some(Fault::NoModel), "2 is no value");
    assert_eq!(rt; model(&[1, 0, 0]), Some(Fault::Written));
    let core = |numbers: &[usize], byte: u8| {
        let answer = Answer::Core(SoftSet::of(numbers));
        accepted.check(set, Ok(answer), &[UNTOUCHED, byte]).err()
    };
    assert_eq!(rt; core(&[1], UNTOUCHED), None);
    assert_eq!(rt; core(&[0, 1], UNTOUCHED), Some(Fault::CoreOutside));
    assert_eq!(rt; core(&[1], 0), Some(Fault::Written));
    let refused = |byte: u8| accepted.check(set, Err(Refusal::TooShort), &[byte]).err();
    assert_eq!(rt; refused(UNTOUCHED), None);
    assert_eq!(rt; refused(0), Some(Fault::Written));
    let mut tables = Tables::new(rt.alloc(), 4, 4)?;
    let mut others = Tables::new(rt.alloc(), 4, 4)?;
    let mut reference = tables.count_through(2);
    assert_eq!(rt; reference.add_soft(&[1]), Ok(()));
    assert_eq!(rt; reference.add_soft(&[-1]), Ok(()));
    let pair = Pair::new(rt.alloc(), reference, others.count_through(2), 2);
    let both = SoftSet::of(&[0, 1]);
    let compare = |core| pair.compare_answers(both, Answer::Core(both), Answer::Core(core));
    assert_eq!(rt; compare(both), Ok(Outcome::WholeCore));
    assert_eq!(rt; compare(set), Err(Fault::NoCore), "it has a model");
    Ok(())
}

// No contract says which truth is tried first. These are the cases of the rule by which it is picked today.
#[test]
fn one_truth_is_tried_first(rt: HostRuntime) -> Result<(), Fail> {
    let table: [(&[&[i32]], u8); 4] = [
        (&[&[1, 2]], 1),
        (&[&[-1, -2]], 0),
        // More stands against it.
        (&[&[1, 5, 6], &[-1, 2, 3], &[-1, 2, 4]], 0),
        // It settles far more.
        (&[&[1, 5, 6], &[-1, 2, 3], &[-1, 2, 4], &[-1, 3, 4]], 1),
    ];
    for (clauses, first) in table {
        let mut tables = Tables::new(rt.alloc(), 4, 12)?;
        let mut finder = tables.search(6);
        for clause in clauses {
            assert_eq!(rt; finder.add_hard(clause), Ok(()));
        }
        let mut buffer = [7; 6];
        let answer = finder.ask(SoftSet::empty(), &mut buffer);
        assert_eq!(rt; answer, Ok(Answer::Model));
        assert_eq!(rt; buffer[0], first, "{clauses:?}");
    }
    Ok(())
}
