//! Wrong answers of a job, and a job that has another clause than the enumeration: each of them is told.
use super::comparison::Comparison;
use super::counts::Counts;
use super::drawing::Call;
use super::enumeration::{Cost, Enumeration};
use super::said::Said;
use crate::faults::Fault;
use crate::tables::Tables;
use finders::Finder;
use jobs::{Job, Status};
use maker_branch::BranchAndBoundMaker;
use makers::CoverMaker;
use std::alloc::Global;
use std::test::Fail;
use weights::Plain;

fn plain(amount: u128) -> Cost {
    [amount, 0, 0]
}

/// What is told of an answer where one of two options is needed; neither is wanted, at 3 and at 5, and then the first one is
/// after all, at 4.
fn told(
    alloc: Global,
    status: Status,
    floor: u128,
    ceiling: Option<u128>,
    plan: Option<[u8; 2]>,
) -> Result<Option<Fault>, Fail> {
    let mut enumeration = Enumeration::new(alloc, 2);
    enumeration.add_hard(&[1, 2])?;
    enumeration.add_soft(plain(3), &[-1])?;
    enumeration.add_soft(plain(5), &[-2])?;
    enumeration.add_soft(plain(4), &[1])?;
    let plan = match plan {
        Some(values) => Some(Vec::from_array(alloc, values)?),
        None => None,
    };
    let said = Said {
        status,
        floor: plain(floor),
        ceiling: ceiling.map(plain),
        plan,
    };
    Ok(said.check(&enumeration, enumeration.least_cost()).err())
}

#[test]
fn wrong_answers_of_a_job_are_told(rt: HostRuntime) -> Result<(), Fail> {
    let table = [
        (Status::Best, 3, Some(3), Some([1, 0]), None),
        (Status::Open, 2, Some(8), Some([1, 1]), None),
        (
            Status::Best,
            3,
            Some(3),
            Some([0, 0]),
            Some(Fault::NotAllowed),
        ),
        (Status::Best, 3, Some(3), Some([1, 1]), Some(Fault::Ceiling)),
        (Status::Open, 3, None, Some([1, 0]), Some(Fault::OneAlone)),
        (Status::Open, 4, Some(9), Some([0, 1]), Some(Fault::Floor)),
        (Status::Best, 2, Some(3), Some([1, 0]), Some(Fault::NotBest)),
        (Status::Best, 3, Some(8), Some([1, 1]), Some(Fault::NotBest)),
        (Status::Void, 0, None, None, Some(Fault::NotVoid)),
    ];
    for (status, floor, ceiling, plan, wanted) in table {
        let got = told(rt.alloc(), status, floor, ceiling, plan)?;
        assert_eq!(rt; got, wanted, "{status}, {floor}, {ceiling:?}, {plan:?}");
    }
    Ok(())
}

/// What is told call by call where the job gets a clause that the enumeration does not, and has then no place for one that fits.
fn told_of_another_clause<F: Finder + Drop, C: CoverMaker<Weight = Plain> + Drop>(
    alloc: Global,
    job: Job<F, C>,
) -> Result<[Option<Fault>; 3], Fail> {
    let mut comparison = Comparison::new(alloc, job, 2);
    let mut counts = Counts::new(alloc);
    let soft = Call::Soft(Plain::new(4), vec![in alloc; -1]?);
    let first = comparison.make(&soft, &mut counts).err();
    let _ = comparison.job.hard(&[1]);
    let end = comparison.make(&Call::End, &mut counts).err();
    let last = comparison.make(&soft, &mut counts).err();
    Ok([first, end, last])
}

#[test]
fn a_job_with_another_clause_is_told(rt: HostRuntime) -> Result<(), Fail> {
    let mut tables = Tables::new(rt.alloc(), 2, 2)?;
    let maker = BranchAndBoundMaker::new(rt.alloc())?;
    let told = told_of_another_clause(rt.alloc(), Job::open(tables.search(2), maker))?;
    assert_eq!(rt; told, [None, Some(Fault::Floor), Some(Fault::Refusals)]);
    Ok(())
}
