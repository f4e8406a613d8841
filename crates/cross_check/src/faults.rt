//! Where two parts disagree, or where an answer is wrong.
use std::alloc::AllocError;
use thiserror::Error;

/// What ends a comparison before its last call.
#[derive(Clone, Copy, PartialEq, Eq, Debug, Error)]
pub(crate) enum Fault {
    #[error("one refuses a call, and the other does not, or for another reason")]
    Refusals,
    #[error("a call is not refused as was told before")]
    ToldOtherwise,
    #[error("not both have the variables of the input")]
    Variables,
    #[error("not both have the soft clauses or the weights that were accepted")]
    SoftCounts,
    #[error("not both keep the cores that they should")]
    CoreCounts,
    #[error("one answers a model and the other a core")]
    Answers,
    #[error("a model is answered to a buffer that is too short for it")]
    ShortBuffer,
    #[error("a model does not satisfy what was asked for")]
    NoModel,
    #[error("a core has a member that was not asked for")]
    CoreOutside,
    #[error("a core has a model")]
    NoCore,
    #[error("bytes of a buffer were written that have to stay")]
    Written,
    #[error("not both name the soft clauses that an assignment breaks")]
    Broken,
    #[error("the cost of a set is wrong")]
    Cost,
    #[error("an answer is no cover")]
    NoCover,
    #[error("a member of a quick cover can be spared")]
    Spare,
    #[error("a quick cover costs less than the least one")]
    NotLeast,
    #[error("the least covers do not cost the same")]
    LeastCosts,
    #[error("the least cover does not cost what was worked out")]
    WorkedOut,
    #[error("the number of a soft clause is not the count of those before it")]
    SoftNumber,
    #[error("the rounds do not come to an end")]
    NoEnd,
    #[error("a plan is kept without a ceiling, or none with one")]
    OneAlone,
    #[error("the plan that is kept is not allowed")]
    NotAllowed,
    #[error("the plan that is kept does not cost what the ceiling says")]
    Ceiling,
    #[error("some plan costs less than the floor")]
    Floor,
    #[error("the floor or the ceiling of a best plan is not the least cost")]
    NotBest,
    #[error("the job says void, and a plan is allowed")]
    NotVoid,
    #[error(transparent)]
    NoMemory(#[from(alloc)] AllocError),
}

/// What both parts answer, where they answer the same.
pub(crate) fn same<A: PartialEq + Drop>(first: A, second: A, fault: Fault) -> Result<A, Fault> {
    if first != second {
        return Err(fault);
    }
    Ok(first)
}
