//! A second solver of another make: it goes through all plans. It has clauses, weights and sums of its own, and shares no code
//! with the solver that it is compared with.
use std::alloc::{AllocError, Global};

/// A weight or a total: three whole numbers, of which each counts more than all after it. A plain one has only the first.
pub(crate) type Cost = [u128; 3];

/// Adds a cost to a total. The totals of these jobs stay far below 128 bits.
pub(crate) fn add(total: &mut Cost, cost: Cost) {
    total[0] = total[0].saturating_add(cost[0]);
    total[1] = total[1].saturating_add(cost[1]);
    total[2] = total[2].saturating_add(cost[2]);
}

/// Whether each of the three numbers is within that of the other.
fn is_within(cost: Cost, most: Cost) -> bool {
    cost[0] <= most[0] && cost[1] <= most[1] && cost[2] <= most[2]
}

/// A clause as two sets of variables, with variable v at bit v - 1: it is met where one of the first is chosen, or one of the
/// second is not.
#[derive(Clone, Copy)]
struct Clause {
    chosen: u32,
    left_out: u32,
}

impl Clause {
    fn of(literals: &[i32]) -> Clause {
        let mut clause = Clause {
            chosen: 0,
            left_out: 0,
        };
        for literal in literals {
            let bit = bit_of(literal.unsigned_abs());
            if *literal > 0 {
                clause.chosen |= bit;
            } else {
                clause.left_out |= bit;
            }
        }
        clause
    }

    /// Whether a plan meets the clause; its chosen variables stand at their bits.
    fn is_met(self, plan: u32) -> bool {
        plan & self.chosen != 0 || !plan & self.left_out != 0
    }
}

/// The bit at which a variable stands.
fn bit_of(variable: u32) -> u32 {
    let shift = variable.checked_sub(1);
    shift
        .and_then(|shift| 1_u32.checked_shl(shift))
        .unwrap_or(0)
}

/// A clause that may be broken, and what that costs.
#[derive(Clone, Copy)]
struct Soft {
    weight: Cost,
    clause: Clause,
}

/// Up to 31 variables, and the clauses in their order.
#[derive(Drop)]
pub(crate) struct Enumeration {
    variables: u8,
    hards: Vec<Clause>,
    softs: Vec<Soft>,
}

impl Enumeration {
    pub(crate) fn new(alloc: Global, variables: u8) -> Enumeration {
        Enumeration {
            variables,
            hards: Vec::new(alloc),
            softs: Vec::new(alloc),
        }
    }

    pub(crate) fn add_hard(&mut self, literals: &[i32]) -> Result<(), AllocError> {
        Ok(self.hards.push(Clause::of(literals))?)
    }

    pub(crate) fn add_soft(&mut self, weight: Cost, literals: &[i32]) -> Result<(), AllocError> {
        let clause = Clause::of(literals);
        Ok(self.softs.push(Soft { weight, clause })?)
    }

    pub(crate) fn soft_count(&self) -> usize {
        self.softs.len()
    }

    /// The refusal of a hard clause, by its number: 9 where a literal is 0 or belongs to no variable.
    pub(crate) fn hard_refusal(&self, literals: &[i32]) -> Option<u8> {
        let most = u32::from(self.variables);
        let is_bad = |literal: &i32| *literal == 0 || literal.unsigned_abs() > most;
        if literals.iter().any(is_bad) {
            return Some(9);
        }
        None
    }

    /// The refusal of a soft clause: 9, then 10 where it weighs nothing, then 12 where the total is more than can be held.
    pub(crate) fn soft_refusal(&self, weight: Cost, literals: &[i32], most: Cost) -> Option<u8> {
        if let Some(refusal) = self.hard_refusal(literals) {
            return Some(refusal);
        }
        if weight == [0; 3] {
            return Some(10);
        }
        let mut total = weight;
        for soft in &self.softs {
            add(&mut total, soft.weight);
        }
        if !is_within(total, most) {
            return Some(12);
        }
        None
    }

    /// The cost of a cheapest plan, or none where no plan meets the hard clauses.
    pub(crate) fn least_cost(&self) -> Option<Cost> {
        let plans = bit_of(u32::from(self.variables) + 1);
        let mut least: Option<Cost> = None;
        for plan in 0..plans {
            if let Some(cost) = self.cost_of(plan)
                && least.is_none_or(|least| cost < least)
            {
                least = Some(cost);
            }
        }
        least
    }

    /// What a plan costs that has a byte for each variable, 1 where it is chosen and 0 where not.
    /// None where it is no such plan, or breaks a hard clause.
    pub(crate) fn cost_of_values(&self, values: &[u8]) -> Option<Cost> {
        if values.len() != usize::from(self.variables) {
            return None;
        }
        let mut plan = 0_u32;
        for value in values.iter().rev() {
            plan = match value {
                0 => plan << 1,
                1 => plan << 1 | 1,
                _ => return None,
            };
        }
        self.cost_of(plan)
    }

    /// What a plan costs, or none where it breaks a hard clause.
    fn cost_of(&self, plan: u32) -> Option<Cost> {
        if !self.hards.iter().all(|clause| clause.is_met(plan)) {
            return None;
        }
        let mut cost = [0; 3];
        for soft in &self.softs {
            if !soft.clause.is_met(plan) {
                add(&mut cost, soft.weight);
            }
        }
        Some(cost)
    }
}
