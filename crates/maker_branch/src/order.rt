//! In which order the cores of a branch put loads on their numbers.
ghost use Rattle.std.specs.Prelude.{◌<◌, IfSome};

use crate::branches::Branch;
use crate::scores::Scores;
use core_store::Store;
use terms::SoftSet;
use terms::limits::CORE_PLACES;
use weights::WeightKind;

/// Half of the keys are for cores of which only heavy numbers are left, and half for the others: tuned on bench, no promise.
const HALF_KEYS: usize = 128;

/// How far the sums of scores of two keys are apart: tuned on bench, no promise.
const KEY_STEP: u32 = 16;

/// How many keys there are to order by.
const KEYS: usize = 2 * HALF_KEYS;

/// No core has this index.
const NO_INDEX: u16 = CORE_PLACES as u16;

/// The indices of cores in lists, one for each key; lower keys come first.
#[derive(Clone, Copy, Debug)]
pub(crate) struct Order {
    /// The first index of each list.
    heads: [u16; KEYS],
    /// The index that comes after each index in its list.
    next: [u16; CORE_PLACES],
    /// The lists before this one are empty.
    key: usize,
}

impl Order {
    /// The cores that the chosen numbers do not meet. Those that have only heavy numbers left come before the others, and among
    /// both kinds those whose numbers have a lower sum of scores come first: they hinder fewer others.
    pub(crate) fn of<W: WeightKind>(
        store: &Store<W>,
        branch: &Branch,
        scores: &Scores,
        heavy: SoftSet,
    ) -> Order {
        let mut order = Order {
            heads: [NO_INDEX; KEYS],
            next: [NO_INDEX; CORE_PLACES],
            key: 0,
        };
        for (index, core) in store.cores().iter().enumerate() {
            if !core.intersects(branch.chosen) {
                order.push(key(core.minus(branch.out), scores, heavy), index);
            }
        }
        order
    }

    /// Puts the index first in the list of the key.
    fn push(&mut self, key: usize, index: usize) {
        if let (Some(head), Some(next)) = (self.heads.get_mut(key), self.next.get_mut(index)) {
            *next = *head;
            *head = index as u16;
        }
    }

    /// Takes the index that comes first.
    pub(crate) fn take_first(&mut self) -> Option<usize>
        ensures { IfSome result (λ index. index < CORE_PLACES) }
    {
        for key in self.key..KEYS {
            let first = usize::from(self.heads[key]);
            if let Some(next) = self.next.get(first) {
                self.heads[key] = *next;
                self.key = key;
                return Some(first);
            }
        }
        None
    }
}

/// The key of what is left of a core: the sum of its scores in steps, up to the last key of its half.
fn key(rest: SoftSet, scores: &Scores, heavy: SoftSet) -> usize
    ensures { result < KEYS }
{
    let mut sum = 0_u32;
    for number in rest.members() {
        sum = sum.saturating_add(scores.of_number(number));
    }
    let low = ((sum / KEY_STEP) as usize).min(HALF_KEYS - 1);
    if rest.is_subset(heavy) {
        low
    } else {
        HALF_KEYS + low
    }
}
