//! Draws weights of both kinds.
use random::Xorshift;
use std::fmt;
use weights::{Levels, Plain, WeightKind};

/// How the weights of a store or of a job lie.
#[derive(Clone, Copy)]
pub(crate) enum Spread {
    Equal,
    /// Up to 9, or up to this in each level.
    Small(u8),
    /// Many are far greater than others.
    Wide,
    /// Few of them come to more than the greatest total.
    Great,
    /// Half of them are small, and few of the others come to more than the greatest total.
    Mixed,
}

/// A weight kind whose weights can be drawn and shown.
pub(crate) trait Drawn: WeightKind + fmt::Debug + fmt::Display {
    fn draw(random: &mut Xorshift, spread: Spread) -> Self;
}

/// Draws a weight, and one in thirty of zero.
pub(crate) fn draw_weight<W: Drawn>(random: &mut Xorshift, spread: Spread) -> W {
    if random.one_in(30) {
        return W::zero();
    }
    W::draw(random, spread)
}

impl Drawn for Plain {
    fn draw(random: &mut Xorshift, spread: Spread) -> Plain {
        Plain::new(match spread {
            Spread::Equal => 5,
            Spread::Small(_) => u64::from(random.up_to(9)),
            Spread::Wide => random.word() >> (20 + random.up_to(40)),
            Spread::Great => random.word() >> random.up_to(6),
            Spread::Mixed if random.one_in(2) => u64::from(random.up_to(9)),
            Spread::Mixed => (u64::MAX >> random.up_to(4)) - u64::from(random.up_to(3)),
        })
    }
}

impl Drawn for Levels {
    fn draw(random: &mut Xorshift, spread: Spread) -> Levels {
        match spread {
            Spread::Equal => Levels::new(0, 1, 0),
            Spread::Small(most) => {
                let first = u32::from(random.up_to(most));
                let second = u32::from(random.up_to(most));
                Levels::new(first, second, u32::from(random.up_to(most)))
            }
            Spread::Wide => {
                let amount = (random.word() >> 36) as u32 >> random.up_to(24);
                draw_level(random, amount)
            }
            Spread::Great => {
                let amount = (random.word() >> 32) as u32 >> random.up_to(6);
                let level = random.up_to(2);
                let few = u32::from(random.up_to(2));
                match level {
                    0 => Levels::new(amount, few, 0),
                    1 => Levels::new(0, amount, few),
                    _ => Levels::new(few, 0, amount),
                }
            }
            Spread::Mixed if random.one_in(2) => {
                let amount = u32::from(random.up_to(3));
                draw_level(random, amount)
            }
            Spread::Mixed => {
                let amount = (u32::MAX >> random.up_to(4)) - u32::from(random.up_to(3));
                draw_level(random, amount)
            }
        }
    }
}

/// Draws the level of the amount, and nothing in the others.
fn draw_level(random: &mut Xorshift, amount: u32) -> Levels {
    match random.up_to(2) {
        0 => Levels::new(amount, 0, 0),
        1 => Levels::new(0, amount, 0),
        _ => Levels::new(0, 0, amount),
    }
}
