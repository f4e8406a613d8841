//! A weight taken several times.
ghost use Rattle.std.specs.Prelude.{◌<◌, ◌^◌, IfSome};
ghost use Rattle.maker_branch.specs.Multiples.{Multiple};

use weights::WeightKind;

/// How many binary digits a count has, so that it can be that of all cores.
const DIGITS: u32 = 10;

/// The weight so many times, if it can be held.
pub(crate) fn times<W: WeightKind>(weight: W, count: u32) -> Option<W>
    ensures { count < 2 ^ DIGITS → IfSome result (Multiple W.kind weight count) }
{
    let mut product = W::zero();
    for digit in (0..DIGITS).rev() {
        product = product.sum(product)?;
        if (count >> digit) % 2 == 1 {
            product = product.sum(weight)?;
        }
    }
    Some(product)
}
