ghost use Rattle.std.specs.Prelude.{◌≡◌, IfNone, IfSome};
ghost use Rattle.uca_levels.specs.Decides.{Decides, SameNumber};

use std::cmp::Ordering;

/// The order of two lists of one level, as far as their next numbers decide it: weights or code points, or `None` where a list
/// ends. A list that ends comes first (UTS #10, section 7.4). `None`: both go on with the same number.
#[inline(always)]
pub(crate) fn decided(x: Option<u32>, y: Option<u32>) -> Option<Ordering>
    ensures some { IfSome result (Decides x y) }
    ensures none { IfNone result (SameNumber x y) }
{
    match (x, y) {
        (Some(x), Some(y)) => {
            if x == y {
                return None;
            }
            Some(x.cmp(&y))
        }
        (None, None) => Some(Ordering::Equal),
        (None, Some(_)) => Some(Ordering::Less),
        (Some(_), None) => Some(Ordering::Greater),
    }
}

/// A weight as a number.
#[inline(always)]
pub(crate) fn widened(weight: Option<u16>) -> Option<u32>
    ensures { result ≡ weight }
{
    match weight {
        Some(weight) => Some(u32::from(weight)),
        None => None,
    }
}

/// A code point as a number.
#[inline(always)]
pub(crate) fn as_number(point: Option<char>) -> Option<u32>
    ensures { result ≡ point }
{
    match point {
        Some(point) => Some(u32::from(point)),
        None => None,
    }
}
