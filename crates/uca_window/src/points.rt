ghost use Rattle.std.specs.Prelude.{◌≡◌, ◌+◌, ◌<◌, ◌≤◌, ◌++◌, ◌∷◌, [], true, length, drop};
ghost use Rattle.arrayvec.specs.ArrayVec.{array_vec_len};
ghost use Rattle.unicode.specs.CanonicalCombiningClass.{canonical_combining_class};
ghost use Rattle.unicode_normalization.specs.Decompose.{decompose_canonical};
ghost use Rattle.unicode_normalization.specs.Order.{is_ordered, canonical_order};
ghost use Rattle.uca_window.specs.Segment.{IsOpen, IsPlaceOf};

use arrayvec::ArrayVec;
use uca_weights::{MAX_KEY, MAX_LOOKAHEAD};
use unicode_normalization::Form;
use unicode_normalization::char::{canonical_combining_class, decomposition};

/// The most points that a window can hold.
pub const ROOM: usize = MAX_KEY + MAX_LOOKAHEAD;

// The first character that has a decomposition. Each one below is a starter, too.
const FIRST_DECOMPOSED: char = '\u{C0}';

/// Puts what a character decomposes to after points in canonical order, and keeps them in order. The first `closed`
/// points are in closed segments; returns how many are then.
pub fn push_decomposed(points: &mut ArrayVec<char, ROOM>, closed: usize, c: char) -> usize
    requires room { array_vec_len points.old + length (decompose_canonical c) ≤ ROOM }
    requires ordered { is_ordered points.old.items ≡ true }
    requires segments { IsOpen closed points.old.items }
    ensures points { points.new.items ≡ canonical_order (points.old.items ++ decompose_canonical c) }
    ensures segments { IsOpen result points.new.items }
{
    if c < FIRST_DECOMPOSED {
        return push_starter(points, c);
    }
    let mut room = [c; 3];
    let mut ends_at = closed;
    for point in decomposition(c, Form::Nfd, &mut room) {
        ends_at = push_point(points, ends_at, *point);
    }
    ends_at
}

// Puts a starter at the end of points in canonical order, where it closes the segment before it.
#[tactic(auto, using(crate::proofs::FormLemmas::push_steps))]
fn push_starter(points: &mut ArrayVec<char, ROOM>, point: char) -> usize
    requires room { array_vec_len points.old < ROOM }
    requires ordered { is_ordered points.old.items ≡ true }
    requires starter { canonical_combining_class point ≡ 0 }
    ensures points { points.new.items ≡ canonical_order (points.old.items ++ point ∷ []) }
    ensures segments { IsOpen result points.new.items }
    ensures len { array_vec_len points.new ≡ array_vec_len points.old + 1 }
{
    let closed = points.len();
    points.push(point);
    closed
}

// Puts a point after points in canonical order: a starter at the end, and a nonstarter in its place.
fn push_point(points: &mut ArrayVec<char, ROOM>, closed: usize, point: char) -> usize
    requires room { array_vec_len points.old < ROOM }
    requires ordered { is_ordered points.old.items ≡ true }
    requires segments { IsOpen closed points.old.items }
    ensures points { points.new.items ≡ canonical_order (points.old.items ++ point ∷ []) }
    ensures segments { IsOpen result points.new.items }
    ensures len { array_vec_len points.new ≡ array_vec_len points.old + 1 }
{
    let class = canonical_combining_class(point);
    if class == 0 {
        return push_starter(points, point);
    }
    let at = place_of(points.as_slice(), class);
    points.insert(at, point);
    closed
}

// The place of a nonstarter of this class. Each starter stops the search, since its class is 0.
fn place_of(points: &[char], class: u8) -> usize
    ensures { IsPlaceOf points.now class result }
{
    let mut at = points.len();
    while at > 0 && canonical_combining_class(points[at - 1]) > class {
        at -= 1;
    }
    at
}

// Removes the first points.
pub(crate) fn drop_points(points: &mut ArrayVec<char, ROOM>, n: usize)
    requires { n ≤ array_vec_len points.old }
    ensures { points.new.items ≡ drop n points.old.items }
{
    let left = points.len() - n;
    points.as_mut_slice().copy_within(n.., 0);
    points.truncate(left);
}
