//! A gap for a new weight: the weights of one level above a given one go up by one.
ghost use Rattle.std.specs.Prelude.{◌≡◌, ◌≤◌, ◌&&◌, ◌==◌, false, min};
ghost use Rattle.std.specs.List.{list_any};
ghost use Rattle.uca_model.specs.Gap.{moves, weight_with_gap, with_gap, cannot_move, max_weight};

use uca_table::Element;

/// The greatest weight that may occur at a level, 1 to 3, below the implicit ones.
pub(crate) fn max_weight(level: u8) -> u16
    ensures { result ≡ max_weight level }
{
    if level == 1 { 0x7FFF } else { 0xFFFF }
}

/// Whether a weight of a level moves when a gap is made above `w`. The implicit primary weights stay.
pub(crate) fn moves(level: u8, w: u16, weight: u16) -> bool
    ensures { result ≡ moves level w weight }
{
    w < weight && (level != 1 || weight < 0x8000)
}

/// A weight with a gap above `w`, at most 65535.
pub(crate) fn weight_with_gap(level: u8, w: u16, weight: u16) -> u16
    ensures value { result ≡ min (weight_with_gap level w weight) 65535 }
    ensures exact { (moves level w weight && weight == max_weight level) ≡ false → result ≡ weight_with_gap level w weight }
{
    if moves(level, w, weight) {
        weight.saturating_add(1)
    } else {
        weight
    }
}

/// Whether an element's weight at a level is above `w` and has to move, but can't.
fn cannot_move(level: u8, w: u16, element: Element) -> bool
    requires first { 1 ≤ level }
    requires last { level ≤ 3 }
    ensures { result ≡ cannot_move level w element }
{
    let weight = element.weight(level);
    moves(level, w, weight) && weight == max_weight(level)
}

/// Whether some element has a weight above `w` at a level, 1 to 3, that has to move, but can't.
pub(crate) fn any_cannot_move(level: u8, w: u16, elements: &[Element]) -> bool
    requires first { 1 ≤ level }
    requires last { level ≤ 3 }
    ensures { result ≡ list_any (cannot_move level w) elements.now }
{
    elements.iter().any(|e| cannot_move(level, w, *e))
}

/// An element with a gap above `w` at a level, 1 to 3: its weight there goes up by one if it is greater. At level 1 the implicit ones,
/// from 8000 on, stay.
pub(crate) fn with_gap(level: u8, w: u16, element: Element) -> Element
    requires first { 1 ≤ level }
    requires last { level ≤ 3 }
    requires free { cannot_move level w element ≡ false }
    ensures { result ≡ with_gap level w element }
{
    let mut moved = element;
    match level {
        1 => moved.l1 = weight_with_gap(1, w, element.l1),
        2 => moved.l2 = weight_with_gap(2, w, element.l2),
        _ => moved.l3 = weight_with_gap(3, w, element.l3),
    }
    moved
}
