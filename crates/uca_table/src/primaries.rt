ghost use Rattle.std.specs.Prelude.{◌≡◌};
ghost use Rattle.uca_model.specs.SafeCut.{begins_with_primary};
ghost use Rattle.uca_model.specs.Prefix.{have_primaries_of, is_primary_of, lack_primary};

use uca_weights::Element;

/// Whether the first of the elements has a primary weight.
pub(crate) fn begins_with_primary(elements: &[Element]) -> bool
    ensures { result ≡ begins_with_primary elements.now }
{
    elements.first().is_some_and(|first| first.l1 != 0)
}

/// Whether the first elements have these primary weights, and the others none.
pub(crate) fn have_primaries_of(own: &[Element], elements: &[Element]) -> bool
    ensures { result ≡ have_primaries_of own.now elements.now }
{
    let mut firsts = own;
    let mut left = elements;
    while let Some((first, next_firsts)) = firsts.split_first() {
        let Some((element, next_left)) = left.split_first() else {
            return false;
        };
        if element.l1 != first.l1 || element.starred != first.starred {
            return false;
        }
        firsts = next_firsts;
        left = next_left;
    }
    lack_primary(left)
}

/// Whether no element has a primary weight.
pub(crate) fn lack_primary(elements: &[Element]) -> bool
    ensures { result ≡ lack_primary elements.now }
{
    elements.iter().all(|element| element.l1 == 0)
}
