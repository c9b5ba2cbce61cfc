ghost use Rattle.std.specs.Prelude.{◌≡◌, chars, length};
ghost use Rattle.std.specs.Option.{option_map};
ghost use Rattle.uca_key.specs.PackedKey.{packed_prefix};
ghost use Rattle.uca_model.specs.Prefix.{end_of_prefix, is_complete, primary_key};
ghost use Rattle.uca_handle.specs.Calls.{AreEndsIn, PutsEndsBy};

use crate::faults::BoundsFault;
use crate::opened::Opened;
use std::alloc::Global;
use uca_key::{PrefixBounds, copy_front, packed_prefix_bounds, prefix_bounds};
use uca_table::Table;
use uca_weights::Variable;
use uca_window::Passage;

/// How many bytes the two ends of a range of keys have, and of what text they are.
#[derive(Clone, Copy, Debug, PartialEq, Eq)]
pub struct BoundsSize {
    /// Those of the lower end, which the keys begin with.
    pub lower: usize,
    /// Those of the upper end, which all the keys come before. `None` where there is no such end.
    pub upper: Option<usize>,
    /// Whether the text is complete: then every text that begins with it has its key in the range.
    pub complete: bool,
}

/// Copies the two ends of a range into the fronts of two buffers, or as many of their bytes as fit.
#[tactic(auto, using(crate::proofs::UpperEndLemmas::end_has_a_byte))]
fn put_ends(bounds: &PrefixBounds, lower: &mut [u8], upper: &mut [u8]) -> BoundsSize
    requires { option_map (λ (end : _). end.items) bounds.now.upper ≡ end_of_prefix bounds.now.lower.items }
    ensures { AreEndsIn bounds.now.lower.items bounds.now.complete lower.old lower.new upper.old upper.new result }
{
    copy_front(bounds.lower.as_slice(), lower);
    let upper_size = match &bounds.upper {
        Some(end) => {
            copy_front(end.as_slice(), upper);
            Some(end.len())
        }
        None => None,
    };
    BoundsSize {
        lower: bounds.lower.len(),
        upper: upper_size,
        complete: bounds.complete,
    }
}

/// Puts the two ends of the keys of all texts whose primary weights begin with those of a text into the fronts of two buffers, or
/// as many of their bytes as fit.
pub(crate) fn put_bounds(
    alloc: Global,
    t: &Table,
    v: Variable,
    text: &[u8],
    lower: &mut [u8],
    upper: &mut [u8],
) -> Result<BoundsSize, BoundsFault>
    ensures { PutsEndsBy (primary_key t.now v (chars text.now)) (is_complete t.now (chars text.now)) text.now lower.old lower.new upper.old upper.new result }
{
    let passage = match Passage::of_bytes(text) {
        Ok(passage) => passage,
        Err(fault) => return Err(BoundsFault::Text(fault)),
    };
    match prefix_bounds(alloc, t, v, &passage) {
        Ok(bounds) => Ok(put_ends(&bounds, lower, upper)),
        Err(_) => Err(BoundsFault::OutOfMemory),
    }
}

/// The same of packed keys.
pub(crate) fn put_packed_bounds(
    alloc: Global,
    opened: &Opened,
    v: Variable,
    text: &[u8],
    lower: &mut [u8],
    upper: &mut [u8],
) -> Result<BoundsSize, BoundsFault>
    ensures { PutsEndsBy (packed_prefix opened.now v (chars text.now)) (is_complete opened.now (chars text.now)) text.now lower.old lower.new upper.old upper.new result }
{
    let passage = match Passage::of_bytes(text) {
        Ok(passage) => passage,
        Err(fault) => return Err(BoundsFault::Text(fault)),
    };
    match packed_prefix_bounds(alloc, opened.table(), opened.code(), v, &passage) {
        Ok(bounds) => Ok(put_ends(&bounds, lower, upper)),
        Err(_) => Err(BoundsFault::OutOfMemory),
    }
}
