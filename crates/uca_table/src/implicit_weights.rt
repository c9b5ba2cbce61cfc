ghost use Rattle.std.specs.Prelude.{◌≡◌};
ghost use Rattle.uca_model.specs.Table.{AreRanges};
ghost use Rattle.uca_model.specs.ImplicitWeights.{implicit_over, pair, two_parts_base};
ghost use Rattle.uca_model.specs.Ranges.{AreByFirst};

use crate::ideographs::{is_added, is_listed};
use crate::ranges::Ranges;
use uca_weights::{Element, Ideographs};
use unicode::properties::GeneralCategory;

/// The elements of a code point that is no key (UTS #10, section 10.1.3).
#[tactic(auto, unfolding(uca_model::specs::ImplicitWeights::implicit_over), using(uca_model::proofs::ImplicitLemmas::offset_below, uca_model::proofs::ImplicitLemmas::lowest_first_below))]
pub(crate) fn implicit(ranges: &Ranges, added: &[Ideographs], c: char) -> [Element; 2]
    requires ranges { AreRanges ranges.now }
    requires by_first { AreByFirst ranges.now }
    ensures { result ≡ implicit_over ranges.now added.now c }
{
    // Few code points lie in a range, so only those need a look-up of the general category.
    if let Some(range) = ranges.range_of(c) {
        if GeneralCategory::for_char(c) != GeneralCategory::Unassigned {
            let lowest = ranges.lowest_first(range);
            return pair(range.base, (c as u32 - lowest as u32 + 0x8000) as u16);
        }
    }
    let code = c as u32;
    pair(
        (base_in_two_parts(added, c) + code / 0x8000) as u16,
        (code % 0x8000 + 0x8000) as u16,
    )
}

/// The base of the first weight of a code point in no range.
fn base_in_two_parts(added: &[Ideographs], c: char) -> u32
    ensures { result ≡ two_parts_base added.now c }
{
    if !is_listed(c) && !is_added(added, c) {
        return 0xFBC0;
    }
    // CJK Unified Ideographs and CJK Compatibility Ideographs.
    if matches!(c, '\u{4E00}'..='\u{9FFF}' | '\u{F900}'..='\u{FAFF}') {
        0xFB40
    } else {
        0xFB80
    }
}

/// The two elements of a code point without a key, `[.AAAA.0020.0002][.BBBB.0000.0000]`.
fn pair(aaaa: u16, bbbb: u16) -> [Element; 2]
    ensures { result ≡ pair aaaa bbbb }
{
    [
        Element {
            starred: false,
            l1: aaaa,
            l2: 0x20,
            l3: 2,
        },
        Element {
            starred: false,
            l1: bbbb,
            l2: 0,
            l3: 0,
        },
    ]
}
