//! Ranges of unified ideographs besides those of the standard's list (UTS #10, section 10.1.3).
ghost use Rattle.std.specs.Prelude.{◌≡◌, ◌≤◌, length, None, MatchResult, OnErr, OnOk};
ghost use Rattle.std.specs.List.{insert, list_any};
ghost use Rattle.uca_model.specs.UnifiedIdeographs.{AreIdeographs, is_added_ideograph, is_listed_ideograph, repeats_listed};
ghost use Rattle.uca_model.specs.AddedIdeographs.{are_bad_ideographs, put_ideographs, shares};
ghost use Rattle.uca_table.specs.Builder.{ideographs_fault, reported_range_fault};

use crate::fault::RangeFault;
use uca_weights::Ideographs;

/// The unified ideographs of the standard's list: the first and the last code point of each range.
const LISTED: [(char, char); 17] = [
    ('\u{3400}', '\u{4DBF}'),
    ('\u{4E00}', '\u{9FFF}'),
    ('\u{FA0E}', '\u{FA0F}'),
    ('\u{FA11}', '\u{FA11}'),
    ('\u{FA13}', '\u{FA14}'),
    ('\u{FA1F}', '\u{FA1F}'),
    ('\u{FA21}', '\u{FA21}'),
    ('\u{FA23}', '\u{FA24}'),
    ('\u{FA27}', '\u{FA29}'),
    ('\u{20000}', '\u{2A6DF}'),
    ('\u{2A700}', '\u{2B739}'),
    ('\u{2B740}', '\u{2B81D}'),
    ('\u{2B820}', '\u{2CEA1}'),
    ('\u{2CEB0}', '\u{2EBE0}'),
    ('\u{2EBF0}', '\u{2EE5D}'),
    ('\u{30000}', '\u{3134A}'),
    ('\u{31350}', '\u{323AF}'),
];

/// Whether the code point is in the standard's list of unified ideographs.
#[tactic(auto, unfolding(uca_model::specs::UnifiedIdeographs::is_listed_ideograph))]
pub(crate) fn is_listed(c: char) -> bool
    ensures { result ≡ is_listed_ideograph c }
{
    LISTED.iter().any(|pair| pair.0 <= c && c <= pair.1)
}

/// Whether a code point lies in one of the ranges.
pub(crate) fn is_added(added: &[Ideographs], c: char) -> bool
    ensures { result ≡ is_added_ideograph added.now c }
{
    added
        .iter()
        .any(|range| range.first <= c && c <= range.last)
}

/// Whether some code point of a range is in the list.
fn repeats_listed(range: Ideographs) -> bool
    ensures { result ≡ repeats_listed range }
{
    LISTED
        .iter()
        .any(|pair| range.first <= pair.1 && pair.0 <= range.last)
}

/// Whether some code point lies in a range and in one of others.
fn shares_any(range: Ideographs, others: &[Ideographs]) -> bool
    ensures { result ≡ list_any (shares range) others.now }
{
    others.iter().any(|other| range.first <= other.last && other.first <= range.last)
}

/// Whether a range conflicts with others.
fn is_bad(added: &[Ideographs], range: Ideographs) -> bool
    ensures { result ≡ are_bad_ideographs added.now range }
{
    range.first > range.last || repeats_listed(range) || shares_any(range, added)
}

/// Where a range goes: before the first one that begins above it.
fn place_of(added: &[Ideographs], range: Ideographs) -> usize
    ensures within { result ≤ length added.now }
    ensures put { insert added.now result range ≡ put_ideographs range added.now }
{
    for at in 0..added.len() {
        if range.first < added[at].first {
            return at;
        }
    }
    added.len()
}

/// Puts a range before the first one that begins above it. On a fault the ranges stay as they are.
#[tactic(auto, using(crate::proofs::IdeographLemmas::putting))]
pub(crate) fn add(added: &mut Vec<Ideographs>, range: Ideographs) -> Result<(), RangeFault>
    requires { AreIdeographs added.old.items }
    ensures ok { OnOk result (added.new.items ≡ put_ideographs range added.old.items) }
    ensures err { OnErr result (added.new.items ≡ added.old.items) }
    ensures valid { AreIdeographs added.new.items }
    ensures fault { MatchResult result (λ _. ideographs_fault added.old.items range ≡ None) (λ f. ideographs_fault added.old.items range ≡ reported_range_fault f) }
{
    if is_bad(added.as_slice(), range) {
        return Err(RangeFault::BadRange);
    }
    let at = place_of(added.as_slice(), range);
    match added.insert(at, range) {
        Ok(()) => Ok(()),
        Err(_) => Err(RangeFault::OutOfMemory),
    }
}
