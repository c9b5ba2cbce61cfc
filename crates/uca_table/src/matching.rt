ghost use Rattle.std.specs.Prelude.{◌≡◌, ◌+◌, ◌-◌, ◌<◌, ◌≤◌, ◌&&◌, ◌++◌, ◌∷◌, [], cond, nat_lt, length, take, drop, option_copied, IfSome};
ghost use Rattle.unicode.specs.CanonicalCombiningClass.{canonical_combining_class};
ghost use Rattle.uca_model.specs.Table.{elements_at, is_key};
ghost use Rattle.uca_model.specs.Match.{longest_match, discontiguous_match, took};
ghost use Rattle.uca_model.specs.CollationElements.{step};
ghost use Rattle.uca_table.specs.Running.{brought_forward};

use crate::growing::Growing;
use crate::table::Table;
use uca_weights::Element;
use unicode_normalization::char::canonical_combining_class;

/// The longest initial substring that is a key, or no code points where there is none (UTS #10, 7.2, step S2.1). `none` has no code
/// points, and says which lists are keys.
pub fn longest_match<P: Growing>(none: P, text: &[char]) -> P
    requires { P.path none ≡ [] }
    ensures set { P.set result ≡ P.set none }
    ensures path { P.path result ≡ longest_match (P.is_key (P.set none)) text.now }
{
    let mut longest = none.same();
    let mut points = none;
    for c in text {
        if !points.append(*c) {
            return longest;
        }
        if points.is_found() {
            longest = points.same();
        }
    }
    longest
}

/// Whether code points take a nonstarter, where `high` is the highest combining class of those that were passed over
/// (UTS #10, 7.2, steps S2.1.2 and S2.1.3). If so it is appended to them; otherwise they stay.
pub fn takes<P: Growing>(points: &mut P, high: u8, nonstarter: char) -> bool
    ensures value { result ≡ (nat_lt high (canonical_combining_class nonstarter) && P.is_key (P.set points.old) (P.path points.old ++ nonstarter ∷ [])) }
    ensures path { P.path points.new ≡ cond result (P.path points.old ++ nonstarter ∷ []) (P.path points.old) }
    ensures set { P.set points.new ≡ P.set points.old }
{
    if high >= canonical_combining_class(nonstarter) {
        return false;
    }
    let mut longer = points.same();
    if !longer.append(nonstarter) || !longer.is_found() {
        return false;
    }
    *points = longer;
    true
}

// Moves the code point at `from` to `to`, before those that were there.
fn bring_forward(text: &mut [char], to: usize, from: usize)
    requires ordered { to ≤ from }
    requires within { from < length text.old }
    ensures { text.new ≡ brought_forward text.old to from }
{
    text[to..=from].rotate_right(1);
}

/// Moves those nonstarters forward to the first `start` code points that make longer keys with them, and returns how
/// many code points the match then has (UTS #10, 7.2, steps S2.1.1 to S2.1.3). Those that were passed over follow it
/// in the order that they had. The match is appended to its start.
#[tactic(auto, using(crate::proofs::MatchLemmas::extending))]
pub fn extend<P: Growing>(matched: &mut P, text: &mut [char], start: usize) -> usize
    requires within { start ≤ length text.old }
    requires path { P.path matched.old ≡ take start text.old }
    ensures taken { discontiguous_match (P.is_key (P.set matched.old)) (take start text.old) [] (drop start text.old) ≡ took (take result text.new) (drop result text.new) }
    ensures some { start ≤ result }
    ensures within { result ≤ length text.old }
    ensures path { P.path matched.new ≡ take result text.new }
    ensures set { P.set matched.new ≡ P.set matched.old }
{
    if matched.is_whole() {
        return start;
    }
    let mut end = start;
    let mut high = 0;
    for at in start..text.len() {
        let nonstarter = text[at];
        let class = canonical_combining_class(nonstarter);
        if class == 0 {
            return end;
        }
        if !takes(matched, high, nonstarter) {
            high = high.max(class);
            continue;
        }
        bring_forward(text, end, at);
        end += 1;
    }
    end
}

/// A match at the front of a text.
#[derive(Clone, Copy)]
pub struct Matched<'t> {
    /// How many code points it has.
    pub len: usize,
    /// The elements of the key, where it is one.
    pub elements: Option<&'t [Element]>,
}

/// Moves the longest match to the front of a text in NFD. What is left of the text follows it (UTS #10, 7.2, step
/// S2.1). A code point that begins no key is a match by itself.
#[tactic(auto, using(crate::proofs::WalkLemmas::no_elements))]
pub fn match_front<'t>(t: &'t Table, text: &mut [char]) -> Matched<'t>
    requires { 0 < length text.old }
    ensures matched { (step (is_key t.now) text.old).matched.code_points ≡ take result.len text.new }
    ensures rest { (step (is_key t.now) text.old).rest ≡ drop result.len text.new }
    ensures some { 0 < result.len }
    ensures within { result.len ≤ length text.old }
    ensures elements { option_copied result.elements ≡ elements_at t.now (take result.len text.new) }
    ensures some_elements { IfSome result.elements (λ es. 0 < length es.now) }
{
    let mut walk = longest_match(t.walk(), text);
    let n = walk.len();
    if n == 0 {
        return Matched {
            len: 1,
            elements: None,
        };
    }
    Matched {
        len: extend(&mut walk, text, n),
        elements: walk.elements(),
    }
}
