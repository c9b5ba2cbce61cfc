ghost use Rattle.std.specs.Prelude.{◌≡◌, ◌∷◌, ◌++◌, ◌||◌, [], List, ℕ, not, drop, reverse, chars, unwrap_or, IfSome, IfNone};
ghost use Rattle.std.specs.Str.{IsUtf8};
ghost use Rattle.uca_model.specs.CollationElements.{elements_or_implicit};
ghost use Rattle.uca_model.specs.StandAlone.{is_first, ends_matches, is_before_last};
ghost use Rattle.uca_model.specs.Prefix.{have_primaries_of, is_closed, is_complete, is_complete_from, is_primary_of, is_silent, keeps_primaries, lack_primary};
ghost use Rattle.uca_window.specs.Passage.{text_of};

use uca_table::Table;
use uca_weights::Element;
use uca_window::Passage;
use unicode_normalization::Form;
use unicode_normalization::char::{canonical_combining_class, decomposition};

/// Whether a text is complete: whatever follows it, the primary weights of the longer text begin with its own. So a
/// search for the texts that begin with it is a search for the keys that begin with its key at the strength `Primary`.
///
/// A text that ends in `c` is not complete where `ch` is a key of other primary weights. Where it cannot tell, it returns `false`: where
/// the last starter is neither first nor last in some key, and where a nonstarter after it has a primary weight. The empty
/// text is complete. It does not allocate.
#[tactic(auto, using(crate::proofs::CompletenessLemmas::completing))]
pub fn is_complete(t: &Table, p: &Passage) -> bool
    ensures { result ≡ is_complete t.now (text_of p.now) }
{
    let mut left = p.as_str();
    while let Some((front, c)) = split_last(left) {
        let mut room = [c; 3];
        if let Some(complete) = ends_complete(t, decomposition(c, Form::Nfd, &mut room)) {
            return complete;
        }
        left = front;
    }
    true
}

/// What comes before the last character of a text, and the character.
#[tactic(auto, using(crate::proofs::CompletenessLemmas::splitting))]
pub fn split_last(text: &str) -> Option<(&str, char)>
    ensures some { IfSome result (λ r. chars text.now ≡ chars r.0.now ++ r.1 ∷ []) }
    ensures utf8 { IfSome result (λ r. IsUtf8 r.0.now) }
    ensures none { IfNone result (chars text.now ≡ []) }
{
    let mut rest = text.chars();
    let last = rest.next_back()?;
    Some((rest.as_str(), last))
}

// Whether a text that ends in these code points is complete, or `None` where that depends on what comes before them.
#[tactic(auto, using(crate::proofs::CompletenessLemmas::ending))]
fn ends_complete(t: &Table, points: &[char]) -> Option<bool>
    ensures { (before : List ℕ) → is_complete_from t.now (reverse points.now ++ before) ≡ unwrap_or result (is_complete_from t.now before) }
{
    let mut n = points.len();
    while n > 0 {
        n -= 1;
        let c = points[n];
        let class = canonical_combining_class(c);
        if class == 0 {
            return Some(t.is_closed(c));
        }
        if !t.is_silent(c) {
            return Some(false);
        }
    }
    None
}
