ghost use Rattle.std.specs.Prelude.{◌≡◌, ◌↔◌, ◌++◌, ℕ, List, None, All, length, true, IfOk};
ghost use Rattle.std.specs.Char.{IsScalar};
ghost use Rattle.std.specs.Option.{option_map};
ghost use Rattle.uca_weights.specs.declared.settings.Settings.{Settings};
ghost use Rattle.uca_model.specs.Laws.{AreBytes, BeginsWith};
ghost use Rattle.uca_model.specs.LevelWeights.{level_list};
ghost use Rattle.uca_model.specs.Prefix.{IsBetween, end_of_prefix, is_complete, primary_key};
ghost use Rattle.uca_model.specs.SortKey.{sort_key};
ghost use Rattle.uca_window.specs.Passage.{text_of};

use crate::keys::key_of;
use std::alloc::{AllocError, Global};
use uca_match::is_complete;
use uca_table::Table;
use uca_weights::{Settings, Strength, Variable};
use uca_window::Passage;

/// The two ends of a range of keys: those of all texts whose primary weights begin with the primary weights of a text.
#[derive(Debug, Drop)]
pub struct PrefixBounds {
    /// The key of the text at the strength `Primary`. The keys begin with it, so none of them comes before it.
    pub lower: Vec<u8>,
    /// The first byte string after all that begin with `lower`: all the keys come before it. `None` where every key from
    /// `lower` on begins with it, as where `lower` is empty.
    pub upper: Option<Vec<u8>>,
    /// Whether the text is complete: then every text that begins with it has its key in the range. Where it is not, the next
    /// character may join its last ones in a contraction with other primary weights, and such a text may be outside.
    pub complete: bool,
}

/// The ends of the keys of all texts whose primary weights begin with those of a text, under an option of variable weighting. The
/// keys of just these texts, of whatever strength, are from `lower` up to `upper`, and each byte string there begins with `lower`.
/// It fails only where memory is refused.
#[tactic(auto, using(crate::proofs::BoundLemmas::between_longer, crate::proofs::BoundLemmas::begins_lower))]
pub fn prefix_bounds(
    alloc: Global,
    t: &Table,
    v: Variable,
    p: &Passage,
) -> Result<PrefixBounds, AllocError>
    ensures ends { IfOk result (λ b. (b.lower.items ≡ primary_key t.now v (text_of p.now)) × (option_map (λ (end : _). end.items) b.upper ≡ end_of_prefix b.lower.items)) }
    ensures exactly { IfOk result (λ b. (s : Settings) (x : List ℕ) → s.weighting ≡ v → All IsScalar x → IsBetween b.lower.items (option_map (λ (end : _). end.items) b.upper) (sort_key t.now s x) ↔ BeginsWith (level_list t.now v x 1) (level_list t.now v (text_of p.now) 1)) }
    ensures complete { IfOk result (λ b. b.complete ≡ is_complete t.now (text_of p.now)) }
    ensures longer { IfOk result (λ b. (s : Settings) (x : List ℕ) → b.complete ≡ true → s.weighting ≡ v → IsBetween b.lower.items (option_map (λ (end : _). end.items) b.upper) (sort_key t.now s (text_of p.now ++ x))) }
    ensures no_others { IfOk result (λ b. (bytes : List ℕ) → AreBytes bytes → IsBetween b.lower.items (option_map (λ (end : _). end.items) b.upper) bytes → BeginsWith bytes b.lower.items) }
{
    // Both are only for the proof: the table is within its limits, and the text has scalar values.
    let _longest = t.longest();
    let _text = p.as_str();
    let primary = Settings {
        strength: Strength::Primary,
        weighting: v,
    };
    let complete = is_complete(t, p);
    let lower = key_of(alloc, t, primary, p)?;
    let upper = end_of_prefix(alloc, lower.as_slice())?;
    Ok(PrefixBounds {
        lower,
        upper,
        complete,
    })
}

// The first byte string after all that begin with these bytes.
#[tactic(auto, using(std::proofs::lemmas::Grind::common_steps, crate::proofs::BoundLemmas::end_nothing, crate::proofs::BoundLemmas::end_past))]
pub(crate) fn end_of_prefix(alloc: Global, bytes: &[u8]) -> Result<Option<Vec<u8>>, AllocError>
    ensures { IfOk result (λ end. option_map (λ (v : _). v.items) end ≡ end_of_prefix bytes.now) }
{
    let mut n = bytes.len();
    while n > 0 {
        n -= 1;
        let last = bytes[n];
        if last < 0xFF {
            let mut end = bytes[..n].to_vec(alloc)?;
            end.push(last + 1)?;
            return Ok(Some(end));
        }
    }
    Ok(None)
}
