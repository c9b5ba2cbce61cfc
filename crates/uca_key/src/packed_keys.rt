//! Packed sort keys: for indexes, as short as those of ICU.
#![tactic(auto, using(crate::proofs::PackedBytes::key_steps))]

ghost use Rattle.std.specs.Prelude.{◌≡◌, ◌↔◌, ◌-◌, ◌^◌, ◌≤◌, ◌<◌, ◌++◌, ℕ, List, true, All, length, min, IfOk};
ghost use Rattle.std.specs.Char.{IsScalar};
ghost use Rattle.std.specs.Option.{option_map};
ghost use Rattle.uca_weights.specs.declared.settings.Settings.{Settings};
ghost use Rattle.uca_model.specs.Laws.{AreBytes, BeginsWith};
ghost use Rattle.uca_model.specs.LevelWeights.{level_list};
ghost use Rattle.uca_model.specs.Prefix.{IsBetween, end_of_prefix, is_complete};
ghost use Rattle.uca_window.specs.Passage.{bytes_of, text_of};
ghost use Rattle.uca_key.specs.Placing.{PutsAt, with_front};
ghost use Rattle.uca_key.specs.PrimaryCode.{code_of};
ghost use Rattle.uca_key.specs.PackedKey.{packed_key, packed_prefix};

use crate::bounds::{PrefixBounds, end_of_prefix};
use crate::form::Form;
use crate::keys::key_in;
use crate::packed_code::PackedCode;
use crate::packed_levels::put_packed_levels;
use crate::pieces::TextReading;
use crate::placing::{FEW, ROOM};
use std::alloc::{AllocError, Global};
use std::marker::Model;
use uca_match::is_complete;
use uca_table::Table;
use uca_weights::{Element, Settings, Strength, Variable};
use uca_window::Passage;

/// Makes the packed sort keys of texts by one table. The code of primary weights under the table is made once.
#[derive(Drop)]
pub struct PackedKeys<'t> {
    table: &'t Table,
    code: PackedCode,
}

impl<'t> Model for PackedKeys<'t> {
    ghost use Rattle.std.specs.Prelude.{◌≡◌};
    ghost use Rattle.uca_model.specs.Table.{ElementTable};
    ghost use Rattle.uca_table.specs.Coded.{coded_table};
    ghost use Rattle.uca_key.specs.PrimaryCode.{code_of};

    ghost Value = { ElementTable };

    ghost coded = { coded_table };

    ghost view = { λ k. k.table.now };

    ghost invariant = { λ k. k.code ≡ code_of k.table.now };
}

impl<'t> PackedKeys<'t> {
    /// Makes the code of primary weights under a table. `AllocError`: an allocation was refused.
    pub fn new(alloc: Global, t: &'t Table) -> Result<PackedKeys<'t>, AllocError>
        ensures { IfOk result (λ k. k ≡ t.now) }
    {
        let code = PackedCode::new(alloc, t)?;
        Ok(PackedKeys { table: t, code })
    }

    /// The packed sort key of a text. Packed keys are in the order of the sort keys (`packed_laws`). A letter of the script that the
    /// letter before it has takes one byte, and so does a run of the weight that most characters have at a later level. A short
    /// key cannot be compared with a sort key, nor with a packed key of another table. `AllocError`: an allocation was refused.
    pub fn key_of(&self, alloc: Global, s: Settings, p: &Passage) -> Result<Vec<u8>, AllocError>
        ensures { IfOk result (λ v. v.items ≡ packed_key self.now s (text_of p.now)) }
    {
        packed_key_by(alloc, self.table, &self.code, s, p)
    }

    /// Puts the packed sort key of a text into the front of a buffer, or as many of its bytes as fit, and returns how many it has, or
    /// `usize::MAX` where it has more than that. It does not allocate.
    pub fn put_key(&self, s: Settings, p: &Passage, out: &mut [u8]) -> usize
        ensures size { result ≡ min (length (packed_key self.now s (text_of p.now))) (2 ^ 64 - 1) }
        ensures exact { length (bytes_of p.now) ≤ 65536 → result ≡ length (packed_key self.now s (text_of p.now)) }
        ensures front { out.new ≡ with_front (packed_key self.now s (text_of p.now)) out.old }
    {
        put_packed_key(self.table, &self.code, s, p, out)
    }

    /// The ends of the packed keys of all texts whose primary weights begin with those of a text, under an option of variable
    /// weighting, as [`crate::prefix_bounds`] gives those of sort keys. It fails only where memory is refused.
    pub fn prefix_bounds(
        &self,
        alloc: Global,
        v: Variable,
        p: &Passage,
    ) -> Result<PrefixBounds, AllocError>
        ensures ends { IfOk result (λ b. (b.lower.items ≡ packed_prefix self.now v (text_of p.now)) × (option_map (λ (end : _). end.items) b.upper ≡ end_of_prefix b.lower.items)) }
        ensures exactly { IfOk result (λ b. (s : Settings) (x : List ℕ) → s.weighting ≡ v → All IsScalar x → IsBetween b.lower.items (option_map (λ (end : _). end.items) b.upper) (packed_key self.now s x) ↔ BeginsWith (level_list self.now v x 1) (level_list self.now v (text_of p.now) 1)) }
        ensures complete { IfOk result (λ b. b.complete ≡ is_complete self.now (text_of p.now)) }
        ensures longer { IfOk result (λ b. (s : Settings) (x : List ℕ) → b.complete ≡ true → s.weighting ≡ v → IsBetween b.lower.items (option_map (λ (end : _). end.items) b.upper) (packed_key self.now s (text_of p.now ++ x))) }
        ensures no_others { IfOk result (λ b. (bytes : List ℕ) → AreBytes bytes → IsBetween b.lower.items (option_map (λ (end : _). end.items) b.upper) bytes → BeginsWith bytes b.lower.items) }
    {
        packed_prefix_bounds(alloc, self.table, &self.code, v, p)
    }
}

/// The packed sort key of a text, as [`PackedKeys`] makes it, by the code of its table, which was made before.
pub fn packed_key_by(
    alloc: Global,
    t: &Table,
    code: &PackedCode,
    s: Settings,
    p: &Passage,
) -> Result<Vec<u8>, AllocError>
    requires { code.now ≡ code_of t.now }
    ensures { IfOk result (λ v. v.items ≡ packed_key t.now s (text_of p.now)) }
{
    key_in(alloc, Form::Packed(code), t, s, p)
}

// Puts the packed sort key of a text, whose elements are read into room, into the front of a buffer.
#[inline(never)]
fn put_by(
    t: &Table,
    code: &PackedCode,
    s: Settings,
    p: &Passage,
    room: &mut [Element],
    out: &mut [u8],
) -> usize
    requires code { code.now ≡ code_of t.now }
    requires some { 0 < length room.old }
    requires size { length out.old < 2 ^ 64 }
    ensures { PutsAt 0 (packed_key t.now s (text_of p.now)) out.old out.new result }
{
    let reading = TextReading::new(t, s, p.as_str(), room);
    put_packed_levels(code, &reading, room, 0, out)
}

/// Puts the packed sort key of a text into the front of a buffer, as [`PackedKeys::put_key`] does, by the code of its table.
pub fn put_packed_key(
    t: &Table,
    code: &PackedCode,
    s: Settings,
    p: &Passage,
    out: &mut [u8],
) -> usize
    requires { code.now ≡ code_of t.now }
    ensures size { result ≡ min (length (packed_key t.now s (text_of p.now))) (2 ^ 64 - 1) }
    ensures exact { length (bytes_of p.now) ≤ 65536 → result ≡ length (packed_key t.now s (text_of p.now)) }
    ensures front { out.new ≡ with_front (packed_key t.now s (text_of p.now)) out.old }
{
    let _room = out.len();
    // Shows that the table is one.
    let _longest = t.longest();
    if p.as_str().len() < FEW {
        return put_by(t, code, s, p, &mut [Element::default(); FEW], out);
    }
    put_by(t, code, s, p, &mut [Element::default(); ROOM], out)
}

// The bytes with which the packed keys of just those texts begin whose primary weights begin with the primary weights of a text.
fn packed_prefix_of(
    alloc: Global,
    t: &Table,
    code: &PackedCode,
    v: Variable,
    p: &Passage,
) -> Result<Vec<u8>, AllocError>
    requires { code.now ≡ code_of t.now }
    ensures { IfOk result (λ b. b.items ≡ packed_prefix t.now v (text_of p.now)) }
{
    let primary = Settings {
        strength: Strength::Primary,
        weighting: v,
    };
    let mut key = packed_key_by(alloc, t, code, primary, p)?;
    // Its last byte ends the level.
    key.truncate(key.len().saturating_sub(1));
    Ok(key)
}

/// The ends of the packed keys of all texts whose primary weights begin with those of a text, as [`PackedKeys::prefix_bounds`] gives
/// them, by the code of their table.
#[tactic(auto, using(crate::proofs::PackedBounds::packed_longer, crate::proofs::BoundLemmas::begins_lower))]
pub fn packed_prefix_bounds(
    alloc: Global,
    t: &Table,
    code: &PackedCode,
    v: Variable,
    p: &Passage,
) -> Result<PrefixBounds, AllocError>
    requires { code.now ≡ code_of t.now }
    ensures ends { IfOk result (λ b. (b.lower.items ≡ packed_prefix t.now v (text_of p.now)) × (option_map (λ (end : _). end.items) b.upper ≡ end_of_prefix b.lower.items)) }
    ensures exactly { IfOk result (λ b. (s : Settings) (x : List ℕ) → s.weighting ≡ v → All IsScalar x → IsBetween b.lower.items (option_map (λ (end : _). end.items) b.upper) (packed_key t.now s x) ↔ BeginsWith (level_list t.now v x 1) (level_list t.now v (text_of p.now) 1)) }
    ensures complete { IfOk result (λ b. b.complete ≡ is_complete t.now (text_of p.now)) }
    ensures longer { IfOk result (λ b. (s : Settings) (x : List ℕ) → b.complete ≡ true → s.weighting ≡ v → IsBetween b.lower.items (option_map (λ (end : _). end.items) b.upper) (packed_key t.now s (text_of p.now ++ x))) }
    ensures no_others { IfOk result (λ b. (bytes : List ℕ) → AreBytes bytes → IsBetween b.lower.items (option_map (λ (end : _). end.items) b.upper) bytes → BeginsWith bytes b.lower.items) }
{
    // Both are only for the proof: the table is within its limits, and the text has scalar values.
    let _longest = t.longest();
    let _text = p.as_str();
    let complete = is_complete(t, p);
    let lower = packed_prefix_of(alloc, t, code, v, p)?;
    let upper = end_of_prefix(alloc, lower.as_slice())?;
    Ok(PrefixBounds {
        lower,
        upper,
        complete,
    })
}

/// The packed sort key of a text, as [`PackedKeys`] makes it. Each call makes the code of primary weights anew.
pub fn packed_key_of(
    alloc: Global,
    t: &Table,
    s: Settings,
    p: &Passage,
) -> Result<Vec<u8>, AllocError>
    ensures { IfOk result (λ v. v.items ≡ packed_key t.now s (text_of p.now)) }
{
    let keys = PackedKeys::new(alloc, t)?;
    keys.key_of(alloc, s, p)
}
