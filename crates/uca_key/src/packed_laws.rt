//! Laws of packed sort keys: the contracts of functions that do nothing.
ghost use Rattle.uca_key.specs.PackedLaws.{EquivalentTextsHaveOnePackedKey, PackedKeysBeginWithCompleteTexts, PackedKeysBeginWithPrimaryWeights, PackedKeysFollowKeys, PackedKeysGrowByLevels, PackedKeysOfBeginnings, PackedKeysOutliveTables, PackedKeysTellTextsApart};

/// Under every table, packed keys are in the byte order of the sort keys. So an index by either has its rows in the same
/// order.
#[tactic(auto, using(crate::proofs::PackedOrder::packed_follow))]
pub fn packed_keys_follow_keys()
    ensures { PackedKeysFollowKeys }
{}

/// Under every table, two packed keys are equal exactly where the sort keys are.
#[tactic(auto, using(crate::proofs::PackedOrder::packed_apart))]
pub fn packed_keys_tell_texts_apart()
    ensures { PackedKeysTellTextsApart }
{}

/// The packed key of a text at a strength is the beginning of its packed key at each higher strength.
#[tactic(auto, using(crate::proofs::PackedOrder::packed_grow))]
pub fn packed_keys_grow_by_levels()
    ensures { PackedKeysGrowByLevels }
{}

/// Canonically equivalent texts (UAX #15) have one packed key, under every table and all settings.
#[tactic(auto, using(crate::proofs::PackedOrder::packed_equivalent))]
pub fn equivalent_texts_have_one_packed_key()
    ensures { EquivalentTextsHaveOnePackedKey }
{}

/// Where a text is complete, the packed key of every text that begins with it begins with its prefix, at every strength and
/// option.
#[tactic(auto, using(crate::proofs::PackedPrefixes::packed_begin))]
pub fn packed_keys_begin_with_complete_texts()
    ensures { PackedKeysBeginWithCompleteTexts }
{}

/// A packed key that begins with the prefix of a text belongs to a text whose primary weights begin with those of the other.
/// So no packed key of another text lies between the two ends.
#[tactic(auto, using(crate::proofs::PackedPrefixes::packed_alike))]
pub fn packed_keys_begin_with_primary_weights()
    ensures { PackedKeysBeginWithPrimaryWeights }
{}

/// The packed key of a text whose primary weights begin with those of another begins with the prefix of the other, complete or
/// not.
#[tactic(auto, using(crate::proofs::PackedPrefixes::packed_beginnings))]
pub fn packed_keys_of_beginnings()
    ensures { PackedKeysOfBeginnings }
{}

/// Two tables that agree outside a set of code points give one packed key to each text whose NFD has none of them, unless the
/// set has a character of which the code of primary weights is made (`common_characters`).
#[tactic(auto, using(crate::proofs::PackedTexts::packed_outlive))]
pub fn packed_keys_outlive_tables()
    ensures { PackedKeysOutliveTables }
{}
