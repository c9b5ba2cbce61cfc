ghost use Rattle.uca_model.specs.Laws.{KeysFollowLevels, KeyOrderIsDecided, CanonicalTextIsReadBack, CanonicalTextsTellTablesApart, KeysGrowByLevels, TextsAreCutApart, KeysBeginWithCompleteTexts, PrefixesAreRanges, KeysBeginWithPrimaryWeights};
ghost use Rattle.uca_model.specs.AnchorLaws.{AnchorsEndInAWeight, ItemsLieInTheGap};
ghost use Rattle.uca_model.specs.TextLaws.{EquivalentTextsHaveOneKey, IdenticalKeysTellTextsApart, KeysOutliveTables, StrengthsRefine};

/// Keys of weights are in the byte order in which their level lists are (UTS #10, section 7.4).
pub fn keys_follow_levels()
    ensures { KeysFollowLevels }
{}

/// Under every table, the byte order of two keys is the order of the first level lists that differ, and Equal
/// where none do (UTS #10, section 7.4, step S4). So a comparison may go level by level, and needs no key.
pub fn key_order_is_decided()
    ensures { KeyOrderIsDecided }
{}

/// The key of a text at a strength is the beginning of its key at each higher strength (UTS #10, section 7.3, step S3).
/// So a stored key can be used for every lower strength, too.
pub fn keys_grow_by_levels()
    ensures { KeysGrowByLevels }
{}

/// The canonical text of a table, unless it is too large to be read, is read back as that same table (UTS #10,
/// Allkeys File Format) without its further ideographs. So the text of a table says everything else about it.
pub fn canonical_text_is_read_back()
    ensures { CanonicalTextIsReadBack }
{}

/// Two tables with the same canonical text have the same entries and the same ranges of implicit weights, however long that
/// text is. So a digest of the text identifies the table, apart from its further ideographs.
pub fn canonical_texts_tell_tables_apart()
    ensures { CanonicalTextsTellTablesApart }
{}

/// Two texts agree up to their safe cut, and there each splits into two parts that have their collation elements and
/// their weights at each level independently. So a comparison may begin its later levels at the cut.
pub fn texts_are_cut_apart()
    ensures { TextsAreCutApart }
{}

/// Where a text is complete, the key of every text that begins with it begins with its key at the strength `Primary`,
/// under every table, at every strength and option. So the keys of all these texts lie between two byte strings.
pub fn keys_begin_with_complete_texts()
    ensures { KeysBeginWithCompleteTexts }
{}

/// The byte strings that begin with another are exactly those from it up to the end of its prefix: what the two ends of an
/// index range describe.
pub fn prefixes_are_ranges()
    ensures { PrefixesAreRanges }
{}

/// A key that begins with the key of a text at the strength `Primary` belongs to a text whose primary weights begin with
/// those of the other. So no key of another text lies between the two byte strings.
pub fn keys_begin_with_primary_weights()
    ensures { KeysBeginWithPrimaryWeights }
{}

/// The anchor of a relation ends in the last element with a weight at the level: what follows it, without such a weight,
/// is dropped, and nothing else is.
#[tactic(auto, using(crate::proofs::AnchorPlaces::ends_in_a_weight))]
pub fn anchors_end_in_a_weight()
    ensures { AnchorsEndInAWeight }
{}

/// An item next to an anchor has at the level the weights of the anchor's other elements, moved for the gap, and then its last weight
/// raised by one. No element had that weight before: it is the gap that was made.
pub fn items_lie_in_the_gap()
    ensures { ItemsLieInTheGap }
{}

/// Canonically equivalent texts (UAX #15) have the same sort key, under every table and all settings (UTS #10, section 3.1,
/// requirement C1). So a stored key does not depend on how its text was spelled.
pub fn equivalent_texts_have_one_key()
    ensures { EquivalentTextsHaveOneKey }
{}

/// At the strength `Identical` two sort keys are equal exactly where the texts are canonically equivalent (UTS #10, section
/// 7.3, step S3.10). So a unique index by such keys refuses a text only where it holds another spelling of it.
pub fn identical_keys_tell_texts_apart()
    ensures { IdenticalKeysTellTextsApart }
{}

/// The order at a strength refines the order at each lower one: what is less there is less here, and what is equal here is
/// equal there (UTS #10, section 1.1).
pub fn strengths_refine()
    ensures { StrengthsRefine }
{}

/// Two tables that agree outside a set of code points give the same sort key to each text whose NFD has none of them. So after
/// an update of a table only the keys of texts with such a code point have to be rebuilt.
pub fn keys_outlive_tables()
    ensures { KeysOutliveTables }
{}
