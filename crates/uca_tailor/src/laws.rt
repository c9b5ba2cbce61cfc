ghost use Rattle.uca_tailor.specs.TailoringLaws.{UntouchedTextsKeepTheirOrder, EachItemIsPlaced, EachItemIsNext, EachItemIsAnAnchor, EachShiftIsIncreasing, RelatedTablesAreTables};
ghost use Rattle.uca_tailor.specs.ChainLaws.{ChainsComeAsWritten, NeighboursComeAsWritten};

/// Two texts that no rule touches keep their order: the byte order of their sort keys is the same under the given and
/// the tailored table, at every strength and option. So an index of such texts stays in order when its table is tailored.
#[tactic(auto, using(crate::proofs::Untouched::untouched))]
pub fn untouched_texts_keep_their_order()
    ensures { UntouchedTextsKeepTheirOrder }
{}

/// What a relation of a level does to its anchor, where the anchor's elements are well-formed (UTS #10, 5, WF1): the item
/// has the anchor's weights at the levels below, and at the level itself those moved for the gap, the last raised by one.
/// No other entry and no implicit element has that raised weight.
pub fn each_item_is_placed()
    ensures { EachItemIsPlaced }
{}

/// An item without an expansion is next to the text whose elements are its anchor, where these are well-formed and the
/// text's matches stay as they were, the item not among them. Where variable elements are not ignored, it is equal to that
/// text at the strengths below the relation's level, and after it at all others. At the strength of that level only texts
/// that have the text's weights at their front, and more, lie between the two, and no text without the item among its
/// matches is equal to it.
#[tactic(auto, using(crate::proofs::NextToAnchor::each_next))]
pub fn each_item_is_next()
    ensures { EachItemIsNext }
{}

/// After a relation without an expansion, the anchor of the next relation is the item's elements under the new table. So the
/// law of neighbours can be used for each relation of a chain, with the item before it as the text.
#[tactic(auto, using(crate::proofs::KeyAlone::each_anchor))]
pub fn each_item_is_an_anchor()
    ensures { EachItemIsAnAnchor }
{}

/// A relation turns a table into a table, and an anchor into an anchor. So the laws of one relation can be used in the middle of
/// the rules too.
pub fn related_tables_are_tables()
    ensures { RelatedTablesAreTables }
{}

/// A relation of a level shifts the weights of all entries but its item's. The shift is strictly increasing on the weights that
/// occur at that level, so it keeps their order, and no two of them become equal. It leaves zero and implicit elements as they are.
pub fn each_shift_is_increasing()
    ensures { EachShiftIsIncreasing }
{}

/// A text that a relation continues from and its item are sorted as they are written: under the table that all rules make they are
/// equal at the strengths below the relation's level, and the text comes first at all others, where variable elements are not
/// ignored. Later relations may not disturb them: both texts have the matches that they had after the relation, and none of
/// these is a later item.
pub fn neighbours_come_as_written()
    ensures { NeighboursComeAsWritten }
{}

/// The items of a chain are sorted in its order: of texts of which each comes after the one before, the first comes before the
/// last at the strongest operator between them, and at all strengths above.
pub fn chains_come_as_written()
    ensures { ChainsComeAsWritten }
{}
