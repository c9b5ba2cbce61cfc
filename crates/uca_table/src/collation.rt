ghost use Rattle.std.specs.Prelude.{◌≡◌, ◌<◌, ◌++◌, length, option_copied, IfSome, OnOk};
ghost use Rattle.uca_model.specs.Table.{elements_at};
ghost use Rattle.uca_model.specs.CollationElements.{elements, elements_or_implicit};

use crate::cells::push_few;
use crate::matching::match_front;
use crate::table::Table;
use std::alloc::AllocError;
use uca_weights::Element;

// Appends the elements of a match, one or more: those that the table has for it, or else the implicit ones of its first code
// point (UTS #10, 7.2, step S2.2).
pub(crate) fn push_found(
    out: &mut Vec<Element>,
    t: &Table,
    matched: &[char],
    found: Option<&[Element]>,
) -> Result<(), AllocError>
    requires some { 0 < length matched.now }
    requires found { option_copied found ≡ elements_at t.now matched.now }
    requires elements { IfSome found (λ es. 0 < length es.now) }
    ensures elements { OnOk result (out.new.items ≡ out.old.items ++ elements_or_implicit t.now matched.now) }
    ensures some { OnOk result (length out.old.items < length out.new.items) }
{
    match found {
        Some(elements) => push_few(out, elements),
        None => out.extend_from_slice(&t.implicit(matched[0])),
    }
}

// Appends the elements of a text in NFD, match after match (UTS #10, 7.2, step S2). Each match is put in order
// within the text, and nothing after its nonstarters is moved.
#[tactic(auto, using(crate::proofs::ElementLemmas::matched))]
pub(crate) fn push_matches(
    out: &mut Vec<Element>,
    t: &Table,
    text: &mut [char],
) -> Result<(), AllocError>
    ensures elements { OnOk result (out.new.items ≡ out.old.items ++ elements t.now text.old) }
    ensures some { OnOk result (0 < length text.old → length out.old.items < length out.new.items) }
{
    let mut at = 0;
    'matches: while at < text.len() {
        let matched = match_front(t, &mut text[at..]);
        push_found(out, t, &text[at..at + matched.len], matched.elements)?;
        at += matched.len;
    }
    Ok(())
}
