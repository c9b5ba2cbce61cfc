ghost use Rattle.std.specs.Prelude.{◌≡◌, chars, IfOk};
ghost use Rattle.unicode_normalization.specs.Forms.{nfd};
ghost use Rattle.uca_window.specs.Passage.{text_of};

use crate::passage::Passage;
use std::alloc::{AllocError, Global};
use unicode_normalization::slice;

// The characters of a text.
#[tactic(auto, using(std::proofs::lemmas::Str::chars_from_encodes))]
pub(crate) fn chars_of(alloc: Global, text: &str) -> Result<Vec<char>, AllocError>
    ensures { IfOk result (λ v. v.items ≡ chars text.now) }
{
    text.chars().collect(alloc)
}

/// The whole text in NFD (UTS #10, section 7.1, step S1).
pub fn nfd_of(alloc: Global, p: &Passage) -> Result<Vec<char>, AllocError>
    ensures { IfOk result (λ v. v.items ≡ nfd (text_of p.now)) }
{
    let points = chars_of(alloc, p.as_str())?;
    let mut decomposed = Vec::new(alloc);
    slice::extend_nfd(&mut decomposed, &points)?;
    Ok(decomposed)
}
