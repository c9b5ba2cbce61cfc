ghost use Rattle.std.specs.Prelude.{◌≡◌, [], IfOk, IsOk};
ghost use Rattle.uca_weights.specs.Settings.{levels};
ghost use Rattle.uca_model.specs.SortKey.{sort_key};
ghost use Rattle.uca_window.specs.Passage.{bytes_of, text_of};
ghost use Rattle.uca_key.specs.Form.{key_in};

use crate::form::{Form, push};
use crate::placing::{ROOM, SHORT};
use std::alloc::{AllocError, Global};
use uca_table::Table;
use uca_weights::{Element, Settings};
use uca_window::Passage;

/// The sort key of a text: the weights of each level that are not zero, each as two bytes, high byte first, with the
/// separator 0000 between two levels; and at the strength `Identical` the code points of the text in NFD, each as
/// three bytes, after a fourth separator (UTS #10, sections 7.1 to 7.3). That of the empty text at the strength `Primary` is
/// empty and allocates nothing. `AllocError`: an allocation was refused.
pub fn key_of(alloc: Global, t: &Table, s: Settings, p: &Passage) -> Result<Vec<u8>, AllocError>
    ensures value { IfOk result (λ v. v.items ≡ sort_key t.now s (text_of p.now)) }
    ensures empty { bytes_of p.now ≡ [] → levels s.strength ≡ 1 → IsOk result }
{
    if s.levels() == 1 && p.as_str().is_empty() {
        return Ok(Vec::new(alloc));
    }
    key_in(alloc, Form::Plain, t, s, p)
}

/// The key of a text in each form. The elements of a short text are held without an allocation.
pub(crate) fn key_in(
    alloc: Global,
    form: Form,
    t: &Table,
    s: Settings,
    p: &Passage,
) -> Result<Vec<u8>, AllocError>
    ensures { IfOk result (λ v. v.items ≡ key_in form.entry t.now s (text_of p.now)) }
{
    let mut key = Vec::new(alloc);
    let bytes = p.as_str().len();
    if bytes <= SHORT {
        let mut room = [Element::default(); ROOM];
        let _held = push(form, t, s, p, &mut room, &mut key)?;
        return Ok(key);
    }
    let mut elements = Vec::new(alloc);
    elements.resize(bytes.saturating_add(1), Element::default())?;
    let _held = push(form, t, s, p, elements.as_mut_slice(), &mut key)?;
    Ok(key)
}
