ghost use Rattle.std.specs.Prelude.{◌≡◌, chars, length};
ghost use Rattle.uca_model.specs.SortKey.{sort_key};
ghost use Rattle.uca_key.specs.PackedKey.{packed_key};
ghost use Rattle.uca_key.specs.Placing.{with_front};
ghost use Rattle.uca_handle.specs.Calls.{MakesKeyBy, WritesKeyBy};
ghost use Rattle.uca_window.specs.Passage.{bytes_of, text_of};

use crate::faults::KeyFault;
use crate::opened::Opened;
use crate::texts::check;
use std::alloc::Global;
use uca_key::{SHORT, copy_front, key_of, packed_key_by};
use uca_table::Table;
use uca_weights::Settings;
use uca_window::Passage;

/// Copies a whole key into the front of a buffer, or as many of its bytes as fit. Returns how many it has.
fn put_front(key: &[u8], out: &mut [u8]) -> usize
    ensures size { result ≡ length key.now }
    ensures front { out.new ≡ with_front key.now out.old }
{
    copy_front(key, out);
    key.len()
}

/// Puts the sort key of a text into the front of a buffer, or as many of its bytes as fit.
pub(crate) fn put_key(
    alloc: Global,
    t: &Table,
    s: Settings,
    text: &[u8],
    out: &mut [u8],
) -> Result<usize, KeyFault>
    ensures { MakesKeyBy (sort_key t.now s (chars text.now)) text.now out.old out.new result }
{
    if let Err(fault) = check(text) {
        return Err(KeyFault::Text(fault));
    }
    put_text_key(alloc, t, s, &Passage::of_checked(text), out)
}

/// The same of the packed sort key.
pub(crate) fn put_packed_key(
    alloc: Global,
    opened: &Opened,
    s: Settings,
    text: &[u8],
    out: &mut [u8],
) -> Result<usize, KeyFault>
    ensures { MakesKeyBy (packed_key opened.now s (chars text.now)) text.now out.old out.new result }
{
    if let Err(fault) = check(text) {
        return Err(KeyFault::Text(fault));
    }
    put_packed_text_key(alloc, opened, s, &Passage::of_checked(text), out)
}

/// Puts the sort key of a text that was checked into the front of a buffer, or as many of its bytes as fit. That of a short text
/// needs no allocation.
pub(crate) fn put_text_key(
    alloc: Global,
    t: &Table,
    s: Settings,
    p: &Passage,
    out: &mut [u8],
) -> Result<usize, KeyFault>
    ensures { MakesKeyBy (sort_key t.now s (text_of p.now)) (bytes_of p.now) out.old out.new result }
{
    if p.as_str().len() <= SHORT {
        return Ok(uca_key::put_key(t, s, p, out));
    }
    match key_of(alloc, t, s, p) {
        Ok(key) => Ok(put_front(key.as_slice(), out)),
        Err(_) => Err(KeyFault::OutOfMemory),
    }
}

/// The same of the packed sort key.
pub(crate) fn put_packed_text_key(
    alloc: Global,
    opened: &Opened,
    s: Settings,
    p: &Passage,
    out: &mut [u8],
) -> Result<usize, KeyFault>
    ensures { MakesKeyBy (packed_key opened.now s (text_of p.now)) (bytes_of p.now) out.old out.new result }
{
    if p.as_str().len() <= SHORT {
        return Ok(uca_key::put_packed_key(opened.table(), opened.code(), s, p, out));
    }
    match packed_key_by(alloc, opened.table(), opened.code(), s, p) {
        Ok(key) => Ok(put_front(key.as_slice(), out)),
        Err(_) => Err(KeyFault::OutOfMemory),
    }
}

/// Writes the sort key of a text into the front of a buffer, or as many of its bytes as fit. It does not allocate.
pub(crate) fn write_key_of(
    t: &Table,
    s: Settings,
    text: &[u8],
    out: &mut [u8],
) -> Result<usize, KeyFault>
    ensures { WritesKeyBy t.now s text.now out.old out.new result }
{
    if let Err(fault) = check(text) {
        return Err(KeyFault::Text(fault));
    }
    Ok(uca_key::put_key(t, s, &Passage::of_checked(text), out))
}
