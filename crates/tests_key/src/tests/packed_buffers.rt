use super::{settings, table};
use std::alloc::{AllocError, Global};
use std::process::Abort;
use std::test::Fail;
use uca_key::PackedKeys;
use uca_weights::{Settings, Strength, Variable};
use uca_window::Passage;

/// Short texts: with none, some and many characters outside the first window, and with a variable one.
const TEXTS: [&'static str; 4] = ["", "aAb\u{301}", "ch-ab", "a\u{4E00}b\u{1F600}"];

/// A text that has more elements than are held.
fn long_text(alloc: Global) -> Result<String, AllocError> {
    let mut text = String::new(alloc);
    for _ in 0..70 {
        text.push_str("ab")?;
    }
    text.push_str("c-\u{4E00}")?;
    Ok(text)
}

/// Fails a test where a packed key that is put into a buffer of this size is not the front of this key, or something after it changes.
fn assert_front(
    rt: &impl Abort,
    keys: &PackedKeys,
    s: Settings,
    p: &Passage,
    key: &[u8],
    size: usize,
) {
    assert!(rt; size <= key.len() && key.len() < 1024);
    let mut bytes = [0xAA; 1024];
    let put = keys.put_key(s, p, &mut bytes[..size]);
    assert!(rt; put == key.len(), "{size}");
    assert!(rt; bytes[..size] == key[..size], "{size}");
    assert!(rt; bytes[size] == 0xAA, "{size}");
}

/// Fails a test where the packed key of a text is not put into buffers of each size up to its own.
fn assert_fronts(
    rt: &impl Abort,
    alloc: Global,
    keys: &PackedKeys,
    s: Settings,
    text: &str,
) -> Result<(), AllocError> {
    let p = Passage::check(text).ok().expect(rt, "a safe text");
    let key = keys.key_of(alloc, s, &p)?;
    for size in 0..key.len().saturating_add(1) {
        assert_front(rt, keys, s, &p, key.as_slice(), size);
    }
    Ok(())
}

#[test]
fn packed_keys_are_put_into_buffers_of_every_size(rt: HostRuntime) -> Result<(), Fail> {
    let t = table(&rt, rt.alloc());
    let keys = PackedKeys::new(rt.alloc(), &t)?;
    let plain = settings(Strength::Tertiary, Variable::NonIgnorable);
    let shifted = settings(Strength::Identical, Variable::Shifted);
    for text in &TEXTS {
        assert_fronts(&rt, rt.alloc(), &keys, plain, text)?;
        assert_fronts(&rt, rt.alloc(), &keys, shifted, text)?;
    }
    let long = long_text(rt.alloc())?;
    assert_fronts(&rt, rt.alloc(), &keys, plain, long.as_str())?;
    assert_fronts(&rt, rt.alloc(), &keys, shifted, long.as_str())?;
    Ok(())
}
