use super::{STRENGTHS, key_again, settings};
use std::alloc::{AllocError, Global};
use std::process::Abort;
use std::test::Fail;
use uca_key::{put_key, write_key};
use uca_levels::compare;
use uca_table::Table;
use uca_testing::{Expecting, table_from};
use uca_weights::{Settings, Variable, WriteCause};
use uca_window::Passage;

/// No letter of these keys ends all matches that began before it, so a text of such letters is one stretch.
const TABLE: &[u8] = b"\
0020 ; [*0201.0020.0002]
0301 ; [.0000.0022.0002]
0061 ; [.1000.0020.0002]
0062 ; [.1001.0020.0002]
0061 0062 ; [.1002.0020.0002]
0062 0061 ; [.1003.0020.0002]
0061 0062 0301 ; [.1004.0020.0002][.1005.0020.0003]
";

/// How many pairs of letters the texts have: around the greatest number that is matched as a list, and many more.
const LENGTHS: [usize; 4] = [1, 30, 32, 70];

/// What may follow them.
const ENDS: [&str; 4] = ["", "b", "a\u{301}", " a"];

/// A text of pairs of letters.
fn pairs(alloc: Global, n: usize, end: &str) -> Result<String, AllocError> {
    let mut text = String::new(alloc);
    for _ in 0..n {
        text.push_str("ab")?;
    }
    text.push_str(end)?;
    Ok(text)
}

/// All texts.
fn texts(alloc: Global) -> Result<Vec<String>, AllocError> {
    let mut all = Vec::new(alloc);
    for n in &LENGTHS {
        for end in &ENDS {
            all.push(pairs(alloc, *n, end)?)?;
        }
    }
    Ok(all)
}

/// Fails a test where a key that is put into a buffer, or written, is not this key of the text.
fn assert_one_key(rt: &impl Abort, t: &Table, s: Settings, text: &str, key: &[u8]) {
    let p = Passage::check(text).ok().expect(rt, "a safe text");
    let mut bytes = [0; 1024];
    let size = put_key(t, s, &p, &mut bytes);
    assert!(rt; bytes.get(..size) == Some(key), "{text:?}");
    let mut writer = Expecting::new(key, 10_000, WriteCause::Failed);
    assert!(rt;
        write_key(&mut writer, t, s, &p) == Ok(size as u128),
        "{text:?}"
    );
    assert!(rt; writer.left() == Some(0), "{text:?}");
}

/// Fails a test where a text and a later one do not compare as their keys do.
fn assert_orders(rt: &impl Abort, t: &Table, s: Settings, all: &[String], keys: &[Vec<u8>]) {
    for at in 1..all.len() {
        let (a, b) = (&all[at - 1], &all[at]);
        let x = Passage::check(a).ok().expect(rt, "a safe text");
        let y = Passage::check(b).ok().expect(rt, "a safe text");
        let before = keys.get(at - 1).expect(rt, "its key");
        let after = keys.get(at).expect(rt, "its key");
        let order = before.as_slice().cmp(after.as_slice());
        assert!(rt; compare(t, s, &x, &y) == order, "{a:?} {b:?}");
        assert!(rt; compare(t, s, &y, &x) == order.reverse(), "{b:?} {a:?}");
    }
}

/// The keys of texts.
fn keys_of(
    rt: &impl Abort,
    alloc: Global,
    t: &Table,
    s: Settings,
    all: &[String],
) -> Result<Vec<Vec<u8>>, AllocError> {
    let mut keys = Vec::new(alloc);
    for text in all {
        keys.push(key_again(rt, alloc, t, s, text))?;
    }
    Ok(keys)
}

#[test]
fn texts_that_are_one_long_stretch_compare_as_their_keys(rt: HostRuntime) -> Result<(), Fail> {
    let t = table_from(rt.alloc(), TABLE).ok().expect(&rt, "a table");
    let all = texts(rt.alloc())?;
    for strength in &STRENGTHS {
        let s = settings(*strength, Variable::Shifted);
        let keys = keys_of(&rt, rt.alloc(), &t, s, &all)?;
        for (text, key) in all.iter().zip(keys.iter()) {
            assert_one_key(&rt, &t, s, text, key);
        }
        assert_orders(&rt, &t, s, &all, &keys);
    }
    Ok(())
}
