ghost use Rattle.std.specs.Prelude.{◌≤◌};

use super::{assert_entry, small_table, table, tailored_table};
use std::alloc::{AllocError, Global};
use std::cmp::Ordering;
use std::process::Abort;
use uca_table::Table;
use uca_testing::{Entry, table_from};

/// The weights of a text in NFD at a level, zeros left out: its list where variable elements are not ignored.
fn weights_of(alloc: Global, t: &Table, text: &[char], level: u8) -> Result<Vec<u16>, AllocError>
    requires first { 1 ≤ level }
    requires last { level ≤ 3 }
{
    let mut elements = Vec::new(alloc);
    t.push_elements(alloc, &mut elements, text)?;
    let mut weights = Vec::new(alloc);
    for e in elements.iter() {
        let weight = e.weight(level);
        if weight != 0 {
            weights.push(weight)?;
        }
    }
    Ok(weights)
}

/// The same, retrying where memory was refused.
fn list(rt: &impl Abort, alloc: Global, t: &Table, text: &[char], level: u8) -> Vec<u16>
    requires first { 1 ≤ level }
    requires last { level ≤ 3 }
{
    match weights_of(alloc, t, text, level) {
        Ok(weights) => weights,
        Err(_) => weights_of(alloc, t, text, level).expect(rt, "weights"),
    }
}

/// The order of two texts at a level.
fn order(rt: &impl Abort, alloc: Global, t: &Table, texts: [&[char]; 2], level: u8) -> Ordering
    requires first { 1 ≤ level }
    requires last { level ≤ 3 }
{
    let [x, y] = texts;
    let x = list(rt, alloc, t, x, level);
    let y = list(rt, alloc, t, y, level);
    x.as_slice().cmp(y.as_slice())
}

/// Texts that `&a<b<<x` does not touch under the small table.
const UNTOUCHED: [&'static [char]; 9] = [
    &['a'],
    &['A'],
    &['a', '\u{301}'],
    &['c'],
    &['c', 'h'],
    &['e', ' ', 'c'],
    &['e', '\u{300}'],
    &['\u{4E00}'],
    &['z', '-', 'z'],
];

/// Fails a test where two texts have another order under the second table than under the first.
fn assert_same_order(rt: &impl Abort, alloc: Global, [t, u]: [&Table; 2], texts: [&[char]; 2]) {
    for level in 1..4 {
        let was = order(rt, alloc, t, texts, level);
        assert!(rt;
            order(rt, alloc, u, texts, level) == was,
            "{texts:?} {level}"
        );
    }
}

/// Fails a test where two of these texts have another order under the second table than under the first.
fn assert_same_orders(rt: &impl Abort, alloc: Global, tables: [&Table; 2], texts: &[&[char]]) {
    for x in texts {
        for y in texts {
            assert_same_order(rt, alloc, tables, [*x, *y]);
        }
    }
}

#[test]
fn untouched_texts_keep_their_order(rt: HostRuntime) {
    let t = small_table(&rt, rt.alloc());
    let u = tailored_table(&rt, rt.alloc(), &t, "&a<b<<x");
    assert_same_orders(&rt, rt.alloc(), [&t, &u], &UNTOUCHED);
}

/// Texts below `a`, then some between `a` and an item that is next to it, and then some above the item.
const NEIGHBOURS: [&'static [char]; 8] = [
    &['-'],
    &['a'],
    &['a', ' '],
    &['a', 'z'],
    &['x'],
    &['x', 'a'],
    &['b'],
    &['c', 'h'],
];

/// Fails a test where one of these texts is not above the one before it, the first one above a blank.
fn assert_ascending(rt: &impl Abort, alloc: Global, t: &Table, texts: &[&[char]]) {
    let mut below: &[char] = &[' '];
    for text in texts {
        let order = order(rt, alloc, t, [below, *text], 1);
        assert!(rt; order == Ordering::Less, "{text:?}");
        below = *text;
    }
}

#[test]
fn an_item_is_next_to_its_anchor(rt: HostRuntime) {
    let t = small_table(&rt, rt.alloc());
    let u = tailored_table(&rt, rt.alloc(), &t, "&a<x");
    assert_ascending(&rt, rt.alloc(), &u, &NEIGHBOURS);
}

#[test]
fn an_item_of_a_second_difference_is_equal_at_the_first_level(rt: HostRuntime) {
    let t = small_table(&rt, rt.alloc());
    let u = tailored_table(&rt, rt.alloc(), &t, "&a<<x");
    let texts: [&[char]; 2] = [&['a'], &['x']];
    assert!(rt; order(&rt, rt.alloc(), &u, texts, 1) == Ordering::Equal);
    assert!(rt; order(&rt, rt.alloc(), &u, texts, 2) == Ordering::Less);
}

/// Fails a test where a character has other weights at the first level.
fn assert_list(rt: &impl Abort, alloc: Global, t: &Table, text: char, weights: &[u16]) {
    assert!(rt;
        list(rt, alloc, t, &[text], 1).as_slice() == weights,
        "{text:?}"
    );
}

#[test]
fn an_anchor_that_is_not_well_formed_is_not_next_to_its_item(rt: HostRuntime) {
    let text = b"0061 ; [.1000.0020.0002][.2000.0000.0000]";
    let t = table_from(rt.alloc(), text).ok().expect(&rt, "a table");
    let u = tailored_table(&rt, rt.alloc(), &t, "&a<<c");
    assert_entry(&rt, &u, &['c'], false, [0x1000, 0x21, 2]);
    assert_list(&rt, rt.alloc(), &u, 'a', &[0x1000, 0x2000]);
    assert_list(&rt, rt.alloc(), &u, 'c', &[0x1000]);
}

const TWO_LETTERS: [Entry; 2] = [
    (&['a'], false, [0x1000, 0x20, 2]),
    (&['b'], false, [0x1001, 0x20, 2]),
];

#[test]
fn an_item_with_an_expansion_is_not_next_to_its_anchor(rt: HostRuntime) {
    let t = table(&rt, rt.alloc(), &TWO_LETTERS);
    let u = tailored_table(&rt, rt.alloc(), &t, "&a<<c/b");
    assert_list(&rt, rt.alloc(), &u, 'a', &[0x1000]);
    assert_list(&rt, rt.alloc(), &u, 'c', &[0x1000, 0x1001]);
}

#[test]
fn a_chain_comes_out_in_its_order(rt: HostRuntime) {
    let t = small_table(&rt, rt.alloc());
    let u = tailored_table(&rt, rt.alloc(), &t, "&a<x<<q<<<w &b<y");
    assert_ascending(&rt, rt.alloc(), &u, &[&['a'], &['x'], &['b'], &['y']]);
    let texts: [&[char]; 2] = [&['x'], &['w']];
    assert!(rt; order(&rt, rt.alloc(), &u, texts, 1) == Ordering::Equal);
    assert!(rt; order(&rt, rt.alloc(), &u, texts, 2) == Ordering::Less);
}

#[test]
fn an_item_that_is_tailored_again_leaves_its_chain(rt: HostRuntime) {
    let t = small_table(&rt, rt.alloc());
    let u = tailored_table(&rt, rt.alloc(), &t, "&a<x<y &z<x");
    let texts: [&[char]; 2] = [&['x'], &['y']];
    assert!(rt; order(&rt, rt.alloc(), &u, texts, 1) == Ordering::Greater);
}

#[test]
fn a_later_contraction_takes_a_text_out_of_its_chain(rt: HostRuntime) {
    let t = small_table(&rt, rt.alloc());
    let u = tailored_table(&rt, rt.alloc(), &t, "&cz<x &z<cz");
    let texts: [&[char]; 2] = [&['c', 'z'], &['x']];
    assert!(rt; order(&rt, rt.alloc(), &u, texts, 1) == Ordering::Greater);
}
