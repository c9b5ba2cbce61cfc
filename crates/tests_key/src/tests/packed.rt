use super::{KeyRow, OPTIONS, STRENGTHS, settings, table};
use std::alloc::{AllocError, Global};
use std::process::Abort;
use std::test::Fail;
use uca_key::{PackedKeys, key_of, packed_key_of};
use uca_table::{Table, TableBuilder};
use uca_testing::{element, generated, table_from};
use uca_weights::{Settings, Strength, Variable};
use uca_window::Passage;

/// The packed key of a safe text, tried again where memory was refused.
pub(super) fn packed_again(
    rt: &impl Abort,
    alloc: Global,
    t: &Table,
    settings: Settings,
    text: &str,
) -> Vec<u8> {
    let p = Passage::check(text).ok().expect(rt, "a safe text");
    match packed_key_of(alloc, t, settings, &p) {
        Ok(key) => key,
        Err(_) => packed_key_of(alloc, t, settings, &p).expect(rt, "a key"),
    }
}

/// Fails a test where the packed key of a text is not this one.
fn assert_packed(rt: &impl Abort, alloc: Global, t: &Table, (text, strength, v, wanted): &KeyRow) {
    let key = packed_again(rt, alloc, t, settings(*strength, *v), text);
    assert!(rt; key.as_slice() == *wanted, "{text:?} {strength:?} {v:?}");
}

/// Under a table in which no letter is in the first window.
const SMALL_KEYS: [KeyRow; 15] = [
    ("", Strength::Primary, Variable::NonIgnorable, &[0]),
    ("", Strength::Tertiary, Variable::NonIgnorable, &[0, 0, 0]),
    (
        "",
        Strength::Identical,
        Variable::NonIgnorable,
        &[0, 0, 0, 0],
    ),
    (
        "ab",
        Strength::Primary,
        Variable::NonIgnorable,
        &[21, 0, 21, 1, 0],
    ),
    (
        "ab",
        Strength::Tertiary,
        Variable::NonIgnorable,
        &[21, 0, 21, 1, 0, 4, 4],
    ),
    (
        "aAb",
        Strength::Tertiary,
        Variable::NonIgnorable,
        &[21, 0, 21, 0, 21, 1, 0, 6, 191, 2],
    ),
    (
        "a b",
        Strength::Primary,
        Variable::NonIgnorable,
        &[21, 0, 4, 21, 1, 0],
    ),
    (
        "a-b",
        Strength::Quaternary,
        Variable::Shifted,
        &[21, 0, 21, 1, 0, 4, 4, 3, 254, 2, 2, 2],
    ),
    (
        "-",
        Strength::Quaternary,
        Variable::Shifted,
        &[0, 0, 0, 1, 254, 2, 2, 0],
    ),
    ("ch", Strength::Primary, Variable::NonIgnorable, &[21, 7, 0]),
    (
        "\u{E1}\u{E0}",
        Strength::Secondary,
        Variable::NonIgnorable,
        &[21, 8, 21, 0, 0, 185, 33, 0],
    ),
    (
        "\u{E0}",
        Strength::Identical,
        Variable::NonIgnorable,
        &[21, 0, 0, 186, 0, 4, 0, 0, 0, 97, 0, 3, 0],
    ),
    (
        "\u{4E00}a\u{4E01}",
        Strength::Primary,
        Variable::NonIgnorable,
        &[115, 206, 0, 21, 0, 115, 206, 1, 0],
    ),
    (
        "\u{17000}",
        Strength::Primary,
        Variable::NonIgnorable,
        &[114, 0, 128, 0, 0],
    ),
    (
        "\u{3400}",
        Strength::Primary,
        Variable::NonIgnorable,
        &[118, 128, 180, 0, 0],
    ),
];

#[test]
fn packed_keys_end_each_level(rt: HostRuntime) {
    let t = table(&rt, rt.alloc());
    for row in &SMALL_KEYS {
        assert_packed(&rt, rt.alloc(), &t, row);
    }
}

/// Letters of four scripts, one of which is out of the windows of the others, and a letter between two common ones.
const SCRIPTS: &[u8] = b"\
0020 ; [*0209.0020.0002]
1F600 ; [.1234.0020.0002]
0030 ; [.1F98.0020.0002]
0031 ; [.1F99.0020.0002]
0061 ; [.1FA2.0020.0002]
0221 ; [.1FA4.0020.0002]
0062 ; [.1FBD.0020.0002]
007A ; [.2286.0020.0002]
03B1 ; [.231E.0020.0002]
03C9 ; [.2346.0020.0002]
0430 ; [.A000.0020.0002]
0436 ; [.A001.0020.0002]
0E01 ; [.3217.0020.0002]
1E00 ; [.7123.0020.0002]
";

const SCRIPT_KEYS: [KeyRow; 14] = [
    (
        "0a",
        Strength::Primary,
        Variable::NonIgnorable,
        &[35, 38, 0],
    ),
    (
        "a\u{3B1}",
        Strength::Primary,
        Variable::NonIgnorable,
        &[38, 48, 0],
    ),
    (
        "\u{3B1} \u{436}",
        Strength::Primary,
        Variable::NonIgnorable,
        &[48, 4, 231, 160, 1, 0],
    ),
    (
        "a\u{436}\u{436} \u{436}a",
        Strength::Primary,
        Variable::NonIgnorable,
        &[38, 231, 160, 1, 113, 4, 113, 34, 162, 0],
    ),
    (
        "\u{1F600}a\u{1F600}",
        Strength::Primary,
        Variable::NonIgnorable,
        &[21, 52, 38, 21, 52, 0],
    ),
    (
        "\u{DF}a",
        Strength::Primary,
        Variable::NonIgnorable,
        &[245, 128, 223, 38, 0],
    ),
    (
        "a\u{221}b",
        Strength::Primary,
        Variable::NonIgnorable,
        &[38, 39, 164, 40, 0],
    ),
    (
        "\u{436}\u{221}\u{436}",
        Strength::Primary,
        Variable::NonIgnorable,
        &[231, 160, 1, 34, 164, 231, 160, 1, 0],
    ),
    (
        "\u{436}\u{4E00}\u{436}",
        Strength::Primary,
        Variable::NonIgnorable,
        &[231, 160, 1, 205, 64, 206, 0, 113, 0],
    ),
    (
        "\u{4E00}\u{4E8C}",
        Strength::Primary,
        Variable::NonIgnorable,
        &[233, 206, 0, 233, 206, 140, 0],
    ),
    (
        "\u{3B1}\u{436}",
        Strength::Primary,
        Variable::NonIgnorable,
        &[48, 231, 160, 1, 0],
    ),
    (
        "\u{E01}a",
        Strength::Primary,
        Variable::NonIgnorable,
        &[67, 38, 0],
    ),
    (
        "\u{1E00}",
        Strength::Primary,
        Variable::NonIgnorable,
        &[245, 128, 65, 245, 131, 37, 0],
    ),
    (
        "a\u{1E00}",
        Strength::Primary,
        Variable::NonIgnorable,
        &[38, 245, 128, 65, 245, 131, 37, 0],
    ),
];

#[test]
fn letters_take_a_byte_in_their_window(rt: HostRuntime) {
    let t = table_from(rt.alloc(), SCRIPTS).ok().expect(&rt, "a table");
    for row in &SCRIPT_KEYS {
        assert_packed(&rt, rt.alloc(), &t, row);
    }
}

/// Texts and the bytes with which the keys of longer ones begin.
const PREFIXES: [(&'static str, Variable, &'static [u8]); 6] = [
    ("", Variable::NonIgnorable, &[]),
    ("ch", Variable::NonIgnorable, &[21, 7]),
    ("c", Variable::NonIgnorable, &[21, 2]),
    ("-", Variable::NonIgnorable, &[6]),
    ("-", Variable::Shifted, &[]),
    ("az", Variable::NonIgnorable, &[21, 0, 21, 6]),
];

#[test]
fn prefixes_have_no_end(rt: HostRuntime) -> Result<(), Fail> {
    let t = table(&rt, rt.alloc());
    let keys = PackedKeys::new(rt.alloc(), &t)?;
    for (text, v, lower) in &PREFIXES {
        let p = Passage::check(text).ok().expect(&rt, "a safe text");
        let bounds = keys.prefix_bounds(rt.alloc(), *v, &p)?;
        assert!(rt; bounds.lower.as_slice() == *lower, "{text:?} {v:?}");
        assert!(rt; bounds.complete == (*text != "c"), "{text:?}");
    }
    Ok(())
}

/// Weights at the ends of the ranges that the code of primary weights has, and of those of the later levels.
#[rattlefmt::skip]
const EDGES: [u16; 34] = [
    0, 1, 2, 3, 0x1F, 0x20, 0x21, 0x22, 0x42, 0x43, 0x44, 0xFD, 0xFE, 0xFF, 0x100, 0x1000, 0x1001, 0x1002, 0x10FF, 0x1100, 0x6BFF,
    0x6C00, 0x7000, 0x7FFF, 0x8000, 0x8001, 0xFAFF, 0xFB00, 0xFB40, 0xFB41, 0xFBFF, 0xFC00, 0xFFFE, 0xFFFF,
];

/// Characters of each kind that the code knows, and others.
#[rattlefmt::skip]
const CHARACTERS: [char; 16] = [
    ' ', '-', '0', 'a', 'b', 'z', '\u{E5}', '\u{3B1}', '\u{430}', '\u{5D0}', '\u{AC01}', '\u{3042}', '\u{4E00}', '\u{300}',
    '\u{17000}', '\u{1F600}',
];

/// Code points of these characters in NFD.
#[rattlefmt::skip]
const KEYS: [char; 16] = [
    ' ', '-', '0', 'a', 'b', 'z', '\u{30A}', '\u{3B1}', '\u{430}', '\u{5D0}', '\u{1100}', '\u{11A8}', '\u{3042}', '\u{300}',
    '\u{1161}', '\u{1F600}',
];

/// The number after another in a sequence that looks random.
fn next(state: u32) -> u32 {
    state.wrapping_mul(1_664_525).wrapping_add(1_013_904_223)
}

/// A weight at an edge, chosen by a number.
fn edge(state: u32) -> u16 {
    EDGES[(state >> 20) as usize % 34]
}

/// A table whose elements have weights at the edges, chosen by a number.
fn hostile_table(rt: &impl Abort, alloc: Global, number: u32) -> Table {
    let mut builder = TableBuilder::new(alloc);
    let mut state = number;
    for c in &KEYS {
        let first = next(state);
        let second = next(first);
        state = next(second);
        let made = element(state % 4 == 0, [edge(first), edge(second), edge(state)]);
        let inserted = builder.insert(&[*c], &[made]).is_ok()
            || builder.insert(&[*c], &[made]).is_ok();
        assert!(rt; inserted, "{c:?}");
    }
    match builder.finish() {
        Ok(t) => t,
        Err(fault) => fault.builder.finish().ok().expect(rt, "a table"),
    }
}

/// A text's two keys.
#[derive(Drop)]
struct Keyed {
    key: Vec<u8>,
    packed: Vec<u8>,
}

/// The keys of generated texts.
fn keyed_texts(
    rt: &impl Abort,
    alloc: Global,
    t: &Table,
    s: Settings,
    first: u32,
) -> Result<Vec<Keyed>, AllocError> {
    let keys = PackedKeys::new(alloc, t)?;
    let mut all = Vec::new(alloc);
    for number in 0..24 {
        let text = generated(alloc, &CHARACTERS, first.wrapping_add(number))?;
        let p = Passage::check(text.as_str()).ok().expect(rt, "a safe text");
        let key = key_of(alloc, t, s, &p)?;
        let packed = keys.key_of(alloc, s, &p)?;
        all.push(Keyed { key, packed })?;
    }
    Ok(all)
}

/// Fails a test where two texts are not in one order by both keys.
fn assert_same_order(rt: &impl Abort, all: &[Keyed], s: Settings) {
    for x in all {
        for y in all {
            let order = x.key.as_slice().cmp(y.key.as_slice());
            assert!(rt;
                x.packed.as_slice().cmp(y.packed.as_slice()) == order,
                "{s:?}"
            );
        }
    }
}

#[test]
fn packed_keys_of_hostile_tables_are_in_the_order_of_keys(rt: HostRuntime) -> Result<(), Fail> {
    for number in 0..8 {
        let t = hostile_table(&rt, rt.alloc(), number);
        for weighting in &OPTIONS {
            for strength in &STRENGTHS {
                let s = settings(*strength, *weighting);
                let all = keyed_texts(&rt, rt.alloc(), &t, s, number.wrapping_mul(977))?;
                assert_same_order(&rt, &all, s);
            }
        }
    }
    Ok(())
}
