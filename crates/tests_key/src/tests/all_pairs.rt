use super::STRENGTHS;
use std::alloc::{AllocError, Global};
use std::cmp::Ordering;
use std::process::Abort;
use std::test::Fail;
use uca_key::{PackedKeys, key_of};
use uca_levels::compare;
use uca_table::Table;
use uca_testing::table_from;
use uca_weights::{Settings, Strength, Variable};
use uca_window::Passage;

/// Ignorable code points, variable elements, marks, one of which counts at the third level alone, letters of both cases,
/// Hangul letters, contractions, weights whose bytes look like separators, and keys of several elements.
const TABLE: &[u8] = b"\
@implicitweights 17000..18AFF; FB00
@implicitweights 18D00..18D8F; FB00
@implicitweights 1B170..1B2FF; FB01
0001 ; [.0000.0000.0000]
00AD ; [.0000.0000.0000]
034F ; [.0000.0000.0000]
0020 ; [*0201.0020.0002]
002D ; [*0202.0020.0002]
002D 002D ; [*0203.0020.0002]
002D 0308 ; [*0204.0020.0002]
002B ; [*FFFF.0020.0002]
0300 ; [.0000.0021.0002]
0301 ; [.0000.0022.0002]
0308 ; [.0000.0023.0002]
0323 ; [.0000.0024.0002]
0335 ; [.0000.0000.0009]
0308 0301 ; [.0000.0025.0002]
0061 ; [.1000.0020.0002]
0041 ; [.1000.0020.0008]
0062 ; [.1001.0020.0002]
0042 ; [.1001.0020.0008]
0063 ; [.1002.0020.0002]
0043 ; [.1002.0020.0008]
0065 ; [.1004.0020.0002]
0045 ; [.1004.0020.0008]
0068 ; [.1005.0020.0002]
0048 ; [.1005.0020.0008]
007A ; [.1006.0020.0002]
0063 0068 ; [.1007.0020.0002]
0043 0068 ; [.1007.0020.0007]
0043 0048 ; [.1007.0020.0008]
0061 0301 ; [.1008.0020.0002]
0062 0301 ; [.1009.0020.0002]
0062 0301 0308 ; [.100A.0020.0002]
0065 0323 0300 ; [.100B.0020.0002]
1100 ; [.2000.0020.0002]
1161 ; [.2001.0020.0002]
11A8 ; [.2002.0020.0002]
1100 1161 11A8 ; [.2003.0020.0002]
0070 ; [.0001.0001.0001]
0071 ; [.0100.0100.0100]
0072 ; [.00FF.00FF.00FF]
0073 ; [.FFFF.FFFF.FFFF]
0074 ; [.1000.0100.0001]
00E6 ; [.1000.0020.0004][.0000.0026.0004][.1004.0020.0004]
00C6 ; [.1000.0020.000A][.0000.0026.0004][.1004.0020.000A]
0152 ; [.1000.0020.0002][.1004.0020.0002][.1000.0020.0002]
";

/// The empty text, ignorable code points, beginnings of one another, and texts that are canonically equivalent.
#[rattlefmt::skip]
const SAME_OR_PREFIX: [&str; 14] = [
    "", "\u{1}", "\u{1}\u{AD}", "\u{34F}", "\u{335}", "a\u{1}", "\u{1}a", "aa", "aab", "\u{C5}", "\u{212B}", "A\u{30A}", "a\u{335}",
    "A\u{335}",
];

/// The same letters with other marks, in other orders, and composed.
#[rattlefmt::skip]
const ACCENTS: [&str; 17] = [
    "a", "a\u{300}", "\u{E0}", "a\u{340}", "\u{C0}", "\u{E4}", "\u{1EA1}\u{300}", "\u{E0}\u{323}", "a\u{323}\u{300}",
    "a\u{300}\u{308}", "a\u{308}\u{300}", "a\u{34F}\u{300}\u{323}", "ae\u{300}", "a\u{300}e", "\u{300}", "\u{323}\u{300}",
    "\u{300}\u{323}",
];

/// The same letters in other cases, and expansions.
#[rattlefmt::skip]
const CASES: [&str; 14] = [
    "A", "ab", "aB", "Ab", "AB", "ae", "aE", "Ae", "\u{E6}", "\u{C6}", "\u{152}", "aea", "t", "at",
];

/// Variable elements, what follows them, and one whose primary weight is FFFF.
#[rattlefmt::skip]
const VARIABLES: [&str; 19] = [
    "-", "--", "-\u{1}-", "+", "a-", "-a", "a+", "a-b", "a b", "a--b", "a- -b", "-ab", "a-B", "a-\u{300}b", "a\u{300}-b",
    "a-\u{1}\u{300}b", "-\u{308}", "-\u{323}\u{308}", "-\u{335}",
];

/// Contractions, with marks between their parts and blocked ones, and with other code points between.
#[rattlefmt::skip]
const CONTRACTIONS: [&str; 21] = [
    "ch", "Ch", "cH", "CH", "c\u{1}h", "c\u{323}h", "ch\u{323}", "a\u{301}", "\u{E1}", "a\u{323}\u{301}", "\u{E1}\u{323}",
    "a\u{300}\u{301}", "a\u{335}\u{301}", "a\u{34F}\u{301}", "b\u{301}", "b\u{344}", "b\u{323}\u{301}\u{308}",
    "b\u{323}\u{308}\u{301}", "b\u{301}\u{300}\u{308}", "e\u{300}\u{323}", "\u{1EB9}\u{308}\u{300}",
];

/// Code points without keys, of each case of implicit weights, composed ones and marks among them.
#[rattlefmt::skip]
const IMPLICIT: [&str; 19] = [
    "\u{17000}", "\u{18AFF}", "\u{18D00}", "\u{1B170}", "\u{1B2FF}", "\u{4E00}", "\u{4E00}\u{323}\u{300}",
    "\u{4E00}\u{300}\u{323}", "\u{4E00}-", "\u{FA0E}", "\u{F900}", "\u{8C48}", "\u{2F800}", "\u{4E3D}", "\u{3400}", "\u{20000}",
    "\u{378}", "x", "\u{10FFFF}",
];

/// Hangul, composed and decomposed, and weights whose bytes look like separators.
#[rattlefmt::skip]
const HANGUL_AND_EDGES: [&str; 15] = [
    "\u{AC00}", "\u{1100}\u{1161}", "\u{AC01}", "\u{AC00}\u{11A8}", "\u{1100}\u{1161}\u{11A8}", "\u{1100}",
    "\u{AC00}\u{300}\u{11A8}", "\u{AC00}\u{1}\u{11A8}", "p", "pp", "q", "s", "s\u{300}", "pq", "p\u{300}",
];

/// A long front that ends in the beginning of a contraction, and so after a place to cut.
const OPEN_FRONT: &str = "zechzaz-zech-c";

/// A long front that ends in a letter with a mark that a contraction passes over, after a variable element.
const MARKED_FRONT: &str = "zechza\u{301}z-b\u{323}";

const GROUPS: [&'static [&'static str]; 7] = [
    &SAME_OR_PREFIX,
    &ACCENTS,
    &CASES,
    &VARIABLES,
    &CONTRACTIONS,
    &IMPLICIT,
    &HANGUL_AND_EDGES,
];

/// A text after a front.
fn text_after(alloc: Global, front: &str, text: &str) -> Result<String, AllocError> {
    let mut whole = String::new(alloc);
    whole.push_str(front)?;
    whole.push_str(text)?;
    Ok(whole)
}

/// Adds texts, each after a front.
fn add_after(
    alloc: Global,
    all: &mut Vec<String>,
    front: &str,
    texts: &[&str],
) -> Result<(), AllocError> {
    for text in texts {
        all.push(text_after(alloc, front, text)?)?;
    }
    Ok(())
}

/// All texts, each after a front.
fn texts_after(alloc: Global, front: &str) -> Result<Vec<String>, AllocError> {
    let mut all = Vec::new(alloc);
    for texts in &GROUPS {
        add_after(alloc, &mut all, front, texts)?;
    }
    Ok(all)
}

/// A text and its keys.
#[derive(Drop)]
struct Keyed<'t> {
    passage: Passage<'t>,
    key: Vec<u8>,
    packed: Vec<u8>,
}

/// A text with its keys at these settings.
fn keyed_text<'t>(
    rt: &impl Abort,
    alloc: Global,
    t: &Table,
    keys: &PackedKeys,
    s: Settings,
    text: &'t str,
) -> Result<Keyed<'t>, AllocError> {
    let passage = Passage::check(text).ok().expect(rt, "a safe text");
    let key = key_of(alloc, t, s, &passage)?;
    let packed = keys.key_of(alloc, s, &passage)?;
    Ok(Keyed {
        passage,
        key,
        packed,
    })
}

/// These texts with their keys at these settings.
fn keyed_texts<'t>(
    rt: &impl Abort,
    alloc: Global,
    t: &Table,
    s: Settings,
    texts: &'t [String],
) -> Result<Vec<Keyed<'t>>, AllocError> {
    let keys = PackedKeys::new(alloc, t)?;
    let mut keyed = Vec::new(alloc);
    for text in texts {
        keyed.push(keyed_text(rt, alloc, t, &keys, s, text)?)?;
    }
    Ok(keyed)
}

/// The order of two texts, if they compare as their keys and their packed keys do.
fn order_of(t: &Table, s: Settings, left: &Keyed, right: &Keyed) -> Option<Ordering> {
    let order = left.key.as_slice().cmp(right.key.as_slice());
    let is_same = compare(t, s, &left.passage, &right.passage) == order
        && left.packed.as_slice().cmp(right.packed.as_slice()) == order;
    is_same.then_some(order)
}

/// Compares a text with these, and returns how many of them have an equal key.
fn count_equal_to(
    rt: &impl Abort,
    t: &Table,
    s: Settings,
    left: &Keyed,
    others: &[Keyed],
) -> usize {
    let mut equal = 0usize;
    for right in others {
        let order = order_of(t, s, left, right);
        let (x, y) = (left.passage.as_str(), right.passage.as_str());
        assert!(rt; order.is_some(), "{x:?} {y:?} {s:?}");
        if order == Some(Ordering::Equal) {
            equal = equal.saturating_add(1);
        }
    }
    equal
}

/// Compares each text with itself and those after it, and returns how many of these pairs have equal keys.
fn count_equal(rt: &impl Abort, t: &Table, s: Settings, keyed: &[Keyed]) -> usize {
    let mut equal = 0usize;
    for (at, left) in keyed.iter().enumerate() {
        equal = equal.saturating_add(count_equal_to(rt, t, s, left, &keyed[at..]));
    }
    equal
}

/// Compares every two of these texts at these settings, and returns how many pairs have equal keys.
fn count_equal_texts(
    rt: &impl Abort,
    alloc: Global,
    t: &Table,
    s: Settings,
    texts: &[String],
) -> Result<usize, AllocError> {
    let keyed = keyed_texts(rt, alloc, t, s, texts)?;
    Ok(count_equal(rt, t, s, &keyed))
}

/// At each strength every two of these texts compare as their keys and packed keys do, and some differ first at this strength's own
/// level.
fn check_texts(
    rt: &impl Abort,
    alloc: Global,
    t: &Table,
    weighting: Variable,
    texts: &[String],
) -> Result<(), AllocError> {
    let mut before = usize::MAX;
    for strength in &STRENGTHS {
        let s = Settings {
            strength: *strength,
            weighting,
        };
        let equal = count_equal_texts(rt, alloc, t, s, texts)?;
        // The fourth level says nothing under options other than Shifted.
        let is_empty_level = *strength == Strength::Quaternary && weighting != Variable::Shifted;
        assert!(rt; (equal < before) == !is_empty_level, "{s:?} {equal}");
        // Texts that are canonically equivalent never differ.
        assert!(rt; texts.len() < equal, "{s:?} {equal}");
        before = equal;
    }
    Ok(())
}

/// Checks every two texts after a front.
fn check_all_pairs(
    rt: &impl Abort,
    alloc: Global,
    weighting: Variable,
    front: &str,
) -> Result<(), Fail> {
    let t = table_from(alloc, TABLE).ok().expect(rt, "a table");
    let texts = texts_after(alloc, front)?;
    check_texts(rt, alloc, &t, weighting, &texts)?;
    Ok(())
}

#[test]
fn all_pairs_are_in_the_order_of_their_keys(rt: HostRuntime) -> Result<(), Fail> {
    check_all_pairs(&rt, rt.alloc(), Variable::NonIgnorable, "")
}

#[test]
fn all_pairs_are_in_the_order_of_their_keys_when_blanked(rt: HostRuntime) -> Result<(), Fail> {
    check_all_pairs(&rt, rt.alloc(), Variable::Blanked, "")
}

#[test]
fn all_pairs_are_in_the_order_of_their_keys_when_shifted(rt: HostRuntime) -> Result<(), Fail> {
    check_all_pairs(&rt, rt.alloc(), Variable::Shifted, "")
}

#[test]
fn all_pairs_after_an_open_front_are_in_the_order_of_their_keys(
    rt: HostRuntime,
) -> Result<(), Fail> {
    check_all_pairs(&rt, rt.alloc(), Variable::NonIgnorable, OPEN_FRONT)
}

#[test]
fn all_pairs_after_an_open_front_are_in_the_order_of_their_keys_when_blanked(
    rt: HostRuntime,
) -> Result<(), Fail> {
    check_all_pairs(&rt, rt.alloc(), Variable::Blanked, OPEN_FRONT)
}

#[test]
fn all_pairs_after_an_open_front_are_in_the_order_of_their_keys_when_shifted(
    rt: HostRuntime,
) -> Result<(), Fail> {
    check_all_pairs(&rt, rt.alloc(), Variable::Shifted, OPEN_FRONT)
}

#[test]
fn all_pairs_after_a_marked_front_are_in_the_order_of_their_keys_when_shifted(
    rt: HostRuntime,
) -> Result<(), Fail> {
    check_all_pairs(&rt, rt.alloc(), Variable::Shifted, MARKED_FRONT)
}
