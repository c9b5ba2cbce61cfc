//! The built-in table, and comparison beside keys.

use super::given::{Given, whole};
use std::alloc::{AllocError, Global};
use std::cmp::Ordering;
use std::process::Abort;
use std::test::Fail;
use uca_cli::{Task, built_in};
use uca_table::Table;
use uca_testing::{SMALL_TABLE, element};
use uca_weights::{Settings, Strength, Variable};

/// The built-in table, tried again where memory was refused.
fn table(rt: &impl Abort, alloc: Global) -> Table {
    match built_in(alloc) {
        Ok(table) => table,
        Err(_) => built_in(alloc).expect(rt, "a table"),
    }
}

/// Fails a test where a table has not the entries of the small one.
fn assert_entries(rt: &impl Abort, t: &Table) {
    for (key, starred, weights) in &SMALL_TABLE {
        let want = [element(*starred, *weights)];
        assert!(rt; t.get(key) == Some(want.as_slice()), "{key:?}");
    }
}

#[test]
fn the_built_in_table_has_eighteen_keys_and_two_ranges(rt: HostRuntime) {
    let t = table(&rt, rt.alloc());
    assert!(rt; t.longest() == 3);
    assert!(rt; t.entries().count() == 18);
    assert!(rt; t.ranges().len() == 2);
    assert_entries(&rt, &t);
    assert!(rt; t.get(&['d']).is_none());
    let [first, second] = t.implicit('\u{18D00}');
    assert!(rt; first == element(false, [0xFB00, 0x20, 2]));
    assert!(rt; second == element(false, [0x9D00, 0, 0]));
}

/// What the command `compare` has to write for an input, by the keys that `key` writes for its lines. Digits and blanks
/// are in the order of what they spell.
fn orders_by_keys(alloc: Global, keys: &[u8]) -> Result<Vec<u8>, AllocError> {
    let mut out = Vec::new(alloc);
    let mut before: Option<&[u8]> = None;
    for key in keys.split(|b| *b == b'\n') {
        if key.is_empty() {
            // After the last LF: no key is empty text at the strengths below.
            break;
        }
        if let Some(last) = before {
            out.extend_from_slice(match last.cmp(key) {
                Ordering::Less => b"less\n",
                Ordering::Equal => b"equal\n",
                Ordering::Greater => b"greater\n",
            })?;
        }
        before = Some(key);
    }
    Ok(out)
}

/// Texts that collide at each level.
const NEIGHBOURS: &str =
    "a\nA\na\u{301}\n\u{E1}\na\u{300}\na\u{1}\na\na-\n-a\na \nb\nch\ncz\nc\nch\n\n\u{1}\n\u{301}\n\
\u{4E00}\n\u{18D00}\n\u{10FFFF}\na-b\na b\nab\nAB\naB\na\u{323}\u{301}\na\u{301}\u{323}\n\u{1EA1}\u{301}\n";

/// Strengths at which no key is an empty text.
const STRENGTHS: [Strength; 4] = [
    Strength::Secondary,
    Strength::Tertiary,
    Strength::Quaternary,
    Strength::Identical,
];

const WEIGHTINGS: [Variable; 3] = [Variable::NonIgnorable, Variable::Blanked, Variable::Shifted];

/// Fails a test where `compare` says otherwise than the keys of `key` at these settings.
fn assert_agreement(rt: &impl Abort, alloc: Global, settings: Settings) -> Result<(), AllocError> {
    let input = whole(NEIGHBOURS.as_bytes());
    let keys = Given::new(Task::Key, input).at(settings).output(rt, alloc);
    let want = orders_by_keys(alloc, &keys)?;
    let compared = Given::new(Task::Compare, input).at(settings);
    assert!(rt; compared.writes(rt, alloc, &want), "{settings:?}");
    Ok(())
}

#[test]
fn neighbours_are_in_the_order_of_their_keys(rt: HostRuntime) -> Result<(), Fail> {
    for strength in &STRENGTHS {
        for weighting in &WEIGHTINGS {
            let settings = Settings {
                strength: *strength,
                weighting: *weighting,
            };
            assert_agreement(&rt, rt.alloc(), settings)?;
        }
    }
    Ok(())
}
