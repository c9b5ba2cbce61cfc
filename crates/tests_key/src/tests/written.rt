use super::{OPTIONS, STRENGTHS, key_again, table};
use std::alloc::Global;
use std::process::Abort;
use std::test::Fail;
use uca_key::{KeyFault, write_key};
use uca_table::Table;
use uca_testing::{Expecting, generated};
use uca_weights::{Settings, Strength, Variable, WriteCause};
use uca_window::Passage;

const TERTIARY: Settings = Settings {
    strength: Strength::Tertiary,
    weighting: Variable::NonIgnorable,
};

const KEY_OF_A: &[u8] = &[0x10, 0, 0, 0, 0, 0x20, 0, 0, 0, 2];

/// Fails a test where a writer with capacity for a part of the key of `a` gets other bytes, or a fault says otherwise.
fn assert_stopped(rt: &impl Abort, t: &Table, p: &Passage, room: usize, cause: WriteCause) {
    let mut writer = Expecting::new(KEY_OF_A, room, cause);
    let stopped = write_key(&mut writer, t, TERTIARY, p);
    let written = room as u128;
    assert!(rt; stopped == Err(KeyFault { written, cause }));
    assert!(rt; writer.left() == Some(10usize.saturating_sub(room)));
}

#[test]
fn a_fault_says_what_went_out(rt: HostRuntime) {
    let t = table(&rt, rt.alloc());
    let p = Passage::check("a").ok().expect(&rt, "a safe text");
    for room in 0..10 {
        assert_stopped(&rt, &t, &p, room, WriteCause::Failed);
        assert_stopped(&rt, &t, &p, room, WriteCause::Zero);
    }
    let mut writer = Expecting::new(KEY_OF_A, 100, WriteCause::Failed);
    assert!(rt; write_key(&mut writer, &t, TERTIARY, &p) == Ok(10));
    assert!(rt; writer.left() == Some(0));
}

/// Characters of which keys are made, variable ones and marks among them.
const CHARACTERS: [char; 16] = [
    'a', 'b', 'c', 'h', 'A', '-', ' ', '\u{1}', '\u{1EA1}', '\u{C0}', '\u{4E00}', '\u{300}',
    '\u{301}', '\u{308}', '\u{323}', '-',
];

/// Fails a test where what `write_key` writes is not the key.
fn assert_written(rt: &impl Abort, alloc: Global, t: &Table, s: Settings, p: &Passage) {
    let text = p.as_str();
    let key = key_again(rt, alloc, t, s, text);
    let mut writer = Expecting::new(&key, 10_000, WriteCause::Failed);
    let written = write_key(&mut writer, t, s, p);
    assert!(rt; written == Ok(key.len() as u128), "{text:?}");
    assert!(rt; writer.left() == Some(0), "{text:?}");
}

#[test]
fn the_written_key_is_the_key(rt: HostRuntime) -> Result<(), Fail> {
    let t = table(&rt, rt.alloc());
    for number in 0..100 {
        let text = generated(rt.alloc(), &CHARACTERS, number)?;
        let p = Passage::check(&text).ok().expect(&rt, "a safe text");
        for strength in &STRENGTHS {
            for weighting in &OPTIONS {
                let settings = Settings {
                    strength: *strength,
                    weighting: *weighting,
                };
                assert_written(&rt, rt.alloc(), &t, settings, &p);
            }
        }
    }
    Ok(())
}
