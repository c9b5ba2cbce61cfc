use super::packed::packed_again;
use super::{settings, table};
use std::alloc::{AllocError, Global};
use std::test::Fail;
use uca_testing::table_from;
use uca_weights::{Settings, Strength, Variable};

/// Weights below and above the common ones: up to the last of one byte after a short run, of two bytes, and past it.
const WEIGHTS: &[u8] = b"\
0061 ; [.0001.0020.0002]
0062 ; [.0001.001F.0001]
0063 ; [.0001.0021.0003]
0064 ; [.0001.00FD.00FE]
0065 ; [.0001.FFFF.0101]
0066 ; [.0001.0042.0024]
0067 ; [.0001.0043.0025]
";

/// Texts, how long the first level is, and what comes after it.
const ENDED_RUNS: [(&'static str, usize, &'static [u8]); 9] = [
    ("aab", 7, &[5, 0x1F, 0, 5, 1, 0]),
    ("bb", 5, &[1, 0x1F, 1, 0x1F, 0, 1, 1, 1, 1, 0]),
    ("aaca", 9, &[185, 0x21, 2, 185, 3, 2]),
    ("aca", 7, &[186, 2, 186, 2]),
    ("d", 3, &[255, 0xFD, 0, 255, 0xFE, 0, 0xFE, 0]),
    ("e", 3, &[255, 0xFE, 0xFF, 0xFF, 0, 255, 0xFE, 1, 1, 0]),
    ("f", 3, &[254, 0, 254, 0]),
    ("af", 5, &[219, 0, 219, 0]),
    ("ag", 5, &[220, 0x43, 0, 220, 0x25, 0]),
];

#[test]
fn other_weights_end_a_run(rt: HostRuntime) {
    let t = table_from(rt.alloc(), WEIGHTS).ok().expect(&rt, "a table");
    let s = settings(Strength::Tertiary, Variable::NonIgnorable);
    for (text, first, wanted) in &ENDED_RUNS {
        let key = packed_again(&rt, rt.alloc(), &t, s, text);
        assert!(rt; key.get(*first..) == Some(*wanted), "{text:?}");
    }
}

/// How many `a` come before an end, how long the first level is, and what comes after it.
const LONG_RUNS: [(usize, &'static str, usize, &'static [u8]); 6] = [
    (60, "", 121, &[120]),
    (61, "", 123, &[122]),
    (62, "", 125, &[124, 0]),
    (63, "", 127, &[124, 2]),
    (60, "\u{E0}", 123, &[126, 0x21, 0]),
    (61, "\u{E0}", 125, &[124, 221, 0]),
];

/// So many `a` before an end.
fn letters_before(alloc: Global, times: usize, end: &str) -> Result<String, AllocError> {
    let mut text = String::new(alloc);
    for _ in 0..times {
        text.push('a')?;
    }
    text.push_str(end)?;
    Ok(text)
}

#[test]
fn sixty_two_common_weights_are_one_byte(rt: HostRuntime) -> Result<(), Fail> {
    let t = table(&rt, rt.alloc());
    for (times, end, first, wanted) in &LONG_RUNS {
        let text = letters_before(rt.alloc(), *times, end)?;
        let s = settings(Strength::Secondary, Variable::NonIgnorable);
        let key = packed_again(&rt, rt.alloc(), &t, s, &text);
        assert!(rt; key.get(*first..) == Some(*wanted), "{times}");
    }
    Ok(())
}
