use super::table;
use std::alloc::Global;
use std::process::Abort;
use uca_key::{PrefixBounds, prefix_bounds};
use uca_table::Table;
use uca_testing::table_from;
use uca_weights::Variable;
use uca_window::Passage;

/// The bounds of a safe text, tried again where memory was refused.
fn bounds_again(
    rt: &impl Abort,
    alloc: Global,
    t: &Table,
    v: Variable,
    text: &str,
) -> PrefixBounds {
    let p = Passage::check(text).ok().expect(rt, "a safe text");
    match prefix_bounds(alloc, t, v, &p) {
        Err(_) => prefix_bounds(alloc, t, v, &p).ok().expect(rt, "bounds"),
        Ok(bounds) => bounds,
    }
}

/// Checks the two ends of a safe text.
fn assert_ends(rt: &impl Abort, bounds: PrefixBounds, lower: &[u8], upper: Option<&[u8]>) {
    assert!(rt; bounds.lower.as_slice() == lower);
    match (&bounds.upper, upper) {
        (Some(end), Some(wanted)) => assert!(rt; end.as_slice() == wanted),
        (end, wanted) => assert!(rt; end.is_none() == wanted.is_none()),
    }
}

const BOUNDS: [(&'static str, Variable, &'static [u8], Option<&'static [u8]>); 5] = [
    ("", Variable::NonIgnorable, &[], None),
    ("ch", Variable::NonIgnorable, &[0x10, 7], Some(&[0x10, 8])),
    (
        "h\u{301}ch",
        Variable::Shifted,
        &[0x10, 5, 0x10, 7],
        Some(&[0x10, 5, 0x10, 8]),
    ),
    ("-", Variable::NonIgnorable, &[2, 2], Some(&[2, 3])),
    ("-", Variable::Shifted, &[], None),
];

#[test]
fn complete_texts_have_bounds(rt: HostRuntime) {
    let t = table(&rt, rt.alloc());
    for (text, v, lower, upper) in &BOUNDS {
        let bounds = bounds_again(&rt, rt.alloc(), &t, *v, text);
        assert!(rt; bounds.complete, "{text:?}");
        assert_ends(&rt, bounds, lower, *upper);
    }
}

#[test]
fn a_text_that_may_be_joined_is_not_complete(rt: HostRuntime) {
    let t = table(&rt, rt.alloc());
    let ends = [
        ("c", [0x10u8, 2], [0x10u8, 3]),
        ("chc", [0x10, 2], [0x10, 3]),
    ];
    for (text, last, end) in &ends {
        let bounds = bounds_again(&rt, rt.alloc(), &t, Variable::Shifted, text);
        assert!(rt; !bounds.complete, "{text:?}");
        assert!(rt; bounds.lower.ends_with(last.as_slice()), "{text:?}");
        let upper = bounds.upper.expect(&rt, "an upper end");
        assert!(rt; upper.ends_with(end.as_slice()), "{text:?}");
    }
}

#[test]
fn an_end_is_raised_before_its_last_bytes_of_ff(rt: HostRuntime) {
    let t = table_from(rt.alloc(), b"006B ; [.10FF.0020.0002]")
        .ok()
        .expect(&rt, "a table");
    let found = bounds_again(&rt, rt.alloc(), &t, Variable::NonIgnorable, "kk");
    assert_ends(
        &rt,
        found,
        &[0x10, 0xFF, 0x10, 0xFF],
        Some(&[0x10, 0xFF, 0x11]),
    );
}
