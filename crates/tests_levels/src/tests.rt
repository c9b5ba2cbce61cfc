ghost use Rattle.std.specs.Prelude.{◌≤◌};
ghost use Rattle.uca_model.specs.SafeText.{IsSafe};
ghost use Rattle.uca_model.specs.Source.{unread};

use std::alloc::{AllocError, Global};
use std::cmp::Ordering;
use std::process::Abort;
use std::test::Fail;
use uca_levels::{Points, Weights, compare, compare_sources};
use uca_match::Elements;
use uca_table::Table;
use uca_testing::{SMALL_TEXT, small_table, source_of, table_from};
use uca_weights::{Settings, Strength, Variable};
use uca_window::{Passage, Source, Window};

/// The small table.
fn table(rt: &impl Abort, alloc: Global) -> Table {
    small_table(alloc).ok().expect(rt, "a table")
}

fn passage<'t>(rt: &impl Abort, text: &'t str) -> Passage<'t> {
    Passage::check(text).ok().expect(rt, "a safe text")
}

fn settings(strength: Strength, weighting: Variable) -> Settings {
    Settings {
        strength,
        weighting,
    }
}

/// Two texts, a strength, and their order at it.
type OrderRow = (&'static str, &'static str, Strength, Ordering);

/// Fails a test where two texts have another order under a table.
fn assert_order(rt: &impl Abort, t: &Table, (a, b, strength, wanted): &OrderRow) {
    let s = settings(*strength, Variable::NonIgnorable);
    let order = compare(t, s, &passage(rt, a), &passage(rt, b));
    assert!(rt; order == *wanted, "{a:?} {b:?}");
}

#[rattlefmt::skip]
const ORDERS: [OrderRow; 17] = [
    ("a", "A", Strength::Tertiary, Ordering::Less),
    ("A", "a", Strength::Tertiary, Ordering::Greater),
    ("a", "A", Strength::Secondary, Ordering::Equal),
    ("A", "b", Strength::Tertiary, Ordering::Less),
    ("A", "b", Strength::Secondary, Ordering::Less),
    ("ch", "cz", Strength::Primary, Ordering::Greater),
    ("ch", "cz", Strength::Tertiary, Ordering::Greater),
    ("", "", Strength::Identical, Ordering::Equal),
    ("", "a", Strength::Primary, Ordering::Less),
    ("", "\u{1}", Strength::Quaternary, Ordering::Equal),
    ("", "\u{1}", Strength::Identical, Ordering::Less),
    ("\u{1EA1}", "a\u{323}", Strength::Identical, Ordering::Equal),
    ("\u{E9}", "e", Strength::Primary, Ordering::Equal),
    ("\u{E9}", "e", Strength::Secondary, Ordering::Greater),
    ("\u{E9}", "e", Strength::Tertiary, Ordering::Greater),
    ("\u{E9}", "e", Strength::Quaternary, Ordering::Greater),
    ("\u{E9}", "e", Strength::Identical, Ordering::Greater),
];

#[test]
fn texts_are_in_the_order_of_their_keys(rt: HostRuntime) {
    let t = table(&rt, rt.alloc());
    assert_orders(&rt, &t, &ORDERS);
}

fn assert_orders(rt: &impl Abort, t: &Table, rows: &[OrderRow]) {
    for row in rows {
        assert_order(rt, t, row);
    }
}

/// A letter with the first primary weight of ideographs alone, and two with weights about that of a second one.
const LETTERS_LIKE_IDEOGRAPHS: &[u8] = b"\
@version 1.0.0
0061 ; [.FB40.0020.0002]
0062 ; [.CE01.0020.0002]
0063 ; [.1000.0020.0002]
";

#[rattlefmt::skip]
const BY_TWO_WEIGHTS: [OrderRow; 9] = [
    ("\u{4E00}", "\u{4E01}", Strength::Primary, Ordering::Less),
    ("\u{4E00}b", "\u{4E01}", Strength::Primary, Ordering::Less),
    ("c\u{4E01}", "c\u{4E00}", Strength::Primary, Ordering::Greater),
    ("a", "\u{4E00}", Strength::Primary, Ordering::Less),
    ("ab", "\u{4E00}", Strength::Primary, Ordering::Greater),
    ("\u{4E01}", "ab", Strength::Primary, Ordering::Equal),
    ("\u{4E01}", "ab", Strength::Secondary, Ordering::Less),
    ("\u{4E02}", "ab", Strength::Primary, Ordering::Greater),
    ("ac", "\u{4E00}", Strength::Primary, Ordering::Less),
];

#[test]
fn ideographs_are_ordered_by_both_primary_weights(rt: HostRuntime) {
    let t = table_from(rt.alloc(), LETTERS_LIKE_IDEOGRAPHS)
        .ok()
        .expect(&rt, "a table");
    assert_orders(&rt, &t, &BY_TWO_WEIGHTS);
}

/// How often two sources were read, and how often they were rewound, in a comparison.
#[derive(Drop)]
struct Calls {
    reads: [usize; 2],
    rewinds: [usize; 2],
}

/// Fails a test where two texts have another order, and counts the calls of their comparison.
fn calls_of(rt: &impl Abort, t: &Table, s: Settings, [a, b]: [&str; 2], wanted: Ordering) -> Calls {
    let (p, q) = (passage(rt, a), passage(rt, b));
    let (mut left, mut right) = (source_of(&p), source_of(&q));
    let order = compare_sources(t, s, &mut left, &mut right);
    assert!(rt; order == wanted, "{a:?} {b:?}");
    Calls {
        reads: [left.reads, right.reads],
        rewinds: [left.rewinds, right.rewinds],
    }
}

/// Two texts, their order at all strengths, and how often each is read and gone back in at most.
const READS: [(&'static str, &'static str, Ordering, usize, usize); 4] = [
    ("a", "a", Ordering::Equal, 10, 5),
    ("a", "b", Ordering::Less, 2, 1),
    ("a", "A", Ordering::Less, 6, 3),
    ("", "", Ordering::Equal, 5, 5),
];

fn is_at_most([left, right]: [usize; 2], most: usize) -> bool {
    left <= most && right <= most
}

fn assert_reads(rt: &impl Abort, t: &Table) {
    let s = settings(Strength::Identical, Variable::NonIgnorable);
    for (a, b, wanted, reads, rewinds) in &READS {
        let calls = calls_of(rt, t, s, [*a, *b], *wanted);
        assert!(rt; is_at_most(calls.reads, *reads), "{a:?} {b:?}");
        assert!(rt; is_at_most(calls.rewinds, *rewinds), "{a:?} {b:?}");
    }
}

#[test]
fn a_text_is_read_once_for_each_level(rt: HostRuntime) {
    let t = table(&rt, rt.alloc());
    assert_reads(&rt, &t);
}

#[test]
fn sources_may_stand_anywhere(rt: HostRuntime) {
    let t = table(&rt, rt.alloc());
    let (p, q) = (passage(&rt, "ab"), passage(&rt, "aB"));
    let (mut left, mut right) = (source_of(&p), source_of(&q));
    left.next();
    left.next();
    right.next();
    let s = settings(Strength::Tertiary, Variable::NonIgnorable);
    // `B` has no key, and a primary weight of its own.
    assert!(rt; compare_sources(&t, s, &mut left, &mut right) == Ordering::Less);
    assert!(rt; compare_sources(&t, s, &mut right, &mut left) == Ordering::Greater);
}

/// The weights of what a source has not given yet, one by one.
fn weights_in_turn<S: Source>(
    alloc: Global,
    t: &Table,
    v: Variable,
    level: u8,
    source: &mut S,
) -> Result<Vec<u16>, AllocError>
    requires first { 1 ≤ level }
    requires last { level ≤ 4 }
    requires safe { IsSafe (unread (S.state source.old)) }
{
    let mut all = Vec::new(alloc);
    let mut weights = Weights::new(t, v, level);
    'each: while let Some(weight) = weights.next(source) {
        all.push(weight)?;
    }
    Ok(all)
}

/// A text, a weighting, and the weights that are not zero of each level but the fifth.
type WeightRow = (&'static str, Variable, [&'static [u16]; 4]);

const WEIGHTS: [WeightRow; 4] = [
    (
        "a-b",
        Variable::Shifted,
        [
            &[0x1000, 0x1001],
            &[0x20, 0x20],
            &[2, 2],
            &[0xFFFF, 0x202, 0xFFFF],
        ],
    ),
    (
        "-\u{1}\u{300}",
        Variable::Shifted,
        [&[], &[], &[], &[0x202]],
    ),
    ("-\u{300}", Variable::Blanked, [&[], &[], &[], &[]]),
    (
        "\u{1EA1}\u{301}",
        Variable::NonIgnorable,
        [&[0x1008], &[0x20, 0x24], &[2, 2], &[]],
    ),
];

/// Fails a test where a text has other weights at a level.
fn assert_weights(rt: &impl Abort, alloc: Global, t: &Table, row: &WeightRow, level: u8)
    requires first { 1 ≤ level }
    requires last { level ≤ 4 }
{
    let (text, v, wanted) = row;
    let p = passage(rt, text);
    let weights = match weights_in_turn(alloc, t, *v, level, &mut source_of(&p)) {
        Ok(weights) => weights,
        Err(_) => weights_in_turn(alloc, t, *v, level, &mut source_of(&p)).expect(rt, "weights"),
    };
    assert!(rt;
        weights.as_slice() == wanted[level as usize - 1],
        "{text:?} {level}"
    );
}

#[test]
fn weights_of_a_level_are_those_that_are_not_zero(rt: HostRuntime) {
    let t = table(&rt, rt.alloc());
    assert_all_weights(&rt, rt.alloc(), &t, &WEIGHTS);
}

fn assert_all_weights(rt: &impl Abort, alloc: Global, t: &Table, rows: &[WeightRow]) {
    for row in rows {
        for level in 1..5u8 {
            assert_weights(rt, alloc, t, row, level);
        }
    }
}

/// Fails a test where the text `ab` has other weights at the first level, or more.
fn assert_no_later_weight(rt: &impl Abort, t: &Table, p: &Passage) {
    let mut source = source_of(p);
    let mut weights = Weights::new(t, Variable::NonIgnorable, 1);
    assert!(rt; weights.next(&mut source) == Some(0x1000));
    assert!(rt; weights.next(&mut source) == Some(0x1001));
    assert!(rt; weights.next(&mut source) == None);
    assert!(rt; weights.next(&mut source) == None);
    assert!(rt; source.reads == 3);
    assert!(rt; source.rewinds == 0);
}

#[test]
fn no_weight_comes_after_the_end(rt: HostRuntime) {
    let t = table(&rt, rt.alloc());
    assert_no_later_weight(&rt, &t, &passage(&rt, "ab"));
}

#[test]
fn what_reads_a_text_is_small(rt: HostRuntime) {
    assert!(rt; size_of::<Window>() <= 1024);
    assert!(rt; size_of::<Elements>() <= 1024);
    assert!(rt; size_of::<Weights>() <= 1024);
    assert!(rt; size_of::<Points>() <= 1024);
}

#[test]
fn later_levels_begin_at_the_cut(rt: HostRuntime) {
    let t = table(&rt, rt.alloc());
    let s = settings(Strength::Tertiary, Variable::NonIgnorable);
    let calls = calls_of(&rt, &t, s, ["zzza", "zzzA"], Ordering::Less);
    assert!(rt; is_at_most(calls.reads, 11));
}

#[test]
fn an_older_mark_is_not_gone_back_to(rt: HostRuntime) {
    let t = table(&rt, rt.alloc());
    let s = settings(Strength::Secondary, Variable::NonIgnorable);
    let (p, q) = (passage(&rt, "\u{E9}z"), passage(&rt, "ez"));
    let (mut a, mut b, mut c) = (source_of(&p), source_of(&p), source_of(&q));
    let same = compare_sources(&t, s, &mut a, &mut b);
    assert!(rt; same == Ordering::Equal);
    let order = compare_sources(&t, s, &mut a, &mut c);
    assert!(rt; order == Ordering::Greater);
}

/// Three keys more, with which a text of the small table that is cut before `h` would have `hx`, where it has `ch` and `x`.
const ADDED_KEYS: &[u8] = b"\
0078 ; [.1010.0020.0002]
0079 ; [.1010.0021.0002]
0068 0078 ; [.1005.0020.0002][.1010.0030.0002]
";

/// Two texts, of which the one with `hx` would come last.
const CUT_ROW: OrderRow = ("chx", "chy", Strength::Secondary, Ordering::Less);

/// Fails a test where `compare` or `compare_sources` returns another order of two texts.
fn assert_both_orders(rt: &impl Abort, t: &Table, row: &OrderRow) {
    assert_order(rt, t, row);
    let (a, b, strength, wanted) = row;
    let s = settings(*strength, Variable::NonIgnorable);
    calls_of(rt, t, s, [*a, *b], *wanted);
}

#[test]
fn a_text_is_not_cut_before_the_end_of_a_contraction(rt: HostRuntime) -> Result<(), Fail> {
    let mut text = SMALL_TEXT.to_vec(rt.alloc())?;
    text.extend_from_slice(ADDED_KEYS)?;
    let t = table_from(rt.alloc(), &text).ok().expect(&rt, "a table");
    assert_both_orders(&rt, &t, &CUT_ROW);
    Ok(())
}

#[test]
fn a_text_is_read_up_to_the_difference_that_decides(rt: HostRuntime) {
    let mut t = table(&rt, rt.alloc());
    // Where memory was refused to what quick look-ups use, the table has none of it, and more is read. It is rebuilt here.
    let _made = t.prepare(rt.alloc());
    assert_reads_up_to(&rt, &t);
}

/// Two texts, and their order, which their third characters decide.
const DECIDED: [(&'static str, &'static str, Ordering); 3] = [
    ("zzAzzz", "zzezzz", Ordering::Less),
    ("zzzzz", "zz\u{E9}zz", Ordering::Greater),
    ("zz", "zzezz", Ordering::Less),
];

fn assert_reads_up_to(rt: &impl Abort, t: &Table) {
    let s = settings(Strength::Tertiary, Variable::NonIgnorable);
    for (a, b, wanted) in &DECIDED {
        let calls = calls_of(rt, t, s, [*a, *b], *wanted);
        assert!(rt; calls.reads == [3, 3], "{a:?} {b:?}");
    }
}

#[test]
fn a_variable_character_decides_no_first_level_that_leaves_it_out(rt: HostRuntime) {
    let t = table(&rt, rt.alloc());
    assert_decided(&rt, &t, Variable::NonIgnorable, Ordering::Less);
    assert_decided(&rt, &t, Variable::Blanked, Ordering::Greater);
    assert_decided(&rt, &t, Variable::Shifted, Ordering::Greater);
}

/// Fails a test where these two texts have another order at the first level.
fn assert_decided(rt: &impl Abort, t: &Table, v: Variable, wanted: Ordering) {
    calls_of(rt, t, settings(Strength::Primary, v), ["z-e", "zA"], wanted);
}

/// So many acute accents.
fn accents(alloc: Global, count: usize) -> Result<String, AllocError> {
    let mut text = String::new(alloc);
    for _ in 0..count {
        text.push('\u{301}')?;
    }
    Ok(text)
}

#[test]
fn marks_alone_decide_at_the_second_level(rt: HostRuntime) -> Result<(), Fail> {
    let t = table(&rt, rt.alloc());
    let text = accents(rt.alloc(), 60)?;
    let (p, q) = (passage(&rt, &text), passage(&rt, ""));
    let primary = settings(Strength::Primary, Variable::NonIgnorable);
    assert!(rt; compare(&t, primary, &p, &q) == Ordering::Equal);
    let secondary = settings(Strength::Secondary, Variable::NonIgnorable);
    assert!(rt; compare(&t, secondary, &p, &q) == Ordering::Greater);
    Ok(())
}

#[test]
fn more_than_sixty_marks_are_refused(rt: HostRuntime) -> Result<(), Fail> {
    let text = accents(rt.alloc(), 61)?;
    let run = Passage::check(&text).err().expect(&rt, "a long run");
    assert!(rt; run.at == 120);
    Ok(())
}
