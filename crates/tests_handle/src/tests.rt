use std::alloc::Global;
use std::cmp::Ordering;
use std::process::Abort;
use uca_handle::{
    BoundsFault, BoundsSize, Collator, CompareFault, FingerprintFault, KeyFault, OpenFault,
    ShareFault, TextFault, check,
};
use uca_weights::{Settings, Strength, Variable};

const TABLE: &[u8] = b"0061 ; [.1000.0020.0002]\n\
    0063 ; [.1002.0020.0002]\n\
    0068 ; [.1005.0020.0002]\n\
    007A ; [.1006.0020.0002]\n";

const TERTIARY: Settings = Settings {
    strength: Strength::Tertiary,
    weighting: Variable::NonIgnorable,
};

// A value that may be sent to another thread.
fn goes<T: Send>(_value: &T) {}

/// Gives a collator a table, retrying where memory was refused.
fn load(
    alloc: Global,
    collator: &mut Collator,
    table: &[u8],
    rules: &[u8],
) -> Result<(), OpenFault> {
    match collator.load(alloc, table, rules) {
        Err(OpenFault::OutOfMemory) => collator.load(alloc, table, rules),
        answer => answer,
    }
}

/// Gives another collator the same table, retrying where memory was refused.
fn share(alloc: Global, collator: &mut Collator, other: &mut Collator) -> Result<(), ShareFault> {
    match collator.share(alloc, other) {
        Err(ShareFault::OutOfMemory) => collator.share(alloc, other),
        answer => answer,
    }
}

/// A collator that has the small table, tailored by these rules.
fn opened(rt: &impl Abort, alloc: Global, rules: &[u8]) -> Collator {
    let mut collator = Collator::closed(alloc);
    assert!(rt; load(alloc, &mut collator, TABLE, rules) == Ok(()));
    collator
}

#[test]
fn each_call_once(rt: HostRuntime) {
    let alloc = rt.alloc();
    let mut collator = Collator::closed(alloc);
    goes(&collator);
    assert!(rt; collator.compare(TERTIARY, b"a", b"c") == Err(CompareFault::Closed));
    assert!(rt; load(alloc, &mut collator, TABLE, b"&c<ch") == Ok(()));
    let mut other = Collator::closed(alloc);
    assert!(rt; share(alloc, &mut collator, &mut other) == Ok(()));
    collator.close(alloc);
    assert!(rt; other.compare(TERTIARY, b"cz", b"ch") == Ok(Ordering::Less));
    assert!(rt;
        other.compare(TERTIARY, b"a", b"\xFF") == Err(CompareFault::Second(TextFault::NotUtf8(0)))
    );
    assert!(rt; check(b"a\xC3") == Err(TextFault::NotUtf8(1)));
}

#[test]
fn a_key_is_written_as_far_as_it_fits(rt: HostRuntime) {
    let alloc = rt.alloc();
    let mut collator = opened(&rt, alloc, b"");
    let wanted = [0x10, 0, 0, 0, 0, 0x20, 0, 0, 0, 2, 9, 9];
    for room in [12, 10, 3, 0] {
        let mut key = [9; 12];
        let written = match collator.sort_key(alloc, TERTIARY, b"a", &mut key[..room]) {
            Err(KeyFault::OutOfMemory) => {
                collator.sort_key(alloc, TERTIARY, b"a", &mut key[..room])
            }
            answer => answer,
        };
        assert!(rt; written == Ok(10));
        assert!(rt; key[..room] == wanted[..room]);
        assert!(rt; key[room..] == [9; 12][room..]);
    }
}

#[test]
fn a_packed_key_is_written_as_far_as_it_fits(rt: HostRuntime) {
    let alloc = rt.alloc();
    let mut collator = opened(&rt, alloc, b"");
    let wanted = [0x11, 0, 0, 2, 2, 9, 9];
    for room in [7, 5, 3, 0] {
        let mut key = [9; 7];
        let written = match collator.packed_key(alloc, TERTIARY, b"a", &mut key[..room]) {
            Err(KeyFault::OutOfMemory) => {
                collator.packed_key(alloc, TERTIARY, b"a", &mut key[..room])
            }
            answer => answer,
        };
        assert!(rt; written == Ok(5));
        assert!(rt; key[..room] == wanted[..room]);
        assert!(rt; key[room..] == [9; 7][room..]);
    }
}

#[test]
fn a_fingerprint_is_of_the_table_and_the_settings(rt: HostRuntime) {
    let alloc = rt.alloc();
    let mut collator = opened(&rt, alloc, b"");
    let primary = Settings {
        strength: Strength::Primary,
        weighting: Variable::NonIgnorable,
    };
    let mut found = [[0; 32]; 3];
    let settings = [TERTIARY, TERTIARY, primary];
    for (digest, s) in found.iter_mut().zip(settings) {
        let answer = match collator.fingerprint(alloc, s) {
            Err(FingerprintFault::OutOfMemory) => collator.fingerprint(alloc, s),
            answer => answer,
        };
        *digest = answer.ok().expect(&rt, "a digest");
    }
    assert!(rt; found[0] == found[1]);
    assert!(rt; found[0] != found[2]);
}

/// The bounds of a text in buffers of eight bytes, tried again where memory was refused.
fn bounds(
    alloc: Global,
    collator: &mut Collator,
    text: &[u8],
    lower: &mut [u8; 8],
    upper: &mut [u8; 8],
) -> Result<BoundsSize, BoundsFault> {
    let v = Variable::NonIgnorable;
    match collator.prefix_bounds(alloc, v, text, lower, upper) {
        Err(BoundsFault::OutOfMemory) => collator.prefix_bounds(alloc, v, text, lower, upper),
        answer => answer,
    }
}

/// The bounds of the packed keys of a text, likewise.
fn packed_bounds(
    alloc: Global,
    collator: &mut Collator,
    text: &[u8],
    lower: &mut [u8; 8],
    upper: &mut [u8; 8],
) -> Result<BoundsSize, BoundsFault> {
    let v = Variable::NonIgnorable;
    match collator.packed_prefix_bounds(alloc, v, text, lower, upper) {
        Err(BoundsFault::OutOfMemory) => {
            collator.packed_prefix_bounds(alloc, v, text, lower, upper)
        }
        answer => answer,
    }
}

#[test]
fn a_complete_text_has_two_ends(rt: HostRuntime) {
    let alloc = rt.alloc();
    let mut collator = opened(&rt, alloc, b"&c<ch");
    let (mut lower, mut upper) = ([9; 8], [9; 8]);
    let found = bounds(alloc, &mut collator, b"zch", &mut lower, &mut upper);
    let both = BoundsSize {
        lower: 4,
        upper: Some(4),
        complete: true,
    };
    assert!(rt; found == Ok(both));
    assert!(rt; lower == [0x10, 7, 0x10, 3, 9, 9, 9, 9]);
    assert!(rt; upper == [0x10, 7, 0x10, 4, 9, 9, 9, 9]);
    let found = packed_bounds(alloc, &mut collator, b"zch", &mut lower, &mut upper);
    assert!(rt; found == Ok(both));
    assert!(rt; lower == [0x11, 7, 0x11, 3, 9, 9, 9, 9]);
    assert!(rt; upper == [0x11, 7, 0x11, 4, 9, 9, 9, 9]);
    let none = BoundsSize {
        lower: 0,
        upper: None,
        complete: true,
    };
    let found = bounds(alloc, &mut collator, b"", &mut lower, &mut upper);
    assert!(rt; found == Ok(none));
    let found = packed_bounds(alloc, &mut collator, b"", &mut lower, &mut upper);
    assert!(rt; found == Ok(none));
}

#[test]
fn a_text_that_may_be_joined_has_two_ends(rt: HostRuntime) {
    let alloc = rt.alloc();
    let mut collator = opened(&rt, alloc, b"&c<ch");
    let (mut lower, mut upper) = ([9; 8], [9; 8]);
    let found = bounds(alloc, &mut collator, b"c", &mut lower, &mut upper);
    let both = BoundsSize {
        lower: 2,
        upper: Some(2),
        complete: false,
    };
    assert!(rt; found == Ok(both));
    assert!(rt; lower == [0x10, 2, 9, 9, 9, 9, 9, 9]);
    assert!(rt; upper == [0x10, 3, 9, 9, 9, 9, 9, 9]);
}

#[test]
fn a_faulty_text_has_no_bounds(rt: HostRuntime) {
    let alloc = rt.alloc();
    let mut collator = opened(&rt, alloc, b"&c<ch");
    let (mut lower, mut upper) = ([9; 8], [9; 8]);
    let found = bounds(alloc, &mut collator, b"a\xFF", &mut lower, &mut upper);
    assert!(rt; found == Err(BoundsFault::Text(TextFault::NotUtf8(1))));
    let found = packed_bounds(alloc, &mut collator, b"a\xFF", &mut lower, &mut upper);
    assert!(rt; found == Err(BoundsFault::Text(TextFault::NotUtf8(1))));
    collator.close(alloc);
    let found = bounds(alloc, &mut collator, b"a", &mut lower, &mut upper);
    assert!(rt; found == Err(BoundsFault::Closed));
    let found = packed_bounds(alloc, &mut collator, b"a", &mut lower, &mut upper);
    assert!(rt; found == Err(BoundsFault::Closed));
    assert!(rt; (lower, upper) == ([9; 8], [9; 8]));
}

/// Texts of a table and of rules that are refused, and why.
const REFUSED: [(&[u8], &[u8]); 3] = [(b"zzz", b""), (TABLE, b"&a<"), (TABLE, b"&a\xFF")];

#[test]
fn what_is_refused_leaves_the_collator_as_it_was(rt: HostRuntime) {
    let alloc = rt.alloc();
    let mut collator = opened(&rt, alloc, b"");
    for (table, rules) in REFUSED {
        let answer = load(alloc, &mut collator, table, rules);
        assert!(rt; matches!(answer, Err(fault) if fault != OpenFault::OutOfMemory));
        assert!(rt; collator.compare(TERTIARY, b"cz", b"ch") == Ok(Ordering::Greater));
    }
}
