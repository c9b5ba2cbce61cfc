use std::alloc::Global;
use std::cmp::Ordering;
use std::process::Abort;
use uca_handle::{
    Collator, CompareFault, Decision, ElementForm, KeyFault, MatchForm, MatchesSize, TextFault,
};
use uca_weights::{Settings, Strength, Variable};

const TABLE: &[u8] = b"0061 ; [.1000.0020.0002]\n\
    0063 ; [.1002.0020.0002]\n\
    0063 0068 ; [.1003.0020.0002][*0000.0021.0002]\n\
    007A ; [.1006.0020.0002]\n";

const TERTIARY: Settings = Settings {
    strength: Strength::Tertiary,
    weighting: Variable::NonIgnorable,
};

/// Whether a collator has the small table.
fn loads(alloc: Global, collator: &mut Collator) -> bool {
    collator.load(alloc, TABLE, b"").is_ok() || collator.load(alloc, TABLE, b"").is_ok()
}

#[test]
fn the_level_that_decides(rt: HostRuntime) {
    let alloc = rt.alloc();
    let mut collator = Collator::closed(alloc);
    let closed = collator.compare_levels(TERTIARY, b"a", b"c");
    assert!(rt; closed == Err(CompareFault::Closed));
    assert!(rt; loads(alloc, &mut collator));
    let first = Decision {
        order: Ordering::Less,
        level: 1,
    };
    let none = Decision {
        order: Ordering::Equal,
        level: 3,
    };
    assert!(rt; collator.compare_levels(TERTIARY, b"a", b"c") == Ok(first));
    assert!(rt; collator.compare_levels(TERTIARY, b"ch", b"ch") == Ok(none));
    let fault = CompareFault::Second(TextFault::NotUtf8(0));
    assert!(rt; collator.compare_levels(TERTIARY, b"a", b"\xFF") == Err(fault));
}

/// A buffer for the matches of a short text.
#[derive(Drop)]
struct Room {
    matches: [MatchForm; 4],
    points: [u32; 4],
    elements: [ElementForm; 4],
}

impl Room {
    fn new() -> Room {
        let none = MatchForm {
            points: 9,
            elements: 9,
            is_key: 9,
        };
        let nothing = ElementForm {
            primary: 9,
            secondary: 9,
            tertiary: 9,
            is_variable: 9,
        };
        Room {
            matches: [none; 4],
            points: [9; 4],
            elements: [nothing; 4],
        }
    }

    /// The matches of a text, tried again where memory was refused.
    fn take(
        &mut self,
        alloc: Global,
        collator: &mut Collator,
        text: &[u8],
    ) -> Result<MatchesSize, KeyFault> {
        let Room {
            matches,
            points,
            elements,
        } = self;
        match collator.matches(alloc, text, matches, points, elements) {
            Err(KeyFault::OutOfMemory) => {
                collator.matches(alloc, text, matches, points, elements)
            }
            answer => answer,
        }
    }
}

#[test]
fn the_matches_of_a_text(rt: HostRuntime) {
    let alloc = rt.alloc();
    let mut collator = Collator::closed(alloc);
    let mut room = Room::new();
    assert!(rt; room.take(alloc, &mut collator, b"a") == Err(KeyFault::Closed));
    assert!(rt; loads(alloc, &mut collator));
    let fault = KeyFault::Text(TextFault::NotUtf8(1));
    assert!(rt; room.take(alloc, &mut collator, b"a\xFF") == Err(fault));
    assert!(rt; room.points == [9; 4]);
    let size = MatchesSize {
        matches: 3,
        points: 4,
        elements: 5,
    };
    assert!(rt; room.take(alloc, &mut collator, b"chab") == Ok(size));
    assert!(rt; room.points == [0x63, 0x68, 0x61, 0x62]);
    let [first, second, third, left] = room.matches;
    assert!(rt; (first.points, first.elements, first.is_key) == (2, 2, 1));
    assert!(rt; (second.points, second.elements, second.is_key) == (1, 1, 1));
    assert!(rt; (third.points, third.elements, third.is_key) == (1, 2, 0));
    assert!(rt; left.points == 9);
    let variable = room.elements[1];
    assert!(rt; (variable.primary, variable.secondary, variable.is_variable) == (0, 0x21, 1));
    let implicit = room.elements[3];
    assert!(rt; (implicit.primary, implicit.secondary, implicit.is_variable) == (0xFBC0, 0x20, 0));
}
