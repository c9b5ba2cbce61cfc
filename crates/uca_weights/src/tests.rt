use crate::{
    Element, MAX_DECOMPOSITION, MAX_ELEMENTS, MAX_INPUT, MAX_KEY, MAX_LINE, MAX_LOOKAHEAD,
    MAX_RELATIONS, MAX_RULES, MAX_RUN, Settings, Strength, Variable,
};

#[test]
fn weights_by_level(rt: HostRuntime) {
    let e = Element {
        starred: true,
        l1: 0x202,
        l2: 0x20,
        l3: 2,
    };
    assert_eq!(rt; (e.weight(1), e.weight(2), e.weight(3)), (0x202, 0x20, 2));
}

#[test]
fn levels_of_strengths(rt: HostRuntime) {
    for (strength, want) in [
        (Strength::Primary, 1),
        (Strength::Secondary, 2),
        (Strength::Tertiary, 3),
        (Strength::Quaternary, 4),
        (Strength::Identical, 5),
    ] {
        let settings = Settings {
            strength,
            weighting: Variable::NonIgnorable,
        };
        assert_eq!(rt; settings.levels(), want);
    }
}

#[test]
fn limits_are_these_numbers(rt: HostRuntime) {
    assert!(rt; MAX_KEY == 32);
    assert!(rt; MAX_ELEMENTS == 64);
    assert!(rt; MAX_RUN == 60);
    assert!(rt; MAX_DECOMPOSITION == 4);
    assert!(rt; MAX_LOOKAHEAD == 64);
    assert!(rt; MAX_LINE == 4_096);
    assert!(rt; MAX_INPUT == 67_108_864);
    assert!(rt; MAX_RULES == 1_048_576);
    assert!(rt; MAX_RELATIONS == 20_000);
}
