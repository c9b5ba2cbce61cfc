use crate::{Element, Variable, Weigher};

const LETTER: Element = Element {
    starred: false,
    l1: 0x1000,
    l2: 0x20,
    l3: 2,
};

const HYPHEN: Element = Element {
    starred: true,
    l1: 0x202,
    l2: 0x20,
    l3: 2,
};

const GRAVE: Element = Element {
    starred: false,
    l1: 0,
    l2: 0x21,
    l3: 2,
};

const STARRED_MARK: Element = Element {
    starred: true,
    l1: 0,
    l2: 0x20,
    l3: 2,
};

const IGNORABLE: Element = Element {
    starred: false,
    l1: 0,
    l2: 0,
    l3: 0,
};

const NONE: [u16; 4] = [0; 4];

/// Weighs the elements in order, and returns whether they got these weights.
fn weighs(v: Variable, elements: &[Element], want: &[[u16; 4]]) -> bool {
    let mut weigher = Weigher::new(v);
    elements.len() == want.len()
        && elements
            .iter()
            .zip(want)
            .all(|(e, weights)| weigher.weigh(*e) == *weights)
        && weighs_by_levels(v, elements, want)
}

/// The same with a weigher for each level.
fn weighs_by_levels(v: Variable, elements: &[Element], want: &[[u16; 4]]) -> bool {
    let mut first = Weigher::new(v);
    let mut second = Weigher::new(v);
    let mut third = Weigher::new(v);
    let mut fourth = Weigher::new(v);
    elements.iter().zip(want).all(|(e, weights)| {
        [
            first.weigh_at(*e, 1),
            second.weigh_at(*e, 2),
            third.weigh_at(*e, 3),
            fourth.weigh_at(*e, 4),
        ] == *weights
    })
}

#[test]
fn a_shifted_hyphen_goes_to_the_fourth_level(rt: HostRuntime) {
    assert!(rt;
        weighs(
            Variable::Shifted,
            &[LETTER, HYPHEN, LETTER],
            &[
                [0x1000, 0x20, 2, 0xffff],
                [0, 0, 0, 0x202],
                [0x1000, 0x20, 2, 0xffff],
            ],
        )
    );
}

#[test]
fn an_ignorable_does_not_end_after_a_variable(rt: HostRuntime) {
    let elements = [HYPHEN, IGNORABLE, GRAVE];
    assert!(rt;
        weighs(
            Variable::Shifted,
            &elements,
            &[[0, 0, 0, 0x202], NONE, NONE]
        )
    );
    assert!(rt; weighs(Variable::Blanked, &elements, &[NONE, NONE, NONE]));
    assert!(rt;
        weighs(
            Variable::NonIgnorable,
            &elements,
            &[[0x202, 0x20, 2, 0], NONE, [0, 0x21, 2, 0]],
        )
    );
}

#[test]
fn marks_at_the_start_and_after_a_letter_keep_their_weights(rt: HostRuntime) {
    let elements = [GRAVE, HYPHEN, GRAVE, LETTER, GRAVE, IGNORABLE];
    assert!(rt;
        weighs(
            Variable::Shifted,
            &elements,
            &[
                [0, 0x21, 2, 0xffff],
                [0, 0, 0, 0x202],
                NONE,
                [0x1000, 0x20, 2, 0xffff],
                [0, 0x21, 2, 0xffff],
                NONE,
            ],
        )
    );
    assert!(rt;
        weighs(
            Variable::Blanked,
            &elements,
            &[
                [0, 0x21, 2, 0],
                NONE,
                NONE,
                [0x1000, 0x20, 2, 0],
                [0, 0x21, 2, 0],
                NONE,
            ],
        )
    );
}

#[test]
fn a_starred_element_without_a_primary_weight_is_not_variable(rt: HostRuntime) {
    assert!(rt;
        weighs(
            Variable::Shifted,
            &[STARRED_MARK, GRAVE],
            &[[0, 0x20, 2, 0xffff], [0, 0x21, 2, 0xffff]],
        )
    );
}
