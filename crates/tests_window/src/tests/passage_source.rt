use std::process::Abort;
use uca_window::{Passage, PassageSource, Source};

/// Checks which character a source gives next.
fn assert_next(rt: &impl Abort, source: &mut PassageSource, want: Option<char>) {
    assert!(rt; source.next() == want);
}

#[test]
fn gives_the_characters_again_after_a_restart(rt: HostRuntime) {
    let Ok(p) = Passage::check("a\u{E9}\u{301}") else {
        return;
    };
    let mut source = PassageSource::new(&p);
    for _ in 0..2 {
        for want in &[Some('a'), Some('\u{E9}'), Some('\u{301}'), None, None] {
            assert_next(&rt, &mut source, *want);
        }
        source.restart();
    }
}

#[test]
fn goes_back_to_its_mark(rt: HostRuntime) {
    let Ok(p) = Passage::check("a\u{E9}b") else {
        return;
    };
    let mut source = PassageSource::new(&p);
    assert_next(&rt, &mut source, Some('a'));
    // Where none was set, to the start.
    source.rewind();
    assert_next(&rt, &mut source, Some('a'));
    let Some(c) = source.next() else {
        return;
    };
    source.mark();
    assert!(rt; c == '\u{E9}');
    assert_next(&rt, &mut source, Some('b'));
    assert_next(&rt, &mut source, None);
    source.rewind();
    assert_next(&rt, &mut source, Some('\u{E9}'));
    source.restart();
    assert_next(&rt, &mut source, Some('a'));
    source.rewind();
    assert_next(&rt, &mut source, Some('\u{E9}'));
}
