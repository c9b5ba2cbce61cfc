use std::alloc::{AllocError, Global};
use std::process::Abort;
use uca_tailor::faults::{RuleCause, RuleFault};
use uca_tailor::parse;
use uca_tailor::rules::{Op, Rules};

/// The chains, each string in NFD after its operator.
fn written(alloc: Global, rules: &Rules) -> Result<String, AllocError> {
    let mut text = String::new(alloc);
    for chain in rules.chains() {
        text.push('&')?;
        push_all(&mut text, &chain.reset)?;
        for relation in chain.relations.as_slice() {
            text.push_str(match relation.op {
                Op::First => "<",
                Op::Second => "<<",
                Op::Third => "<<<",
                Op::Same => "=",
            })?;
            push_all(&mut text, &relation.item)?;
            if !relation.expansion.is_empty() {
                text.push('/')?;
                push_all(&mut text, &relation.expansion)?;
            }
        }
    }
    Ok(text)
}

fn push_all(text: &mut String, string: &[char]) -> Result<(), AllocError> {
    for c in string {
        text.push(*c)?;
    }
    Ok(())
}

/// Parses a text, retrying where memory was refused.
fn parse_again(alloc: Global, text: &str) -> Result<Rules, RuleFault> {
    match parse(alloc, text) {
        Err(fault) if fault.cause == RuleCause::OutOfMemory => parse(alloc, text),
        parsed => parsed,
    }
}

/// What `parse` says: the chains, or the fault and its byte.
fn answer(alloc: Global, text: &str) -> Result<String, AllocError> {
    match parse_again(alloc, text) {
        Ok(rules) => written(alloc, &rules),
        Err(fault) => format!(in alloc; "{} {}", fault.cause, fault.at),
    }
}

/// Pieces one after the other, each as often as it says.
fn join(alloc: Global, pieces: &[(&str, usize)]) -> Result<String, AllocError> {
    let mut text = String::new(alloc);
    for (piece, times) in pieces {
        for _ in 0..*times {
            text.push_str(piece)?;
        }
    }
    Ok(text)
}

/// Fails a test in which `parse` says something else of the text of a row than the row does after its `⇒`. Each row but the last ends in `¦`.
fn assert_rows(rt: &impl Abort, alloc: Global, rows: &str) {
    for row in rows.split('¦') {
        let (text, want) = row.split_once('⇒').expect(rt, "a row");
        let Ok(said) = answer(alloc, text) else {
            return;
        };
        assert!(rt; said.as_str() == want);
    }
}

#[test]
fn rules_are_read_as_chains(rt: HostRuntime) {
    let rows: [&str; 5] = [
        "&'-'<\\u0061''/b# x⇒&-<a'/b¦\
            &_=a⇒&_=a¦\
            ⇒¦\
            \x20\t\u{85}\u{200E}# only a comment⇒¦\
            \x20\u{200E}# only a comment &a<⇒¦\
            &a<b<<c<<<d=e⇒&a<b<<c<<<d=e¦\
            &a<b/c<d⇒&a<b/c<d¦\
            &a<b&c<<d⇒&a<b&c<<d¦\
            &a<b/e<c&d&h=z⇒&a<b/e<c&d&h=z¦\
            &a&b⇒&a&b¦\
            & a b < c\u{2028}d⇒&ab<cd",
        // A comment ends at a line end, and not at other white space.
        "&a# b\u{200F}\tc\n<d⇒&a<d¦\
            &a#\u{2029}b⇒&ab¦\
            \x20& a << b # of b\u{2028} c\u{85}<<<\u{200F}d⇒&a<<bc<<<d",
        // A vertical tab ends no comment, and a form feed does.
        "&a\u{B}<b# x\u{B}<x\u{C}<c⇒&a<b<c",
        // All strings are in NFD.
        "&\u{E9}<\u{1E69}/\u{F4}⇒&e\u{301}<s\u{323}\u{307}/o\u{302}¦\
            &\u{C5}<<\u{E7}/\u{E9}⇒&A\u{30A}<<c\u{327}/e\u{301}¦\
            &a\u{301}\u{323}⇒&a\u{323}\u{301}¦\
            &a'\u{301}'\\\u{323}⇒&a\u{323}\u{301}",
        // Two apostrophes at once are one, and one inside a quote.
        "&'''a'⇒&'a¦\
            &'a''b'⇒&a'b¦\
            &'a''b'<''⇒&a'b<'¦\
            &'a\\b'⇒&a\\b¦\
            &'\\n'⇒&\\n¦\
            &'#&<=/[]'⇒&#&<=/[]¦\
            &\\<<\\&\\\\⇒&<<&\\¦\
            &\\u0041<\\U0001D538⇒&A<\u{1D538}¦\
            &\\n<\\'⇒&n<'¦\
            &\\&<\\<\\U0001f600'u'⇒&&<<\u{1F600}u¦\
            &\\u00e9⇒&e\u{301}¦\
            &\\u00E9⇒&e\u{301}¦\
            &A0z_\u{80}⇒&A0z_\u{80}",
    ];
    for row in rows {
        assert_rows(&rt, rt.alloc(), row);
    }
}

#[test]
fn the_fault_that_is_met_first_is_reported_with_its_byte(rt: HostRuntime) {
    let rows: [&str; 8] = [
        "&a<⇒EmptyString 3¦\
            &[before 1]a<x⇒LeftOut 1¦\
            <a⇒Syntax 0¦\
            &a<*bc⇒LeftOut 2¦\
            &a<-⇒Syntax 3¦\
            &a<'b⇒Syntax 3¦\
            &a/b⇒Syntax 2¦\
            &a<\\uD800⇒Syntax 3¦\
            &⇒EmptyString 1¦\
            &/b⇒EmptyString 1¦\
            &<<<<b⇒EmptyString 1¦\
            &*a⇒Syntax 1",
        // Before the first reset.
        "\x20a⇒Syntax 1¦\
            # x\n''&a⇒Syntax 4¦\
            \u{2028}''⇒Syntax 3¦\
            \\u0061⇒Syntax 0¦\
            \\b&a⇒Syntax 0¦\
            'a⇒Syntax 0¦\
            -⇒Syntax 0¦\
            [⇒LeftOut 0¦\
            #\n[⇒LeftOut 2¦\
            |a⇒LeftOut 0¦\
            <<<<a⇒Syntax 0¦\
            /a⇒Syntax 0¦\
            <*a⇒Syntax 0¦\
            =a⇒Syntax 0",
        // An expansion follows an item alone.
        "&a<b/c/d⇒Syntax 6¦\
            &a<b&c/d⇒Syntax 6¦\
            &a<b/⇒EmptyString 5¦\
            &a</b⇒EmptyString 3¦\
            &a/b<c⇒Syntax 2",
        // What the profile leaves out.
        "&a<<<<b⇒LeftOut 2¦\
            &a<<<<*b⇒LeftOut 2¦\
            &a<<*b⇒LeftOut 2¦\
            &a=*b⇒LeftOut 2¦\
            &a|b⇒LeftOut 2¦\
            &a;b⇒LeftOut 2¦\
            &a,b⇒LeftOut 2¦\
            &a@b⇒LeftOut 2¦\
            &a]b⇒Syntax 2¦\
            &a<b|c⇒LeftOut 4¦\
            &a<b;c⇒LeftOut 4¦\
            &a<b,c⇒LeftOut 4¦\
            &a@⇒LeftOut 2¦\
            &a<b[⇒LeftOut 4¦\
            &a<<<*b⇒LeftOut 2¦\
            &a<<<<<b⇒LeftOut 2¦\
            &a<b]⇒Syntax 4",
        // Several `<` are one operator only without anything between them.
        "&a< <b⇒EmptyString 3¦\
            &a<# x\n<b⇒EmptyString 3",
        // Escapes.
        "&a\\⇒Syntax 2¦\
            &a\\u006⇒Syntax 2¦\
            &a\\u006g⇒Syntax 2¦\
            &a\\U0000061⇒Syntax 2¦\
            &a\\U00110000⇒Syntax 2¦\
            &a\\UFFFFFFFF⇒Syntax 2¦\
            &a<\\⇒Syntax 3¦\
            &a<b\\u006⇒Syntax 4¦\
            &a<\\u006g⇒Syntax 3¦\
            &a<\\U0000006⇒Syntax 3¦\
            &a<\\U00110000⇒Syntax 3¦\
            &a<\\UFFFFFFFF⇒Syntax 3¦\
            &a<\\uDFFF⇒Syntax 3",
        // Faults within a string come before those of its end, which come before the next operator's.
        "&-<⇒Syntax 1¦\
            &a< /b⇒EmptyString 3¦\
            &a<<<<⇒LeftOut 2",
        // The byte of a fault at a string's end is the one after its operator.
        "&a< # x\n ⇒EmptyString 3¦\
            &a< # nothing\n⇒EmptyString 3¦\
            &a<<\u{E9}<<<&⇒EmptyString 9¦\
            &\u{E9}<\u{2028}⇒EmptyString 4",
    ];
    for row in rows {
        assert_rows(&rt, rt.alloc(), row);
    }
}

/// Fails a test in which `parse` says something else of joined pieces.
fn assert_answer(rt: &impl Abort, alloc: Global, pieces: &[(&str, usize)], want: &str) {
    let Ok(text) = join(alloc, pieces) else {
        return;
    };
    let Ok(said) = answer(alloc, &text) else {
        return;
    };
    assert!(rt; said.as_str() == want);
}

/// Fails a test in which `parse` says other chains than joined pieces spell, which are as chains are written.
fn assert_taken(rt: &impl Abort, alloc: Global, pieces: &[(&str, usize)]) {
    let Ok(text) = join(alloc, pieces) else {
        return;
    };
    assert_answer(rt, alloc, pieces, &text);
}

#[test]
fn runs_keep_to_the_limit(rt: HostRuntime) {
    let alloc = rt.alloc();
    assert_answer(&rt, alloc, &[("&a<", 1), ("\u{301}", 61)], "LongRun 3");
    assert_answer(
        &rt,
        alloc,
        &[("&a<", 1), ("\u{301}", 31), ("<", 1)],
        "EmptyString 66",
    );
    // U+0344 decomposes to two nonstarters.
    assert_answer(
        &rt,
        alloc,
        &[("&a<", 1), ("\u{344}", 16), ("<", 1)],
        "EmptyString 36",
    );
    assert_answer(&rt, alloc, &[("&a<", 1), ("\u{344}", 31)], "LongRun 3");
    assert_answer(&rt, alloc, &[("&a<", 1), ("\u{301}", 33)], "KeyTooLong 3");
    assert_answer(&rt, alloc, &[("&a< b", 1), ("\u{301}", 61)], "LongRun 3");
    assert_taken(&rt, alloc, &[("&a<", 1), ("\u{301}", 31)]);
    assert_taken(&rt, alloc, &[("&a", 1), ("\u{301}", 31)]);
    assert_answer(
        &rt,
        alloc,
        &[("&a<b/", 1), ("a", 33), ("\u{301}", 61)],
        "LongRun 5",
    );
}

#[test]
fn strings_keep_to_the_limit(rt: HostRuntime) {
    let alloc = rt.alloc();
    assert_answer(&rt, alloc, &[("&", 1), ("a", 33)], "KeyTooLong 1");
    assert_taken(&rt, alloc, &[("&", 1), ("a", 32)]);
    assert_answer(
        &rt,
        alloc,
        &[("&", 1), ("a", 32), ("<", 1)],
        "EmptyString 34",
    );
    assert_answer(&rt, alloc, &[("&", 1), ("\u{E9}", 17)], "KeyTooLong 1");
    assert_answer(&rt, alloc, &[("&a<", 1), ("a", 33), ("-", 1)], "Syntax 36");
    assert_answer(&rt, alloc, &[("&a<b/", 1), ("a", 33)], "KeyTooLong 5");
    assert_answer(
        &rt,
        alloc,
        &[("&", 1), ("a", 40_000), ("<", 1)],
        "KeyTooLong 1",
    );
}

#[test]
fn relations_are_counted_over_all_chains(rt: HostRuntime) {
    let alloc = rt.alloc();
    assert_answer(
        &rt,
        alloc,
        &[("&a", 1), ("=b", 20_001)],
        "TooManyRelations 40002",
    );
    assert_answer(
        &rt,
        alloc,
        &[("&a=b", 10_000), ("&a", 1), ("=b", 10_001)],
        "TooManyRelations 60002",
    );
    assert_answer(
        &rt,
        alloc,
        &[("&a", 1), ("<b&c", 20_000), ("<d", 1)],
        "TooManyRelations 80002",
    );
    assert_answer(
        &rt,
        alloc,
        &[("&a", 1), ("=b", 20_000), ("=*b", 1)],
        "LeftOut 40002",
    );
    assert_answer(
        &rt,
        alloc,
        &[("&a", 1), ("=b", 20_000), ("/-", 1)],
        "Syntax 40003",
    );
}

#[test]
fn twenty_thousand_relations_are_accepted(rt: HostRuntime) {
    let Ok(text) = join(rt.alloc(), &[("&a", 1), ("=b", 20_000)]) else {
        return;
    };
    match parse_again(rt.alloc(), &text) {
        Ok(rules) => {
            assert!(rt; rules.chains().len() == 1);
            for chain in rules.chains() {
                assert!(rt; chain.relations.len() == 20_000);
            }
        }
        Err(_) => assert!(rt; false),
    }
}
