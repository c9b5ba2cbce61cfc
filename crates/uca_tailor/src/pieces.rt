ghost use Rattle.std.specs.Prelude.{◌≡◌, ◌+◌, ◌≤◌, ℕ, not, min, drop, length, IfSome};
ghost use Rattle.std.specs.List.{take_while};
ghost use Rattle.uca_model.specs.RuleText.{is_white_space, is_line_end, is_left_out, is_plain, less_run, less_signs, operator, piece, hex_value, quote, quoted, escape, code_point, piece_of};
ghost use Rattle.uca_tailor.specs.Chains.{operator_of};
ghost use Rattle.uca_tailor.specs.Scan.{ScanState, passed};
ghost use Rattle.uca_tailor.specs.Pieces.{kind_of, quoted_piece, plain_piece, first_piece, ReadsPiece, ReadsNext};

use crate::faults::RuleCause;
use crate::rules::Op;
use crate::scanner::Scanner;

/// What ends a string and says what the next one is.
#[derive(Clone, Copy)]
pub(crate) enum Operator {
    /// `&`.
    Reset,
    /// `<`, `<<`, `<<<` or `=`.
    Relation(Op),
    /// The operator of a relation that this profile leaves out.
    LeftOut,
    /// `/`.
    Expansion,
}

/// A piece of the text of rules (UTS #35, Part 5, section 3, Rules).
#[derive(Clone, Copy)]
pub(crate) enum Piece {
    /// White space, or a comment.
    Skipped,
    /// Characters of a string.
    Given,
    Operator(Operator),
}

/// Pattern_White_Space (UAX #31, section 4, Pattern Syntax).
fn is_white_space(c: char) -> bool
    ensures { result ≡ is_white_space c }
{
    matches!(
        c,
        '\t'..='\r' | ' ' | '\u{85}' | '\u{200E}' | '\u{200F}' | '\u{2028}' | '\u{2029}'
    )
}

/// What ends a comment.
fn is_line_end(c: char) -> bool
    ensures { result ≡ is_line_end c }
{
    matches!(
        c,
        '\n' | '\u{C}' | '\r' | '\u{85}' | '\u{2028}' | '\u{2029}'
    )
}

/// Characters of parts of the syntax that this profile leaves out.
fn is_left_out(c: char) -> bool
    ensures { result ≡ is_left_out c }
{
    matches!(c, '[' | '|' | ';' | ',' | '@')
}

/// Characters that stand for themselves.
fn is_plain(c: char) -> bool
    ensures { result ≡ is_plain c }
{
    matches!(c, '0'..='9' | 'A'..='Z' | 'a'..='z' | '_') || !c.is_ascii()
}

/// Passes over a comment after its `#`, up to the end of its line.
fn skip_comment(scanner: &mut Scanner<'_>)
    ensures { scanner.new ≡ passed (length (take_while (λ c. not (is_line_end c)) scanner.old.left)) scanner.old }
{
    while let Some(c) = scanner.peek() {
        if is_line_end(c) {
            break;
        }
        scanner.next();
    }
}

/// The operator of a relation that `scanner` has just passed; `*` isn't part of this profile.
fn relation(scanner: &Scanner<'_>, op: Op) -> Operator
    ensures { (n : ℕ) → operator (operator_of op) n scanner.now.left ≡ piece (kind_of result) n }
{
    if scanner.is_next('*') {
        Operator::LeftOut
    } else {
        Operator::Relation(op)
    }
}

/// One more, or 4 again.
fn one_more(count: u8) -> u8
    ensures { result ≡ min 4 (count + 1) }
{
    if count < 4 { count + 1 } else { 4 }
}

/// How many `<` there are in a row with the one before; 4 means 4 or more.
fn count_less(scanner: &mut Scanner<'_>) -> u8
    ensures count { result ≡ min 4 (less_run scanner.old.left + 1) }
    ensures scan { scanner.new ≡ passed (less_run scanner.old.left) scanner.old }
{
    let mut count = 1;
    while scanner.is_next('<') {
        scanner.next();
        count = one_more(count);
    }
    count
}

/// The operator that begins with `<`.
fn less_operator(scanner: &mut Scanner<'_>) -> Operator
    ensures value { let n = less_run scanner.old.left in less_signs (n + 1) (drop n scanner.old.left) ≡ piece (kind_of result) (n + 1) }
    ensures scan { scanner.new ≡ passed (less_run scanner.old.left) scanner.old }
{
    let count = count_less(scanner);
    if count == 1 {
        relation(scanner, Op::First)
    } else if count == 2 {
        relation(scanner, Op::Second)
    } else if count == 3 {
        relation(scanner, Op::Third)
    } else {
        Operator::LeftOut
    }
}

/// The value of hexadecimal digits.
fn hex_value(scanner: &mut Scanner<'_>, digits: u8) -> Option<u32>
    requires { digits ≤ 8 }
    ensures value { result ≡ hex_value digits 0 scanner.old.left }
    ensures scan { IfSome result (λ _. scanner.new ≡ passed digits scanner.old) }
{
    let mut value = 0;
    let mut left = digits;
    while left > 0 {
        let c = scanner.next()?;
        let digit = c.to_digit(16)?;
        value = value * 16 + digit;
        left -= 1;
    }
    Some(value)
}

/// An escape with this many digits, after the letter that says so.
fn code_point(
    scanner: &mut Scanner<'_>,
    digits: u8,
    string: &mut Vec<char>,
) -> Result<Piece, RuleCause>
    requires { digits ≤ 8 }
    ensures { (s : ScanState) → scanner.old ≡ passed 1 s → ReadsPiece (code_point digits (hex_value digits 0 scanner.old.left)) s string.old.items scanner.new string.new.items result }
{
    let Some(value) = hex_value(scanner, digits) else {
        return Err(RuleCause::Syntax);
    };
    let Some(c) = char::from_u32(value) else {
        return Err(RuleCause::Syntax);
    };
    string.push(c)?;
    Ok(Piece::Given)
}

/// An escape, after its backslash.
fn escape(scanner: &mut Scanner<'_>, string: &mut Vec<char>) -> Result<Piece, RuleCause>
    ensures { ReadsPiece (escape scanner.old.left) scanner.old string.old.items scanner.new string.new.items result }
{
    let Some(c) = scanner.next() else {
        return Err(RuleCause::Syntax);
    };
    if c == 'u' {
        code_point(scanner, 4, string)
    } else if c == 'U' {
        code_point(scanner, 8, string)
    } else {
        string.push(c)?;
        Ok(Piece::Given)
    }
}

/// Everything up to the closing quote, `''` being an apostrophe.
fn quoted(scanner: &mut Scanner<'_>, string: &mut Vec<char>) -> Result<Piece, RuleCause>
    ensures { ReadsPiece (quoted_piece (quoted scanner.old.left)) scanner.old string.old.items scanner.new string.new.items result }
{
    while let Some(c) = scanner.next() {
        if c == '\'' {
            if !scanner.is_next('\'') {
                return Ok(Piece::Given);
            }
            scanner.next();
        }
        string.push(c)?;
    }
    Err(RuleCause::Syntax)
}

/// Quoted characters after a quote; `''` outside quotes is an apostrophe.
fn quote(scanner: &mut Scanner<'_>, string: &mut Vec<char>) -> Result<Piece, RuleCause>
    ensures { ReadsPiece (quote scanner.old.left) scanner.old string.old.items scanner.new string.new.items result }
{
    if scanner.is_next('\'') {
        scanner.next();
        string.push('\'')?;
        Ok(Piece::Given)
    } else {
        quoted(scanner, string)
    }
}

/// A character that is no operator, quote or escape, and that no white space or comment begins with.
fn plain(c: char, string: &mut Vec<char>) -> Result<Piece, RuleCause>
    ensures { (s : ScanState) → ReadsPiece (plain_piece c) s string.old.items s string.new.items result }
{
    if is_left_out(c) {
        return Err(RuleCause::LeftOut);
    }
    if !is_plain(c) {
        return Err(RuleCause::Syntax);
    }
    string.push(c)?;
    Ok(Piece::Given)
}

/// The piece that begins with a character that was taken.
fn piece_after(
    c: char,
    scanner: &mut Scanner<'_>,
    string: &mut Vec<char>,
) -> Result<Piece, RuleCause>
    ensures { ReadsPiece (piece_of c scanner.old.left) scanner.old string.old.items scanner.new string.new.items result }
{
    if is_white_space(c) {
        return Ok(Piece::Skipped);
    }
    if c == '#' {
        skip_comment(scanner);
        Ok(Piece::Skipped)
    } else if c == '&' {
        Ok(Piece::Operator(Operator::Reset))
    } else if c == '<' {
        Ok(Piece::Operator(less_operator(scanner)))
    } else if c == '=' {
        Ok(Piece::Operator(relation(scanner, Op::Same)))
    } else if c == '/' {
        Ok(Piece::Operator(Operator::Expansion))
    } else if c == '\'' {
        quote(scanner, string)
    } else if c == '\\' {
        escape(scanner, string)
    } else {
        plain(c, string)
    }
}

/// The next piece of the text, whose characters go after `string`.
pub(crate) fn next_piece(
    scanner: &mut Scanner<'_>,
    string: &mut Vec<char>,
) -> Result<Option<Piece>, RuleCause>
    ensures { ReadsNext (first_piece scanner.old.left) scanner.old string.old.items scanner.new string.new.items result }
{
    let Some(c) = scanner.next() else {
        return Ok(None);
    };
    let piece = piece_after(c, scanner, string)?;
    Ok(Some(piece))
}
