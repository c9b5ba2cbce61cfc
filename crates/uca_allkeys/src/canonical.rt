ghost use Rattle.std.specs.Prelude.{◌≡◌, ◌+◌, ◌*◌, ◌^◌, ◌<◌, ◌≤◌, ◌++◌, [], flat_map, length, All, MatchResult};
ghost use Rattle.uca_weights.specs.declared.limits.TheConstants.{MAX_KEY, MAX_ELEMENTS, MAX_LINE};
ghost use Rattle.uca_io.specs.OutputBuffer.{accepted, Accepts, FailsPartway};
ghost use Rattle.uca_io.specs.Writer.{WritesAll, WritesFront};
ghost use Rattle.uca_model.specs.CanonicalText.{canonical, variable_mark, element_text, ends_text, base_text, entry_line, four_digits, key_text, plane_text, point_text, range_line};
ghost use Rattle.std.specs.FinMap.{entries};
ghost use Rattle.uca_model.specs.Table.{IsEntry};

use arrayvec::ArrayVec;
use uca_io::OutputBuffer;
use uca_io::digits::{hex_digit, hex_pair};
use uca_table::Table;
use uca_weights::{Element, MAX_LINE, Range, WriteFault, Writer};

/// A number as four digits.
fn four_digits(n: u16) -> [u8; 4]
    ensures { result ≡ four_digits n }
{
    [
        hex_digit((n / 0x1000) as u8),
        hex_digit((n / 0x100 % 16) as u8),
        hex_digit((n / 0x10 % 16) as u8),
        hex_digit((n % 16) as u8),
    ]
}

/// The mark of an element.
fn variable_mark(element: &Element) -> u8
    ensures { result ≡ variable_mark element.now }
{
    if element.starred { b'*' } else { b'.' }
}

/// A collation element with its brackets, as `[.1000.0020.0002]`, or with `*` in place of the first `.`
/// (UTS #10, Allkeys File Format).
#[tactic(auto, unfolding(uca_model::specs::CanonicalText::element_text))]
pub fn element_text(element: &Element) -> [u8; 17]
    ensures { result ≡ element_text element.now }
{
    let mark = variable_mark(element);
    let [a, b, c, d] = four_digits(element.l1);
    let [e, f, g, h] = four_digits(element.l2);
    let [i, j, k, l] = four_digits(element.l3);
    [
        b'[', mark, a, b, c, d, b'.', e, f, g, h, b'.', i, j, k, l, b']',
    ]
}

/// The base of a range and what ends its line.
fn base_text(base: u16) -> [u8; 7]
    ensures { result ≡ base_text base }
{
    let [a, b, c, d] = four_digits(base);
    [b';', b' ', a, b, c, d, b'\n']
}

/// A line to be written. Each line of a table fits.
type Line = ArrayVec<u8, MAX_LINE>;

/// Appends a piece that fits.
fn push(line: &mut Line, piece: &[u8])
    requires { length line.old.items + length piece.now ≤ MAX_LINE }
    ensures text { line.new.items ≡ line.old.items ++ piece.now }
    ensures grows { length line.new.items ≡ length line.old.items + length piece.now }
{
    let _fits = line.try_extend_from_slice(piece);
}

/// Appends the digits of a plane of code points, none for plane 0.
fn push_plane(line: &mut Line, plane: u16)
    requires below { plane < 256 }
    requires room { length line.old.items + 2 ≤ MAX_LINE }
    ensures text { line.new.items ≡ line.old.items ++ plane_text plane }
    ensures grows { length line.new.items ≤ length line.old.items + 2 }
{
    if plane == 0 {
        return;
    }
    if plane < 16 {
        return push(line, &[hex_digit(plane as u8)]);
    }
    push(line, &hex_pair(plane as u8));
}

/// Appends a code point, with at least four digits and no more than needed.
#[tactic(auto, unfolding(uca_model::specs::CanonicalText::point_text))]
fn push_point(line: &mut Line, c: char)
    requires { length line.old.items + 6 ≤ MAX_LINE }
    ensures text { line.new.items ≡ line.old.items ++ point_text c }
    ensures grows { length line.new.items ≤ length line.old.items + 6 }
{
    push_plane(line, (c as u32 / 0x10000) as u16);
    push(line, &four_digits((c as u32 % 0x10000) as u16));
}

/// Appends the code points of a key with one blank between.
fn push_key(line: &mut Line, key: &[char])
    requires { length line.old.items + 7 * length key.now ≤ MAX_LINE }
    ensures text { line.new.items ≡ line.old.items ++ key_text key.now }
    ensures grows { length line.new.items ≤ length line.old.items + 7 * length key.now }
{
    let Some((first, others)) = key.split_first() else {
        return;
    };
    push_point(line, *first);
    for c in others {
        push(line, b" ");
        push_point(line, *c);
    }
}

/// Appends elements one after the other.
fn push_element_texts(line: &mut Line, elements: &[Element])
    requires { length line.old.items + 17 * length elements.now ≤ MAX_LINE }
    ensures text { line.new.items ≡ line.old.items ++ flat_map element_text elements.now }
    ensures grows { length line.new.items ≤ length line.old.items + 17 * length elements.now }
{
    for element in elements {
        push(line, &element_text(element));
    }
}

/// The line of an entry.
fn entry_line(key: &[char], elements: &[Element]) -> Line
    requires key { length key.now ≤ MAX_KEY }
    requires elements { length elements.now ≤ MAX_ELEMENTS }
    ensures { result.items ≡ entry_line (key.now, elements.now) }
{
    let mut line = ArrayVec::new();
    push_key(&mut line, key);
    push(&mut line, b" ; ");
    push_element_texts(&mut line, elements);
    push(&mut line, b"\n");
    line
}

/// Appends the ends of a range with `..` between.
fn push_ends(line: &mut Line, range: Range)
    requires { length line.old.items + 14 ≤ MAX_LINE }
    ensures text { line.new.items ≡ line.old.items ++ ends_text range }
    ensures grows { length line.new.items ≤ length line.old.items + 14 }
{
    push_point(line, range.first);
    push(line, b"..");
    push_point(line, range.last);
}

/// The line of a range.
fn range_line(range: Range) -> Line
    ensures { result.items ≡ range_line range }
{
    let mut line = ArrayVec::new();
    push(&mut line, b"@implicitweights ");
    push_ends(&mut line, range);
    push(&mut line, &base_text(range.base));
    line
}

/// Writes the lines of the ranges.
fn send_ranges<W: Writer>(
    writer: &mut W,
    out: &mut OutputBuffer,
    ranges: &[Range],
) -> Result<(), WriteFault>
    requires { accepted out.old ≡ 0 }
    ensures lines { MatchResult result
        (λ _. Accepts (W.state writer.old) out.old (W.state writer.new) out.new (flat_map range_line ranges.now))
        (λ f. FailsPartway (W.state writer.old) out.old (W.state writer.new) (flat_map range_line ranges.now) f) }
    ensures room { MatchResult result (λ _. accepted out.new ≤ 2 ^ 80) (λ _. Unit {0}) }
{
    for range in ranges {
        out.write(writer, range_line(*range).as_slice())?;
    }
    Ok(())
}

/// Writes the lines of a table's entries.
fn send_entries<W: Writer>(
    writer: &mut W,
    out: &mut OutputBuffer,
    table: &Table,
) -> Result<(), WriteFault>
    requires { accepted out.old ≤ 2 ^ 80 }
    ensures lines { MatchResult result
        (λ _. Accepts (W.state writer.old) out.old (W.state writer.new) out.new (flat_map entry_line (entries table.now.entries)))
        (λ f. FailsPartway (W.state writer.old) out.old (W.state writer.new) (flat_map entry_line (entries table.now.entries)) f) }
    ensures room { MatchResult result (λ _. accepted out.new ≤ 2 ^ 81) (λ _. Unit {0}) }
{
    show_entries(table);
    for (key, elements) in table.entries() {
        out.write(writer, entry_line(key.as_slice(), elements).as_slice())?;
    }
    Ok(())
}

/// Shows that the table is valid.
fn show_entries(table: &Table)
    ensures { All IsEntry (entries table.now.entries) }
{
    let _longest = table.longest();
}

/// Writes the ranges and then the entries.
fn send_table<W: Writer>(
    writer: &mut W,
    out: &mut OutputBuffer,
    table: &Table,
) -> Result<(), WriteFault>
    requires { accepted out.old ≡ 0 }
    ensures lines { MatchResult result
        (λ _. Accepts (W.state writer.old) out.old (W.state writer.new) out.new (canonical table.now))
        (λ f. FailsPartway (W.state writer.old) out.old (W.state writer.new) (canonical table.now) f) }
    ensures room { MatchResult result (λ _. accepted out.new ≤ 2 ^ 81) (λ _. Unit {0}) }
{
    send_ranges(writer, out, table.ranges())?;
    send_entries(writer, out, table)
}

/// Writes the canonical text of a table: its ranges by their first code points, then its entries by key order, in
/// upper-case digits, with no comments. Returns the number of bytes. On a fault exactly the first `written` bytes of the
/// text were written. It does not allocate, and does not flush the writer.
pub fn write_table<W: Writer>(writer: &mut W, t: &Table) -> Result<u128, WriteFault>
    ensures { MatchResult result
        (λ n. WritesAll (W.state writer.old) (W.state writer.new) (canonical t.now) × (n ≡ length (canonical t.now)))
        (λ f. WritesFront (W.state writer.old) (W.state writer.new) (canonical t.now) f) }
{
    let mut out = OutputBuffer::new();
    send_table(writer, &mut out, t)?;
    out.flush(writer)?;
    Ok(out.written())
}
