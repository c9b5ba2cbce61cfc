ghost use Rattle.std.specs.Prelude.{◌≡◌, ◌+◌, ◌*◌, ◌^◌, ◌<◌, ◌≤◌, ◌++◌, length, flat_map, All, OnOk, MatchResult};
ghost use Rattle.uca_io.specs.OutputBuffer.{accepted, Accepts, FailsPartway};
ghost use Rattle.uca_io.specs.Writer.{WritesAll, WritesFront};
ghost use Rattle.uca_weights.specs.declared.limits.TheConstants.{MAX_INPUT};
ghost use Rattle.uca_model.specs.CanonicalText.{element_text};
ghost use Rattle.uca_model.specs.ElementsOutput.{elements_text};
ghost use Rattle.uca_model.specs.Lines.{lines_of, IsTextLine};
ghost use Rattle.uca_model.specs.Output.{hex_line};
ghost use Rattle.uca_model.specs.SortKey.{sort_key};
ghost use Rattle.uca_window.specs.Passage.{text_of};
ghost use Rattle.uca_commands.specs.Sending.{line_text, lines_text, StopsLine, StopsOutput};

use crate::faults::CliFault;
use crate::lines::first_line;
use std::alloc::{AllocError, Global};
use uca_allkeys::element_text;
use uca_io::{OutputBlock, send_hex};
use uca_key::KeyMaker;
use uca_match::elements_of;
use uca_table::Table;
use uca_weights::{Element, Settings, WriteFault, Writer};
use uca_window::Passage;

/// What a command writes for each line.
#[derive(Clone, Copy)]
pub enum LineForm {
    /// The line's collation elements.
    Elements,
    /// The line's sort key, as digits.
    Key,
}

/// Buffers in which the sort keys of lines are made, one by one.
#[derive(Drop)]
struct KeyRoom {
    maker: KeyMaker,
    key: Vec<u8>,
}

impl KeyRoom {
    /// Makes the key of a text, in place of the last one.
    fn make_key(
        &mut self,
        alloc: Global,
        t: &Table,
        s: Settings,
        p: &Passage,
    ) -> Result<(), AllocError>
        ensures { OnOk result (self.new.key.items ≡ sort_key t.now s (text_of p.now)) }
    {
        self.key.clear();
        self.maker.push_key(alloc, t, s, p, &mut self.key)
    }
}

/// Writes collation elements to a block of output, one after the other.
fn send_each<W: Writer>(
    w: &mut W,
    out: &mut OutputBlock,
    elements: &[Element],
) -> Result<(), WriteFault>
    requires { accepted out.old + 17 * length elements.now < 2 ^ 128 }
    ensures { MatchResult result
        (λ _. Accepts (W.state w.old) out.old (W.state w.new) out.new (flat_map element_text elements.now))
        (λ f. FailsPartway (W.state w.old) out.old (W.state w.new) (flat_map element_text elements.now) f) }
{
    for element in elements {
        out.write(w, &element_text(element))?;
    }
    Ok(())
}

/// Writes the line of some collation elements to a block of output.
fn send_elements<W: Writer>(
    w: &mut W,
    out: &mut OutputBlock,
    elements: &[Element],
) -> Result<(), WriteFault>
    requires { accepted out.old < 2 ^ 127 }
    ensures sends { MatchResult result
        (λ _. Accepts (W.state w.old) out.old (W.state w.new) out.new (elements_text elements.now))
        (FailsPartway (W.state w.old) out.old (W.state w.new) (elements_text elements.now)) }
    ensures small { OnOk result (accepted out.new < accepted out.old + 2 ^ 70) }
{
    send_each(w, out, elements)?;
    out.write(w, b"\n")
}

/// Writes the line of a key to a block of output.
fn send_key<W: Writer>(w: &mut W, out: &mut OutputBlock, key: &[u8]) -> Result<(), WriteFault>
    requires { accepted out.old < 2 ^ 127 }
    ensures sends { MatchResult result
        (λ _. Accepts (W.state w.old) out.old (W.state w.new) out.new (hex_line key.now))
        (FailsPartway (W.state w.old) out.old (W.state w.new) (hex_line key.now)) }
    ensures small { OnOk result (accepted out.new < accepted out.old + 2 ^ 70) }
{
    send_hex(w, out, key)?;
    out.write(w, b"\n")
}

/// Writes to a block of output what a command writes for a line.
fn send_line<W: Writer>(
    alloc: Global,
    form: LineForm,
    t: &Table,
    s: Settings,
    line: &[u8],
    keys: &mut KeyRoom,
    w: &mut W,
    out: &mut OutputBlock,
) -> Result<(), CliFault>
    requires text { IsTextLine line.now }
    requires room { accepted out.old < 2 ^ 127 }
    ensures sends { MatchResult result
        (λ _. Accepts (W.state w.old) out.old (W.state w.new) out.new (line_text form t.now s line.now))
        (StopsLine (W.state w.old) out.old (W.state w.new) out.new (line_text form t.now s line.now)) }
    ensures small { OnOk result (accepted out.new < accepted out.old + 2 ^ 70) }
{
    let passage = Passage::of_checked(line);
    match form {
        LineForm::Elements => {
            let elements = elements_of(alloc, t, &passage)?;
            send_elements(w, out, &elements)?;
        }
        LineForm::Key => {
            keys.make_key(alloc, t, s, &passage)?;
            send_key(w, out, &keys.key)?;
        }
    }
    Ok(())
}

/// Writes what a command writes for each line of an input, which was checked, and returns the command's status.
pub(crate) fn write_lines<W: Writer>(
    alloc: Global,
    form: LineForm,
    t: &Table,
    s: Settings,
    bytes: &[u8],
    w: &mut W,
) -> Result<u8, CliFault>
    requires small { length bytes.now ≤ MAX_INPUT }
    requires texts { All IsTextLine (lines_of bytes.now) }
    ensures { MatchResult result
        (λ status. WritesAll (W.state w.old) (W.state w.new) (lines_text form t.now s bytes.now) × (status ≡ 0))
        (StopsOutput (W.state w.old) (W.state w.new) (lines_text form t.now s bytes.now)) }
{
    let mut keys = KeyRoom {
        maker: KeyMaker::new(alloc),
        key: Vec::new(alloc),
    };
    let mut out = OutputBlock::new();
    let mut left = bytes;
    while !left.is_empty() {
        let (line, rest) = first_line(left);
        send_line(alloc, form, t, s, line, &mut keys, w, &mut out)?;
        left = rest;
    }
    out.flush(w)?;
    Ok(0)
}
