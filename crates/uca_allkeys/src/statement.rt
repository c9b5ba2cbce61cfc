ghost use Rattle.std.specs.Prelude.{◌≡◌, [], IfOk};
ghost use Rattle.uca_model.specs.TableText.{said, statement};
ghost use Rattle.uca_allkeys.specs.Statements.{Parses, statement_in, IsReady};

use crate::directive::{Directive, read_directive};
use crate::entry::read_entry;
use crate::faults::LineFault;
use arrayvec::ArrayVec;
use uca_io::lines::{place_of, without_return};
use uca_io::words::{skip_blanks, trim_end};
use uca_weights::{Element, MAX_ELEMENTS, MAX_KEY};

/// A key with its elements. One value is reused for all lines, since a new one has 600 bytes to fill and to move.
#[derive(Drop)]
pub(crate) struct Entry {
    pub(crate) key: ArrayVec<char, MAX_KEY>,
    pub(crate) elements: ArrayVec<Element, MAX_ELEMENTS>,
}

/// Neither a code point nor an element.
pub(crate) fn no_entry() -> Entry {
    Entry {
        key: ArrayVec::new(),
        elements: ArrayVec::new(),
    }
}

/// What a line says.
#[derive(Drop)]
pub(crate) enum Statement {
    Nothing,
    Directive(Directive),
    /// The entry that was read with it.
    Entry,
}

/// What comes before the first `#`, without blanks at its ends.
#[tactic(auto, unfolding(uca_model::specs::TableText::said))]
fn said(line: &[u8]) -> &[u8]
    ensures { result.now ≡ said line.now }
{
    skip_blanks(trim_end(&line[..place_of(b'#', line)]))
}

/// What a line says, whatever comes before it. If it is an entry, that is left in `entry`.
#[tactic(auto, unfolding(uca_model::specs::TableText::statement))]
pub(crate) fn read_statement(entry: &mut Entry, line: &[u8]) -> Result<Statement, LineFault>
    ensures value { Parses (statement_in entry.new) (statement line.now) result }
    ensures ready { IfOk result (IsReady entry.new) }
{
    let text = said(without_return(line));
    match text.first() {
        Some(first) => {
            if *first == b'@' {
                Ok(Statement::Directive(read_directive(text)?))
            } else {
                read_entry(entry, text)?;
                Ok(Statement::Entry)
            }
        }
        None => Ok(Statement::Nothing),
    }
}
