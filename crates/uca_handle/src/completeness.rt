ghost use Rattle.std.specs.Prelude.{◌≡◌};
ghost use Rattle.uca_handle.specs.Completeness.{TellsCompleteBy};

use crate::faults::KeyFault;
use uca_match::is_complete;
use uca_table::Table;
use uca_window::Passage;

/// Whether a text is complete, or its fault.
pub(crate) fn completeness_of(t: &Table, text: &[u8]) -> Result<bool, KeyFault>
    ensures { TellsCompleteBy t.now text.now result }
{
    match Passage::of_bytes(text) {
        Ok(passage) => Ok(is_complete(t, &passage)),
        Err(fault) => Err(KeyFault::Text(fault)),
    }
}
