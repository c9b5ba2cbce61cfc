ghost use Rattle.std.specs.Prelude.{ℕ, List, [], IfErr, IfOk};
ghost use Rattle.uca_io.specs.Reader.{ReaderState};
ghost use Rattle.uca_weights.specs.declared.settings.Settings.{Settings};
ghost use Rattle.uca_commands.specs.Commands.{Does, Fails, table_command};

use crate::faults::CliFault;
use uca_allkeys::write_table;
use uca_table::Table;
use uca_weights::Writer;

/// Writes the canonical text of the table. It has no input.
pub fn run<W: Writer>(t: &Table, output: &mut W) -> Result<u8, CliFault>
    ensures done { (s : Settings) (input : ReaderState) → IfOk result (Does table_command t.now s
        (record { input = input; output = W.state output.old })
        (record { input = input; output = W.state output.new })) }
    ensures fault { (s : Settings) (input : ReaderState) → IfErr result (Fails table_command t.now s
        (record { input = input; output = W.state output.old })
        (record { input = input; output = W.state output.new })) }
{
    write_table(output, t)?;
    Ok(0)
}
