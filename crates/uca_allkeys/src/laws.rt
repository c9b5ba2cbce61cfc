ghost use Rattle.std.specs.Prelude.{◌≡◌, ◌≤◌, [], length, Ok};
ghost use Rattle.uca_weights.specs.declared.limits.TheConstants.{MAX_INPUT};
ghost use Rattle.uca_model.specs.CanonicalText.{canonical};
ghost use Rattle.uca_model.specs.Table.{with_ideographs};
ghost use Rattle.uca_model.specs.TableText.{ends, table_of_text};

use uca_table::Table;

/// What `write_table` writes for a table is read back as that table without its further ideographs, unless it is too large to be
/// read (UTS #10, Allkeys File Format).
pub fn written_table_is_read_back(t: &Table)
    ensures { length (canonical t.now) ≤ MAX_INPUT → table_of_text ends (canonical t.now) ≡ Ok (with_ideographs t.now []) }
{
    let _longest = t.longest();
    let _ranges = t.ranges();
    uca_model::laws::canonical_text_is_read_back();
}
