// What collators share: a table, and what is made of it once.
ghost use Rattle.std.specs.Prelude.{◌≡◌, IfOk};
ghost use Rattle.uca_key.specs.PrimaryCode.{code_of};

use std::alloc::{AllocError, Global};
use std::marker::Model;
use uca_key::PackedCode;
use uca_table::Table;

/// A table, with the code of primary weights that its packed keys are made by.
#[derive(Drop)]
pub struct Opened {
    table: Table,
    code: PackedCode,
}

impl Model for Opened {
    ghost use Rattle.std.specs.Prelude.{◌≡◌};
    ghost use Rattle.uca_model.specs.Table.{ElementTable};
    ghost use Rattle.uca_table.specs.Coded.{coded_table};
    ghost use Rattle.uca_key.specs.PrimaryCode.{code_of};

    ghost Value = { ElementTable };

    ghost coded = { coded_table };

    ghost view = { λ o. o.table };

    ghost invariant = { λ o. o.code ≡ code_of o.table };
}

impl Opened {
    /// Makes the code of a table, and keeps both.
    pub(crate) fn new(alloc: Global, table: Table) -> Result<Opened, AllocError>
        ensures { IfOk result (λ o. o ≡ table) }
    {
        let code = PackedCode::new(alloc, &table)?;
        Ok(Opened { table, code })
    }

    pub(crate) fn table(&self) -> &Table
        ensures { result.now ≡ self.now }
    {
        &self.table
    }

    pub(crate) fn code(&self) -> &PackedCode
        ensures { result.now ≡ code_of self.now }
    {
        &self.code
    }
}
