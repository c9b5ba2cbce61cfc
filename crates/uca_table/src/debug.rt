//! Debug output of a type that holds the entries of a table is its name only: a table has tens of thousands of them.

use crate::{AscendingEntries, Table, TableBuilder, Walk};
use std::fmt;

impl fmt::Debug for Table {
    fn fmt<W: fmt::Write>(&self, f: &mut fmt::Formatter<W>) -> fmt::Result {
        f.debug_struct("Table").finish_non_exhaustive()
    }
}

impl fmt::Debug for TableBuilder {
    fn fmt<W: fmt::Write>(&self, f: &mut fmt::Formatter<W>) -> fmt::Result {
        f.debug_struct("TableBuilder").finish_non_exhaustive()
    }
}

impl fmt::Debug for AscendingEntries {
    fn fmt<W: fmt::Write>(&self, f: &mut fmt::Formatter<W>) -> fmt::Result {
        f.debug_struct("AscendingEntries").finish_non_exhaustive()
    }
}

impl<'t> fmt::Debug for Walk<'t> {
    fn fmt<W: fmt::Write>(&self, f: &mut fmt::Formatter<W>) -> fmt::Result {
        f.debug_struct("Walk").finish_non_exhaustive()
    }
}
