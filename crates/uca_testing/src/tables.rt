use crate::entries::SMALL_TEXT;
use std::alloc::Global;
use uca_allkeys::{ReadFault, read_table};
use uca_table::Table;
use uca_weights::Reading;

/// Reads a table in the format of `allkeys.txt`, and tries again where memory was refused.
pub fn table_from(alloc: Global, text: &[u8]) -> Result<Table, ReadFault> {
    match read_table(alloc, &mut Reading::new(text)) {
        Err(_) => read_table(alloc, &mut Reading::new(text)),
        answer => answer,
    }
}

/// The small table, with its ranges.
pub fn small_table(alloc: Global) -> Result<Table, ReadFault> {
    table_from(alloc, SMALL_TEXT)
}
