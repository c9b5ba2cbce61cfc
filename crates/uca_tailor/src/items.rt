//! The items that relations add.
use crate::moves::Stamp;
use uca_table::Element;

/// The elements of an item, and the gaps that had been made when it got them.
#[derive(Drop)]
pub(crate) struct Item {
    pub(crate) elements: Vec<Element>,
    pub(crate) after: Stamp,
}
