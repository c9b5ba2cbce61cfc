ghost use Rattle.std.specs.Prelude.{◌≡◌, ◌<◌, ◌++◌, length, OnOk};
ghost use Rattle.uca_model.specs.SortKey.{sort_key};
ghost use Rattle.uca_window.specs.Passage.{text_of};

use crate::form::{Form, push};
use std::alloc::{AllocError, Global};
use uca_table::Table;
use uca_weights::{Element, Settings};
use uca_window::Passage;

// Room of this many elements or more is as large as the texts are long.
const MOST_DOUBLED: usize = 16_384;

/// Makes the sort keys of texts one by one. It keeps its room for elements from one text to the next, so most texts allocate
/// nothing but their keys.
#[derive(Debug, Drop)]
pub struct KeyMaker {
    elements: Vec<Element>,
}

impl KeyMaker {
    /// One without room.
    pub fn new(alloc: Global) -> KeyMaker {
        KeyMaker {
            elements: Vec::new(alloc),
        }
    }

    // Makes room for the elements of most texts of this many bytes, and for one more.
    fn make_room(&mut self, bytes: usize) -> Result<(), AllocError>
        ensures { OnOk result (0 < length self.new.elements.items) }
    {
        if self.elements.len() <= bytes {
            self.elements
                .resize(bytes.saturating_add(1), Element::default())?;
        }
        Ok(())
    }

    // Doubles the room after a text that had more elements than it holds, since texts of one list are alike. For a long text it is
    // not worth the memory, and it fails no call where that is refused.
    fn widen(&mut self) {
        let size = self.elements.len();
        if size < MOST_DOUBLED {
            let _grown = self.elements.resize(2 * size, Element::default());
        }
    }

    /// Appends the sort key of a text to others (UTS #10, sections 7.1 to 7.3).
    pub fn push_key(
        &mut self,
        _alloc: Global,
        t: &Table,
        s: Settings,
        p: &Passage,
        keys: &mut Vec<u8>,
    ) -> Result<(), AllocError>
        ensures { OnOk result (keys.new.items ≡ keys.old.items ++ sort_key t.now s (text_of p.now)) }
    {
        self.make_room(p.as_str().len())?;
        if !push(Form::Plain, t, s, p, self.elements.as_mut_slice(), keys)? {
            self.widen();
        }
        Ok(())
    }
}
