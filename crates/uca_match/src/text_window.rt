ghost use Rattle.std.specs.Prelude.{◌≡◌, ◌+◌, ◌++◌, ◌<◌, ◌≤◌, [], chars, length, take};
ghost use Rattle.unicode_normalization.specs.Forms.{nfd};
ghost use Rattle.uca_weights.specs.declared.limits.TheConstants.{MAX_LOOKAHEAD};
ghost use Rattle.uca_model.specs.CollationElements.{elements};
ghost use Rattle.uca_model.specs.SafeText.{IsSafe};
ghost use Rattle.uca_model.specs.Source.{unread};
ghost use Rattle.uca_model.specs.Table.{longest};
ghost use Rattle.uca_model.specs.Window.{Fits};
ghost use Rattle.uca_match.specs.RemainingElements.{remaining_elements};

use crate::elements::Elements;
use uca_table::Table;
use uca_weights::Element;
use uca_window::{Passage, PassageSource};

/// The elements of a text in memory over a window, for texts of which many characters join each other.
#[derive(Drop)]
pub struct TextWindow<'t> {
    pub elements: Elements<'t>,
    pub source: PassageSource<'t>,
    ghost fits: { Fits elements.window (unread source) },
}

impl<'t> TextWindow<'t> {
    /// The elements of a text, none of which was given yet.
    pub fn new(t: &'t Table, text: &'t str) -> TextWindow<'t>
        requires { IsSafe (chars text.now) }
        ensures table { result.elements.table ≡ t.now }
        ensures bound { length result.elements.window.points ≤ longest t.now + MAX_LOOKAHEAD }
        ensures left { remaining_elements result.elements (unread result.source) ≡ elements t.now (nfd (chars text.now)) }
    {
        TextWindow {
            elements: Elements::new(t),
            source: PassageSource::new(&Passage::of_safe(text)),
        }
    }

    /// Puts the next elements into room, from its front on, and returns how many. It is full unless they were the last.
    pub fn read(&mut self, room: &mut [Element]) -> usize
        requires { length self.old.elements.window.points ≤ longest self.old.elements.table + MAX_LOOKAHEAD }
        ensures left { remaining_elements self.old.elements (unread self.old.source) ≡ take result room.new ++ remaining_elements self.new.elements (unread self.new.source) }
        ensures within { result ≤ length room.old }
        ensures end { result < length room.old → remaining_elements self.new.elements (unread self.new.source) ≡ [] }
        ensures table { self.new.elements.table ≡ self.old.elements.table }
        ensures bound { length self.new.elements.window.points ≤ longest self.new.elements.table + MAX_LOOKAHEAD }
        ensures size { length room.new ≡ length room.old }
    {
        let mut at = 0;
        while at < room.len() {
            let Some(element) = self.elements.next(&mut self.source) else {
                return at;
            };
            room[at] = element;
            at += 1;
        }
        at
    }
}
