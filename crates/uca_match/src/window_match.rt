ghost use Rattle.std.specs.Prelude.{◌≡◌, ◌<◌, ◌≤◌, [], false, true, length, IfSome, IfNone, OnSome};
ghost use Rattle.uca_model.specs.Source.{unread};
ghost use Rattle.uca_model.specs.Window.{Fits, IsWindow, ReadsOn, is_wanting, rest_of};
ghost use Rattle.uca_model.specs.Table.{is_key, longest};
ghost use Rattle.uca_model.specs.CollationElements.{step};
ghost use Rattle.uca_table.specs.Walk.{path_of, table_of_walk};
ghost use Rattle.uca_match.specs.WindowMatch.{TakesNonstarters, TakesMatch, TakesHeld, EndsHeld};
ghost use Rattle.uca_match.specs.Found.{IsFound, points_of};

use uca_table::matching::{longest_match, takes};
use uca_table::{Table, Walk};
use uca_window::{Source, Window};
use unicode_normalization::char::canonical_combining_class;

/// A match that was taken out of a window.
#[derive(Clone, Copy)]
pub(crate) struct WindowMatch<'t> {
    /// Its first code point.
    pub(crate) first: char,
    /// A walk along it; not stepped where the first code point begins no key, and is a match by itself.
    pub(crate) walk: Walk<'t>,
}

// Removes from a window those nonstarters that make longer keys with the path of a walk, and steps the walk along them
// (UTS #10, 7.2, steps S2.1.1 to S2.1.3). The start stays in the window throughout.
fn take_nonstarters(walk: &mut Walk<'_>, window: &mut Window, start: usize)
    requires some { 0 < start }
    requires within { start ≤ window.old.closed }
    ensures takes { TakesNonstarters (is_key (table_of_walk walk.old)) start (path_of walk.old) window.old (path_of walk.new) window.new }
    ensures table { table_of_walk walk.new ≡ table_of_walk walk.old }
    ensures longer { length (path_of walk.old) ≤ length (path_of walk.new) }
    ensures key { is_key (table_of_walk walk.old) (path_of walk.old) ≡ true → is_key (table_of_walk walk.old) (path_of walk.new) ≡ true }
{
    let mut at = start;
    let mut high = 0;
    while at < window.closed() {
        let nonstarter = window.points()[at];
        let class = canonical_combining_class(nonstarter);
        if class == 0 {
            return;
        }
        if takes(walk, high, nonstarter) {
            window.remove(at);
        } else {
            high = high.max(class);
            at += 1;
        }
    }
}

// Removes the match at the front of a window that was filled (UTS #10, 7.2, step S2.1). A code point that begins no
// key is a match by itself.
fn take_match<'t>(t: &'t Table, window: &mut Window) -> WindowMatch<'t>
    requires some { 0 < window.old.closed }
    requires longest { window.old.longest ≡ longest t.now }
    ensures takes { TakesMatch t.now window.old (points_of result) window.new }
    ensures found { IsFound t.now result }
{
    let closed = window.closed();
    let points = window.points();
    let first = points[0];
    let mut walk = longest_match(t.walk(), &points[..closed]);
    let start = walk.len();
    if start == 0 {
        window.drop_front(1);
        return WindowMatch { first, walk };
    }
    take_nonstarters(&mut walk, window, start);
    window.drop_front(start);
    WindowMatch { first, walk }
}

/// Removes the match at the front of a window's rest, and returns it (UTS #10, 7.2, step S2.1). `None` at the end of
/// the text. It reads characters before the match and none within it.
pub(crate) fn next_match<'t, S: Source>(
    t: &'t Table,
    window: &mut Window,
    source: &mut S,
) -> Option<WindowMatch<'t>>
    requires longest { window.old.longest ≡ longest t.now }
    requires fits { Fits window.old (unread (S.state source.old)) }
    ensures reads { ReadsOn window.old (S.state source.old) window.new (S.state source.new) }
    ensures none { IfNone result ((rest_of window.old (unread (S.state source.old)) ≡ []) × (rest_of window.new (unread (S.state source.new)) ≡ [])) }
    ensures some { OnSome result (0 < length (rest_of window.old (unread (S.state source.old)))) }
    ensures matched { IfSome result (λ m. (step (is_key t.now) (rest_of window.old (unread (S.state source.old)))).matched.code_points ≡ points_of m) }
    ensures rest { OnSome result ((step (is_key t.now) (rest_of window.old (unread (S.state source.old)))).rest ≡ rest_of window.new (unread (S.state source.new))) }
    ensures held { IfSome result (λ m. is_wanting window.old ≡ false → TakesHeld t.now window.old (S.state source.old) (points_of m) window.new (S.state source.new)) }
    ensures found { IfSome result (IsFound t.now) }
    ensures ends { IfNone result (is_wanting window.old ≡ false → EndsHeld window.old (S.state source.old) window.new (S.state source.new)) }
    ensures valid { IsWindow window.new }
{
    window.fill(source);
    if window.closed() == 0 {
        return None;
    }
    Some(take_match(t, window))
}
