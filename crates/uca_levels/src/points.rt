ghost use Rattle.std.specs.Prelude.{◌≡◌, ℕ, List, ◌+◌, ◌<◌, ◌≤◌, ◌^◌, length, IfSome};
ghost use Rattle.uca_weights.specs.declared.limits.TheConstants.{MAX_LOOKAHEAD};
ghost use Rattle.uca_model.specs.SafeText.{IsSafe};
ghost use Rattle.uca_model.specs.Source.{unread};
ghost use Rattle.uca_model.specs.Window.{Fits, empty_window, rest_of};
ghost use Rattle.uca_match.specs.Yields.{Yields};
ghost use Rattle.uca_levels.specs.RemainingWeights.{itself};

use std::marker::Model;
use uca_window::{Source, Window};

/// The code points of a text in NFD one by one, which are its list at the fifth level (UTS #10, section 7.3, step
/// S3.10). It borrows a source at each call. It does not allocate. Of the text it holds at most `MAX_LOOKAHEAD` code
/// points more than one: `bound`.
#[derive(Drop)]
pub struct Points {
    window: Window,
}

impl Model for Points {
    ghost use Rattle.uca_model.specs.Window.{WindowState};
    ghost use Rattle.uca_levels.specs.RemainingWeights.{IsPoints};

    ghost Value = { WindowState };

    ghost view = { λ p. p.window };

    ghost invariant = { λ p. IsPoints p.window };
}

impl Points {
    /// The code points of which none was given yet. It fits each source whose unread characters are a safe text, and
    /// what remains is then their NFD.
    pub fn new() -> Points
        ensures value { result ≡ empty_window 1 }
        ensures fits { (left : List ℕ) → IsSafe left → Fits result left }
        ensures bound { length result.points ≤ 1 + MAX_LOOKAHEAD }
    {
        Points {
            window: Window::new(1),
        }
    }

    /// The next code point. `None` at the end, and from then on.
    pub fn next<S: Source>(&mut self, source: &mut S) -> Option<char>
        requires { Fits self.old (unread (S.state source.old)) }
        ensures yields { Yields rest_of itself self.old (S.state source.old) result self.new (S.state source.new) }
        ensures point { IfSome result (λ c. c < 2 ^ 24) }
        ensures bound { length self.new.points ≤ 1 + MAX_LOOKAHEAD }
    {
        self.window.fill(source);
        if self.window.closed() == 0 {
            return None;
        }
        let point = self.window.points()[0];
        self.window.drop_front(1);
        Some(point)
    }
}
