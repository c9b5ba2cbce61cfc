//! The matches of a text by any set of keys.
ghost use Rattle.std.specs.Prelude.{◌≡◌, ◌<◌, ◌≤◌, ◌++◌, IfOk, OnOk, length, drop, map};
ghost use Rattle.std.specs.FinSet.{FinSet, contains};
ghost use Rattle.unicode_normalization.specs.Forms.{nfd};
ghost use Rattle.uca_weights.specs.declared.limits.TheConstants.{MAX_KEY};
ghost use Rattle.uca_model.specs.Table.{key_cmp};
ghost use Rattle.uca_model.specs.CollationElements.{step, matches};
ghost use Rattle.uca_window.specs.Passage.{text_of};
ghost use Rattle.uca_match.specs.Matches.{match_of};

use crate::keys::Keys;
use arrayvec::ArrayVec;
use std::alloc::{AllocError, Global};
use uca_table::growing::Growing;
use uca_table::matching::{extend, longest_match};
use uca_weights::MAX_KEY;
use uca_window::{Passage, nfd_of};

/// Code points that are taken together: a key, or a code point that begins no key there.
#[derive(Debug, Drop)]
pub struct Match {
    pub key: ArrayVec<char, MAX_KEY>,
    /// Whether the code points are a key.
    pub found: bool,
}

// Code points that may grow to a longer key of any set.
#[derive(Drop)]
struct GrowingKey<'k, K: Keys> {
    keys: &'k K,
    points: ArrayVec<char, MAX_KEY>,
}

impl<'k, K: Keys> Growing for GrowingKey<'k, K> {
    ghost Set = { FinSet key_cmp };

    ghost set = { λ g. K.keys g.keys.now };

    ghost is_key = { contains };

    ghost path = { λ g. g.points.items };

    fn same(&self) -> GrowingKey<'k, K> {
        let mut points = ArrayVec::new();
        let _fits = points.try_extend_from_slice(self.points.as_slice());
        GrowingKey {
            keys: self.keys,
            points,
        }
    }

    fn append(&mut self, c: char) -> bool {
        if self.points.len() >= self.keys.longest() {
            return false;
        }
        self.points.push(c);
        true
    }

    fn is_found(&self) -> bool {
        self.keys.has(self.points.as_slice())
    }

    fn is_whole(&self) -> bool {
        false
    }
}

// Moves the first match of a text in NFD to its front (UTS #10, 7.2, step S2.1). What is left of the text
// follows it.
fn match_front<K: Keys>(keys: &K, text: &mut [char]) -> Match
    requires { 0 < length text.old }
    ensures matched { (step (contains (K.keys keys.now)) text.old).matched ≡ match_of result }
    ensures rest { (step (contains (K.keys keys.now)) text.old).rest ≡ drop (length result.key.items) text.new }
    ensures some { 0 < length result.key.items }
    ensures within { length result.key.items ≤ length text.old }
{
    let none = GrowingKey {
        keys,
        points: ArrayVec::new(),
    };
    let mut key = longest_match(none, text);
    let start = key.points.len();
    if start == 0 {
        key.points.push(text[0]);
        return Match {
            key: key.points,
            found: false,
        };
    }
    let _len = extend(&mut key, text, start);
    Match {
        key: key.points,
        found: true,
    }
}

// Appends the matches of a text in NFD, one after the other (UTS #10, 7.2, step S2). Each match is put in order within
// the text, and nothing after its nonstarters is moved.
#[tactic(auto, using(crate::proofs::KeyLemmas::matched))]
fn push_matches<K: Keys>(
    all: &mut Vec<Match>,
    keys: &K,
    text: &mut [char],
) -> Result<(), AllocError>
    ensures { OnOk result (map match_of all.new.items ≡ map match_of all.old.items ++ matches (contains (K.keys keys.now)) text.old) }
{
    let mut at = 0;
    'matches: while at < text.len() {
        let matched = match_front(keys, &mut text[at..]);
        let len = matched.key.len();
        all.push(matched)?;
        at += len;
    }
    Ok(())
}

/// The matches of a text in NFD, one after the other (UTS #10, section 7.2, step S2).
pub fn matches_of_points<K: Keys>(
    alloc: Global,
    keys: &K,
    points: &[char],
) -> Result<Vec<Match>, AllocError>
    ensures { IfOk result (λ v. map match_of v.items ≡ matches (contains (K.keys keys.now)) points.now) }
{
    let mut text = points.to_vec(alloc)?;
    let mut all = Vec::new(alloc);
    push_matches(&mut all, keys, &mut text)?;
    Ok(all)
}

/// The matches of a text by any set of keys, one after the other (UTS #10, sections 7.1 and 7.2, steps S1 and S2).
pub fn matches_of<K: Keys>(alloc: Global, keys: &K, p: &Passage) -> Result<Vec<Match>, AllocError>
    ensures { IfOk result (λ v. map match_of v.items ≡ matches (contains (K.keys keys.now)) (nfd (text_of p.now))) }
{
    let points = nfd_of(alloc, p)?;
    matches_of_points(alloc, keys, &points)
}
