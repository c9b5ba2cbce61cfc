ghost use Rattle.std.specs.Prelude.{◌≡◌, None, Some, IfOk, is_some, option_map};
ghost use Rattle.std.specs.Arc.{arc_value};

use crate::bounds::{BoundsSize, put_bounds, put_packed_bounds};
use crate::completeness::completeness_of;
use crate::digest::digest_of;
use crate::faults::{BoundsFault, CompareFault, FingerprintFault, KeyFault, OpenFault, ShareFault};
use crate::handle::Handle;
use crate::keys::{put_key, put_packed_key, put_packed_text_key, put_text_key, write_key_of};
use crate::levels::{Decision, decision_of};
use crate::loose::Loose;
use crate::matches::{ElementForm, MatchForm, MatchesSize, put_matches};
use crate::opened::Opened;
use crate::opening::table_of;
use crate::texts::order_of;
use std::alloc::{AllocError, Global};
use std::cmp::Ordering;
use std::sync::Arc;
use uca_levels::compare;
use uca_table::Table;
use uca_weights::{Settings, Variable};
use uca_window::Passage;

/// A table that several collators own together.
type Shared = Box<Arc<Opened, Global>, Global>;

/// A share of a table, or none. It is laid out as C lays out a pointer and a `bool`, and zeros are a collator without a
/// table.
#[repr(C)]
pub struct Collator {
    pub(crate) handle: Handle,
    pub(crate) is_open: bool,
    ghost kept: { is_some handle.table ≡ is_open },
}

impl Drop for Collator {
    fn drop(self) {
        let Collator { handle, is_open } = self;
        if is_open {
            let _table = handle.into_loose().into_box();
        }
    }
}

impl Collator {
    ghost use Rattle.uca_window.specs.Passage.{bytes_of, text_of};
    ghost use Rattle.uca_handle.specs.Calls.{Compares, Fingerprints, MakesKey, MakesPackedKey, Opens, PutsBounds, PutsPackedBounds, Shares, WritesKey};
    ghost use Rattle.uca_handle.specs.Collator.{held};
    ghost use Rattle.uca_handle.specs.Completeness.{TellsComplete};
    ghost use Rattle.uca_handle.specs.Levels.{ComparesLevels};
    ghost use Rattle.uca_handle.specs.Matches.{PutsMatches};
    ghost use Rattle.uca_handle.specs.Texts.{text_order};

    /// A collator without a table.
    pub fn closed(alloc: Global) -> Collator
        ensures { held result ≡ None }
    {
        Collator {
            handle: Handle::none(alloc),
            is_open: false,
        }
    }

    fn of(table: Shared) -> Collator
        ensures { result.handle.table ≡ Some table.value }
    {
        Collator {
            handle: Handle::of(Loose::of(table)),
            is_open: true,
        }
    }

    /// Gives the collator the table that two texts say: the first in the format of `allkeys.txt`, and the second rules that
    /// tailor it. It lets go of the table that it has had, or keeps it where the texts say none.
    pub fn load(&mut self, alloc: Global, table: &[u8], rules: &[u8]) -> Result<(), OpenFault>
        ensures { Opens table.now rules.now (held self.old) (held self.new) result }
    {
        let opened = shared(alloc, table_of(alloc, table, rules)?)?;
        *self = Collator::of(opened);
        Ok(())
    }

    /// Lets go of the table. It is freed once no other collator has it.
    pub fn close(&mut self, alloc: Global)
        ensures { held self.new ≡ None }
    {
        *self = Collator::closed(alloc);
    }

    /// Gives another collator the same table. That lets go of the one that it has had, or keeps it where there is none to
    /// share.
    pub fn share(&mut self, alloc: Global, other: &mut Collator) -> Result<(), ShareFault>
        ensures shares { Shares (held self.old) (held other.old) (held other.new) result }
        ensures same { held self.new ≡ held self.old }
    {
        if !self.is_open {
            return Err(ShareFault::Closed);
        }
        let copy = copy_of(alloc, self.handle.get_mut())?;
        *other = Collator::of(copy);
        Ok(())
    }

    /// The order of the sort keys of two texts, or the fault of the first of them that has one. It does not allocate.
    pub fn compare(&mut self, s: Settings, a: &[u8], b: &[u8]) -> Result<Ordering, CompareFault>
        ensures compares { Compares (held self.old) s a.now b.now result }
        ensures same { held self.new ≡ held self.old }
    {
        if !self.is_open {
            return Err(CompareFault::Closed);
        }
        order_of(opened_in(self.handle.get_mut()).table(), s, a, b)
    }

    /// The order of the sort keys of two texts that were checked before, or `None` where the collator has no table. It does not
    /// allocate.
    pub fn compare_texts(&mut self, s: Settings, a: &Passage, b: &Passage) -> Option<Ordering>
        ensures order { result ≡ text_order (held self.old) s (text_of a.now) (text_of b.now) }
        ensures same { held self.new ≡ held self.old }
    {
        if !self.is_open {
            return None;
        }
        Some(compare(opened_in(self.handle.get_mut()).table(), s, a, b))
    }

    /// Puts the sort key of a text into the front of a buffer, or as many of its bytes as fit, and returns how many bytes it
    /// has.
    pub fn sort_key(
        &mut self,
        alloc: Global,
        s: Settings,
        text: &[u8],
        out: &mut [u8],
    ) -> Result<usize, KeyFault>
        ensures key { MakesKey (held self.old) s text.now out.old out.new result }
        ensures same { held self.new ≡ held self.old }
    {
        if !self.is_open {
            return Err(KeyFault::Closed);
        }
        let table = opened_in(self.handle.get_mut()).table();
        put_key(alloc, table, s, text, out)
    }

    /// Puts the packed sort key of a text into the front of a buffer, or as many of its bytes as fit, and returns how many bytes
    /// it has. Packed keys are in the order of the sort keys, and most have less than half the bytes. A packed key cannot be
    /// compared with a sort key. That of a text of at most 127 bytes is made without an allocation.
    pub fn packed_key(
        &mut self,
        alloc: Global,
        s: Settings,
        text: &[u8],
        out: &mut [u8],
    ) -> Result<usize, KeyFault>
        ensures key { MakesPackedKey (held self.old) s text.now out.old out.new result }
        ensures same { held self.new ≡ held self.old }
    {
        if !self.is_open {
            return Err(KeyFault::Closed);
        }
        put_packed_key(alloc, opened_in(self.handle.get_mut()), s, text, out)
    }

    /// Puts the sort key of a text that was checked before into the front of a buffer, as [`Collator::sort_key`] does.
    pub fn sort_key_of(
        &mut self,
        alloc: Global,
        s: Settings,
        text: &Passage,
        out: &mut [u8],
    ) -> Result<usize, KeyFault>
        ensures key { MakesKey (held self.old) s (bytes_of text.now) out.old out.new result }
        ensures same { held self.new ≡ held self.old }
    {
        if !self.is_open {
            return Err(KeyFault::Closed);
        }
        let table = opened_in(self.handle.get_mut()).table();
        put_text_key(alloc, table, s, text, out)
    }

    /// Puts the packed sort key of a text that was checked before into the front of a buffer, as [`Collator::packed_key`] does.
    pub fn packed_key_of(
        &mut self,
        alloc: Global,
        s: Settings,
        text: &Passage,
        out: &mut [u8],
    ) -> Result<usize, KeyFault>
        ensures key { MakesPackedKey (held self.old) s (bytes_of text.now) out.old out.new result }
        ensures same { held self.new ≡ held self.old }
    {
        if !self.is_open {
            return Err(KeyFault::Closed);
        }
        put_packed_text_key(alloc, opened_in(self.handle.get_mut()), s, text, out)
    }

    /// Writes the sort key of a text into the front of a buffer, or as many of its bytes as fit, and returns how many bytes it
    /// has. It does not allocate. The text is read once for each level.
    pub fn write_key(&mut self, s: Settings, text: &[u8], out: &mut [u8]) -> Result<usize, KeyFault>
        ensures key { WritesKey (held self.old) s text.now out.old out.new result }
        ensures same { held self.new ≡ held self.old }
    {
        if !self.is_open {
            return Err(KeyFault::Closed);
        }
        write_key_of(opened_in(self.handle.get_mut()).table(), s, text, out)
    }

    /// Puts the two ends of the keys of all texts whose primary weights begin with those of a text into the fronts of two buffers,
    /// or as many of their bytes as fit. Returns how many bytes the ends have, and whether the text is complete. The keys, of
    /// whatever strength, are from the lower end up to the upper one.
    pub fn prefix_bounds(
        &mut self,
        alloc: Global,
        v: Variable,
        text: &[u8],
        lower: &mut [u8],
        upper: &mut [u8],
    ) -> Result<BoundsSize, BoundsFault>
        ensures bounds { PutsBounds (held self.old) v text.now lower.old lower.new upper.old upper.new result }
        ensures same { held self.new ≡ held self.old }
    {
        if !self.is_open {
            return Err(BoundsFault::Closed);
        }
        let table = opened_in(self.handle.get_mut()).table();
        put_bounds(alloc, table, v, text, lower, upper)
    }

    /// The same of packed keys: the packed keys of all texts whose primary weights begin with those of the text, of whatever
    /// strength, are from the lower end up to the upper one.
    pub fn packed_prefix_bounds(
        &mut self,
        alloc: Global,
        v: Variable,
        text: &[u8],
        lower: &mut [u8],
        upper: &mut [u8],
    ) -> Result<BoundsSize, BoundsFault>
        ensures bounds { PutsPackedBounds (held self.old) v text.now lower.old lower.new upper.old upper.new result }
        ensures same { held self.new ≡ held self.old }
    {
        if !self.is_open {
            return Err(BoundsFault::Closed);
        }
        let opened = opened_in(self.handle.get_mut());
        put_packed_bounds(alloc, opened, v, text, lower, upper)
    }

    /// Whether a text is complete: then every text that begins with it has its keys between the ends that
    /// [`Collator::prefix_bounds`] puts, and its packed keys between those of [`Collator::packed_prefix_bounds`]. It does not allocate.
    pub fn is_complete(&mut self, text: &[u8]) -> Result<bool, KeyFault>
        ensures complete { TellsComplete (held self.old) text.now result }
        ensures same { held self.new ≡ held self.old }
    {
        if !self.is_open {
            return Err(KeyFault::Closed);
        }
        completeness_of(opened_in(self.handle.get_mut()).table(), text)
    }

    /// The SHA-256 digest of what sort keys depend on: the canonical text of the table, the settings, and the version of
    /// Unicode by which texts are decomposed. Keys of equal fingerprints can be compared.
    pub fn fingerprint(&mut self, alloc: Global, s: Settings) -> Result<[u8; 32], FingerprintFault>
        ensures digest { Fingerprints (held self.old) s result }
        ensures same { held self.new ≡ held self.old }
    {
        if !self.is_open {
            return Err(FingerprintFault::Closed);
        }
        digest_of(alloc, opened_in(self.handle.get_mut()).table(), s)
    }

    /// The order of the sort keys of two texts, with the level that decides it, or the fault of the first of them that has one. It
    /// does not allocate. Both texts are read again for each level, so it takes longer than [`Collator::compare`].
    pub fn compare_levels(
        &mut self,
        s: Settings,
        a: &[u8],
        b: &[u8],
    ) -> Result<Decision, CompareFault>
        ensures compares { ComparesLevels (held self.old) s a.now b.now result }
        ensures same { held self.new ≡ held self.old }
    {
        if !self.is_open {
            return Err(CompareFault::Closed);
        }
        decision_of(opened_in(self.handle.get_mut()).table(), s, a, b)
    }

    /// Puts the matches of a text into the fronts of three arrays, or as many of them as fit, and returns how much it is: the
    /// matches, and one match after the other their code points and their collation elements. The elements of a match are those
    /// that the table has for its code points as a key, or else the implicit ones.
    pub fn matches(
        &mut self,
        alloc: Global,
        text: &[u8],
        matches: &mut [MatchForm],
        points: &mut [u32],
        elements: &mut [ElementForm],
    ) -> Result<MatchesSize, KeyFault>
        ensures matches { PutsMatches (held self.old) text.now matches.old matches.new points.old points.new elements.old elements.new result }
        ensures same { held self.new ≡ held self.old }
    {
        if !self.is_open {
            return Err(KeyFault::Closed);
        }
        let table = opened_in(self.handle.get_mut()).table();
        put_matches(alloc, table, text, matches, points, elements)
    }
}

/// Makes of a table what collators share, with a count of its owners.
fn shared(alloc: Global, t: Table) -> Result<Shared, AllocError>
    ensures { IfOk result (λ b. arc_value b.value ≡ t) }
{
    let counted = Arc::new(alloc, Opened::new(alloc, t)?)?;
    Ok(Box::new(alloc, counted)?)
}

/// One more owner of a table.
fn copy_of(alloc: Global, counted: &Arc<Opened, Global>) -> Result<Shared, AllocError>
    ensures { IfOk result (λ b. arc_value b.value ≡ arc_value counted.now) }
{
    let copy = Arc::try_clone(counted)?;
    Ok(Box::new(alloc, copy)?)
}

/// What an owner has.
fn opened_in(counted: &Arc<Opened, Global>) -> &Opened
    ensures { result.now ≡ arc_value counted.now }
{
    counted
}
