ghost use Rattle.std.specs.Prelude.{◌≡◌, ◌==◌, ◌/◌, ◌<◌, ◌≤◌, [], ℕ, length, get_or, if◌then◌else◌, OnOk, IsTrue, IsFalse};
ghost use Rattle.uca_table.specs.Blocks.{IsBlocks, item_at, place};

use std::alloc::{AllocError, Global};

/// How many code points a block has.
pub(crate) const BLOCK: usize = 128;

/// How many blocks all code points make.
pub(crate) const BLOCKS: u32 = 0x2200;

/// An item for each code point, block by block, so that finding and changing one takes constant time. Blocks of code points of which
/// none has an item of its own share the first block of items.
#[derive(Drop)]
pub(crate) struct Blocks<T> {
    /// Of each block of code points, the number of its block of items. Those past the last share the first.
    pub(crate) numbers: Vec<u16>,
    pub(crate) items: Vec<T>,
}

impl<T: Copy> Blocks<T> {
    /// No items. It allocates nothing.
    pub(crate) fn new(alloc: Global) -> Blocks<T>
        ensures numbers { result.numbers.items ≡ [] }
        ensures items { result.items.items ≡ [] }
    {
        Blocks {
            numbers: Vec::new(alloc),
            items: Vec::new(alloc),
        }
    }

    /// The number of a block of items.
    #[inline(always)]
    pub(crate) fn number(&self, block: usize) -> u16
        ensures { result ≡ get_or self.now.numbers.items block 0 }
    {
        self.numbers.get(block).copied().unwrap_or(0)
    }

    /// Whether a block of code points has items of its own.
    #[inline(always)]
    pub(crate) fn has_own(&self, block: usize) -> bool
        ensures own { IsTrue result → 0 < get_or self.now.numbers.items block 0 }
        ensures none { IsFalse result → get_or self.now.numbers.items block 0 ≡ 0 }
    {
        self.number(block) > 0
    }

    /// The item of a code point, where `none` is the one of those that have none of their own.
    #[inline(always)]
    pub(crate) fn get(&self, point: usize, none: T) -> T
        ensures { result ≡ item_at none self.now point }
    {
        self.items
            .get(self.number(point / BLOCK) as usize * BLOCK + point % BLOCK)
            .copied()
            .unwrap_or(none)
    }

    /// Where the item of a code point is.
    pub(crate) fn place(&self, c: char) -> usize
        requires reached { c / 128 < length self.now.numbers.items }
        requires within { place self.now.numbers.items c < length self.now.items.items }
        ensures place { result ≡ place self.now.numbers.items c }
        ensures within { result < length self.now.items.items }
    {
        self.numbers[c as usize / BLOCK] as usize * BLOCK + c as usize % BLOCK
    }

    /// Makes the block of items that blocks of code points without items of their own share.
    fn share(&mut self, none: T) -> Result<(), AllocError>
        requires blocks { IsBlocks none self.old }
        requires copies { (x : T) → T.is_clone none x → x ≡ none }
        ensures blocks { IsBlocks none self.new }
        ensures some { OnOk result (128 ≤ length self.new.items.items) }
        ensures same { (p : ℕ) → item_at none self.new p ≡ item_at none self.old p }
    {
        if self.items.is_empty() {
            self.items.resize(BLOCK, none)?;
        }
        Ok(())
    }

    /// Takes in a block of code points, and those before it.
    fn reach(&mut self, block: usize, none: T) -> Result<(), AllocError>
        requires blocks { IsBlocks none self.old }
        requires within { block < 8704 }
        requires copies { (x : T) → T.is_clone none x → x ≡ none }
        ensures blocks { IsBlocks none self.new }
        ensures reached { OnOk result (block < length self.new.numbers.items) }
        ensures same { (p : ℕ) → item_at none self.new p ≡ item_at none self.old p }
    {
        self.share(none)?;
        if block >= self.numbers.len() {
            self.numbers.resize(block + 1, 0)?;
        }
        Ok(())
    }

    /// Gives a block of code points items of its own.
    pub(crate) fn own(&mut self, block: usize, none: T) -> Result<(), AllocError>
        requires blocks { IsBlocks none self.old }
        requires within { block < length self.old.numbers.items }
        requires copies { (x : T) → T.is_clone none x → x ≡ none }
        ensures blocks { IsBlocks none self.new }
        ensures size { length self.new.numbers.items ≡ length self.old.numbers.items }
        ensures own { OnOk result (0 < get_or self.new.numbers.items block 0) }
        ensures same { (p : ℕ) → item_at none self.new p ≡ item_at none self.old p }
    {
        if self.numbers[block] != 0 {
            return Ok(());
        }
        let before = self.items.len();
        // There are fewer blocks of code points than numbers.
        let Ok(number) = u16::try_from(before / BLOCK) else {
            return Err(AllocError);
        };
        self.items.resize(before + BLOCK, none)?;
        self.numbers[block] = number;
        Ok(())
    }

    /// Changes the item of a code point whose block has its own.
    pub(crate) fn put(&mut self, c: char, item: T)
        requires own { 0 < get_or self.old.numbers.items (c / 128) 0 }
        requires within { place self.old.numbers.items c < length self.old.items.items }
        ensures numbers { self.new.numbers.items ≡ self.old.numbers.items }
        ensures blocks { (none : T) → IsBlocks none self.old → IsBlocks none self.new }
        ensures put { (none : T) → IsBlocks none self.old → (p : ℕ) → item_at none self.new p ≡ (if c == p then item else item_at none self.old p) }
    {
        let at = self.number(c as usize / BLOCK) as usize * BLOCK + c as usize % BLOCK;
        self.items[at] = item;
    }

    /// Makes room for an item of a code point.
    pub(crate) fn make_room(&mut self, c: char, none: T) -> Result<(), AllocError>
        requires blocks { IsBlocks none self.old }
        requires copies { (x : T) → T.is_clone none x → x ≡ none }
        ensures blocks { IsBlocks none self.new }
        ensures own { OnOk result (0 < get_or self.new.numbers.items (c / 128) 0) }
        ensures same { (p : ℕ) → item_at none self.new p ≡ item_at none self.old p }
    {
        let block = c as usize / BLOCK;
        self.reach(block, none)?;
        self.own(block, none)
    }
}
