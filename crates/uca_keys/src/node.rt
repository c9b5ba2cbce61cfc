/// A code point that keys with a common prefix have after that prefix.
#[derive(Clone, Copy, Default)]
pub struct Node {
    pub(crate) point: char,
    /// Where the elements of the key that ends here begin among all elements.
    pub(crate) start: u32,
    /// How many elements that key has. It is 0 where no key ends.
    pub(crate) count: u8,
    /// How many code points come before this one.
    pub(crate) depth: u8,
}
