ghost use Rattle.std.specs.Prelude.{◌≡◌, ◌∷◌, drop, get_or};
ghost use Rattle.uca_model.specs.SortKey.{key_order};
ghost use Rattle.uca_commands.specs.KeyFronts.{IsFront};
ghost use Rattle.uca_commands.specs.KeyPieces.{piece};
ghost use Rattle.uca_commands.specs.LinePlaces.{line_at, no_place};

use std::cmp::Ordering;

/// How many bytes of a key a line has beside it.
pub(crate) const FRONT: usize = 8;

/// Where a line of an input lies, without what ends it.
#[derive(Clone, Copy)]
pub(crate) struct LinePlace {
    pub(crate) start: u32,
    pub(crate) end: u32,
}

/// The lines of an input, with their sort keys: where each line lies, one key after the other, and where each key ends.
#[derive(Clone, Copy)]
pub(crate) struct KeyedLines<'a> {
    pub(crate) input: &'a [u8],
    pub(crate) places: &'a [LinePlace],
    pub(crate) keys: &'a [u8],
    pub(crate) ends: &'a [usize],
}

/// A line and its sort key, by their number. Sixteen bytes, since there are as many as lines.
#[derive(Clone, Copy)]
pub(crate) struct KeyedLine {
    // Eight bytes of the key as a number, those by which lines are sorted next.
    pub(crate) front: u64,
    // The line's number, from 0.
    pub(crate) number: usize,
}

// The byte at a place of a key, zero after its end.
fn digit(key: &[u8], at: usize) -> u8
    ensures { result ≡ get_or key.now at 0 }
{
    match key.get(at) {
        Some(byte) => *byte,
        None => 0,
    }
}

// The first eight bytes of a key as a number, the first byte first.
fn front_of(key: &[u8]) -> u64
    ensures { IsFront 8 key.now result }
{
    let mut front = 0;
    for at in 0..FRONT {
        front = front * 256 + digit(key, at) as u64;
    }
    front
}

// What follows so many bytes, if there is more.
fn bytes_after(bytes: &[u8], count: usize) -> &[u8]
    ensures { result.now ≡ drop count bytes.now }
{
    &bytes[count.min(bytes.len())..]
}

// Where a key ends. There is none of this number: 0.
fn end_of(ends: &[usize], number: usize) -> usize
    ensures { result ≡ get_or ends.now number 0 }
{
    match ends.get(number) {
        Some(end) => *end,
        None => 0,
    }
}

// Where a key starts: at the end of the one before.
fn start_of(ends: &[usize], number: usize) -> usize
    ensures { result ≡ get_or (0 ∷ ends.now) number 0 }
{
    if number == 0 {
        return 0;
    }
    end_of(ends, number - 1)
}

// The bytes from one place to another, as many of them as there are.
fn bytes_between(bytes: &[u8], from: usize, to: usize) -> &[u8]
    ensures { result.now ≡ piece bytes.now from to }
{
    let rest = &bytes[from.min(bytes.len())..];
    &rest[..to.saturating_sub(from).min(rest.len())]
}

// Where the line of this number lies. There is none: an empty one at the start.
fn place_at(places: &[LinePlace], number: usize) -> LinePlace
    ensures { result ≡ get_or places.now number no_place }
{
    match places.get(number) {
        Some(place) => *place,
        None => LinePlace { start: 0, end: 0 },
    }
}

/// The line at a place of an input.
pub(crate) fn line_at(input: &[u8], place: LinePlace) -> &[u8]
    ensures { result.now ≡ line_at input.now place }
{
    bytes_between(input, place.start as usize, place.end as usize)
}

impl<'a> KeyedLines<'a> {
    ghost use Rattle.uca_commands.specs.KeyedLines.{key_of, number_line};

    /// The line.
    pub(crate) fn line(&self, line: KeyedLine) -> &'a [u8]
        ensures { result.now ≡ number_line self.now line.number }
    {
        line_at(self.input, place_at(self.places, line.number))
    }

    /// The sort key.
    fn key(&self, line: KeyedLine) -> &'a [u8]
        ensures { result.now ≡ key_of self.now line }
    {
        bytes_between(
            self.keys,
            start_of(self.ends, line.number),
            end_of(self.ends, line.number),
        )
    }

    /// The line, with the eight bytes of its key after so many.
    pub(crate) fn with_front(&self, line: KeyedLine, depth: usize) -> KeyedLine
        ensures same { result.number ≡ line.number }
        ensures front { IsFront 8 (drop depth (key_of self.now result)) result.front }
    {
        let front = front_of(bytes_after(self.key(line), depth));
        KeyedLine {
            front,
            number: line.number,
        }
    }

    /// The order of the sort keys of two lines.
    pub(crate) fn compare_keys(&self, a: &KeyedLine, b: &KeyedLine) -> Ordering
        ensures { result ≡ key_order (key_of self.now a.now) (key_of self.now b.now) }
    {
        self.key(*a).cmp(self.key(*b))
    }
}
