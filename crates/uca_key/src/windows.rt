// The windows of a code of primary weights, with the bytes of weights that take one byte there.
ghost use Rattle.std.specs.Prelude.{◌≡◌, ◌<◌, ◌≤◌, ◌+◌, ◌-◌, ◌&&◌, ℕ, nat_le, nat_lt, true, false, IfOk, IfSome, length, if◌then◌else◌};
ghost use Rattle.uca_key.specs.PrimaryCode.{PrimaryCode};
ghost use Rattle.uca_key.specs.WeightCodes.{AreFirsts, AreShort, AreWindows, IsAlone, IsPlaced, IsWindow};

use crate::weight_codes::WeightCodes;
use std::alloc::{AllocError, Global};

// How many slots a window has.
const SLOTS: u8 = 119;

// How many weights a window has bytes for. Published tables have all letters below.
const SPAN: usize = 0x5000;

// How many weights begin implicit pairs: those from FB00 to FBFF.
const FIRSTS: usize = 256;

/// A window: the weight at which it begins, with its slot and its lead.
#[derive(Drop)]
pub(crate) struct Window {
    pub(crate) base: u16,
    slot: u16,
    lead: u8,
    // Of each weight below a limit the byte that is all it takes, if it also leaves the window where it is, or zero.
    bytes: Vec<u8>,
    // Of each weight from FB00 on that begins an implicit pair the byte that it has of its own outside the window, or zero.
    first_bytes: [u8; FIRSTS],
}

impl Window {
    /// Of each weight below a limit the byte that is all it takes, if it also leaves the window where it is, or zero.
    #[inline(always)]
    pub(crate) fn bytes(&self) -> &[u8]
        ensures { (k : PrimaryCode) → IsWindow k self.now → AreShort k self.now.base result.now }
    {
        &self.bytes
    }

    /// The byte of a weight that begins an implicit pair, if it has one of its own outside the window.
    #[inline(always)]
    pub(crate) fn first_byte(&self, w: u16) -> Option<u8>
        ensures { (k : PrimaryCode) → IsWindow k self.now → IfSome result (IsAlone true k self.now.base w) }
    {
        if w < 0xFB00 || w > 0xFBFF {
            return None;
        }
        let byte = self.first_bytes[(w - 0xFB00) as usize];
        if byte == 0 { None } else { Some(byte) }
    }

    /// Whether a window has a slot.
    #[inline(always)]
    pub(crate) fn has_slot(&self, slot: u16) -> bool
        ensures { result ≡ (nat_le self.now.slot slot && nat_lt slot (self.now.slot + 119)) }
    {
        let from = self.slot as u32;
        (slot as u32).wrapping_sub(from) < SLOTS as u32
    }

    /// The byte of a slot that it has.
    #[inline(always)]
    pub(crate) fn slot_byte(&self, slot: u16) -> u8
        requires most { self.now.lead ≤ 135 }
        requires from { self.now.slot ≤ slot }
        requires inside { slot < self.now.slot + 119 }
        ensures { result ≡ self.now.lead + 1 + (slot - self.now.slot) }
    {
        self.lead + 1 + (slot - self.slot) as u8
    }

    /// The first byte of a weight outside it, which has this slot and this lead.
    #[inline(always)]
    pub(crate) fn lead_byte(&self, slot: u16, lead: u8) -> u8
        requires { lead ≤ 135 }
        ensures { result ≡ (if nat_lt slot self.now.slot then lead else lead + 119 + 1) }
    {
        if slot < self.slot {
            lead
        } else {
            lead + SLOTS + 1
        }
    }
}

// The byte that is all a weight takes in a window, if it also leaves the window as it is, or zero.
fn own_byte(codes: &WeightCodes, window: &Window, w: u16) -> u8
    requires { IsPlaced codes.now window.now }
    ensures { 0 < result → IsAlone false codes.now window.now.base w result }
{
    if w / 256 == 0xFB {
        return 0;
    }
    let code = codes.of(w);
    if window.has_slot(code.slot) {
        return if code.common {
            window.slot_byte(code.slot)
        } else {
            0
        };
    }
    if code.single {
        return window.lead_byte(code.slot, code.lead);
    }
    0
}

// Puts the bytes of those of some weights that take only one in a window, and that the list has a place for.
fn put_own_bytes(codes: &WeightCodes, window: &Window, weights: &[u16], bytes: &mut [u8])
    requires window { IsPlaced codes.now window.now }
    requires short { AreShort codes.now window.now.base bytes.old }
    ensures { AreShort codes.now window.now.base bytes.new }
{
    for weight in weights {
        let place = *weight as usize;
        if place < bytes.len() {
            bytes[place] = own_byte(codes, window, *weight);
        }
    }
}

// The byte of a weight that begins an implicit pair, if it has one of its own outside the window, or zero.
fn own_first_byte(codes: &WeightCodes, window: &Window, w: u16) -> u8
    requires { IsPlaced codes.now window.now }
    ensures { 0 < result → IsAlone true codes.now window.now.base w result }
{
    let code = codes.of(w);
    if w / 256 != 0xFB || !code.single || window.has_slot(code.slot) {
        return 0;
    }
    window.lead_byte(code.slot, code.lead)
}

// The bytes of the weights that begin implicit pairs.
fn first_bytes_of(codes: &WeightCodes, window: &Window) -> [u8; FIRSTS]
    requires { IsPlaced codes.now window.now }
    ensures { AreFirsts codes.now window.now.base result }
{
    let mut bytes = [0; FIRSTS];
    for w in 0xFB00..0xFC00u16 {
        bytes[(w - 0xFB00) as usize] = own_first_byte(codes, window, w);
    }
    bytes
}

// A list of so many zeros, which say nothing.
fn unknown(alloc: Global, n: usize) -> Result<Vec<u8>, AllocError>
    ensures short { IfOk result (λ v. (k : PrimaryCode) (base : ℕ) → AreShort k base v.items) }
    ensures size { IfOk result (λ v. length v.items ≡ n) }
{
    vec![in alloc; 0; n]
}

// Puts the bytes of all weights of which the code says something. A zero weight, which is left out, has a byte too.
fn put_all(codes: &WeightCodes, window: &Window, bytes: &mut [u8])
    requires window { IsPlaced codes.now window.now }
    requires some { 0 < length bytes.old }
    requires short { AreShort codes.now window.now.base bytes.old }
    ensures { AreShort codes.now window.now.base bytes.new }
{
    put_own_bytes(codes, window, codes.commons(), bytes);
    put_own_bytes(codes, window, codes.singles(), bytes);
    bytes[0] = 1;
}

// The window that begins at a weight.
fn window_at(alloc: Global, codes: &WeightCodes, base: u16) -> Result<Window, AllocError>
    ensures base { IfOk result (λ w. w.base ≡ base) }
    ensures window { IfOk result (IsWindow codes.now) }
{
    let code = codes.of(base);
    let mut window = Window {
        base,
        slot: code.slot,
        lead: code.lead,
        bytes: Vec::new(alloc),
        first_bytes: [0; FIRSTS],
    };
    let mut bytes = unknown(alloc, SPAN)?;
    put_all(codes, &window, bytes.as_mut_slice());
    let first_bytes = first_bytes_of(codes, &window);
    window.bytes = bytes;
    window.first_bytes = first_bytes;
    Ok(window)
}

/// The windows, in the order of the weights at which they begin.
pub(crate) fn windows_of(alloc: Global, codes: &WeightCodes) -> Result<Vec<Window>, AllocError>
    ensures { IfOk result (λ v. AreWindows codes.now v.items) }
{
    let mut windows = Vec::with_capacity(alloc, codes.anchors().len())?;
    for base in codes.anchors() {
        windows.push(window_at(alloc, codes, *base)?)?;
    }
    Ok(windows)
}
