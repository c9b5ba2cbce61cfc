//! What the code of primary weights in packed keys has of each weight, by what a table says of common characters.
#![tactic(auto, using(crate::proofs::CodeSteps::code_steps))]

ghost use Rattle.std.specs.Prelude.{◌≡◌, ◌<◌, ◌≤◌, ◌+◌, ◌-◌, ◌*◌, ◌/◌, ◌%◌, ◌++◌, ◌==◌, ◌||◌, ℕ, false, get_or, length, map, IsTrue, sum_by, OnOk, IfOk};
ghost use Rattle.std.specs.List.{list_all, list_any, range_with_len};
ghost use Rattle.uca_key.specs.PrimaryCode.{PrimaryCode, code_of, first_primary, page_of, past, points_of_ranges, primary_of, slot};
ghost use Rattle.uca_key.specs.WeightCodes.{AreCodes, AreParts, IsCodeOf, IsMadeOf, IsNext, IsNumber, is_range};

use crate::common_characters::{COMMON_RANGES, FIRST_LETTERS, SINGLE_CHARACTERS};
use std::alloc::{AllocError, Global};
use std::marker::Model;
use uca_table::Table;
use uca_weights::Element;

// How many weights there are.
const WEIGHTS: usize = 0x1_0000;

// How many of them have one high byte.
const PAGE: usize = 256;

// How many weights have a lead of their own, and at how many windows begin.
const SINGLES: usize = SINGLE_CHARACTERS.len();

const ANCHORS: usize = FIRST_LETTERS.len();

// The primary weight of the first element.
fn first_primary(elements: &[Element]) -> u16
    ensures { result ≡ first_primary elements.now }
{
    match elements {
        [first, ..] => first.l1,
        [] => 0,
    }
}

// The first primary weight of the text of one character. The table knows the elements of nearly all of them.
fn primary_of(alloc: Global, t: &Table, c: char) -> Result<u16, AllocError>
    ensures { IfOk result (λ w. w ≡ primary_of t.now c) }
{
    if let Some(elements) = t.alone_before(c, "") {
        return Ok(first_primary(elements));
    }
    let mut elements = Vec::new(alloc);
    t.push_elements(alloc, &mut elements, &[c])?;
    Ok(first_primary(elements.as_slice()))
}

// The character of a code point below the surrogates.
fn character(point: u32) -> char
    requires { point < 0xD800 }
    ensures { result ≡ point }
{
    match char::from_u32(point) {
        Some(c) => c,
        None => unreachable!(),
    }
}

// Appends the first primary weights of a range of characters.
fn push_range(
    alloc: Global,
    t: &Table,
    first: u32,
    last: u32,
    weights: &mut Vec<u16>,
) -> Result<(), AllocError>
    requires ordered { first ≤ last }
    requires scalars { last < 0xD800 }
    ensures { OnOk result (weights.new.items ≡ weights.old.items ++ map (primary_of t.now) (range_with_len first (last + 1 - first))) }
{
    for point in first..last + 1 {
        let weight = primary_of(alloc, t, character(point))?;
        weights.push(weight)?;
    }
    Ok(())
}

// The first primary weights of ranges of characters.
fn weights_of_ranges(
    alloc: Global,
    t: &Table,
    ranges: &[(u32, u32)],
) -> Result<Vec<u16>, AllocError>
    requires { IsTrue (list_all is_range ranges.now) }
    ensures { IfOk result (λ v. v.items ≡ map (primary_of t.now) (points_of_ranges ranges.now)) }
{
    let mut weights = Vec::new(alloc);
    for (first, last) in ranges {
        push_range(alloc, t, *first, *last, &mut weights)?;
    }
    Ok(weights)
}

// The first primary weights of characters.
fn weights_of(alloc: Global, t: &Table, characters: &[char]) -> Result<Vec<u16>, AllocError>
    ensures { IfOk result (λ v. v.items ≡ map (primary_of t.now) characters.now) }
{
    let mut weights = Vec::new(alloc);
    for c in characters {
        let weight = primary_of(alloc, t, *c)?;
        weights.push(weight)?;
    }
    Ok(weights)
}

// As many flags, none of them set.
fn unset(alloc: Global, n: usize) -> Result<Vec<bool>, AllocError>
    ensures size { IfOk result (λ v. length v.items ≡ n) }
    ensures flags { IfOk result (λ v. (w : ℕ) → get_or v.items w false ≡ false) }
{
    vec![in alloc; false; n]
}

// Sets the flags of some weights.
fn set_flags(flags: &mut [bool], weights: &[u16])
    requires { length flags.old ≡ 65536 }
    ensures size { length flags.new ≡ 65536 }
    ensures flags { (w : ℕ) → w < 65536 → get_or flags.new w false ≡ (get_or flags.old w false || list_any (λ c. c == w) weights.now) }
{
    for weight in weights {
        flags[*weight as usize] = true;
    }
}

// Of each weight whether it is one of three lists.
fn flags_of(
    alloc: Global,
    some: &[u16],
    others: &[u16],
    more: &[u16],
) -> Result<Vec<bool>, AllocError>
    ensures size { IfOk result (λ v. length v.items ≡ 65536) }
    ensures flags { IfOk result (λ v. (w : ℕ) → w < 65536 → get_or v.items w false ≡ (list_any (λ c. c == w) some.now || list_any (λ c. c == w) others.now || list_any (λ c. c == w) more.now)) }
{
    let mut flags = unset(alloc, WEIGHTS)?;
    set_flags(flags.as_mut_slice(), some);
    set_flags(flags.as_mut_slice(), others);
    set_flags(flags.as_mut_slice(), more);
    Ok(flags)
}

// Whether the weight after this one has another high byte, or one of the two has a flag.
#[inline(always)]
fn is_apart(flags: &[bool], w: usize) -> bool
    requires size { length flags.now ≡ 65536 }
    requires within { w + 1 < 65536 }
    ensures { result ≡ ((w + 1) % 256 == 0 || get_or flags.now w false || get_or flags.now (w + 1) false) }
{
    (w + 1) % PAGE == 0 || flags[w] || flags[w + 1]
}

// Whether a weight is one of these. It looks at each of them, since they are few.
#[inline(always)]
fn has_weight(weights: &[u16], w: u16) -> bool
    ensures { result ≡ list_any (λ c. c == w) weights.now }
{
    let mut found = false;
    for weight in weights {
        found = found || *weight == w;
    }
    found
}

// The number of the lead of a weight, if no weight had one of its own.
fn page_of(w: u16) -> u8
    ensures { result ≡ page_of w }
{
    if w < 0x6C00 {
        return (w / 256) as u8;
    }
    if w < 0xFB00 {
        return 0x6C;
    }
    if w < 0xFC00 { 0x6D } else { 0x6E }
}

// By how much a weight with a lead of its own raises the lead of a weight.
#[inline(always)]
fn past(w: u16, single: u16) -> u8
    ensures value { result ≡ past w single }
    ensures most { result ≤ 2 }
{
    if w < single {
        return 0;
    }
    if w == single { 1 } else { 2 }
}

// The lead of a weight, with these weights that have leads of their own.
#[inline(always)]
fn lead_over(singles: &[u16], w: u16) -> u8
    requires { length singles.now ≤ 12 }
    ensures value { result ≡ 1 + page_of w + sum_by (past w) singles.now }
    ensures most { result ≤ 135 }
{
    let mut lead = 1 + page_of(w);
    for single in singles {
        lead += past(w, *single);
    }
    lead
}

// The number, from 1 on, of the greatest of some weights up to this one, or 0.
fn number_of_greatest(anchors: &[u16], w: u16) -> u8
    requires { length anchors.now < 256 }
    ensures { IsNumber anchors.now w result }
{
    let mut best = 0;
    let mut found = 0;
    let mut number = 0;
    for anchor in anchors {
        number += 1;
        if *anchor <= w && *anchor > best {
            best = *anchor;
            found = number;
        }
    }
    found
}

// The number of the window after a weight outside the one before, or 0 where that stays.
fn next_window(singles: &[u16], anchors: &[u16], w: u16) -> u8
    requires { length anchors.now < 256 }
    ensures { (k : PrimaryCode) → k.singles ≡ singles.now → k.anchors ≡ anchors.now → IsNext k w result }
{
    if has_weight(singles, w) {
        0
    } else {
        number_of_greatest(anchors, w)
    }
}

/// What the code has of a weight.
#[derive(Clone, Copy)]
pub(crate) struct WeightCode {
    /// The number of its slot.
    pub(crate) slot: u16,
    /// Whether it is common, and so alone there.
    pub(crate) common: bool,
    /// Its lead outside the window.
    pub(crate) lead: u8,
    /// Whether it has a byte of its own everywhere.
    pub(crate) single: bool,
    /// The number, from 1 on, of the window after it where it lies outside the one before, or 0 where that stays.
    pub(crate) next: u8,
}

// What a code is made of: of each weight whether it is common, the weights that have a byte of their own everywhere, those at which
// windows begin, of each weight whether it is one of these two, and whether it is any of the three.
#[derive(Clone, Copy)]
struct Parts<'p> {
    commons: &'p [bool],
    singles: &'p [u16],
    anchors: &'p [u16],
    named: &'p [bool],
    any: &'p [bool],
}

// What the code has of a weight in this slot.
fn code_in(parts: Parts, w: u16, number: u16) -> WeightCode
    requires parts { AreParts parts }
    ensures code { (k : PrimaryCode) → IsMadeOf k parts.entry → number ≡ slot k w → IsCodeOf k w result }
    ensures slot { result.slot ≡ number }
{
    WeightCode {
        slot: number,
        common: parts.commons[w as usize],
        lead: lead_over(parts.singles, w),
        single: has_weight(parts.singles, w),
        next: next_window(parts.singles, parts.anchors, w),
    }
}

// What the code has of the weight after this one, of which it has this. That is the same for most weights, and most of it unless one of
// them is named.
#[inline(always)]
fn code_after(parts: Parts, w: u16, code: WeightCode) -> WeightCode
    requires parts { AreParts parts }
    requires within { w + 1 < 65536 }
    requires most { code.slot ≤ w }
    ensures code { (k : PrimaryCode) → IsMadeOf k parts.entry → IsCodeOf k w code → IsCodeOf k (w + 1) result }
    ensures most { result.slot ≤ w + 1 }
{
    let at = w as usize;
    if !is_apart(parts.any, at) {
        return code;
    }
    let number = code.slot + is_apart(parts.commons, at) as u16;
    if is_apart(parts.named, at) {
        return code_in(parts, w + 1, number);
    }
    WeightCode {
        slot: number,
        common: parts.commons[at + 1],
        ..code
    }
}

// The code of each weight.
fn codes_of(alloc: Global, parts: Parts) -> Result<Vec<WeightCode>, AllocError>
    requires { AreParts parts }
    ensures size { IfOk result (λ v. length v.items ≡ 65536) }
    ensures codes { IfOk result (λ v. (k : PrimaryCode) → IsMadeOf k parts.entry → AreCodes k 65536 v.items) }
{
    let mut codes = Vec::with_capacity(alloc, WEIGHTS)?;
    let mut code = code_in(parts, 0, 0);
    codes.push(code)?;
    for w in 0..u16::MAX {
        code = code_after(parts, w, code);
        codes.push(code)?;
    }
    Ok(codes)
}

/// What the code of primary weights under a table has of each weight.
#[derive(Drop)]
pub(crate) struct WeightCodes {
    commons: Vec<u16>,
    singles: [u16; SINGLES],
    anchors: [u16; ANCHORS],
    codes: Vec<WeightCode>,
}

impl Model for WeightCodes {
    ghost use Rattle.uca_key.specs.PrimaryCode.{PrimaryCode};
    ghost use Rattle.uca_key.specs.WeightCodes.{HoldsCodes, coded_code};

    ghost Value = { PrimaryCode };

    ghost coded = { coded_code };

    ghost view = { λ c. record { commons = c.commons.items; singles = c.singles; anchors = c.anchors } };

    ghost invariant = { λ c. HoldsCodes (record { commons = c.commons.items; singles = c.singles; anchors = c.anchors }) c.codes.items };
}

impl WeightCodes {
    /// Makes them. `AllocError`: an allocation was refused.
    pub(crate) fn new(alloc: Global, t: &Table) -> Result<WeightCodes, AllocError>
        ensures { IfOk result (λ k. k ≡ code_of t.now) }
    {
        let commons = weights_of_ranges(alloc, t, &COMMON_RANGES)?;
        let flags = flags_of(alloc, &commons, &[], &[])?;
        let mut singles = [0; SINGLES];
        singles.copy_from_slice(weights_of(alloc, t, &SINGLE_CHARACTERS)?.as_slice());
        let mut anchors = [0; ANCHORS];
        anchors.copy_from_slice(weights_of(alloc, t, &FIRST_LETTERS)?.as_slice());
        let named = flags_of(alloc, &singles, &anchors, &[])?;
        let any = flags_of(alloc, &singles, &anchors, &commons)?;
        let parts = Parts {
            commons: &flags,
            singles: &singles,
            anchors: &anchors,
            named: &named,
            any: &any,
        };
        let codes = codes_of(alloc, parts)?;
        Ok(WeightCodes {
            commons,
            singles,
            anchors,
            codes,
        })
    }

    /// The weights that have a byte of their own in a window.
    pub(crate) fn commons(&self) -> &[u16] {
        &self.commons
    }

    /// The weights that have a byte of their own everywhere.
    pub(crate) fn singles(&self) -> &[u16] {
        &self.singles
    }

    /// The weights at which windows begin.
    pub(crate) fn anchors(&self) -> &[u16]
        ensures same { result.now ≡ self.now.anchors }
        ensures number { length result.now ≡ 27 }
    {
        &self.anchors
    }

    /// What the code has of a weight.
    #[inline(always)]
    pub(crate) fn of(&self, w: u16) -> WeightCode
        ensures { IsCodeOf self.now w result }
    {
        self.codes[w as usize]
    }
}
