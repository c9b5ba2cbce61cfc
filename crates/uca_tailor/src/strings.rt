ghost use Rattle.std.specs.Prelude.{◌≡◌, ◌≢◌, ◌++◌, [], ℕ, flat_map, All, IfErr, OnOk, MatchOption, MatchResult};
ghost use Rattle.std.specs.Char.{IsScalar};
ghost use Rattle.unicode_normalization.specs.Forms.{nfd};
ghost use Rattle.uca_model.specs.Rules.{IsString};
ghost use Rattle.uca_model.specs.SafeText.{longest_run};
ghost use Rattle.uca_model.specs.RuleText.{string_of, leading_faults, part_faults, end_faults};
ghost use Rattle.uca_tailor.specs.Strings.{left_of, string_faults, FindsNext, ReadsString, BeginsWith, BeginsAt};
ghost use Rattle.uca_tailor.specs.Faults.{reported_text_cause};

use crate::faults::{RuleCause, RuleFault};
use crate::pieces::{Operator, Piece, next_piece};
use crate::scanner::Scanner;
use std::alloc::Global;
use uca_weights::{MAX_KEY, MAX_RUN};
use unicode_normalization::char::canonical_combining_class;
use unicode_normalization::slice;

/// An operator of the text, and its first byte.
#[derive(Clone, Copy)]
pub(crate) struct Found {
    pub(crate) operator: Operator,
    pub(crate) at: usize,
}

/// A string in NFD, and the operator after it.
#[derive(Drop)]
pub(crate) struct Next {
    pub(crate) string: Vec<char>,
    pub(crate) found: Option<Found>,
}

/// The fault at a byte; on `OutOfMemory`, at none.
pub(crate) fn fault_at(at: usize, cause: RuleCause) -> RuleFault
    ensures cause { result.cause ≡ cause }
    ensures at { MatchOption (reported_text_cause cause) (result.at ≡ 0) (λ _. result.at ≡ at) }
{
    match cause {
        RuleCause::OutOfMemory => RuleFault { at: 0, cause },
        _ => RuleFault { at, cause },
    }
}

/// Goes to the first operator of the text, before which no character may come.
pub(crate) fn first_operator(
    alloc: Global,
    scanner: &mut Scanner<'_>,
) -> Result<Option<Found>, RuleFault>
    ensures next { MatchResult result (λ found. FindsNext leading_faults scanner.old found scanner.new) (λ f. BeginsWith f (flat_map leading_faults (left_of scanner.old).leading)) }
    ensures some { IfErr result (λ _. flat_map leading_faults (left_of scanner.old).leading ≢ []) }
{
    let mut none = Vec::new(alloc);
    'pieces: loop {
        let at = scanner.at();
        match next_piece(scanner, &mut none) {
            Ok(Some(Piece::Skipped)) => {}
            Ok(Some(Piece::Given)) => return Err(fault_at(at, RuleCause::Syntax)),
            Ok(Some(Piece::Operator(operator))) => return Ok(Some(Found { operator, at })),
            Ok(None) => return Ok(None),
            Err(cause) => return Err(fault_at(at, cause)),
        }
    }
}

/// Goes to the next operator, and puts the characters before it after `string`.
fn next_operator(
    scanner: &mut Scanner<'_>,
    string: &mut Vec<char>,
) -> Result<Option<Found>, RuleFault>
    ensures next { MatchResult result (λ found. FindsNext part_faults scanner.old found scanner.new) (λ f. BeginsWith f (flat_map part_faults (left_of scanner.old).leading)) }
    ensures string { OnOk result (string.new.items ≡ string.old.items ++ string_of (left_of scanner.old).leading) }
{
    'pieces: loop {
        let at = scanner.at();
        match next_piece(scanner, string) {
            Ok(Some(Piece::Skipped)) => {}
            Ok(Some(Piece::Given)) => {}
            Ok(Some(Piece::Operator(operator))) => return Ok(Some(Found { operator, at })),
            Ok(None) => return Ok(None),
            Err(cause) => return Err(fault_at(at, cause)),
        }
    }
}

/// The length of the longest run of nonstarters. It shows, too, that the code points are scalar values.
fn longest_run(points: &[char]) -> usize
    ensures value { result ≡ longest_run points.now }
    ensures scalars { All IsScalar points.now }
{
    let mut longest = 0;
    let mut run = 0;
    for c in points {
        if canonical_combining_class(*c) == 0 {
            longest = longest.max(run);
            run = 0;
        } else {
            run += 1;
        }
    }
    longest.max(run)
}

/// The NFD of a string at its end, if rules may have it.
fn ended(alloc: Global, string: &[char]) -> Result<Vec<char>, RuleCause>
    ensures { (at : ℕ) → MatchResult result (λ v. (v.items ≡ nfd string.now) × (IsString v.items) × (end_faults at string.now ≡ [])) (λ cause. BeginsAt at cause (end_faults at string.now)) }
{
    if string.is_empty() {
        return Err(RuleCause::EmptyString);
    }
    let mut points = Vec::new(alloc);
    slice::extend_nfd(&mut points, string)?;
    if longest_run(&points) > MAX_RUN {
        return Err(RuleCause::LongRun);
    }
    if points.len() > MAX_KEY {
        return Err(RuleCause::KeyTooLong);
    }
    Ok(points)
}

/// The string after an operator, which the scan has just passed.
pub(crate) fn read_string(alloc: Global, scanner: &mut Scanner<'_>) -> Result<Next, RuleFault>
    ensures { MatchResult result (λ n. ReadsString scanner.old n.string.items n.found scanner.new) (λ f. BeginsWith f (string_faults scanner.old)) }
{
    let after = scanner.at();
    let mut string = Vec::new(alloc);
    let found = next_operator(scanner, &mut string)?;
    match ended(alloc, &string) {
        Ok(string) => Ok(Next { string, found }),
        Err(cause) => Err(fault_at(after, cause)),
    }
}
