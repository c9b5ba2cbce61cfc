ghost use Rattle.std.specs.Prelude.{◌≡◌, ◌≢◌, ◌≤◌, ◌+◌, ◌==◌, [], false, ℕ, Ok, IfErr, MatchResult, MatchOption, chars, length};
ghost use Rattle.uca_weights.specs.declared.limits.TheConstants.{MAX_RELATIONS};
ghost use Rattle.uca_model.specs.RuleText.{rules_of, no_item, segment_faults, resets, relates};
ghost use Rattle.uca_tailor.specs.Chains.{operator_of};
ghost use Rattle.uca_tailor.specs.Faults.{RefusesText};
ghost use Rattle.uca_tailor.specs.Scan.{ScanState};
ghost use Rattle.uca_tailor.specs.Strings.{segments_from, BeginsWith};
ghost use Rattle.uca_tailor.specs.Parsed.{EndsChain, IsRelationNext, is_expansion, resets_here, after_faults, ReadsRelation, ReadsChain};

use crate::faults::{RuleCause, RuleFault};
use crate::pieces::Operator;
use crate::rules::{Chain, Op, Relation, Rules};
use crate::scanner::Scanner;
use crate::strings::{Found, fault_at, first_operator, read_string};
use std::alloc::Global;
use uca_weights::MAX_RELATIONS;

/// The operator of the next relation of a chain, after this many relations, or `None` at the end of the chain.
fn next_relation(next: Option<Found>, count: usize) -> Result<Option<Op>, RuleFault>
    ensures { MatchResult result (λ op. MatchOption op (EndsChain next) (IsRelationNext next count)) (λ f. (s : ScanState) → BeginsWith f (segment_faults no_item count (segments_from next s))) }
{
    let Some(found) = next else {
        return Ok(None);
    };
    match found.operator {
        Operator::Reset => Ok(None),
        Operator::Relation(op) => {
            if count == MAX_RELATIONS {
                return Err(fault_at(found.at, RuleCause::TooManyRelations));
            }
            Ok(Some(op))
        }
        Operator::LeftOut => Err(fault_at(found.at, RuleCause::LeftOut)),
        Operator::Expansion => Err(fault_at(found.at, RuleCause::Syntax)),
    }
}

/// Whether an expansion follows.
fn is_expansion(found: Option<Found>) -> bool
    ensures { result ≡ is_expansion found }
{
    match found {
        Some(next) => matches!(next.operator, Operator::Expansion),
        None => false,
    }
}

/// Whether an operator begins a chain.
fn is_reset(found: Found) -> bool
    ensures { result ≡ resets_here found.operator }
{
    matches!(found.operator, Operator::Reset)
}

/// A relation whose operator was read, and the operator after it.
fn read_relation(
    alloc: Global,
    scanner: &mut Scanner<'_>,
    op: Op,
) -> Result<(Relation, Option<Found>), RuleFault>
    ensures { MatchResult result
        (λ p. ReadsRelation scanner.old op p.0 p.1 scanner.new)
        (λ f. (n : ℕ) → BeginsWith f (after_faults (relates (operator_of op)) n scanner.old)) }
{
    let item = read_string(alloc, scanner)?;
    if !is_expansion(item.found) {
        let relation = Relation {
            op,
            item: item.string,
            expansion: Vec::new(alloc),
        };
        return Ok((relation, item.found));
    }
    let expansion = read_string(alloc, scanner)?;
    let relation = Relation {
        op,
        item: item.string,
        expansion: expansion.string,
    };
    Ok((relation, expansion.found))
}

/// A chain whose `&` was read, and the operator after it. `count` relations come before it.
fn read_chain(
    alloc: Global,
    scanner: &mut Scanner<'_>,
    count: usize,
) -> Result<(Chain, Option<Found>), RuleFault>
    requires { count ≤ MAX_RELATIONS }
    ensures { MatchResult result
        (λ p. ReadsChain scanner.old count p.0 p.1 scanner.new)
        (λ f. BeginsWith f (after_faults resets count scanner.old)) }
{
    let reset = read_string(alloc, scanner)?;
    let mut relations = Vec::new(alloc);
    let mut next = reset.found;
    while let Some(op) = next_relation(next, count + relations.len())? {
        let (relation, after) = read_relation(alloc, scanner, op)?;
        if relations.push(relation).is_err() {
            return Err(fault_at(0, RuleCause::OutOfMemory));
        }
        next = after;
    }
    let chain = Chain {
        reset: reset.string,
        relations,
    };
    Ok((chain, next))
}

/// The rules that a text states (a profile of UTS #35, Part 5, section 3, Rules), or its first fault. A text without a
/// chain or a fault does not allocate, so it is never refused.
pub fn parse(alloc: Global, text: &str) -> Result<Rules, RuleFault>
    ensures says { MatchResult result (λ r. rules_of (chars text.now) ≡ Ok r) (RefusesText (rules_of (chars text.now))) }
    ensures some { IfErr result (λ _. rules_of (chars text.now) ≢ Ok []) }
{
    let mut scanner = Scanner::new(text);
    let mut next = first_operator(alloc, &mut scanner)?;
    let mut chains = Vec::new(alloc);
    let mut count = 0;
    while let Some(found) = next {
        if !is_reset(found) {
            return Err(fault_at(found.at, RuleCause::Syntax));
        }
        let (chain, after) = read_chain(alloc, &mut scanner, count)?;
        count += chain.relations.len();
        if chains.push(chain).is_err() {
            return Err(fault_at(0, RuleCause::OutOfMemory));
        }
        next = after;
    }
    Ok(Rules { chains })
}
