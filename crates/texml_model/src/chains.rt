//! The chains of a table, found level by level: those without an element, then those of one element, and so on.

ghost use Rattle.std.specs.Prelude.{◌≡◌, ◌<◌, ◌&&◌, length, map, IfOk};
ghost use Rattle.std.specs.Option.{option_map, option_and_then};
ghost use Rattle.std.specs.List.{slice_get};
ghost use Rattle.texml_model.specs.Chain.{may as spec_may, by_one, chain_of, chain_between};
ghost use Rattle.texml_model.specs.Levels.{flag_at, bit_at, holding_with, places_of, chain_list, chain_lists, at, upto, wider, missing};

use std::alloc::{AllocError, Global};
use texml_tree::{Elem, ElementLine};

/// For each parent the chain from it, where there is one.
pub(crate) type Chains = Vec<Option<Vec<Elem>>>;

/// The chains from each parent to one child, or to a text where there is no child.
pub(crate) fn chains_to(
    alloc: Global,
    lines: &[ElementLine],
    holds: &[Vec<bool>],
    child: Option<usize>,
) -> Result<Chains, AllocError>
    requires { length holds.now ≡ length lines.now }
    ensures { IfOk result (λ found. chain_lists found.items ≡ upto (λ p. chain_between (holding_with lines.now holds.now) p child) (length lines.now)) }
{
    let mut found = direct(alloc, lines, holds, child)?;
    let mut left = count_missing(found.as_slice());
    loop {
        let next = widen(alloc, lines, holds, found.as_slice())?;
        let after = count_missing(next.as_slice());
        if after >= left {
            return Ok(found);
        }
        found = next;
        left = after;
    }
}

/// The chains to each element of the table.
pub(crate) fn all_chains(
    alloc: Global,
    lines: &[ElementLine],
    holds: &[Vec<bool>],
) -> Result<Vec<Chains>, AllocError>
    requires { length holds.now ≡ length lines.now }
    ensures { IfOk result (λ all. map (λ found. chain_lists found.items) all.items ≡ upto (λ e. upto (λ p. chain_between (holding_with lines.now holds.now) p (Some e)) (length lines.now)) (length lines.now)) }
{
    let mut all = Vec::new(alloc);
    for elem in 0..lines.len() {
        let found = chains_to(alloc, lines, holds, Some(elem))?;
        all.push(found)?;
    }
    Ok(all)
}

/// The chain from the parent.
pub(crate) fn chain_at(found: &[Option<Vec<Elem>>], parent: usize) -> Option<&[Elem]>
    ensures { option_map (λ chain. places_of chain.now) result ≡ at (chain_lists found.now) parent }
{
    match found.get(parent) {
        None => None,
        Some(chain) => match chain {
            None => None,
            Some(elems) => Some(elems.as_slice()),
        },
    }
}

/// The chain from the parent to the element.
pub(crate) fn chain_to(all: &[Chains], parent: usize, elem: usize) -> Option<&[Elem]>
    ensures { option_map (λ chain. places_of chain.now) result ≡ option_and_then (λ found. at (chain_lists found.items) parent) (slice_get all.now elem) }
{
    match all.get(elem) {
        None => None,
        Some(found) => chain_at(found.as_slice(), parent),
    }
}

/// The chains without an element.
#[tactic(auto, using(crate::proofs::Walk::push_some, crate::proofs::Walk::push_none))]
fn direct(
    alloc: Global,
    lines: &[ElementLine],
    holds: &[Vec<bool>],
    child: Option<usize>,
) -> Result<Chains, AllocError>
    ensures { IfOk result (λ found. chain_lists found.items ≡ upto (chain_of (holding_with lines.now holds.now) child 0) (length lines.now)) }
{
    let mut found = Vec::new(alloc);
    for parent in 0..lines.len() {
        if may(lines, holds, parent, child) {
            found.push(Some(Vec::new(alloc)))?;
        } else {
            found.push(None)?;
        }
    }
    Ok(found)
}

/// The chains with at most one element more.
#[tactic(auto, using(crate::proofs::Walk::upto_push))]
fn widen(
    alloc: Global,
    lines: &[ElementLine],
    holds: &[Vec<bool>],
    found: &[Option<Vec<Elem>>],
) -> Result<Chains, AllocError>
    requires { length found.now ≡ length lines.now }
    ensures { IfOk result (λ next. chain_lists next.items ≡ upto (wider (holding_with lines.now holds.now) (at (chain_lists found.now))) (length lines.now)) }
{
    let mut next = Vec::new(alloc);
    for parent in 0..found.len() {
        let chain = kept_or_found(alloc, lines, holds, found, parent)?;
        next.push(chain)?;
    }
    Ok(next)
}

/// The chain from the parent that was found before, or else one with one element more.
#[tactic(auto, using(crate::proofs::Walk::kept, crate::proofs::Walk::newly_found))]
fn kept_or_found(
    alloc: Global,
    lines: &[ElementLine],
    holds: &[Vec<bool>],
    found: &[Option<Vec<Elem>>],
    parent: usize,
) -> Result<Option<Vec<Elem>>, AllocError>
    requires same_lines { length found.now ≡ length lines.now }
    requires parent { parent < length found.now }
    ensures { IfOk result (λ chain. chain_list chain ≡ wider (holding_with lines.now holds.now) (at (chain_lists found.now)) parent) }
{
    match &found[parent] {
        Some(chain) => {
            let copy = Vec::from_slice(alloc, chain.as_slice())?;
            Ok(Some(copy))
        }
        None => one_more(alloc, lines, holds, found, parent),
    }
}

/// The chain that begins with the first element from which one is found.
#[tactic(auto, using(crate::proofs::Walk::pass_shut, crate::proofs::Walk::pass_none, crate::proofs::Walk::none_left))]
fn one_more(
    alloc: Global,
    lines: &[ElementLine],
    holds: &[Vec<bool>],
    found: &[Option<Vec<Elem>>],
    parent: usize,
) -> Result<Option<Vec<Elem>>, AllocError>
    requires { length found.now ≡ length lines.now }
    ensures { IfOk result (λ chain. chain_list chain ≡ by_one (holding_with lines.now holds.now) (at (chain_lists found.now)) parent) }
{
    for elem in 0..lines.len() {
        if leads(lines, holds, parent, elem) {
            match &found[elem] {
                Some(rest) => {
                    let mut chain = Vec::new(alloc);
                    chain.push(Elem(elem))?;
                    chain.extend_from_slice(rest.as_slice())?;
                    return Ok(Some(chain));
                }
                None => {}
            }
        }
    }
    Ok(None)
}

/// Whether a chain from the parent may begin with the element.
fn leads(lines: &[ElementLine], holds: &[Vec<bool>], parent: usize, elem: usize) -> bool
    ensures { result ≡ ((holding_with lines.now holds.now).opens elem && (holding_with lines.now holds.now).holds parent elem) }
{
    if opens(lines, elem) {
        is_held(holds, parent, elem)
    } else {
        false
    }
}

/// Whether the parent may hold the child itself, or a text.
fn may(lines: &[ElementLine], holds: &[Vec<bool>], parent: usize, child: Option<usize>) -> bool
    ensures { result ≡ spec_may (holding_with lines.now holds.now) parent child }
{
    match child {
        None => takes_text(lines, parent),
        Some(elem) => is_held(holds, parent, elem),
    }
}

/// Whether the element opens by itself.
fn opens(lines: &[ElementLine], elem: usize) -> bool
    ensures { result ≡ flag_at (λ line. line.flags.opens) lines.now elem }
{
    match lines.get(elem) {
        None => false,
        Some(line) => line.flags.opens,
    }
}

/// Whether the element takes texts.
pub(crate) fn takes_text(lines: &[ElementLine], elem: usize) -> bool
    ensures { result ≡ flag_at (λ line. line.flags.text) lines.now elem }
{
    match lines.get(elem) {
        None => false,
        Some(line) => line.flags.text,
    }
}

/// Whether the parent holds the element.
pub(crate) fn is_held(holds: &[Vec<bool>], parent: usize, elem: usize) -> bool
    ensures { result ≡ bit_at holds.now parent elem }
{
    match holds.get(parent) {
        None => false,
        Some(row) => match row.get(elem) {
            None => false,
            Some(held) => *held,
        },
    }
}

/// How many chains are missing.
fn count_missing(found: &[Option<Vec<Elem>>]) -> usize
    ensures { result ≡ missing (chain_lists found.now) }
{
    let mut count = 0;
    for chain in found {
        if chain.is_none() {
            count += 1;
        }
    }
    count
}
