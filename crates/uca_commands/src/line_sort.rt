//! A stable sort of lines by their sort keys: by eight bytes of the keys at a time, which each line has beside it.
ghost use Rattle.std.specs.Prelude.{◌≡◌, ◌*◌, ◌<◌, ◌≤◌, length, map, All, OnOk};
ghost use Rattle.uca_commands.specs.KeyedLines.{number_of};
ghost use Rattle.uca_commands.specs.LineSorting.{IsRun, SharesFront, ShowsFront, SortsByFront, SortsLines};

use crate::keyed_line::{FRONT, KeyedLine, KeyedLines};
use std::alloc::{AllocError, Global};
use std::cmp::Ordering;

// How often lines whose keys begin alike are sorted by eight bytes more.
const ROUNDS: usize = 16;

// Sorts lines by comparing whole keys.
fn sort_whole(alloc: Global, of: &KeyedLines<'_>, lines: &mut [KeyedLine]) -> Result<(), AllocError>
    ensures len { length lines.new ≡ length lines.old }
    ensures sorts { OnOk result (SortsLines of.now lines.old lines.new) }
{
    lines.sort_by(alloc, |a, b| of.compare_keys(a, b))
}

// Sorts lines by the bytes beside them.
fn sort_by_front(alloc: Global, lines: &mut [KeyedLine]) -> Result<(), AllocError>
    ensures len { length lines.new ≡ length lines.old }
    ensures sorts { OnOk result (SortsByFront lines.old lines.new) }
{
    lines.sort_by_key(alloc, |line| line.front)
}

// Takes the eight bytes of each key after so many.
fn take_fronts(of: &KeyedLines<'_>, lines: &mut [KeyedLine], depth: usize)
    ensures same { map number_of lines.new ≡ map number_of lines.old }
    ensures fronts { All (ShowsFront of.now depth) lines.new }
{
    for at in 0..lines.len() {
        lines[at] = of.with_front(lines[at], depth);
    }
}

// How many lines have the same bytes beside them as the first.
fn run_size(lines: &[KeyedLine]) -> usize
    requires { 0 < length lines.now }
    ensures { IsRun lines.now result }
{
    for size in 1..lines.len() {
        if lines[size].front != lines[0].front {
            return size;
        }
    }
    lines.len()
}

// Whether each line comes after the one before it, or each before it. Lines of equal keys do.
fn is_one_run(of: &KeyedLines<'_>, lines: &[KeyedLine]) -> bool {
    lines.is_sorted_by(|a, b| of.compare_keys(a, b) != Ordering::Greater)
        || lines.is_sorted_by(|a, b| of.compare_keys(a, b) == Ordering::Greater)
}

// Sorts lines whose keys have the same bytes up to a round. What is one run is sorted by whole keys at once.
fn sort_round(
    alloc: Global,
    of: &KeyedLines<'_>,
    lines: &mut [KeyedLine],
    round: usize,
) -> Result<(), AllocError>
    requires { SharesFront of.now (8 * round) lines.old }
    ensures len { length lines.new ≡ length lines.old }
    ensures sorts { OnOk result (SortsLines of.now lines.old lines.new) }
{
    if lines.len() < 2 {
        return Ok(());
    }
    if round >= ROUNDS || is_one_run(of, lines) {
        return sort_whole(alloc, of, lines);
    }
    take_fronts(of, lines, FRONT * round);
    sort_by_front(alloc, lines)?;
    let mut from = 0;
    while from < lines.len() {
        let to = from + run_size(&lines[from..]);
        sort_round(alloc, of, &mut lines[from..to], round + 1)?;
        from = to;
    }
    Ok(())
}

/// Sorts lines by their keys. Lines of equal keys stay in the order that they had.
pub(crate) fn sort_lines(
    alloc: Global,
    of: &KeyedLines<'_>,
    lines: &mut [KeyedLine],
) -> Result<(), AllocError>
    ensures len { length lines.new ≡ length lines.old }
    ensures sorts { OnOk result (SortsLines of.now lines.old lines.new) }
{
    sort_round(alloc, of, lines, 0)
}
