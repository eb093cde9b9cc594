//! Times sums of digits. The variables of a sum of 1,000 terms are fixed one after the other, the sum is asked after each,
//! and all is taken back, round after round; ends that sums imply are asked one by one and all at once; and views are
//! asked whether they keep the sums. It prints counts alone, so that what it prints never changes.
#![tactic(auto)]

mod counts;
mod digits;
mod ends;
mod job;
mod round;
mod views;

use counts::Counts;
use digits::{WIDTH, digit_starts, digit_sum};
use dom_cells::Cells;
use dom_core::{Clause, DomainError};
use ends::count_ends;
use job::{Size, Work};
use round::{go_round, is_whole};
use std::alloc::Global;
use std::process::ExitCode;
use std::{env, io};
use views::count_kept;

/// How many rounds there are.
const ROUNDS: u32 = 100;

/// What the sum of the rounds is at most: 71,000 above the least that it can be.
const BOUND: i64 = -2_183_500;

/// About so many ends are told, without words.
const ENDS: u32 = 30_000;

/// So many terms are walked for views, without words.
const TERMS: u32 = 3_000_000;

/// A work that the words name is done so many times more.
const TIMES: u32 = 20;

fn main(rt: HostRuntime) -> ExitCode {
    let Ok(words) = words_of(&rt) else {
        return ExitCode::FAILURE;
    };
    if tell(&rt, words.as_slice()) {
        return ExitCode::SUCCESS;
    }
    ExitCode::FAILURE
}

/// The words after the program's name.
fn words_of(rt: &HostRuntime) -> io::Result<Vec<String>> {
    let mut words = Vec::new(rt.alloc());
    for word in env::args(rt)?.skip(1) {
        words.push(word)?;
    }
    Ok(words)
}

/// Does the work that the words name, as `rounds` or `visit 300`, or a little of each where there are none, and tells
/// whether that was done.
fn tell(rt: &HostRuntime, words: &[String]) -> bool {
    match words {
        [] => tell_rounds(rt) && tell_all(rt),
        [_] => tell_rounds(rt),
        [work, size, ..] => match (Work::of(work.as_str()), Size::of(size.as_str())) {
            (Some(work), Some(size)) => tell_work(rt, work, size, TIMES),
            _ => false,
        },
    }
}

/// Each work on a sum of each size.
fn tell_all(rt: &HostRuntime) -> bool {
    for size in [Size::Short, Size::Middle, Size::Long] {
        for work in [Work::Next, Work::Visit, Work::Keeps] {
            if !tell_work(rt, work, size, 1) {
                return false;
            }
        }
    }
    true
}

/// The work on a sum of this size, so many times.
fn tell_work(rt: &HostRuntime, work: Work, size: Size, times: u32) -> bool {
    let Ok(count) = counted_work(rt.alloc(), work, size, times) else {
        return false;
    };
    let (terms, name) = (size.terms(), work.name());
    println!(rt; "{terms} terms, {name}: {count}").is_ok()
}

/// What the work on a sum of this size comes to.
fn counted_work(alloc: Global, work: Work, size: Size, times: u32) -> Result<u64, DomainError> {
    let terms = size.terms();
    match work {
        Work::Keeps => Ok(count_kept(alloc, size, (TERMS / terms).saturating_mul(times))?),
        _ => count_ends(alloc, work, size, (ENDS / terms * 2).saturating_mul(times)),
    }
}

/// The rounds of the sum of 1,000 terms.
fn tell_rounds(rt: &HostRuntime) -> bool {
    let Ok(counts) = counted(rt.alloc()) else {
        return false;
    };
    print(rt, &counts).is_ok()
}

/// What the rounds came to.
fn counted(alloc: Global) -> Result<Counts, DomainError> {
    let sum = digit_sum(alloc, WIDTH, BOUND)?;
    let starts = digit_starts(alloc, WIDTH)?;
    let mut cells = Cells::new(alloc, starts.as_slice())?;
    cells.reserve(WIDTH as usize)?;
    let mut out = Clause::new(alloc);
    let mut counts = Counts::default();
    for number in 0..ROUNDS {
        go_round(&sum, &mut cells, number, &mut out, &mut counts)?;
    }
    counts.is_whole = is_whole(&cells);
    Ok(counts)
}

fn print(rt: &impl Print, counts: &Counts) -> io::Result<()> {
    println!(rt; "rounds: {}", counts.rounds)?;
    println!(rt; "narrowings: {}", counts.narrowings)?;
    println!(rt; "boxes that were given up: {}", counts.refuted)?;
    println!(rt; "implied ends: {}", counts.ends)?;
    println!(rt; "literals of reasons: {}", counts.literals)?;
    println!(rt; "the first box again: {}", counts.is_whole)?;
    Ok(())
}
