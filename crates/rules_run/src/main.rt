// Prints how many plans are lawful under each timing rule, at each level and for many durations, and what some draws pick. The output must equal that
// of the second program, which lists all plans.
#![tactic(auto)]

ghost use Rattle.std.specs.Prelude.{◌≤◌};

use plan_slots::SlotPlan;
use std::io;
use std::io::{BufWriter, Write};
use test_io::{field, last_field};

// The durations that are tried, in microseconds: near the longest that have a plan, and near multiples of a slot.
const DURATIONS: [u32; 39] = [
    1, 2, 999, 1000, 1001, 1999, 2000, 2001, 2999, 3000, 3001, 4000, 5000, 6000, 7000, 8000, 8999,
    9000, 9001, 10_000, 10_999, 11_000, 11_001, 12_000, 13_000, 13_001, 13_999, 14_000, 14_001,
    15_000, 15_001, 16_000, 19_999, 20_000, 20_001, 28_000, 40_000, 50_000, 65_535,
];

const DRAWS: [u64; 9] = [
    0,
    1,
    2,
    161,
    162,
    350,
    351,
    12_345_678_901_234_567_890,
    18_446_744_073_709_551_615,
];

fn main(rt: HostRuntime) -> io::Result<()> {
    let mut to = BufWriter::new(rt.alloc(), io::writer(&rt))?;
    run(&mut to)?;
    to.flush()
}

fn run<W: Write>(to: &mut W) -> io::Result<()> {
    durations(to, plan_rules::STANDARD, 0, 3)?;
    durations(to, plan_rules::STANDARD, 1, 2)?;
    durations(to, plan_rules::STANDARD, 2, 2)?;
    durations(to, plan_rules::COMPRESSED, 0, 3)?;
    durations(to, plan_rules::COMPRESSED, 1, 3)?;
    durations(to, plan_rules::COMPRESSED, 2, 2)?;
    durations(to, plan_rules::PAUSED, 0, 2)?;
    durations(to, plan_rules::PAUSED, 0, 3)?;
    durations(to, plan_rules::PAUSED, 1, 2)?;
    durations(to, plan_rules::PAUSED, 2, 2)?;
    refused(to)
}

// A rule at a level with a number of transmissions, for every duration.
fn durations<W: Write>(to: &mut W, rule: u8, level: u8, number: u8) -> io::Result<()> {
    for duration in DURATIONS {
        at(to, rule, level, number, duration)?;
    }
    Ok(())
}

// The number of lawful plans, and a line for each draw.
fn at<W: Write>(to: &mut W, rule: u8, level: u8, number: u8, duration: u32) -> io::Result<()> {
    asked(to, rule, level, number, duration)?;
    last_field(to, count(rule, level, number, duration))?;
    for draw in DRAWS {
        drawn(to, rule, level, number, duration, draw)?;
    }
    Ok(())
}

// Calls that are refused for an argument, and one for which there is no plan.
fn refused<W: Write>(to: &mut W) -> io::Result<()> {
    drawn(to, 3, 0, 3, 1000, 0)?;
    drawn(to, 255, 0, 3, 1000, 0)?;
    drawn(to, 0, 3, 3, 1000, 0)?;
    drawn(to, 0, 0, 2, 1000, 0)?;
    drawn(to, 0, 0, 4, 1000, 0)?;
    drawn(to, 0, 1, 3, 1000, 0)?;
    drawn(to, 0, 2, 3, 1000, 0)?;
    drawn(to, 0, 1, 1, 1000, 0)?;
    drawn(to, 1, 0, 2, 1000, 0)?;
    drawn(to, 1, 1, 2, 1000, 0)?;
    drawn(to, 1, 2, 3, 1000, 0)?;
    drawn(to, 1, 2, 0, 1000, 0)?;
    drawn(to, 1, 2, 2, 1000, 5)?;
    drawn(to, 1, 2, 2, 0, 5)?;
    drawn(to, 2, 0, 1, 1000, 0)?;
    drawn(to, 2, 0, 4, 1000, 0)?;
    drawn(to, 2, 0, 0, 1000, 0)?;
    drawn(to, 2, 1, 3, 1000, 0)?;
    drawn(to, 2, 2, 3, 1000, 0)?;
    drawn(to, 2, 0, 2, 0, 0)?;
    drawn(to, 2, 0, 3, 65_536, 0)?;
    drawn(to, 2, 0, 255, 1000, 0)?;
    drawn(to, 255, 255, 255, 4_294_967_295, 18_446_744_073_709_551_615)
}

// How many plans with slots 0 to 39 are lawful; the third is 255 if two transmissions are requested.
fn count(rule: u8, level: u8, number: u8, duration: u32) -> u64 {
    (0..candidates(number))
        .filter(|i| plan_rules::is_lawful_by(rule, level, duration, candidate(number, *i)))
        .count() as u64
}

// How many plans there are to try.
fn candidates(number: u8) -> u32
    ensures { result ≤ 64_000 }
{
    if number == 2 { 1600 } else { 64_000 }
}

// The i-th plan, by first, then second, then third slot.
fn candidate(number: u8, i: u32) -> SlotPlan {
    if number == 2 {
        return SlotPlan {
            first: (i / 40 % 40) as u8,
            second: (i % 40) as u8,
            third: plan_slots::NO_SLOT,
        };
    }
    SlotPlan {
        first: (i / 1600 % 40) as u8,
        second: (i / 40 % 40) as u8,
        third: (i % 40) as u8,
    }
}

// The answer to a draw.
fn drawn<W: Write>(
    to: &mut W,
    rule: u8,
    level: u8,
    number: u8,
    duration: u32,
    draw: u64,
) -> io::Result<()> {
    asked(to, rule, level, number, duration)?;
    field(to, draw)?;
    match plan_rules::plan_by(rule, level, number, duration, draw) {
        Ok(p) => answer(to, 0, p),
        Err(e) => {
            let none = SlotPlan {
                first: 0,
                second: 0,
                third: 0,
            };
            answer(to, base_refusal::number(e), none)
        }
    }
}

fn asked<W: Write>(to: &mut W, rule: u8, level: u8, number: u8, duration: u32) -> io::Result<()> {
    field(to, rule as u64)?;
    field(to, level as u64)?;
    field(to, number as u64)?;
    field(to, duration as u64)
}

fn answer<W: Write>(to: &mut W, number: u8, p: SlotPlan) -> io::Result<()> {
    field(to, number as u64)?;
    field(to, p.first as u64)?;
    field(to, p.second as u64)?;
    last_field(to, p.third as u64)
}
