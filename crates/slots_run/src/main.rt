// Prints how many plans are lawful at each level and for many durations, and what some draws pick. The output must equal that of the second program,
// which lists all plans.
#![tactic(auto)]

use plan_slots::{Rule, SlotPlan};
use std::io;
use std::io::{BufWriter, Write};
use test_io::{field, last_field};

// The durations that are tried, in microseconds: these, every multiple of 250 from 3,000 to 21,000, and those of LONG.
const SHORT: [u32; 8] = [1, 2, 999, 1000, 1001, 1999, 2000, 2001];

const LONG: [u32; 9] = [
    8999, 9001, 14_999, 15_001, 19_999, 20_001, 20_002, 40_000, 65_535,
];

const DRAWS: [u64; 7] = [
    0,
    1,
    2,
    3,
    7,
    12_345_678_901_234_567_890,
    18_446_744_073_709_551_615,
];

fn main(rt: HostRuntime) -> io::Result<()> {
    let mut to = BufWriter::new(rt.alloc(), io::writer(&rt))?;
    run(&mut to)?;
    to.flush()
}

fn run<W: Write>(to: &mut W) -> io::Result<()> {
    durations(to, 0)?;
    durations(to, 1)?;
    durations(to, 2)?;
    drawn(to, 3, 1000, 0)?;
    drawn(to, 0, 0, 0)?;
    drawn(to, 0, 65_536, 0)?;
    drawn(to, 255, 4_294_967_295, 5)
}

fn durations<W: Write>(to: &mut W, level: u8) -> io::Result<()> {
    for duration in SHORT {
        at(to, level, duration)?;
    }
    for i in 12..85 {
        at(to, level, 250 * i)?;
    }
    for duration in LONG {
        at(to, level, duration)?;
    }
    Ok(())
}

// The number of lawful plans, and a line for each draw.
fn at<W: Write>(to: &mut W, level: u8, duration: u32) -> io::Result<()> {
    field(to, level as u64)?;
    field(to, duration as u64)?;
    last_field(to, count(level, duration))?;
    for draw in DRAWS {
        drawn(to, level, duration, draw)?;
    }
    Ok(())
}

// How many of the plans with slots 0 to 39 are lawful; the third may also be 255.
fn count(level: u8, duration: u32) -> u64 {
    if 2 < level {
        return 0;
    }
    let ranges = plan_slots::RANGES[level as usize];
    let rule = Rule {
        ranges,
        pause: 0,
        end: plan_slots::LAST_END,
    };
    (0..65_600)
        .filter(|i| plan_slots::is_lawful(rule, duration, candidate(*i)))
        .count() as u64
}

// The i-th of 40 x 40 x 41 plans.
fn candidate(i: u32) -> SlotPlan {
    let third = i % 41;
    SlotPlan {
        first: (i / 1640 % 40) as u8,
        second: (i / 41 % 40) as u8,
        third: if third < 40 { third as u8 } else { 255 },
    }
}

// The answer to a draw.
fn drawn<W: Write>(to: &mut W, level: u8, duration: u32, draw: u64) -> io::Result<()> {
    field(to, level as u64)?;
    field(to, duration as u64)?;
    field(to, draw)?;
    match plan_slots::plan(level, duration, draw) {
        Ok(p) => answer(to, 0, p),
        Err(e) => {
            let none = SlotPlan {
                first: 0,
                second: 0,
                third: 0,
            };
            answer(to, base_refusal::number(e), none)
        }
    }
}

fn answer<W: Write>(to: &mut W, number: u8, p: SlotPlan) -> io::Result<()> {
    field(to, number as u64)?;
    field(to, p.first as u64)?;
    field(to, p.second as u64)?;
    last_field(to, p.third as u64)
}
