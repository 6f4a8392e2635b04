// Slot plans (document 01, "Slot plan"): which 1 ms slots the transmissions of a telegram use.
#![tactic(auto)]

ghost use Rattle.std.specs.Prelude.{◌≡◌, true, ◌≤◌, ℕ, List};
ghost use mathlib.Core.List.{flat_map};
ghost use Rattle.plan_slots.specs.Plan.{answer_of, plan_of, is_duration, slots_in, standard_rule, plans, drawn, lawful, within, is_of_two};
ghost use Rattle.plan_slots.specs.Search.{LooksUp, CountsAtMost, second_follows, third_follows, IsRow, IsThirds, lookup_of, plans_after, plans_from};

use base_refusal::Refusal;

// Slots from first to last; empty if first is above last.
#[derive(Clone, Copy, Debug, PartialEq, Eq)]
pub struct SlotRange {
    pub first: u8,
    pub last: u8,
}

// A timing rule: the range of each transmission, of which the third may be empty; the shortest pause before the second; and the last end, in
// microseconds.
#[derive(Clone, Copy, Debug, PartialEq, Eq)]
pub struct Rule {
    pub ranges: [SlotRange; 3],
    pub pause: u32,
    pub end: u32,
}

// A slot for each transmission; the third is NO_SLOT if the rule has none.
// Kept (code): C hands over 255 as the third slot, and `lawful` and the theorems of specs/Claims.antt speak of this number.
#[derive(Clone, Copy, Debug, PartialEq, Eq)]
pub struct SlotPlan {
    pub first: u8,
    pub second: u8,
    pub third: u8,
}

// The length of a slot, in microseconds.
pub const SLOT: u64 = 1000;

// The third slot of a plan without a third transmission.
pub const NO_SLOT: u8 = 255;

// The range of a transmission that there is not.
pub const EMPTY: SlotRange = SlotRange { first: 1, last: 0 };

// The standard ranges by transmission, for a telegram sent at level 0; at level 1; and at level 2.
pub const LEVEL_0: [SlotRange; 3] = [
    SlotRange { first: 0, last: 0 },
    SlotRange { first: 1, last: 9 },
    SlotRange {
        first: 20,
        last: 39,
    },
];

pub const LEVEL_1: [SlotRange; 3] = [
    SlotRange {
        first: 10,
        last: 19,
    },
    SlotRange {
        first: 20,
        last: 29,
    },
    EMPTY,
];

pub const LEVEL_2: [SlotRange; 3] = [
    SlotRange { first: 0, last: 9 },
    SlotRange {
        first: 20,
        last: 29,
    },
    EMPTY,
];

// The standard ranges, by the level that is sent, then by transmission.
pub const RANGES: [[SlotRange; 3]; 3] = [LEVEL_0, LEVEL_1, LEVEL_2];

// The highest level sent.
pub const MAX_LEVEL: u8 = 2;

// The longest duration, in microseconds.
pub const MAX_DURATION: u32 = 65_535;

// The last end of the standard rule, in microseconds.
pub const LAST_END: u32 = 40_000;

// The plan that a draw picks among the lawful ones, for a level and a duration.
pub fn plan(level: u8, duration: u32, draw: u64) -> Result<SlotPlan, Refusal>
    ensures { answer_of result ≡ plan_of level duration draw }
{
    let allowed = (level <= MAX_LEVEL) & is_duration(duration);
    if !allowed {
        return Err(Refusal::Argument);
    }
    choose(standard_rule(level), duration, draw)
}

// The plan that a draw picks among the lawful ones under a rule. The first search often counts all plans. Then the second search uses an index below
// that count, so it finds a plan.
pub fn choose(rule: Rule, duration: u32, draw: u64) -> Result<SlotPlan, Refusal>
    ensures { answer_of result ≡ drawn (plans rule duration) draw }
{
    match search(rule, duration, draw) {
        Ok(p) => Ok(p),
        Err(n) => {
            if n < 1 {
                return Err(Refusal::NoPlan);
            }
            search(rule, duration, draw % n).map_err(|_| Refusal::NoPlan)
        }
    }
}

// Whether a duration is 1 to 65,535.
pub fn is_duration(duration: u32) -> bool
    ensures { result ≡ is_duration duration }
{
    (1..=MAX_DURATION).contains(&duration)
}

// Whether a plan is lawful under a rule.
pub fn is_lawful(rule: Rule, duration: u32, plan: SlotPlan) -> bool
    ensures { result ≡ lawful rule duration plan }
{
    in_range(rule.ranges[0], plan.first)
        & (in_range(rule.ranges[1], plan.second)
            & (second_follows(rule, duration, plan.first, plan.second)
                & third_follows(rule, duration, plan.second, plan.third)))
}

// The rule of a level, from its row in the table.
fn standard_rule(level: u8) -> Rule
    requires { level ≤ 2 }
    ensures { result ≡ standard_rule level }
{
    let ranges = RANGES[level as usize];
    Rule {
        ranges: ranges,
        pause: 0,
        end: LAST_END,
    }
}

fn in_range(range: SlotRange, slot: u8) -> bool
    ensures { result ≡ within range slot }
{
    (range.first..=range.last).contains(&slot)
}

// Whether a second slot may follow a first.
fn second_follows(rule: Rule, duration: u32, first: u8, second: u8) -> bool
    ensures { result ≡ second_follows rule duration first second }
{
    let ended = SLOT * first as u64 + duration as u64;
    ended + rule.pause as u64 <= SLOT * second as u64
}

// Whether a third slot may follow a second and ends in time; if the rule has no third, only NO_SLOT may.
fn third_follows(rule: Rule, duration: u32, second: u8, third: u8) -> bool
    ensures { result ≡ third_follows rule duration second third }
{
    let range = rule.ranges[2];
    let d = duration as u64;
    let end = rule.end as u64;
    let ended = SLOT * second as u64 + d;
    if range.last < range.first {
        return (third == NO_SLOT) & (ended <= end);
    }
    let start = SLOT * third as u64;
    in_range(range, third) & ((ended <= start) & (start + d <= end))
}

// The lawful plan at index k.
fn search(rule: Rule, duration: u32, k: u64) -> Result<SlotPlan, u64>
    ensures { result ≡ lookup_of (plans rule duration) k }
{
    let firsts = rule.ranges[0];
    search_slots(
        firsts,
        k,
        |first, at|
            ensures { result ≡ lookup_of (plans_from rule duration first) at }
        { search_from(rule, duration, first, at) },
    )
}

// The lawful plan at index k among those with this first slot.
fn search_from(rule: Rule, duration: u32, first: u8, k: u64) -> Result<SlotPlan, u64>
    ensures { result ≡ lookup_of (plans_from rule duration first) k }
{
    if is_of_two(rule) {
        return search_pairs(rule, duration, first, k);
    }
    let seconds = rule.ranges[1];
    search_slots(
        seconds,
        k,
        |second, at|
            ensures { result ≡ lookup_of (plans_after rule duration first second) at }
        { search_after(rule, duration, first, second, at) },
    )
}

// Tries the slots of a range in order: `find` says what it finds at an index among the plans of a slot, or how many plans the slot has.
fn search_slots<F: Fn(u8, u64) -> Result<SlotPlan, u64>>(
    range: SlotRange,
    k: u64,
    find: F,
) -> Result<SlotPlan, u64>
    requires callable { F.IsAlwaysCallable find }
    requires counts { CountsAtMost (F.post find) }
    ensures { (f : ℕ → List SlotPlan) → LooksUp (F.post find) f → result ≡ lookup_of (flat_map f (slots_in range)) k }
{
    let mut passed: u64 = 0;
    for slot in range.first..=range.last {
        match find(slot, k - passed) {
            Ok(p) => {
                return Ok(p);
            }
            Err(n) => {
                passed += n;
            }
        }
    }
    Err(passed)
}

// Whether the rule has no third transmission.
fn is_of_two(rule: Rule) -> bool
    ensures { result ≡ is_of_two rule }
{
    let range = rule.ranges[2];
    range.last < range.first
}

// The same under a rule of two transmissions, without a loop: the second slots that may follow are consecutive.
fn search_pairs(rule: Rule, duration: u32, first: u8, k: u64) -> Result<SlotPlan, u64>
    requires { is_of_two rule ≡ true }
    ensures { result ≡ lookup_of (plans_from rule duration first) k }
{
    let ended = SLOT * first as u64 + duration as u64;
    let run = row(
        rule.ranges[1],
        duration,
        ended + rule.pause as u64,
        rule.end,
    );
    if run.count <= k {
        return Err(run.count);
    }
    let second = (run.first + k) as u8;
    Ok(SlotPlan {
        first: first,
        second: second,
        third: NO_SLOT,
    })
}

// The lawful plan at index k among those with these first two slots.
fn search_after(rule: Rule, duration: u32, first: u8, second: u8, k: u64) -> Result<SlotPlan, u64>
    ensures { result ≡ lookup_of (plans_after rule duration first second) k }
{
    if !second_follows(rule, duration, first, second) {
        return Err(0);
    }
    let run = thirds(rule, duration, second);
    if run.count <= k {
        return Err(run.count);
    }
    let third = (run.first + k) as u8;
    Ok(SlotPlan {
        first: first,
        second: second,
        third: third,
    })
}

// Consecutive slots: how many, and the first.
#[derive(Clone, Copy)]
struct Run {
    first: u64,
    count: u64,
}

// The third slots that may follow a second.
fn thirds(rule: Rule, duration: u32, second: u8) -> Run
    ensures { IsThirds rule duration second result.first result.count }
{
    let ended = SLOT * second as u64 + duration as u64;
    if is_of_two(rule) {
        if ended <= rule.end as u64 {
            return Run {
                first: NO_SLOT as u64,
                count: 1,
            };
        }
        return Run { first: 0, count: 0 };
    }
    row(rule.ranges[2], duration, ended, rule.end)
}

// The slots of a range that start at `from` or later and end by `end`, without a loop: such slots are consecutive.
fn row(range: SlotRange, duration: u32, from: u64, end: u32) -> Run
    requires { from ≤ 10_000_000_000 }
    ensures { IsRow range duration from end result.first result.count }
{
    let d = duration as u64;
    let last = end as u64;
    if last < d {
        return Run { first: 0, count: 0 };
    }
    let low = u64::from(range.first).max((from + 999) / SLOT);
    let high = u64::from(range.last).min((last - d) / SLOT);
    if high < low {
        return Run { first: 0, count: 0 };
    }
    Run {
        first: low,
        count: high + 1 - low,
    }
}
