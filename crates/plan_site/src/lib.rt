// The slot plans of a whole site (document 02, A14): whether every repeater's plan is lawful and no two transmissions overlap.
#![tactic(auto)]

ghost use Rattle.std.specs.Prelude.{◌≡◌, not, map};
ghost use Rattle.base_lists.specs.Lists.{all, any};
ghost use Rattle.plan_site.specs.Bytes.{assignment_of, site_in};
ghost use Rattle.plan_site.specs.Site.{IsFirst, is_in_range, has_lawful_plan, transmission, sent_by, overlap, clash, verdict_answer, pair_of};

use plan_slots::SlotPlan;

// The largest number of repeaters on a site.
pub const MAX_REPEATERS: usize = 32;

// What a repeater sends: its rule, level, duration and slots.
#[derive(Clone, Copy, Debug, PartialEq, Eq)]
pub struct Assignment {
    pub rule: u8,
    pub level: u8,
    pub duration: u32,
    pub slots: SlotPlan,
}

// Why a site is refused, with the repeaters that the refusal names, counted from 0.
#[derive(Clone, Copy, Debug, PartialEq, Eq)]
pub enum Rejection {
    // 10.
    OutOfRange,
    // 18.
    Unlawful(usize),
    // 19.
    Overlap(usize, usize),
}

// The number of bytes of one repeater.
pub const SIZE: usize = 9;

// Rule, level, duration in four bytes from the highest on, first, second and third slot.
impl From<&[u8; SIZE]> for Assignment {
    ghost from_gives = { λ b a. a ≡ assignment_of b.now };

    fn from(b: &[u8; SIZE]) -> Assignment {
        Assignment {
            rule: b[0],
            level: b[1],
            duration: u32::from_be_bytes([b[2], b[3], b[4], b[5]]),
            slots: SlotPlan {
                first: b[6],
                second: b[7],
                third: b[8],
            },
        }
    }
}

// Checks a site in bytes. Refused, in this order: bytes that are not whole repeaters, more than 32 repeaters, or a rule, level or duration out of
// range (10); the first unlawful plan (18); the first pair that overlaps (19).
pub fn check_bytes(bytes: &[u8]) -> Result<(), Rejection>
    ensures { verdict_answer result ≡ site_in bytes.now }
{
    let (repeaters, rest) = bytes.as_chunks::<SIZE>();
    if !rest.is_empty() {
        return Err(Rejection::OutOfRange);
    }
    if MAX_REPEATERS < repeaters.len() {
        return Err(Rejection::OutOfRange);
    }
    if !all_in_range(repeaters) {
        return Err(Rejection::OutOfRange);
    }
    if let Some(i) = first_unlawful(repeaters) {
        return Err(Rejection::Unlawful(i));
    }
    first_overlap(repeaters)
}

// Whether rule, level and duration of every repeater are in range.
fn all_in_range(repeaters: &[[u8; SIZE]]) -> bool
    ensures { result ≡ all is_in_range (map assignment_of repeaters.now) }
{
    repeaters.iter().all(|b| is_in_range(Assignment::from(b)))
}

fn is_in_range(b: Assignment) -> bool
    ensures { result ≡ is_in_range b }
{
    plan_rules::is_known(b.rule, b.level) & plan_slots::is_duration(b.duration)
}

// The first repeater whose plan is not lawful.
fn first_unlawful(repeaters: &[[u8; SIZE]]) -> Option<usize>
    ensures { IsFirst (λ b. not (has_lawful_plan b)) (map assignment_of repeaters.now) result }
{
    repeaters
        .iter()
        .position(|b| !is_lawful(Assignment::from(b)))
}

fn is_lawful(b: Assignment) -> bool
    ensures { result ≡ has_lawful_plan b }
{
    plan_rules::is_lawful_by(b.rule, b.level, b.duration, b.slots)
}

// The first pair that overlaps, if any.
fn first_overlap(repeaters: &[[u8; SIZE]]) -> Result<(), Rejection>
    ensures { verdict_answer result ≡ pair_of 0 (map assignment_of repeaters.now) }
{
    for (i, b) in repeaters.iter().enumerate() {
        if let Some(j) = first_clash(Assignment::from(b), &repeaters[i + 1..]) {
            return Err(Rejection::Overlap(i, i + 1 + j));
        }
    }
    Ok(())
}

// The first of some repeaters that overlaps with this one.
fn first_clash(b: Assignment, others: &[[u8; SIZE]]) -> Option<usize>
    ensures { IsFirst (clash b) (map assignment_of others.now) result }
{
    others.iter().position(|c| clashes(b, Assignment::from(c)))
}

// Whether a transmission of one repeater overlaps with one of the other.
fn clashes(b: Assignment, c: Assignment) -> bool
    ensures { result ≡ clash b c }
{
    let p = b.slots;
    let d = b.duration;
    let first = hits(p.first, d, c);
    let second = hits(p.second, d, c);
    if p.third == plan_slots::NO_SLOT {
        return first | second;
    }
    first | (second | hits(p.third, d, c))
}

// Whether a transmission overlaps with one of a repeater.
fn hits(slot: u8, duration: u32, c: Assignment) -> bool
    ensures { result ≡ any (overlap (transmission duration slot)) (sent_by c) }
{
    let p = c.slots;
    let d = c.duration;
    let first = overlaps(slot, duration, p.first, d);
    let second = overlaps(slot, duration, p.second, d);
    if p.third == plan_slots::NO_SLOT {
        return first | second;
    }
    first | (second | overlaps(slot, duration, p.third, d))
}

// Whether each of two transmissions starts before the other ends.
fn overlaps(slot: u8, duration: u32, other: u8, length: u32) -> bool
    ensures { result ≡ overlap (transmission duration slot) (transmission length other) }
{
    let start = plan_slots::SLOT * slot as u64;
    let begin = plan_slots::SLOT * other as u64;
    (start < begin + length as u64) & (begin < start + duration as u64)
}
