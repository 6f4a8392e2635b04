// Slot plans under three timing rules (document 02, A10): the standard rule, the compressed rule of source document 000, and the rule with a pause of
// source document 004, 5.1. The search and its theorems are those of `plan_slots`, for any rule.
#![tactic(auto)]

ghost use Rattle.std.specs.Prelude.{◌≡◌};
ghost use Rattle.plan_slots.specs.Plan.{answer_of};
ghost use Rattle.plan_rules.specs.Rules.{IsRuleAndLevel, is_rule_and_level, is_offered, rule_of, plan_by, is_lawful_of, is_lawful_by};

use base_refusal::Refusal;
use plan_slots::{Rule, SlotPlan, SlotRange};

// The rules, by number; PAUSED is the last.
// Kept (code): C hands over the number, `plan_by` and its theorems answer 10 for one that is no rule, and the tables below are indexed by it.
pub const STANDARD: u8 = 0;

pub const COMPRESSED: u8 = 1;

pub const PAUSED: u8 = 2;

// The ranges of the compressed rule at levels 0 and 1, by transmission.
const COMPRESSED_ROW: [SlotRange; 3] = [
    SlotRange { first: 0, last: 1 },
    SlotRange { first: 4, last: 12 },
    SlotRange {
        first: 14,
        last: 22,
    },
];

// The ranges of a level that is not used.
const UNUSED_ROW: [SlotRange; 3] = [plan_slots::EMPTY, plan_slots::EMPTY, plan_slots::EMPTY];

// The ranges of the rule with a pause at level 0, by transmission.
const PAUSED_ROW: [SlotRange; 3] = [PAUSED_FIRST, PAUSED_NEXT, PAUSED_NEXT];

const PAUSED_FIRST: SlotRange = SlotRange { first: 0, last: 0 };

const PAUSED_NEXT: SlotRange = SlotRange { first: 0, last: 39 };

// The ranges of the compressed rule, by the level that is sent, then by transmission.
pub const COMPRESSED_RANGES: [[SlotRange; 3]; 3] = [COMPRESSED_ROW, COMPRESSED_ROW, UNUSED_ROW];

// The ranges of the rule with a pause, by the level that is sent, then by transmission: at levels 1 and 2 the standard ranges.
pub const PAUSED_RANGES: [[SlotRange; 3]; 3] = [
    PAUSED_ROW,
    plan_slots::LEVEL_1,
    plan_slots::LEVEL_2,
];

// By rule, then by the level that is sent, then by transmission.
const RANGES: [[[SlotRange; 3]; 3]; 3] = [plan_slots::RANGES, COMPRESSED_RANGES, PAUSED_RANGES];

// The shortest pause between the end of the first transmission and the start of the second, in microseconds: by rule, then by the level that is sent.
const PAUSES: [[u32; 3]; 3] = [[0, 0, 0], [0, 0, 0], [PAUSE, 0, 0]];

const PAUSE: u32 = 12_000;

// The last end, in microseconds: by rule.
const LAST_ENDS: [u32; 3] = [plan_slots::LAST_END, COMPRESSED_END, PAUSED_END];

const COMPRESSED_END: u32 = 50_000;

const PAUSED_END: u32 = 40_000;

// The rules that have plans, each with its row. At levels 1 and 2, the standard rule and the rule with a pause are the same.
const STANDARD_LEVEL_0: Rule = Rule {
    ranges: plan_slots::LEVEL_0,
    pause: 0,
    end: plan_slots::LAST_END,
};

const STANDARD_LEVEL_1: Rule = Rule {
    ranges: plan_slots::LEVEL_1,
    pause: 0,
    end: plan_slots::LAST_END,
};

const STANDARD_LEVEL_2: Rule = Rule {
    ranges: plan_slots::LEVEL_2,
    pause: 0,
    end: plan_slots::LAST_END,
};

const COMPRESSED_OF_THREE: Rule = Rule {
    ranges: COMPRESSED_ROW,
    pause: 0,
    end: COMPRESSED_END,
};

const PAUSED_OF_TWO: Rule = Rule {
    ranges: [PAUSED_FIRST, PAUSED_NEXT, plan_slots::EMPTY],
    pause: PAUSE,
    end: PAUSED_END,
};

const PAUSED_OF_THREE: Rule = Rule {
    ranges: PAUSED_ROW,
    pause: PAUSE,
    end: PAUSED_END,
};

// How many transmissions may be requested.
#[derive(Clone, Copy, Debug, PartialEq, Eq)]
pub struct Offer {
    pub fewest: u8,
    pub most: u8,
}

const TWO: Offer = Offer { fewest: 2, most: 2 };

const THREE: Offer = Offer { fewest: 3, most: 3 };

const TWO_OR_THREE: Offer = Offer { fewest: 2, most: 3 };

// By rule, then by the level that is sent.
const OFFERS: [[Offer; 3]; 3] = [
    [THREE, TWO, TWO],
    [THREE, THREE, TWO],
    [TWO_OR_THREE, TWO, TWO],
];

// The plan that a draw picks among the lawful ones under a rule, for a number of transmissions. Refused: 10, then 9.
pub fn plan_by(
    rule: u8,
    level: u8,
    transmissions: u8,
    duration: u32,
    draw: u64,
) -> Result<SlotPlan, Refusal>
    ensures { answer_of result ≡ plan_by rule level transmissions duration draw }
{
    if !plan_slots::is_duration(duration) {
        return Err(Refusal::Argument);
    }
    if !is_known(rule, level) {
        return Err(Refusal::Argument);
    }
    if !offers(rule, level, transmissions) {
        return Err(Refusal::Argument);
    }
    plan_slots::choose(rule_of(rule, level, transmissions), duration, draw)
}

// Whether a plan is lawful under a rule, which must have its number of transmissions at this level: two if the third slot is 255, else three. If the
// duration is not 1 to 65,535, no plan is.
pub fn is_lawful_by(rule: u8, level: u8, duration: u32, plan: SlotPlan) -> bool
    ensures { result ≡ is_lawful_by rule level duration plan }
{
    let timed = plan_slots::is_duration(duration);
    if !timed {
        return false;
    }
    if !is_known(rule, level) {
        return false;
    }
    if plan.third == plan_slots::NO_SLOT {
        return is_lawful_of_two(rule, level, duration, plan);
    }
    is_lawful_of_three(rule, level, duration, plan)
}

// The same for two transmissions, for a rule and a level that exist. Each rule is named, because a table would be built again at each call.
fn is_lawful_of_two(rule: u8, level: u8, duration: u32, plan: SlotPlan) -> bool
    requires { IsRuleAndLevel rule level }
    ensures { result ≡ is_lawful_of 2 rule level duration plan }
{
    if rule == COMPRESSED {
        return false;
    }
    if level == 1 {
        return plan_slots::is_lawful(STANDARD_LEVEL_1, duration, plan);
    }
    if level == 2 {
        return plan_slots::is_lawful(STANDARD_LEVEL_2, duration, plan);
    }
    if rule == STANDARD {
        return false;
    }
    plan_slots::is_lawful(PAUSED_OF_TWO, duration, plan)
}

// The same for three.
fn is_lawful_of_three(rule: u8, level: u8, duration: u32, plan: SlotPlan) -> bool
    requires { IsRuleAndLevel rule level }
    ensures { result ≡ is_lawful_of 3 rule level duration plan }
{
    if rule == COMPRESSED {
        if level == 2 {
            return false;
        }
        return plan_slots::is_lawful(COMPRESSED_OF_THREE, duration, plan);
    }
    if level != 0 {
        return false;
    }
    if rule == STANDARD {
        return plan_slots::is_lawful(STANDARD_LEVEL_0, duration, plan);
    }
    plan_slots::is_lawful(PAUSED_OF_THREE, duration, plan)
}

// Whether the rule exists, and the level.
pub fn is_known(rule: u8, level: u8) -> bool
    ensures { result ≡ is_rule_and_level rule level }
{
    (rule <= PAUSED) & (level <= plan_slots::MAX_LEVEL)
}

// Whether this number of transmissions may be requested.
fn offers(rule: u8, level: u8, transmissions: u8) -> bool
    requires { IsRuleAndLevel rule level }
    ensures { result ≡ is_offered rule level transmissions }
{
    let offer = OFFERS[rule as usize][level as usize];
    (offer.fewest..=offer.most).contains(&transmissions)
}

// The rule for a number of transmissions: with two, there is no third.
fn rule_of(rule: u8, level: u8, transmissions: u8) -> Rule
    requires { IsRuleAndLevel rule level }
    ensures { result ≡ rule_of rule level transmissions }
{
    let row = RANGES[rule as usize][level as usize];
    let pause = PAUSES[rule as usize][level as usize];
    let end = LAST_ENDS[rule as usize];
    if transmissions == 2 {
        return Rule {
            ranges: [row[0], row[1], plan_slots::EMPTY],
            pause: pause,
            end: end,
        };
    }
    Rule {
        ranges: [row[0], row[1], row[2]],
        pause: pause,
        end: end,
    }
}
