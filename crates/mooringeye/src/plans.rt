// Slot plans: whether one is lawful under a named rule. The functions that draw plans and check a site are in lib.rt.
ghost use Rattle.std.specs.Prelude.{◌≡◌};
ghost use Rattle.plan_rules.specs.Rules.{is_lawful_by};

use plan_slots::SlotPlan;

// Whether a plan is lawful under a rule, which must have its number of transmissions at this level: two if the third slot is 255, else three.
#[unsafe(no_mangle)]
pub extern "C" fn mooringeye_is_lawful(
    rule: u8,
    level: u8,
    duration: u32,
    first: u8,
    second: u8,
    third: u8,
) -> bool
    ensures { result ≡ is_lawful_by rule level duration (record { first = first; second = second; third = third }) }
{
    plan_rules::is_lawful_by(
        rule,
        level,
        duration,
        SlotPlan {
            first: first,
            second: second,
            third: third,
        },
    )
}
