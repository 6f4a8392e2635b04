// The interface for other languages, on plain numbers and bytes; `bin/library` builds what is linked. Each call here is a call of a crate below,
// where the code and its proof are.
// Kept (code): the C interface: the calls answer by numbers.
#![tactic(auto)]

pub mod archive;
pub mod codec;
pub mod collector;
pub mod erp2;
pub mod plans;
pub mod plant;
pub mod report;

ghost use Rattle.std.specs.Prelude.{◌≡◌, ◌≤◌, Err};
ghost use Rattle.base_crc8.specs.Crc8.{crc_of};
ghost use Rattle.plan_slots.specs.Plan.{answer_of, plan_of};
ghost use Rattle.plan_rules.specs.Rules.{plan_by};
ghost use Rattle.plan_site.specs.Site.{verdict_answer};
ghost use Rattle.plan_site.specs.Bytes.{site_in};
ghost use Rattle.mooringeye.specs.Packed.{plan_answer, packed, packed_site, interface_version};

use base_refusal::Refusal;
use plan_site::Rejection;
use plan_slots::SlotPlan;

// The version of the library, which is also that of the header: major x 65,536 + minor x 256 + patch.
#[unsafe(no_mangle)]
pub extern "C" fn mooringeye_version() -> u32
    ensures { result ≡ interface_version }
{
    65_536
}

// The CRC-8 of ERP1 over bytes.
#[unsafe(no_mangle)]
pub extern "C" fn mooringeye_crc8(bytes: &[u8]) -> u8
    ensures { result ≡ crc_of bytes.now }
{
    base_crc8::crc8(bytes)
}

// A slot plan under the standard rule: the number of the answer and the first, second and third slot, one byte each, from the highest byte on.
#[unsafe(no_mangle)]
pub extern "C" fn mooringeye_plan(level: u8, duration: u32, draw: u64) -> u32
    ensures { result ≡ packed (plan_of level duration draw) }
{
    pack_planned(plan_slots::plan(level, duration, draw))
}

// The same under a named rule, for a number of transmissions.
#[unsafe(no_mangle)]
pub extern "C" fn mooringeye_plan_by(
    rule: u8,
    level: u8,
    transmissions: u8,
    duration: u32,
    draw: u64,
) -> u32
    ensures { result ≡ packed (plan_by rule level transmissions duration draw) }
{
    pack_planned(plan_rules::plan_by(rule, level, transmissions, duration, draw))
}

// The check of a site, nine bytes for each repeater: number x 65,536 + repeater x 256 + other.
#[unsafe(no_mangle)]
pub extern "C" fn mooringeye_site(repeaters: &[u8]) -> u32
    ensures { result ≡ packed_site (site_in repeaters.now) }
{
    match plan_site::check_bytes(repeaters) {
        Ok(()) => 0,
        Err(why) => pack_rejection(why),
    }
}

// Why a site is rejected, in the same form.
fn pack_rejection(why: Rejection) -> u32
    requires { ((verdict_answer (Err why)).repeater ≤ 32) × ((verdict_answer (Err why)).other ≤ 32) }
    ensures { result ≡ packed_site (verdict_answer (Err why)) }
{
    match why {
        Rejection::OutOfRange => base_refusal::number(Refusal::Argument) as u32 * 65_536,
        Rejection::Unlawful(i) => {
            base_refusal::number(Refusal::Unlawful) as u32 * 65_536 + i as u32 * 256
        }
        Rejection::Overlap(i, j) => {
            base_refusal::number(Refusal::Overlap) as u32 * 65_536 + i as u32 * 256 + j as u32
        }
    }
}

fn pack_planned(planned: Result<SlotPlan, Refusal>) -> u32
    ensures { result ≡ packed (answer_of planned) }
{
    match planned {
        Ok(p) => pack(0, p),
        Err(e) => {
            let none = SlotPlan {
                first: 0,
                second: 0,
                third: 0,
            };
            pack(base_refusal::number(e), none)
        }
    }
}

fn pack(number: u8, slots: SlotPlan) -> u32
    ensures { result ≡ packed (plan_answer number slots) }
{
    number as u32 * 16_777_216
        + slots.first as u32 * 65_536
        + slots.second as u32 * 256
        + slots.third as u32
}
