// Why a call is refused, and the number that a caller sees (document 01, "Numbers a caller sees"). 0 means no refusal.
#![tactic(auto)]

ghost use Rattle.std.specs.Prelude.{◌≡◌};
ghost use Rattle.base_refusal.specs.Number.{number_of, outcome_number};

#[derive(Clone, Copy, Debug, PartialEq, Eq)]
pub enum Refusal {
    // 1: the length is wrong.
    Length,
    // 2: HASH is wrong; it is a sum.
    Sum,
    // 3: addressed inside addressed, or an addressed telegram is to be encapsulated.
    Nested,
    // 4: removal from a plain telegram.
    NotAddressed,
    // 5: an addressed telegram that is built or encapsulated would be longer than 21 bytes.
    TooLong,
    // 6: the output is shorter than the result.
    ShortOutput,
    // 7: the clock went back.
    Late,
    // 8: received is 2^64 - 1.
    Full,
    // 9: no lawful plan.
    NoPlan,
    // 10: an argument is out of its range: setting, level, duration, DATA or RORG.
    Argument,
    // 11: the image or the state is not accepted.
    NotAccepted,
    // 12: a block of an archive does not match.
    Mismatch,
    // 13: HASH is wrong; it is a CRC.
    Crc,
    // 14: the address control of an ERP2 telegram is reserved.
    ReservedAddress,
    // 15: the fields of an ERP2 telegram do not fit its length.
    Misfit,
    // 16: a length that isn't whole blocks, or is more than 2^32 blocks.
    Size,
    // 17: a 257th transmitter of a report.
    Transmitters,
    // 18: the slot plan of a repeater of a site is not lawful.
    Unlawful,
    // 19: transmissions of two repeaters of a site overlap.
    Overlap,
}

// The number of a refusal.
// Kept (code): document 01 and C have the numbers, and the clause and six must-fail edits are of these arms.
pub fn number(r: Refusal) -> u8
    ensures { result ≡ number_of r }
{
    match r {
        Refusal::Length => 1,
        Refusal::Sum => 2,
        Refusal::Nested => 3,
        Refusal::NotAddressed => 4,
        Refusal::TooLong => 5,
        Refusal::ShortOutput => 6,
        Refusal::Late => 7,
        Refusal::Full => 8,
        Refusal::NoPlan => 9,
        Refusal::Argument => 10,
        Refusal::NotAccepted => 11,
        Refusal::Mismatch => 12,
        Refusal::Crc => 13,
        Refusal::ReservedAddress => 14,
        Refusal::Misfit => 15,
        Refusal::Size => 16,
        Refusal::Transmitters => 17,
        Refusal::Unlawful => 18,
        Refusal::Overlap => 19,
    }
}

// The number of an outcome: 0 where the call was done.
pub fn outcome_number(outcome: Result<(), Refusal>) -> u8
    ensures { result ≡ outcome_number outcome }
{
    match outcome {
        Ok(()) => 0,
        Err(why) => number(why),
    }
}
