// Telegrams: their fields read and built, addressed and repeated (document 01, "Subtelegram" and "Repeater step").
#![tactic(auto)]

pub mod addressing;
pub mod fields;
pub mod frame;
pub mod repeater;
