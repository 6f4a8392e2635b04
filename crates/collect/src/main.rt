// The program `collect` (document 01, "Cases"): reads receptions from standard input, and prints their rows and the totals.
#![tactic(auto)]

use std::process::ExitCode;

fn main(rt: HostRuntime) -> ExitCode {
    text_driver::run(&rt)
}
