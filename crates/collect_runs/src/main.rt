// Runs `collect` on each file that an argument names, under a line with its name.
#![tactic(auto)]

use std::rt::Files;
use std::{env, fs, io};

fn main(rt: HostRuntime) -> io::Result<()> {
    for name in env::args(&rt)?.skip(1) {
        run_file(&rt, name.as_str())?;
    }
    Ok(())
}

fn run_file<R: Files + Print + Eprint>(rt: &R, name: &str) -> io::Result<()> {
    println!(rt; "== {name}")?;
    match fs::open(rt, name) {
        Ok(mut input) => {
            if let Err(failure) = text_driver::run_on(&mut input, &mut io::writer(rt)) {
                text_driver::tell(rt, failure);
            }
            Ok(())
        }
        Err(e) => eprintln!(rt; "{name}: {e}"),
    }
}
