// The program: reads an input, calls `text_print::step` with each chunk, and writes what it gives. Everything but the reads and the writes is in the
// contract of `text_print::step`. `text_print::print` makes the whole output with the same step.
#![tactic(auto)]

use std::io::{ErrorKind, Read, Write};
use std::process::ExitCode;
use std::{fmt, io};
use text_collect::Session;

// Why a run ended before its input did.
#[derive(Clone, Copy, Debug, PartialEq, Eq)]
pub enum Failure {
    Unread,
    Unwritten,
}

impl fmt::Display for Failure {
    fn fmt<W: fmt::Write>(&self, f: &mut fmt::Formatter<W>) -> fmt::Result {
        match self {
            Failure::Unread => write!(f, "cannot read standard input"),
            Failure::Unwritten => write!(f, "cannot write standard output"),
        }
    }
}

// Runs `collect` on standard input and output. The status is 0, or 1 after a failure, which standard error then says.
pub fn run(rt: &(impl io::Input + Print + Eprint)) -> ExitCode {
    let mut input = rt.reader();
    match run_on(&mut input, &mut io::writer(rt)) {
        Ok(()) => ExitCode::SUCCESS,
        Err(failure) => {
            tell(rt, failure);
            ExitCode::FAILURE
        }
    }
}

// Says on standard error why a run ended.
pub fn tell(rt: &impl Eprint, failure: Failure) {
    let _ = eprintln!(rt; "collect: {failure}");
}

// Runs `collect` on what is read from an input. A proved loop must end, but an input may never end: so the turns are a number that no run uses up.
pub fn run_on<R: Read, W: Write>(input: &mut R, output: &mut W) -> Result<(), Failure> {
    let mut buffer = text_print::chunk_buffer();
    let mut out = text_print::text_buffer();
    let mut s = Session::start();
    let mut kept = 0;
    for _ in 0..u64::MAX {
        match input.read(&mut buffer[kept..]) {
            Ok(n) => {
                let t = text_print::step(s, &mut buffer, kept + n, n == 0, &mut out);
                output
                    .write_all(&out[..t.written])
                    .map_err(|_| Failure::Unwritten)?;
                if t.ended {
                    return Ok(());
                }
                s = t.session;
                kept = t.kept;
            }
            Err(e) => {
                if e.kind() != ErrorKind::Interrupted {
                    return Err(Failure::Unread);
                }
            }
        }
    }
    Ok(())
}
