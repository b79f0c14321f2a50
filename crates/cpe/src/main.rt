//! The program `cpe`: it reads lines from standard input, and writes the answers to standard output.
#![tactic(auto)]

ghost use Rattle.std.specs.Prelude.{◌≡◌, ◌<◌};

use cpe_command::{Engine, StdSink, StdSource, Steps, run};
use std::env;
use std::marker::Brand;
use std::process::ExitCode;
use std::sync::ledger::{Blank, Ledger};

/// The exit status if the system doesn't give the words of the command line, or has no memory for them.
const NO_WORDS: u8 = 7;

fn main(rt: HostRuntime) -> ExitCode {
    let Ok(args) = env::args(&rt) else {
        return ExitCode::from(NO_WORDS);
    };
    let Ok(words) = args.skip(1).collect::<Vec<String>>(rt.alloc()) else {
        return ExitCode::from(NO_WORDS);
    };
    ExitCode::from(status_of::<Brand>(&rt, &words, Blank::new(1)))
}

// Runs the program over the standard streams, and counts looks in a ledger of its own.
fn status_of<L: Ledger>(rt: &HostRuntime, words: &[String], blank: Blank) -> u8
    requires name { blank.name ≡ L.name }
    requires parts { blank.parts ≡ L.parts }
    requires some { 0 < blank.parts }
{
    let mut steps = Steps::<L>::new(blank);
    let mut source = StdSource::new(rt.stdin());
    let mut sink = StdSink::new(rt.stdout());
    let mut engine = Engine::new(rt.alloc());
    let status = run(
        rt.alloc(),
        words,
        &mut source,
        &mut sink,
        &mut engine,
        &mut steps,
    );
    // The process ends here, so the system takes the memory back. To free each row would take a tenth of the time of
    // a long load.
    engine.leave();
    status.number()
}
