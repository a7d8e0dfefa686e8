// Reads Z3 traces for a reviewer of visibility rules.
#![tactic(auto)]

mod entering;
mod failure;
mod input;
mod kinds;
mod names_line;
mod options;
mod output;
mod shown;
#[cfg(test)]
mod tests;
mod values;

use failure::Failure;
use options::{Command, USAGE};
use std::process::ExitCode;
use std::{env, io};

fn arguments(rt: &HostRuntime) -> io::Result<Vec<String>> {
    Ok(env::args(rt)?.skip(1).collect(rt.alloc())?)
}

fn obey<'a>(rt: &HostRuntime, words: &[&'a str]) -> Result<(), Failure<'a>> {
    match options::read(words)? {
        // matched: a `map_err` to an error whose lifetime neither argument nor capture names is not covered yet
        Command::Help => match rt.print(USAGE) {
            Err(why) => Err(Failure::Output(why)),
            Ok(()) => Ok(()),
        },
        Command::Kinds(wanted) => kinds::run(rt, wanted),
        Command::Values(wanted) => values::run(rt, wanted),
        Command::Index(wanted) => entering::run(rt, wanted),
    }
}

// Says on stderr why the program fails.
fn tell(rt: &HostRuntime, failure: Failure<'_>) -> ExitCode {
    let _ = eprintln!(rt; "porukeja: {failure}");
    if let Failure::Misuse(_) = failure {
        let _ = rt.eprint(USAGE);
    }
    ExitCode::FAILURE
}

fn run(rt: &HostRuntime) -> io::Result<ExitCode> {
    let arguments = arguments(rt)?;
    let words: Vec<&str> = arguments
        .iter()
        .map(|word| word.as_str())
        .collect(rt.alloc())?;
    match obey(rt, &words) {
        Ok(()) => Ok(ExitCode::SUCCESS),
        Err(failure) => Ok(tell(rt, failure)),
    }
}

fn main(rt: HostRuntime) -> ExitCode {
    match run(&rt) {
        Ok(code) => code,
        Err(why) => tell(&rt, Failure::Arguments(why)),
    }
}
