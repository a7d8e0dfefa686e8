// Why the program fails: what it says on stderr before it ends with status 1.
use crate::options::Misuse;
use std::{fmt, io};

#[derive(Debug, Drop)]
pub(crate) enum Failure<'a> {
    // the usage is printed behind this one
    Misuse(Misuse<'a>),
    Arguments(io::Error),
    // the trace by its path
    Trace(&'a str, io::Error),
    StandardInput(io::Error),
    Output(io::Error),
    Commands(io::Error),
}

impl<'a> From<Misuse<'a>> for Failure<'a> {
    fn from(misuse: Misuse<'a>) -> Failure<'a> {
        Failure::Misuse(misuse)
    }
}

impl<'a> fmt::Display for Failure<'a> {
    fn fmt<W: fmt::Write>(&self, f: &mut fmt::Formatter<W>) -> fmt::Result {
        match self {
            Failure::Misuse(misuse) => write!(f, "{misuse}"),
            Failure::Arguments(why) => write!(f, "cannot read the arguments: {why}"),
            Failure::Trace(path, why) => write!(f, "cannot read {path}: {why}"),
            Failure::StandardInput(why) => write!(f, "cannot read standard input: {why}"),
            Failure::Output(why) => write!(f, "cannot write: {why}"),
            Failure::Commands(why) => write!(f, "cannot go on: {why}"),
        }
    }
}
