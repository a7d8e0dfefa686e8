// What is read in the lines that make applications and quantifiers.
use crate::shown::{Shown, ShownId, ShownJoined, ShownWords};
use ids::{IdFault, IdText, parse_id};
use names::{Qid, QidFault, QuantKindParse, parse_app_name, parse_qid};
use std::fmt;
use words::Words;

// Why a line has no name. Word 1 stands before the cause, where there is one.
#[derive(Clone, Copy)]
pub(crate) enum LineFault<'a> {
    NoId,
    BadId(&'a [u8], IdFault),
    NoName(IdText<'a>),
    BadName(IdText<'a>, QidFault),
}

impl<'a> fmt::Display for LineFault<'a> {
    fn fmt<W: fmt::Write>(&self, f: &mut fmt::Formatter<W>) -> fmt::Result {
        match *self {
            LineFault::NoId => f.write_str("no identifier"),
            LineFault::BadId(word, fault) => {
                write!(f, "{} is no identifier: it {fault}", Shown(word))
            }
            LineFault::NoName(id) => write!(f, "{} no name", ShownId(id)),
            LineFault::BadName(id, fault) => write!(f, "{} {fault}", ShownId(id)),
        }
    }
}

// The identifier that word 1 of a line reads as, and the words behind it.
fn id_word(line: &[u8]) -> Result<(IdText<'_>, Words<'_>), LineFault<'_>> {
    let mut words = Words::of(line);
    let word = words.nth(1).ok_or(LineFault::NoId)?;
    let id = parse_id(word).map_err(|fault| LineFault::BadId(word, fault))?;
    Ok((id, words))
}

// A `[mk-app]` line: identifier, name, child words. The name is none where it is longer than scratch memory.
#[derive(Clone, Copy)]
pub(crate) struct AppLine<'a> {
    id: IdText<'a>,
    name: Option<&'a [u8]>,
    children: Words<'a>,
}

impl<'a> AppLine<'a> {
    pub(crate) fn read(
        line: &'a [u8],
        scratch: &'a mut [u8],
    ) -> Result<AppLine<'a>, LineFault<'a>> {
        let (id, mut words) = id_word(line)?;
        let name = parse_app_name(&mut words, scratch).ok_or(LineFault::NoName(id))?;
        Ok(AppLine {
            id,
            name: name.text(scratch),
            children: words,
        })
    }
}

impl<'a> fmt::Display for AppLine<'a> {
    fn fmt<W: fmt::Write>(&self, f: &mut fmt::Formatter<W>) -> fmt::Result {
        write!(f, "{} ", ShownId(self.id))?;
        match self.name {
            Some(name) => write!(f, "{}", Shown(name))?,
            None => f.write_str("a name longer than scratch memory")?,
        }
        write!(f, " {}", ShownWords(self.children))
    }
}

// A `[mk-quant]` line: identifier, name with variable count, child words.
#[derive(Clone, Copy)]
pub(crate) struct QuantLine<'a> {
    id: IdText<'a>,
    qid: Qid<'a>,
    children: Words<'a>,
}

impl<'a> QuantLine<'a> {
    pub(crate) fn read(line: &'a [u8], new_style: bool) -> Result<QuantLine<'a>, LineFault<'a>> {
        let (id, mut words) = id_word(line)?;
        let qid = parse_qid(&mut words, new_style).map_err(|fault| LineFault::BadName(id, fault))?;
        Ok(QuantLine {
            id,
            qid,
            children: words,
        })
    }
}

impl<'a> fmt::Display for QuantLine<'a> {
    fn fmt<W: fmt::Write>(&self, f: &mut fmt::Formatter<W>) -> fmt::Result {
        write!(f, "{}", ShownId(self.id))?;
        match QuantKindParse::parse(self.qid.name) {
            QuantKindParse::Named(name) => write!(f, " named {}", ShownJoined(name))?,
            QuantKindParse::Unnamed { name, id } => {
                write!(f, " unnamed {} {id}", ShownJoined(name))?;
            }
        }
        let num_vars = self.qid.num_vars;
        write!(f, " vars={num_vars} {}", ShownWords(self.children))
    }
}
