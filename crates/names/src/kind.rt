// Quantifiers that Z3 named itself, as `name!number`.
ghost use Rattle.std.specs.Prelude.{◌≡◌};
ghost use Rattle.words.specs.Joined.{joined_text};
ghost use Rattle.names.specs.QuantKinds.{kind_said, quant_kind};

use ids::parse_number;
use words::{Bars, Joined};

// What a quantifier's name says: a name, or the first piece of the name and a number.
#[derive(Clone, Copy)]
pub enum QuantKindParse<'a> {
    Named(Joined<'a>),
    Unnamed { name: Joined<'a>, id: u64 },
}

impl<'a> QuantKindParse<'a> {
    // Splits a name at its `!` signs: where the second piece is a number below 2^64 the quantifier has the first piece and that number.
    pub fn parse(name: Joined<'a>) -> QuantKindParse<'a>
        ensures { kind_said result ≡ quant_kind (joined_text name.entry.bars name.entry.span.now) }
    {
        let span = name.span;
        let Some(first) = span.iter().position(|b| *b == b'!') else {
            return QuantKindParse::Named(name);
        };
        let rest = &span[first + 1..];
        let number = match rest.iter().position(|b| *b == b'!') {
            Some(second) => &rest[..second],
            // the piece would end with the bar
            None if name.bars == Bars::Both => return QuantKindParse::Named(name),
            None => rest,
        };
        match parse_number(number, u64::MAX) {
            Err(_) => QuantKindParse::Named(name),
            Ok(id) => QuantKindParse::Unnamed {
                name: Joined {
                    span: &span[..first],
                    bars: name.bars.without_last(),
                },
                id,
            },
        }
    }
}
