// The readers by their numbers. 2 and 3 were those of ids and annotations, which `read_text::name` reads now; no other
// reader gets them.

#![tactic(auto)]

ghost use Rattle.read_call.specs.ByNumber.{Numbered, ReadBy};

use lex_classes::Table;
use wat::{Refusal, Refused, Token};
use wat_values::{FloatPart, NO_PLACE, Part};

// The readers that have a number.
#[derive(Clone, Copy)]
pub enum Reader {
    Src,
    String,
    Digits,
    Float(FloatPart),
}

// A number that no reader has.
#[derive(Clone, Copy)]
pub struct NoReader;

impl TryFrom<u64> for Reader {
    type Error = NoReader;

    ghost try_from_gives = { Numbered };

    #[tactic(auto, using(crate::proofs::NumberedLaws::numbers))]
    fn try_from(number: u64) -> Result<Self, NoReader> {
        match number {
            0 => Ok(Reader::Src),
            1 => Ok(Reader::String),
            4 => Ok(Reader::Digits),
            5 => Ok(Reader::Float(FloatPart::Integral)),
            6 => Ok(Reader::Float(FloatPart::Fraction)),
            7 => Ok(Reader::Float(FloatPart::Exponent)),
            8 => Ok(Reader::Float(FloatPart::Payload)),
            _ => Err(NoReader),
        }
    }
}

// The first call of the reader that has the number; 31 for a number that no reader has.
#[tactic(auto, using(crate::proofs::NumberedLaws::readers_by))]
pub fn read(
    text: &[u8],
    reader: u64,
    token: Token,
    buffer: &mut [u8],
) -> Result<Option<Part>, Refused>
    ensures { ReadBy reader text.now token buffer.old result buffer.new }
{
    let Ok(reader) = Reader::try_from(reader) else {
        let t = Table::new();
        read_token::present(text, token, &t)?;
        return Err(Refused {
            refusal: Refusal::NotThatKind,
            place: NO_PLACE,
        });
    };
    match reader {
        Reader::Src => read_text::src(text, token),
        Reader::String => read_text::string(text, token, buffer),
        Reader::Digits => read_integer::integer(text, token, buffer),
        Reader::Float(part) => read_float::part(text, token, part, buffer),
    }
}
