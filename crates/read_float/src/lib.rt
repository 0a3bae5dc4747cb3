// The readers of floats, the Rust's `Token::float`: its parts, one call for each, and whether it is negative.
// A token's length becomes a usize by `as`: std has no `From` of u32 for it.

#![tactic(auto)]

ghost use Rattle.wat_values.specs.declared.FloatPart.TheVariants.{Integral, Fraction, Exponent, Payload};
ghost use Rattle.wat_values.specs.Values.{float};
ghost use Rattle.wat_values.specs.Reading.{Read, ReadsNegative};

use lex_classes::Table;
use wat::{FloatKind, NumberKind, Refusal, Refused, Token};
use wat_values::{FloatPart, NO_PLACE, Part};

// A part of a float, absent where its kind lacks it.
#[tactic(auto, using(crate::proofs::ReadLaws::parts))]
pub fn part(
    text: &[u8],
    token: Token,
    which: FloatPart,
    buffer: &mut [u8],
) -> Result<Option<Part>, Refused>
    ensures { Read (float which) text.now token buffer.old result buffer.new }
{
    let t = Table::new();
    match read_token::number_kind(text, token, &t)? {
        NumberKind::Integer(_) => Err(Refused {
            refusal: Refusal::NotThatKind,
            place: NO_PLACE,
        }),
        NumberKind::Float(kind) => {
            let at = token.offset;
            let end = at + token.len as usize;
            read_parts::float(text, at, end, kind, which, buffer, &t)
        }
    }
}

// The digits before a float's point, with a `-`.
pub fn integral(text: &[u8], token: Token, buffer: &mut [u8]) -> Result<Option<Part>, Refused>
    ensures { Read (float Integral) text.now token buffer.old result buffer.new }
{
    part(text, token, FloatPart::Integral, buffer)
}

// The digits after a float's point, if there are any.
pub fn fraction(text: &[u8], token: Token, buffer: &mut [u8]) -> Result<Option<Part>, Refused>
    ensures { Read (float Fraction) text.now token buffer.old result buffer.new }
{
    part(text, token, FloatPart::Fraction, buffer)
}

// The digits of a float's exponent, with a `-`, if there is one.
pub fn exponent(text: &[u8], token: Token, buffer: &mut [u8]) -> Result<Option<Part>, Refused>
    ensures { Read (float Exponent) text.now token buffer.old result buffer.new }
{
    part(text, token, FloatPart::Exponent, buffer)
}

// The digits after `nan:0x`.
pub fn payload(text: &[u8], token: Token, buffer: &mut [u8]) -> Result<Option<Part>, Refused>
    ensures { Read (float Payload) text.now token buffer.old result buffer.new }
{
    part(text, token, FloatPart::Payload, buffer)
}

// Whether a float is negative. A Normal's sign is in its integral part, and none is answered here.
#[tactic(auto, using(crate::proofs::ReadLaws::signs))]
pub fn float_sign(text: &[u8], token: Token) -> Result<Option<bool>, Refused>
    ensures { ReadsNegative text.now token result }
{
    let t = Table::new();
    match read_token::number_kind(text, token, &t)? {
        NumberKind::Integer(_) => Err(read_token::NOT_THAT_KIND),
        NumberKind::Float(kind) => match kind {
            FloatKind::Inf { negative } => Ok(Some(negative)),
            FloatKind::Nan { negative } => Ok(Some(negative)),
            FloatKind::NanVal {
                negative,
                underscores: _,
            } => Ok(Some(negative)),
            FloatKind::Normal {
                underscores: _,
                hex: _,
            } => Ok(None),
        },
    }
}
