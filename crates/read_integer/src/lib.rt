// The readers of integers, the Rust's `Token::integer`: a sign, and the digits.
// A token's length becomes a usize by `as`: std has no `From` of u32 for it.

#![tactic(auto)]

ghost use Rattle.wat_values.specs.Values.{Reader};
ghost use Rattle.wat_values.specs.Reading.{Read, ReadsSign};

use lex_classes::Table;
use wat::{NumberKind, Refusal, Refused, Sign, Token};
use wat_values::{NO_PLACE, Part};

// An integer's digits, with a `-`.
#[tactic(auto, using(crate::proofs::ReadLaws::digits))]
pub fn integer(text: &[u8], token: Token, buffer: &mut [u8]) -> Result<Option<Part>, Refused>
    ensures { Read Reader.digits text.now token buffer.old result buffer.new }
{
    let t = Table::new();
    match read_token::number_kind(text, token, &t)? {
        NumberKind::Float(_) => Err(Refused {
            refusal: Refusal::NotThatKind,
            place: NO_PLACE,
        }),
        NumberKind::Integer(kind) => {
            let at = token.offset;
            let end = at + token.len as usize;
            let hex = kind.hex;
            read_parts::whole(text, at, end, hex, kind.underscores, buffer, &t)
        }
    }
}

#[tactic(auto, using(crate::proofs::ReadLaws::signs))]
pub fn integer_sign(text: &[u8], token: Token) -> Result<Sign, Refused>
    ensures { ReadsSign text.now token result }
{
    let t = Table::new();
    match read_token::number_kind(text, token, &t)? {
        NumberKind::Integer(kind) => Ok(kind.sign),
        NumberKind::Float(_) => Err(read_token::NOT_THAT_KIND),
    }
}
