// The readers of all but numbers: the Rust's `Token::src` and `string`, and for its `id` and `annotation` `name`, each
// as two calls. The first writes a copy if one is needed and says where the value is; the second returns that part.
// A token's length becomes a usize by `as`: std has no `From` of u32 for it.

#![tactic(auto)]

ghost use Rattle.std.specs.Prelude.{[]};
ghost use Rattle.wat_values.specs.Values.{Reader};
ghost use Rattle.wat_values.specs.Reading.{Read, ReadsName};

use lex_classes::Table;
use wat::{Refused, Token, TokenKind};
use wat_values::{Name, Part};

// A token's own bytes: the reader of any kind. It never copies.
#[tactic(auto, using(crate::proofs::ReadLaws::sources))]
pub fn src(text: &[u8], token: Token) -> Result<Option<Part>, Refused>
    ensures { Read Reader.src text.now token [] result [] }
{
    let t = Table::new();
    read_token::present(text, token, &t)?;
    Ok(Some(Part::Text {
        start: token.offset,
        len: token.len as usize,
    }))
}

// The bytes that a string stands for.
#[tactic(auto, using(crate::proofs::ReadLaws::strings))]
pub fn string(text: &[u8], token: Token, buffer: &mut [u8]) -> Result<Option<Part>, Refused>
    ensures { Read Reader.string text.now token buffer.old result buffer.new }
{
    let t = Table::new();
    read_token::taken(text, token, TokenKind::String, &t)?;
    let offset = token.offset;
    let len = token.len as usize;
    read_names::quoted(text, offset, len, buffer, &t)
}

// The name of an id, after its `$`, or of an annotation, after its `@`, and which of the two it is.
#[tactic(auto, using(crate::proofs::ReadLaws::names))]
pub fn name(text: &[u8], token: Token, buffer: &mut [u8]) -> Result<Name, Refused>
    ensures { ReadsName text.now token buffer.old result buffer.new }
{
    let t = Table::new();
    let kind = read_token::name_kind(text, token, &t)?;
    let offset = token.offset;
    let len = token.len as usize;
    read_names::name(text, offset, len, kind, buffer, &t)
}
