// Whether a token that a caller hands in is there, of a kind, a number, and one that has a name.
// A token's length becomes a usize by `as`: std has no `From` of u32 for it.

#![tactic(auto)]

ghost use Rattle.std.specs.Prelude.{◌≡◌, true, OnOk, IfOk, IfErr};
ghost use Rattle.wat_values.specs.Reading.{There};
ghost use Rattle.read_token.specs.Here.{Misses, Untaken, HereNumber, Denied, HereName, Unnamed};

use codes::KindNumber;
use lex_classes::Table;
use lex_entry::Rest;
use wat::{NumberKind, Refusal, Refused, Settings, Token, TokenKind};
use wat_values::{NO_PLACE, NameKind};

// 30.
const NOT_THAT_TOKEN: Refused = Refused {
    refusal: Refusal::NotThatToken,
    place: NO_PLACE,
};

// 31.
pub const NOT_THAT_KIND: Refused = Refused {
    refusal: Refusal::NotThatKind,
    place: NO_PLACE,
};

// Whether a token is there: 1 to 4 at its offset, and 30.
#[tactic(auto, using(crate::proofs::PresentLaws::presents))]
pub fn present(text: &[u8], token: Token, t: &Table) -> Result<(), Refused>
    ensures ok { OnOk result (There text.now token) }
    ensures err { IfErr result (Misses text.now token) }
{
    if alone(text, token, t) {
        return Ok(());
    }
    let rest = lex_entry::enter(text, token.offset)?;
    present_at(&rest, token.kind, token.len, t)
}

// Whether the token is the whole of the text, and a word or a plain string, and so is there: no other check is needed.
fn alone(text: &[u8], token: Token, t: &Table) -> bool
    ensures { result ≡ true → There text.now token }
{
    let n = text.len();
    if token.offset != 0 {
        return false;
    }
    if Token::MAX_TEXT < n {
        return false;
    }
    if token.len as usize != n {
        return false;
    }
    match lex_token::token_alone(text, t) {
        Some(kind) => kind == KindNumber::new(token.kind), // a word each: cheaper than the kinds
        None => false,
    }
}

// 30, where the offset stands: lexing there, leniently, gives another kind or another length, or nothing.
#[tactic(auto, using(crate::proofs::PresentLaws::presents))]
fn present_at(rest: &Rest, kind: TokenKind, len: u32, t: &Table) -> Result<(), Refused>
    ensures ok { OnOk result (There rest.now.text (record { kind = kind; offset = rest.now.at; len = len })) }
    ensures err { IfErr result
        (Misses rest.now.text (record { kind = kind; offset = rest.now.at; len = len })) }
{
    let text = rest.text();
    let offset = rest.at();
    if offset == text.len() {
        return Err(NOT_THAT_TOKEN);
    }
    let Some(step) = lex_token::parse_kind(text, offset, Settings::LENIENT, t) else {
        return Err(NOT_THAT_TOKEN);
    };
    if step.kind.kind() != kind {
        return Err(NOT_THAT_TOKEN);
    }
    if step.end - offset != len as usize {
        return Err(NOT_THAT_TOKEN);
    }
    Ok(())
}

// As `present`, and then 31: its kind is not the one wanted.
#[tactic(auto, using(crate::proofs::KindLaws::takens))]
pub fn taken(text: &[u8], token: Token, wanted: TokenKind, t: &Table) -> Result<(), Refused>
    ensures ok { OnOk result (There text.now token × (token.kind ≡ wanted)) }
    ensures err { IfErr result (Untaken text.now token wanted) }
{
    present(text, token, t)?;
    if token.kind != wanted {
        return Err(NOT_THAT_KIND);
    }
    Ok(())
}

// The kind of a number that is there; else 1 to 4, 30 or 31.
#[tactic(auto, using(crate::proofs::KindLaws::numbers))]
pub fn number_kind(text: &[u8], token: Token, t: &Table) -> Result<NumberKind, Refused>
    ensures ok { IfOk result (HereNumber text.now token) }
    ensures err { IfErr result (Denied text.now token) }
{
    present(text, token, t)?;
    match token.kind {
        TokenKind::Integer(i) => Ok(NumberKind::Integer(i)),
        TokenKind::Float(f) => Ok(NumberKind::Float(f)),
        _ => Err(NOT_THAT_KIND), // no number
    }
}

// Whose name a token that is there has; else 1 to 4, 30 or 31.
#[tactic(auto, using(crate::proofs::KindLaws::names))]
pub fn name_kind(text: &[u8], token: Token, t: &Table) -> Result<NameKind, Refused>
    ensures ok { IfOk result (HereName text.now token) }
    ensures err { IfErr result (Unnamed text.now token) }
{
    present(text, token, t)?;
    match token.kind {
        TokenKind::Id => Ok(NameKind::Id),
        TokenKind::Annotation => Ok(NameKind::Annotation),
        _ => Err(NOT_THAT_KIND),
    }
}
