// Decodes what a C caller passes: settings (a word of bits) and a token (three words). include/thallusweb.h has them.
// A word becomes a usize by `as`: std has no `From` for that.
#![tactic(auto)]

ghost use Rattle.std.specs.Prelude.{◌≡◌, IfSome, IfNone};
ghost use Rattle.c_asked.specs.Asked.{settings_of, Denotes, DenotesNone, Empty, Asks};

use wat::{Settings, Token, TokenKind};

// The settings by a word's bits: 1, confusing characters are allowed; 2, strict digits. Other bits are ignored.
pub fn settings_of(word: u32) -> Settings
    ensures { result ≡ settings_of word }
{
    Settings {
        allow_confusing: word % 2 == 1,
        strict_digits: word / 2 % 2 == 1,
    }
}

// A token of no bytes, which stands in no text.
fn no_token(offset: usize) -> Token
    ensures { Empty offset result }
{
    Token {
        kind: TokenKind::Reserved,
        offset,
        len: 0,
    }
}

// The token whose kind's number, offset and length are these; if there can be none, a token of no bytes at the offset,
// which a reader refuses by 1 to 4 there, or by 30.
pub fn token_of(w: [u64; 3]) -> Token
    ensures { Asks w result }
{
    named(w).unwrap_or(no_token(w[1] as usize))
}

// The token whose kind's number, offset and length are these, if a kind has the number and 32 bits hold the length.
fn named(w: [u64; 3]) -> Option<Token>
    ensures one { IfSome result (Denotes w) }
    ensures none { IfNone result (DenotesNone w) }
{
    let number = u16::try_from(w[0]).ok()?;
    let len = u32::try_from(w[2]).ok()?;
    Some(Token {
        kind: codes::kind_of(number)?,
        offset: w[1] as usize,
        len,
    })
}
