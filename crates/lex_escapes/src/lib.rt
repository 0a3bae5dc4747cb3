// One element of a string, as the Rust's `parse_str` reads it, with its errors. There is a function for each function
// of wat's model, in the order in which the characters are asked for; `place`, `after` and `len` count from the
// element's first byte.

#![tactic(auto)]

ghost use Rattle.std.specs.Prelude.{◌≡◌, ◌+◌, ◌≤◌, ◌<◌, length, get_or, drop, IfSome, IfNone};
ghost use Rattle.std.proofs.Math.Option.{some, none};
ghost use Rattle.wat.specs.Faults.{fault};
ghost use Rattle.wat.specs.declared.LexError.TheVariants.{UnexpectedEof};
ghost use Rattle.wat.specs.Strings.{escapes};
ghost use Rattle.wat.specs.StringModel as model;
ghost use Rattle.utf8_chars.specs.Decoding.{Decodes};
ghost use Rattle.lex_escapes.specs.Elements.{Says};

use lex_classes::Table;
use utf8_chars::Char;
use wat::{Fault, LexError, Settings};

mod unicode;

// What stands where an element or the closing quote is looked for: an element of so many bytes that stands for a byte
// or for a character; the quote; or a fault, whose position afterwards is past what was consumed.
#[derive(Clone, Copy)]
pub enum Read {
    Byte { value: u8, len: usize },
    Char { value: u32, len: usize },
    Quote,
    Refused(Fault),
}

// An element or the closing quote, at any position of any bytes; where no character stands, the text ends for it.
#[tactic(auto, using(crate::proofs::ElementLaws::elements))]
pub fn element(s: &[u8], at: usize, settings: Settings, t: &Table) -> Read
    ensures { Says (drop at s.now) (model.read settings (drop at s.now)) result }
{
    if s.len() <= at {
        return Read::Refused(ends(0));
    }
    let b = s[at];
    if 0x80 <= b {
        return wide_element(s, at, settings);
    }
    if b == b'"' {
        return Read::Quote;
    }
    if b == b'\\' {
        return escape(s, at, settings, t);
    }
    let value = u32::from(b);
    if t.is_control(value) {
        return Read::Refused(Fault {
            error: LexError::InvalidStringElement(value),
            place: 0,
            after: 1,
        });
    }
    Read::Char { value, len: 1 }
}

// The same where the byte is not ASCII: `"`, `\` and what 12 refuses are ASCII.
#[tactic(auto, using(crate::proofs::ElementLaws::wides))]
fn wide_element(s: &[u8], at: usize, settings: Settings) -> Read
    requires { 0x80 ≤ get_or s.now at 0 }
    ensures { Says (drop at s.now) (model.read settings (drop at s.now)) result }
{
    let Some(Char { value, len }) = utf8_chars::decode(s, at) else {
        return Read::Refused(ends(0));
    };
    if hides(settings, value) {
        return Read::Refused(Fault {
            error: LexError::ConfusingUnicode(value),
            place: 0,
            after: len,
        });
    }
    Read::Char { value, len }
}

// Whether a raw character is refused by 21.
#[tactic(auto, unfolding(wat::specs::StringModel::hides))]
fn hides(settings: Settings, c: u32) -> bool
    ensures { result ≡ model.hides settings c }
{
    if settings.allow_confusing {
        return false;
    }
    lex_classes::is_confusing_unicode(c)
}

// The escape that starts at `at`, after its `\`.
#[tactic(auto, using(crate::proofs::ElementLaws::escaped))]
fn escape(s: &[u8], at: usize, settings: Settings, t: &Table) -> Read
    requires at_in_bounds { at + 1 ≤ length s.now }
    ensures { Says (drop at s.now)
        (model.escape_by settings (model.peek (drop (at + 1) s.now))) result }
{
    let Some(Char { value, len }) = must_char(s, at + 1) else {
        return Read::Refused(ends(1));
    };
    if value == u32::from(b'u') {
        return unicode::open_brace(s, at, settings, t);
    }
    if let Some(value) = letter(value) {
        return Read::Byte { value, len: 2 };
    }
    if let Some(high) = t.to_hex(value) {
        return second_digit(s, at, high, t);
    }
    Read::Refused(Fault {
        error: LexError::InvalidStringEscape(value),
        place: 1,
        after: 1 + len,
    })
}

// The byte that a letter after `\` stands for.
#[tactic(auto, unfolding(wat::specs::Strings::escapes))]
fn letter(c: u32) -> Option<u8>
    ensures letter { IfSome result (λ b. model.letter_of escapes c ≡ some b) }
    ensures other { IfNone result (model.letter_of escapes c ≡ none) }
{
    match c {
        0x74 => Some(b'\t'), // t
        0x6E => Some(b'\n'), // n
        0x72 => Some(b'\r'), // r
        0x22 => Some(b'"'),
        0x27 => Some(b'\''),
        0x5C => Some(b'\\'),
        _ => None,
    }
}

// After `\` and a digit of value `high`: the Rust's `hexdigit`.
#[tactic(auto, using(crate::proofs::ElementLaws::seconds))]
fn second_digit(s: &[u8], at: usize, high: u8, t: &Table) -> Read
    requires after_a_digit { (at + 2 ≤ length s.now) × (high < 16) }
    ensures { Says (drop at s.now)
        (model.second_by high (model.peek (drop (at + 2) s.now))) result }
{
    let Some(Char { value, len }) = must_char(s, at + 2) else {
        return Read::Refused(ends(2));
    };
    if let Some(low) = t.to_hex(value) {
        return Read::Byte {
            value: high * 16 + low,
            len: 3,
        };
    }
    Read::Refused(Fault {
        error: LexError::InvalidHexDigit(value),
        place: 2,
        after: 2 + len,
    })
}

// The text ends after so many bytes of an element.
fn ends(n: usize) -> Fault
    ensures { result ≡ fault UnexpectedEof n n }
{
    Fault {
        error: LexError::UnexpectedEof,
        place: n,
        after: n,
    }
}

// The next character, or nothing. An ASCII one needs no decoding.
#[tactic(auto, using(utf8_chars::proofs::DecodeLaws::decoded_end))]
pub fn must_char(s: &[u8], at: usize) -> Option<Char>
    ensures { Decodes s.now at result }
{
    if s.len() <= at {
        return None;
    }
    let b = s[at];
    if b < 0x80 {
        return Some(Char {
            value: u32::from(b),
            len: 1,
        });
    }
    utf8_chars::decode(s, at)
}
