// The kind of what follows the sign of a literal: an infinity, a NaN with a payload or without, an integer or a float.
ghost use Rattle.std.specs.Prelude.{◌≡◌, true, length};
ghost use Rattle.wat.specs.Numbers.{marks, negative, prefix};
ghost use Rattle.wat.specs.NumberModel.{past, run, fraction, exponent};
ghost use Rattle.wat.specs.NumberModel.{at_end, then, decide, payload, finite, unsigned};
ghost use Rattle.lex_numbers.specs.Places.{left_at, Within, Skips, begins_0x};

use super::{Skipped, past_sign, skip_underscores};
use lex_classes::Table;
use wat::{Number, Sign};

fn is_negative(sign: Sign) -> bool
    ensures { result ≡ negative sign }
{
    sign == Sign::Minus
}

// `c` begins an exponent.
#[tactic(auto, unfolding(wat::specs::Numbers::marks))]
fn is_mark(hex: bool, c: u8) -> bool
    ensures { result ≡ marks hex c }
{
    if hex {
        return (c == b'p') | (c == b'P');
    }
    (c == b'e') | (c == b'E')
}

// Passes a mark, a sign and the digits after it, where anything is left.
#[tactic(auto, using(crate::proofs::PartLaws::exponents))]
fn exponent(word: &[u8], hex: bool, t: &Table) -> Option<Skipped>
    ensures { Skips word.now (exponent hex word.now) result }
{
    if word.is_empty() {
        return Some(Skipped {
            underscores: false,
            at: 0,
        });
    }
    if !is_mark(hex, word[0]) {
        return None;
    }
    let next = 1 + past_sign(&word[1..]);
    let digits = skip_underscores(&word[next..], false, t)?;
    Some(Skipped {
        underscores: digits.underscores,
        at: next + digits.at,
    })
}

// What follows the digits of a float: a fraction, an exponent, and nothing more. `seen` says whether the digits have
// an underscore.
#[tactic(auto, using(crate::proofs::KindLaws::floats))]
fn float(word: &[u8], hex: bool, seen: bool, t: &Table) -> Number
    ensures { result ≡ at_end (then (then (past seen word.now) (fraction hex)) (exponent hex))
        (Number.Normal hex) }
{
    let Some(f) = super::fraction(word, hex, t) else {
        return Number::Neither;
    };
    let Some(e) = exponent(&word[f.at..], hex, t) else {
        return Number::Neither;
    };
    if f.at + e.at != word.len() {
        return Number::Neither;
    }
    Number::Normal {
        hex,
        underscores: seen | f.underscores | e.underscores,
    }
}

// The kind of a number whose digits are passed.
#[tactic(auto, using(crate::proofs::KindLaws::decisions))]
fn decide(word: &[u8], digits: Option<Skipped>, sign: Sign, hex: bool, t: &Table) -> Number
    requires within { Within word.now digits }
    ensures { result ≡ decide sign hex (left_at word.now digits) }
{
    let Some(d) = digits else {
        return Number::Neither;
    };
    if d.at == word.len() {
        return Number::Integer {
            sign,
            hex,
            underscores: d.underscores,
        };
    }
    float(&word[d.at..], hex, d.underscores, t)
}

// A word begins with 0x. Two bytes are compared here: with `strip_prefix` a list of numbers took some 3 % more
// instructions.
#[tactic(auto, using(crate::proofs::KindLaws::prefixes))]
fn begins_0x(word: &[u8]) -> bool
    ensures { result ≡ begins_0x word.now }
{
    if word.len() < 2 {
        return false;
    }
    (word[0] == b'0') & (word[1] == b'x')
}

fn prefix_len(hex: bool) -> usize
    ensures { result ≡ length (prefix hex) }
{
    if hex {
        return 2;
    }
    0
}

// Passes the digits of a number. Each call names its radix, so that each loop is compiled for its own.
fn digits(word: &[u8], hex: bool, t: &Table) -> Option<Skipped>
    ensures { Skips word.now (run hex true word.now) result }
{
    if hex {
        return skip_underscores(word, true, t);
    }
    skip_underscores(word, false, t)
}

#[tactic(auto, using(crate::proofs::KindLaws::prefix_fits))]
fn finite(word: &[u8], sign: Sign, t: &Table) -> Number
    ensures { result ≡ finite sign word.now }
{
    let hex = begins_0x(word);
    let rest = &word[prefix_len(hex)..];
    decide(rest, digits(rest, hex, t), sign, hex, t)
}

#[tactic(auto, using(crate::proofs::KindLaws::payloads))]
fn payload(word: &[u8], sign: Sign, t: &Table) -> Number
    ensures { result ≡ payload sign (run true true word.now) }
{
    let Some(d) = skip_underscores(word, true, t) else {
        return Number::Neither;
    };
    if d.at != word.len() {
        return Number::Neither;
    }
    Number::NanVal {
        negative: is_negative(sign),
        underscores: d.underscores,
    }
}

// The kind of what follows a sign. The first byte tells most words that are no number.
#[tactic(auto, using(crate::proofs::KindLaws::kinds))]
pub fn unsigned(word: &[u8], sign: Sign, t: &Table) -> Number
    ensures { result ≡ unsigned sign word.now }
{
    if word.is_empty() {
        return Number::Neither;
    }
    if t.is_digit(false, word[0]) {
        return finite(word, sign, t);
    }
    let negative = is_negative(sign);
    if word == b"inf".as_slice() {
        return Number::Inf { negative };
    }
    if word == b"nan".as_slice() {
        return Number::Nan { negative };
    }
    match word.strip_prefix(b"nan:0x") {
        Some(digits) => payload(digits, sign, t),
        None => Number::Neither,
    }
}
