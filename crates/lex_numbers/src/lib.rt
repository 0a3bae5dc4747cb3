// Number literals: what the bytes of a word are, read as a number (`classify_number` of the Rust).

#![tactic(auto)]

ghost use Rattle.std.specs.Prelude.{◌≡◌, true};
ghost use Rattle.wat.specs.Numbers.{KindOf};
ghost use Rattle.wat.specs.NumberModel.{run, fraction, sign_of};
ghost use Rattle.lex_numbers.specs.Places.{Skips, PastSign};

use lex_classes::Table;
use wat::{Number, Sign};

mod classify;

// A part of a literal that is passed: whether it has an underscore, and where it ends.
#[derive(Clone, Copy, PartialEq, Eq)]
pub struct Skipped {
    pub underscores: bool,
    pub at: usize,
}

// Passes the digits that a word begins with, and the single underscores between them; `None` where there are none, or
// an underscore is last.
// What `is_digit` says is stored and not only branched on, so that a hex digit costs one jump, be it a letter or not.
#[tactic(auto, using(crate::proofs::DigitLaws::runs))]
pub fn skip_underscores(word: &[u8], hex: bool, t: &Table) -> Option<Skipped>
    ensures { Skips word.now (run hex true word.now) result }
{
    let mut must = true;
    let mut seen = false;
    for (i, &c) in word.iter().enumerate() {
        let digit = t.is_digit(hex, c);
        if digit | (!must & (c == b'_')) {
            seen = seen | !digit;
            must = !digit;
        } else {
            if must {
                return None;
            }
            return Some(Skipped {
                underscores: seen,
                at: i,
            });
        }
    }
    if must {
        return None;
    }
    Some(Skipped {
        underscores: seen,
        at: word.len(),
    })
}

#[tactic(auto, using(crate::proofs::PartLaws::signs_told))]
pub fn sign_of(word: &[u8]) -> Sign
    ensures { result ≡ sign_of word.now }
{
    if word.is_empty() {
        return Sign::Unsigned;
    }
    let c = word[0];
    if c == b'+' {
        return Sign::Plus;
    }
    if c == b'-' {
        return Sign::Minus;
    }
    Sign::Unsigned
}

// Past the sign that a word begins with, if it does.
#[tactic(auto, using(crate::proofs::PartLaws::signs_told))]
pub fn past_sign(word: &[u8]) -> usize
    ensures { PastSign word.now result }
{
    if word.is_empty() {
        return 0;
    }
    let c = word[0];
    if (c == b'+') | (c == b'-') {
        return 1;
    }
    0
}

// Passes a dot and the digits after it, where a word begins with a dot.
#[tactic(auto, using(crate::proofs::PartLaws::fractions))]
pub fn fraction(word: &[u8], hex: bool, t: &Table) -> Option<Skipped>
    ensures { Skips word.now (fraction hex word.now) result }
{
    if word.is_empty() || word[0] != b'.' {
        return Some(Skipped {
            underscores: false,
            at: 0,
        });
    }
    if word.len() < 2 || !t.is_digit(hex, word[1]) {
        return Some(Skipped {
            underscores: false,
            at: 1,
        });
    }
    let digits = skip_underscores(&word[1..], hex, t)?;
    Some(Skipped {
        underscores: digits.underscores,
        at: 1 + digits.at,
    })
}

// The kind of the number that a word is.
pub fn classify_number(word: &[u8], t: &Table) -> Number
    ensures { KindOf word.now result }
{
    classify::unsigned(&word[past_sign(word)..], sign_of(word), t)
}
