// The value of an integer by the standard: the word of 32 or 64 bits that its literal is.
// A token's length becomes a usize by `as`: std has no `From` of u32 for it.

#![tactic(auto)]

ghost use Rattle.std.specs.Prelude.{◌≡◌, ℕ, ◌+◌, ◌^◌, ◌≤◌, Ok, length};
ghost use Rattle.std.proofs.Math.Seq.{slice};
ghost use Rattle.wat.specs.Numbers.{IsInteger};
ghost use Rattle.wat_values.specs.Integers.{radix, Worded, ReadsWord};
ghost use Rattle.wat_values.specs.IntegerModel.{amount};
ghost use Rattle.read_parts.specs.Handing.{At};
ghost use Rattle.read_value.specs.Amounts.{Amounts, greatest, word_of};

use lex_classes::Table;
use wat::{IntegerKind, NumberKind, Refused, Sign, Token};

// The word of 32 bits, or none where the integer is out of range: 40.
pub fn integer_32(text: &[u8], token: Token) -> Result<Option<u64>, Refused>
    ensures { ReadsWord 32 text.now token result }
{
    integer_word(text, token, 0xFFFF_FFFF)
}

// The word of 64 bits, or none where the integer is out of range: 40.
pub fn integer_64(text: &[u8], token: Token) -> Result<Option<u64>, Refused>
    ensures { ReadsWord 64 text.now token result }
{
    integer_word(text, token, 0xFFFF_FFFF_FFFF_FFFF)
}

// The word of as many bits as `max`, all ones, has.
// `max` tells the two apart: a trait with a constant, at u32 and u64, would be longer and say no more.
#[tactic(auto, using(crate::proofs::ReadLaws::integers))]
fn integer_word(text: &[u8], token: Token, max: u64) -> Result<Option<u64>, Refused>
    ensures { (N : ℕ) → 2 ^ N ≡ max + 1 → ReadsWord N text.now token result }
{
    let t = Table::new();
    match read_token::number_kind(text, token, &t)? {
        NumberKind::Float(_) => Err(read_token::NOT_THAT_KIND),
        NumberKind::Integer(kind) => {
            let at = token.offset;
            let end = at + token.len as usize;
            Ok(word_at(text, at, end, kind, max))
        }
    }
}

// The word of the literal from `at` to `end`, if it has one.
#[tactic(auto, using(crate::proofs::WordLaws::also_float))]
fn word_at(text: &[u8], at: usize, end: usize, kind: IntegerKind, max: u64) -> Option<u64>
    requires { At (IsInteger kind.sign kind.hex) text.now at end }
    ensures { (N : ℕ) → 2 ^ N ≡ max + 1 → Worded N (slice at end text.now) (Ok result) }
{
    let hex = kind.hex;
    let from = read_parts::past_prefix(text, at, end, hex);
    let sign = kind.sign;
    let n = number(text, from, end, hex, greatest(sign, max))?;
    Some(word_of(sign, n, max))
}

// The greatest number that stands behind a sign.
fn greatest(sign: Sign, max: u64) -> u64
    ensures { result ≡ greatest sign max }
{
    match sign {
        Sign::Unsigned => max,
        Sign::Plus => max / 2,
        Sign::Minus => max / 2 + 1,
    }
}

// The word of a number with its sign, which is no greater than that.
#[tactic(auto, using(crate::proofs::WordLaws::negated_some), unfolding(crate::specs::Amounts::negated))]
fn word_of(sign: Sign, n: u64, max: u64) -> u64
    requires { n ≤ greatest sign max }
    ensures { result ≡ word_of sign n max }
{
    match sign {
        Sign::Unsigned => n,
        Sign::Plus => n,
        Sign::Minus => {
            if n == 0 {
                return 0;
            }
            max - (n - 1)
        }
    }
}

// The number of the digits from `from` to `end`, underscores passed over, if it is no greater than a limit.
#[tactic(auto, using(crate::proofs::AmountLaws::amounts))]
fn number(text: &[u8], from: usize, end: usize, hex: bool, limit: u64) -> Option<u64>
    requires { (from ≤ end) × (end ≤ length text.now) }
    ensures { Amounts limit (amount (radix hex) 0 (slice from end text.now)) result }
{
    let radix = radix_of(hex);
    let most = limit / radix;
    let mut n: u64 = 0;
    for i in from..end {
        let c = text[i];
        if c != b'_' {
            if most < n {
                return None;
            }
            let m = n * radix;
            let d = u64::from(lex_classes::hex_value(c));
            if limit - m < d {
                return None;
            }
            n = m + d;
        }
    }
    Some(n)
}

fn radix_of(hex: bool) -> u64
    ensures { result ≡ radix hex }
{
    if hex {
        return 16;
    }
    10
}
