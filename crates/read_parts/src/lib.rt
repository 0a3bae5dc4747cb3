// The parts of a number as the readers hand them over (`Token::integer` and `Token::float` of the Rust): digits,
// fraction, exponent and payload. Each is given the token's place, from `at` to `end`, and what its kind says:
// hexadecimal digits, underscores.

#![tactic(auto)]

ghost use Rattle.std.specs.Prelude.{◌≡◌, ◌≤◌, ◌+◌, ◌++◌, IfSome};
ghost use Rattle.wat.specs.declared.TokenKind.TheVariants.{Float};
ghost use Rattle.wat.specs.declared.FloatKind.TheVariants.{Normal};
ghost use Rattle.wat.specs.Numbers.{IsFloat};
ghost use Rattle.wat.specs.Tokens.{Tok};
ghost use Rattle.wat_values.specs.declared.FloatPart.TheVariants.{Fraction, Exponent};
ghost use Rattle.wat_values.specs.Values.{Reader};
ghost use Rattle.read_parts.specs.Handing.{At, Payload, Leaves, Hands, HandsWhole, HandsPayload, end_of};

use lex_classes::Table;
use lex_numbers::Skipped;
use wat::{FloatKind, Refused, Sign};
use wat_values::{FloatPart, Part};

// A part of a float of a kind; a part that the kind lacks is absent.
#[tactic(auto, using(crate::proofs::FloatLaws::floats))]
pub fn float(
    text: &[u8],
    at: usize,
    end: usize,
    kind: FloatKind,
    part: FloatPart,
    buffer: &mut [u8],
    t: &Table,
) -> Result<Option<Part>, Refused>
    requires at { At (Tok (Float kind)) text.now at end }
    ensures { Hands (Reader.float part) (Float kind) text.now at end buffer.old result
        buffer.new }
{
    match kind {
        FloatKind::Inf { negative: _ } => Ok(None),
        FloatKind::Nan { negative: _ } => Ok(None),
        FloatKind::NanVal {
            negative: _,
            underscores,
        } => match part {
            FloatPart::Payload => payload(text, at, end, underscores, buffer),
            _ => Ok(None),
        },
        FloatKind::Normal { underscores, hex } => match part {
            FloatPart::Integral => whole(text, at, end, hex, underscores, buffer, t),
            FloatPart::Fraction => fraction(text, at, end, hex, underscores, buffer, t),
            FloatPart::Exponent => exponent(text, at, end, hex, underscores, buffer, t),
            FloatPart::Payload => Ok(None),
        },
    }
}

// An integer's digits, or a float's before its point, with their sign.
pub fn whole(
    text: &[u8],
    at: usize,
    end: usize,
    hex: bool,
    underscores: bool,
    buffer: &mut [u8],
    t: &Table,
) -> Result<Option<Part>, Refused>
    requires at { At (IsFloat hex) text.now at end }
    ensures { HandsWhole hex underscores text.now at end buffer.old result
        buffer.new }
{
    let sign = lex_numbers::sign_of(&text[at..end]);
    let from = past_prefix(text, at, end, hex);
    let to = past_whole(text, at, end, hex, t);
    read_copies::hand(text, from, to, sign, hex | underscores, buffer)
}

// The digits after the point, if there are any.
#[tactic(auto, using(crate::proofs::FloatLaws::no_fraction))]
fn fraction(
    text: &[u8],
    at: usize,
    end: usize,
    hex: bool,
    underscores: bool,
    buffer: &mut [u8],
    t: &Table,
) -> Result<Option<Part>, Refused>
    requires at { At (Tok (Float (Normal underscores hex))) text.now at end }
    ensures { Hands (Reader.float Fraction) (Float (Normal underscores hex)) text.now at end
        buffer.old result buffer.new }
{
    let dot = past_whole(text, at, end, hex, t);
    let to = past_fraction(text, dot, at, end, hex, t);
    if to - dot < 2 {
        return Ok(None);
    }
    read_copies::hand(text, dot + 1, to, Sign::Unsigned, underscores, buffer)
}

// The digits of the exponent, with their sign, if there is one.
fn exponent(
    text: &[u8],
    at: usize,
    end: usize,
    hex: bool,
    underscores: bool,
    buffer: &mut [u8],
    t: &Table,
) -> Result<Option<Part>, Refused>
    requires at { At (Tok (Float (Normal underscores hex))) text.now at end }
    ensures { Hands (Reader.float Exponent) (Float (Normal underscores hex)) text.now at end
        buffer.old result buffer.new }
{
    let dot = past_whole(text, at, end, hex, t);
    let mark = past_fraction(text, dot, at, end, hex, t);
    if mark == end {
        return Ok(None);
    }
    let power = &text[mark + 1..end];
    let sign = lex_numbers::sign_of(power);
    let from = mark + 1 + lex_numbers::past_sign(power);
    read_copies::hand(text, from, end, sign, underscores, buffer)
}

// The digits after `nan:0x`.
fn payload(
    text: &[u8],
    at: usize,
    end: usize,
    underscores: bool,
    buffer: &mut [u8],
) -> Result<Option<Part>, Refused>
    requires { At Payload text.now at end }
    ensures { HandsPayload underscores text.now at end buffer.old result
        buffer.new }
{
    let from = at + lex_numbers::past_sign(&text[at..end]) + 6;
    read_copies::hand(text, from, end, Sign::Unsigned, underscores, buffer)
}

// Past the sign and 0x: where the digits of a number begin.
pub fn past_prefix(text: &[u8], at: usize, end: usize, hex: bool) -> usize
    requires { At (IsFloat hex) text.now at end }
    ensures leaves { Leaves hex text.now at end (λ p f e. p ++ (f ++ e)) result }
    ensures within { result ≤ end }
{
    let next = at + lex_numbers::past_sign(&text[at..end]);
    if hex {
        return next + 2;
    }
    next
}

// Past the digits before the point.
fn past_whole(text: &[u8], at: usize, end: usize, hex: bool, t: &Table) -> usize
    requires at { At (IsFloat hex) text.now at end }
    ensures leaves { Leaves hex text.now at end (λ p f e. f ++ e) result }
    ensures within { result ≤ end }
{
    let from = past_prefix(text, at, end, hex);
    end_of(
        lex_numbers::skip_underscores(&text[from..end], hex, t),
        from,
        end,
    )
}

// Past the fraction, which begins at `dot`, if there is one.
fn past_fraction(text: &[u8], dot: usize, at: usize, end: usize, hex: bool, t: &Table) -> usize
    requires at { At (IsFloat hex) text.now at end }
    requires dot { Leaves hex text.now at end (λ p f e. f ++ e) dot × (dot ≤ end) }
    ensures leaves { Leaves hex text.now at end (λ p f e. e) result }
    ensures within { result ≤ end }
{
    end_of(lex_numbers::fraction(&text[dot..end], hex, t), dot, end)
}

// Where a part that begins at `from` ends; `end` if there is no such part, and then the value is unused.
fn end_of(skipped: Option<Skipped>, from: usize, end: usize) -> usize
    requires { IfSome skipped (λ d. from + d.at ≤ end) }
    ensures { result ≡ end_of skipped from end }
{
    match skipped {
        Some(d) => from + d.at,
        None => end,
    }
}
