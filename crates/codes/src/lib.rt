// The numbers of kinds, errors and refusals (docs/RULES.md, 1 to 14), a number's kind, and what a refusal carries.
// A usize becomes a u64 by `as`: std has no `From` of it.

#![tactic(auto)]

ghost use Rattle.std.specs.Prelude.{◌≡◌, ◌≢◌, ◌≤◌, ◌/◌, ◌%◌, eqb, [], ◌∷◌, ◌⊎◌, IfSome, IfNone};
ghost use Rattle.wat.specs.Cases.{flag as flag_of, sign_number, float_number, kind_number, error_number, number};
ghost use Rattle.codes.specs.Coded.{Coded};
ghost use Rattle.codes.specs.Numbered.{Names};

use std::marker::Model;
use wat::{FloatKind, IntegerKind, LexError, Refusal, Sign, TokenKind};

#[inline(always)]
fn flag(is: bool, n: u16) -> u16
    ensures { (result ≡ flag_of is n) × (result ≤ n) }
{
    if is { n } else { 0 }
}

#[inline(always)]
fn sign_number(s: Sign) -> u16
    ensures { (result ≡ sign_number s) × (result ≤ 512) }
{
    match s {
        Sign::Unsigned => 0,
        Sign::Plus => TokenKind::PLUS,
        Sign::Minus => TokenKind::MINUS,
    }
}

#[inline(always)]
fn integer_number(i: IntegerKind) -> u16
    ensures { result ≡ kind_number (TokenKind.Integer i) }
{
    let s = i.sign;
    TokenKind::INTEGER
        + sign_number(s)
        + flag(i.underscores, TokenKind::UNDERSCORES)
        + flag(i.hex, TokenKind::HEX)
}

#[inline(always)]
fn float_number(f: FloatKind) -> u16
    ensures { result ≡ float_number f }
{
    match f {
        FloatKind::Inf { negative } => TokenKind::INF + flag(negative, TokenKind::MINUS),
        FloatKind::Nan { negative } => TokenKind::NAN + flag(negative, TokenKind::MINUS),
        FloatKind::NanVal {
            negative,
            underscores,
        } => TokenKind::NAN_VAL
            + flag(negative, TokenKind::MINUS)
            + flag(underscores, TokenKind::UNDERSCORES),
        FloatKind::Normal { underscores, hex } => TokenKind::NORMAL
            + flag(underscores, TokenKind::UNDERSCORES)
            + flag(hex, TokenKind::HEX),
    }
}

#[inline(always)]
pub fn kind_number(k: TokenKind) -> u16
    ensures { result ≡ kind_number k }
{
    match k {
        TokenKind::LineComment => TokenKind::LINE_COMMENT,
        TokenKind::BlockComment => TokenKind::BLOCK_COMMENT,
        TokenKind::Whitespace => TokenKind::WHITESPACE,
        TokenKind::LParen => TokenKind::LPAREN,
        TokenKind::RParen => TokenKind::RPAREN,
        TokenKind::String => TokenKind::STRING,
        TokenKind::Id => TokenKind::ID,
        TokenKind::Keyword => TokenKind::KEYWORD,
        TokenKind::Annotation => TokenKind::ANNOTATION,
        TokenKind::Reserved => TokenKind::RESERVED,
        TokenKind::Integer(i) => integer_number(i),
        TokenKind::Float(f) => float_number(f),
    }
}

// Whether the detail that counts `bit` is in the sum `n`.
fn has(n: u16, bit: u16) -> bool
    requires { 1 ≤ bit }
    ensures { result ≡ eqb (n / bit % 2) 1 }
{
    n / bit % 2 == 1
}

// The only sign of an integer whose kind's number `n` can be.
fn sign_of(n: u16) -> Sign
    requires { n % 256 ≡ 11 }
    ensures { (i : IntegerKind) → kind_number (TokenKind.Integer i) ≡ n → i.sign ≡ result }
{
    if has(n, TokenKind::PLUS) {
        return Sign::Plus;
    }
    if has(n, TokenKind::MINUS) {
        return Sign::Minus;
    }
    Sign::Unsigned
}

// The only kind whose number `n` can be.
fn candidate(n: u16) -> TokenKind
    ensures { (k : TokenKind) → kind_number k ≡ n → k ≡ result }
{
    let negative = has(n, TokenKind::MINUS);
    let underscores = has(n, TokenKind::UNDERSCORES);
    let hex = has(n, TokenKind::HEX);
    let base = n % 256;
    match base {
        TokenKind::LINE_COMMENT => TokenKind::LineComment,
        TokenKind::BLOCK_COMMENT => TokenKind::BlockComment,
        TokenKind::WHITESPACE => TokenKind::Whitespace,
        TokenKind::LPAREN => TokenKind::LParen,
        TokenKind::RPAREN => TokenKind::RParen,
        TokenKind::STRING => TokenKind::String,
        TokenKind::ID => TokenKind::Id,
        TokenKind::KEYWORD => TokenKind::Keyword,
        TokenKind::ANNOTATION => TokenKind::Annotation,
        TokenKind::RESERVED => TokenKind::Reserved,
        TokenKind::INTEGER => TokenKind::Integer(IntegerKind {
            sign: sign_of(n),
            underscores,
            hex,
        }),
        TokenKind::INF => TokenKind::Float(FloatKind::Inf { negative }),
        TokenKind::NAN => TokenKind::Float(FloatKind::Nan { negative }),
        TokenKind::NAN_VAL => TokenKind::Float(FloatKind::NanVal {
            negative,
            underscores,
        }),
        TokenKind::NORMAL => TokenKind::Float(FloatKind::Normal { underscores, hex }),
        _ => TokenKind::Reserved,
    }
}

// The kind that has a number, if one has it.
pub fn kind_of(n: u16) -> Option<TokenKind>
    ensures named { IfSome result (λ k. kind_number k ≡ n) }
    ensures nameless { IfNone result ((k : TokenKind) → kind_number k ≢ n) }
{
    let k = candidate(n);
    if kind_number(k) == n {
        return Some(k);
    }
    None
}

// A kind in one word, its number: clauses see the kind itself.
#[derive(Clone, Copy, PartialEq, Eq)]
pub struct KindNumber {
    number: u16,
}

impl Model for KindNumber {
    ghost use Rattle.std.specs.Prelude.{◌≡◌};
    ghost use Rattle.wat.specs.declared.TokenKind.{TokenKind};
    ghost use Rattle.wat.specs.Cases.{kind_number};
    ghost use Rattle.wat.specs.KindModel.{kind_at};

    ghost Value = { TokenKind };

    ghost view = { λ n. kind_at n.number };

    ghost invariant = { λ n. kind_number (kind_at n.number) ≡ n.number };

    ghost inverse = { λ k. record { number = kind_number k } };
}

impl KindNumber {
    #[inline(always)]
    pub fn new(k: TokenKind) -> KindNumber
        ensures { result ≡ k }
    {
        KindNumber {
            number: kind_number(k),
        }
    }

    // The number itself.
    #[inline(always)]
    pub fn get(self) -> u16
        ensures { result ≡ kind_number self }
    {
        self.number
    }

    // The kind again: no number is held that no kind has.
    pub fn kind(self) -> TokenKind
        ensures { result ≡ self }
    {
        candidate(self.number)
    }
}

// A number that no kind has.
#[derive(Clone, Copy, PartialEq, Eq)]
pub struct Nameless(pub u16);

impl TryFrom<u16> for KindNumber {
    type Error = Nameless;

    ghost try_from_gives = { Names };

    fn try_from(n: u16) -> Result<KindNumber, Nameless> {
        kind_of(n).map(KindNumber::new).ok_or(Nameless(n))
    }
}

// The number of a refusal and the values that it carries, 0 for each that it lacks: characters and numbers of an error,
// or the two lengths of `Utf8Error`.
#[derive(Clone, Copy)]
pub struct Code {
    pub number: u8,
    pub first: u64,
    pub second: u64,
}

fn bare(number: u8) -> Code
    ensures { Coded (number, []) result }
{
    Code {
        number,
        first: 0,
        second: 0,
    }
}

fn with_one(number: u8, value: u32) -> Code
    ensures { Coded (number, value ∷ []) result }
{
    Code {
        number,
        first: u64::from(value),
        second: 0,
    }
}

fn with_two(number: u8, first: u32, second: u32) -> Code
    ensures { Coded (number, first ∷ second ∷ []) result }
{
    Code {
        number,
        first: u64::from(first),
        second: u64::from(second),
    }
}

fn with_lengths(number: u8, first: usize, second: usize) -> Code
    requires { (number ≡ 2) ⊎ (number ≡ 22) }
    ensures { Coded (number, first ∷ second ∷ []) result }
{
    Code {
        number,
        first: first as u64,
        second: second as u64,
    }
}

pub fn error_code(e: LexError) -> Code
    ensures { Coded (error_number e) result }
{
    match e {
        LexError::DanglingBlockComment => bare(10),
        LexError::Unexpected(c) => with_one(11, c),
        LexError::InvalidStringElement(c) => with_one(12, c),
        LexError::InvalidStringEscape(c) => with_one(13, c),
        LexError::InvalidHexDigit(c) => with_one(14, c),
        LexError::Expected { wanted, found } => with_two(16, wanted, found),
        LexError::UnexpectedEof => bare(17),
        LexError::NumberTooBig => bare(18),
        LexError::InvalidUnicodeValue(n) => with_one(19, n),
        LexError::LoneUnderscore => bare(20),
        LexError::ConfusingUnicode(c) => with_one(21, c),
        LexError::InvalidUtf8Id {
            valid_up_to,
            error_len,
        } => with_lengths(22, valid_up_to, error_len),
        LexError::EmptyId => bare(23),
        LexError::EmptyAnnotation => bare(24),
        LexError::DoubleUnderscore => bare(25),
    }
}

pub fn refusal_code(r: Refusal) -> Code
    ensures { Coded (number r) result }
{
    match r {
        Refusal::TooLong => bare(1),
        Refusal::NotUtf8 {
            valid_up_to,
            error_len,
        } => with_lengths(2, valid_up_to, error_len),
        Refusal::PastEnd => bare(3),
        Refusal::InsideCharacter => bare(4),
        Refusal::Lexical(e) => error_code(e),
        Refusal::NotThatToken => bare(30),
        Refusal::NotThatKind => bare(31),
        Refusal::BufferTooShort => bare(32),
        Refusal::NoMessage => bare(34),
    }
}
