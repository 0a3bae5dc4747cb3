// A run's kind: of a word, idchars alone, and of idchars and one string.
ghost use Rattle.std.specs.Prelude.{◌≡◌, [], ◌∷◌, ◌≤◌, ◌<◌, length, get_or};
ghost use Rattle.std.proofs.Math.Seq.{slice};
ghost use Rattle.wat.specs.declared.Number.TheVariants.{Neither};
ghost use Rattle.wat.specs.NumberModel.{classify};
ghost use Rattle.wat.specs.LexModel.{word_kind};
ghost use Rattle.wat_laws.proofs.RunKinds.{quoted_by};
ghost use Rattle.lex_token.specs.Fronts.{lettered};

use codes::KindNumber;
use lex_classes::Table;
use wat::{FloatKind, IntegerKind, Number, Sign, TokenKind};

// The kind of the idchars from `at` to `end`. Their front tells most: with `$` no number begins, with a
// letter few do, and digits alone are an integer.
#[tactic(auto, using(crate::proofs::FrontLaws::fronts))]
pub fn word_kind(s: &[u8], at: usize, end: usize, t: &Table) -> KindNumber
    requires at_lt_end { (at < end) × (end ≤ length s.now) }
    ensures { result ≡ word_kind (classify (slice at end s.now)) (get_or s.now at 0) }
{
    let b = s[at];
    if b == b'$' {
        return KindNumber::new(TokenKind::Id);
    }
    if t.is_letter(b) {
        if end - at < 2 {
            return KindNumber::new(TokenKind::Keyword);
        }
        if !may_be_number(b, s[at + 1]) {
            return KindNumber::new(TokenKind::Keyword);
        }
    }
    if t.is_digit(false, b) {
        if end <= lex_classes::digits_end(s, at + 1, t) {
            return KindNumber::new(TokenKind::Integer(IntegerKind {
                sign: Sign::Unsigned,
                underscores: false,
                hex: false,
            }));
        }
    }
    named_kind(lex_numbers::classify_number(&s[at..end], t), b, t)
}

// Whether a number may begin with a letter b and a byte c: `inf`, `nan` and `nan:0x` are all that begin with a letter.
fn may_be_number(b: u8, c: u8) -> bool
    ensures { result ≡ lettered (b ∷ c ∷ []) }
{
    ((b == b'i') & (c == b'n')) | ((b == b'n') & (c == b'a'))
}

// The kind of a word, by the number that it is and its first byte.
// https://webassembly.github.io/spec/core/text/values.html#integers
fn named_kind(n: Number, b: u8, t: &Table) -> KindNumber
    ensures { result ≡ word_kind n b }
{
    match n {
        Number::Integer {
            sign,
            hex,
            underscores,
        } => KindNumber::new(TokenKind::Integer(IntegerKind {
            sign,
            underscores,
            hex,
        })),
        Number::Inf { negative } => KindNumber::new(TokenKind::Float(FloatKind::Inf { negative })),
        Number::Nan { negative } => KindNumber::new(TokenKind::Float(FloatKind::Nan { negative })),
        Number::NanVal {
            negative,
            underscores,
        } => KindNumber::new(TokenKind::Float(FloatKind::NanVal {
            negative,
            underscores,
        })),
        Number::Normal { hex, underscores } => {
            KindNumber::new(TokenKind::Float(FloatKind::Normal { underscores, hex }))
        }
        Number::Neither => plain_kind(b, t),
    }
}

// The kind of a word that is no number, by its first byte.
// https://webassembly.github.io/spec/core/text/values.html#text-id
// https://webassembly.github.io/spec/core/text/lexical.html#text-keyword
#[tactic(auto, using(crate::proofs::KindLaws::plains))]
fn plain_kind(b: u8, t: &Table) -> KindNumber
    ensures { result ≡ word_kind Neither b }
{
    if b == b'$' {
        return KindNumber::new(TokenKind::Id);
    }
    if b == b'@' {
        return KindNumber::new(TokenKind::Annotation);
    }
    if t.is_letter(b) {
        return KindNumber::new(TokenKind::Keyword);
    }
    KindNumber::new(TokenKind::Reserved)
}

// The kind of the idchars from `at` to `end` and one string.
#[tactic(auto, using(crate::proofs::KindLaws::quoteds))]
pub fn quoted_kind(s: &[u8], at: usize, end: usize) -> KindNumber
    requires { (at ≤ end) × (end ≤ length s.now) }
    ensures { result ≡ quoted_by (slice at end s.now) }
{
    if end - at == 0 {
        return KindNumber::new(TokenKind::String);
    }
    if 1 < end - at {
        return KindNumber::new(TokenKind::Reserved);
    }
    let b = s[at];
    if b == b'$' {
        return KindNumber::new(TokenKind::Id);
    }
    if b == b'@' {
        return KindNumber::new(TokenKind::Annotation);
    }
    KindNumber::new(TokenKind::Reserved)
}
