// The answers of the readers and of the messages as words, for C. include/thallusweb.h explains each word.
// A usize becomes a word by `as`: std has no `From` of it.
#![tactic(auto)]

ghost use Rattle.std.specs.Prelude.{◌≡◌};
ghost use Rattle.c_read_words.specs.Words.{reading_words, name_words, name_word, kind_word};
ghost use Rattle.c_read_words.specs.Words.{integer_sign_words, integer_words, float_sign_words, message_words};

use wat::{Refusal, Refused, Sign};
use wat_values::{Name, NameKind, Part};

// What a reader found of a token.
pub fn reading_words(r: Result<Option<Part>, Refused>) -> [u64; 5]
    ensures { result ≡ reading_words r }
{
    match r {
        Ok(None) => [0, 0, 0, 0, 0],
        Ok(Some(Part::Text { start, len })) => [1, start as u64, len as u64, 0, 0],
        Err(e) => c_words::refused_words(e.refusal, e.place),
        Ok(Some(Part::Buffer { start, len })) => [3, start as u64, len as u64, 0, 0],
    }
}

// What the reader of names found: the words of another reader's answer, and whose name it is.
pub fn name_words(n: Result<Name, Refused>) -> [u64; 6]
    ensures { result ≡ name_words n }
{
    let w = reading_words(read_second::reading_of(n));
    [w[0], w[1], w[2], w[3], w[4], name_word(n)]
}

// The number of the kind of token that a name is of; 0 where none is answered.
fn name_word(n: Result<Name, Refused>) -> u64
    ensures { result ≡ name_word n }
{
    match n {
        Ok(name) => kind_word(name.kind),
        Err(_) => 0,
    }
}

fn kind_word(kind: NameKind) -> u64
    ensures { result ≡ kind_word kind }
{
    match kind {
        NameKind::Id => 7,
        NameKind::Annotation => 9,
    }
}

pub fn integer_sign_words(s: Result<Sign, Refused>) -> [u64; 5]
    ensures { result ≡ integer_sign_words s }
{
    match s {
        Err(e) => c_words::refused_words(e.refusal, e.place),
        Ok(Sign::Unsigned) => [1, 0, 0, 0, 0],
        Ok(Sign::Plus) => [1, 1, 0, 0, 0],
        Ok(Sign::Minus) => [1, 2, 0, 0, 0],
    }
}

pub fn integer_words(v: Result<Option<u64>, Refused>) -> [u64; 5]
    ensures { result ≡ integer_words v }
{
    match v {
        Err(e) => c_words::refused_words(e.refusal, e.place),
        Ok(None) => [2, 40, 0, 0, 0],
        Ok(Some(word)) => [1, word, 0, 0, 0],
    }
}

pub fn float_sign_words(s: Result<Option<bool>, Refused>) -> [u64; 5]
    ensures { result ≡ float_sign_words s }
{
    match s {
        Ok(None) => [0, 0, 0, 0, 0], // absent: the sign of a Normal is in its integral part
        Ok(Some(negative)) => [1, negative as u64, 0, 0, 0],
        Err(e) => c_words::refused_words(e.refusal, e.place),
    }
}

pub fn message_words(m: Result<usize, Refusal>) -> [u64; 5]
    ensures { result ≡ message_words m }
{
    match m {
        Ok(n) => [1, n as u64, 0, 0, 0],
        Err(r) => c_words::refused_words(r, 0),
    }
}
