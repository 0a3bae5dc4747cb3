// The lexer's answers as words: what crosses the border to C. include/thallusweb.h explains each word.
// A usize becomes a word by `as`: std has no `From` of it.
#![tactic(auto)]

ghost use Rattle.std.specs.Prelude.{◌≡◌};
ghost use Rattle.c_words.specs.Words.{refused_words, checked_words, found_words};
ghost use Rattle.c_words.specs.Words.{parsed_words, stop_words, listed_words, folded_words, words_version};

use wat::{Listed, Parsed, Refusal, Refused, Stop, Token, Utf8Error};
use wat_forms::FoldError;

// The number of the words and constants of include/thallusweb.h, there THALLUSWEB_VERSION. It rises when one changes.
pub const VERSION: u32 = 6;

pub fn version() -> u32
    ensures { result ≡ words_version }
{
    VERSION
}

// A refusal: 2, its number, its place and its values. What has one answers it in an arm of its own: a helper that took
// the answer and a closure for the rest would save no line, and leave each promise to a proof by cases (tried), which
// the check needs no help with where the arms stand in one `match`.
pub fn refused_words(r: Refusal, place: usize) -> [u64; 5]
    ensures { result ≡ refused_words r place }
{
    let c = codes::refusal_code(r);
    [2, u64::from(c.number), place as u64, c.first, c.second]
}

pub fn checked_words(c: Result<(), Utf8Error>) -> [u64; 3]
    ensures { result ≡ checked_words c }
{
    match c {
        Ok(()) => [0, 0, 0],
        Err(e) => [2, e.valid_up_to as u64, e.error_len as u64],
    }
}

pub fn found_words(f: Result<Option<Token>, Refused>) -> [u64; 5]
    ensures { result ≡ found_words f }
{
    match f {
        Ok(None) => [0, 0, 0, 0, 0],
        Ok(Some(t)) => {
            let k = t.kind;
            [
                1,
                u64::from(codes::kind_number(k)),
                t.offset as u64,
                u64::from(t.len),
                0,
            ]
        }
        Err(e) => refused_words(e.refusal, e.place),
    }
}

// What was found, and the position afterwards.
pub fn parsed_words(p: Parsed) -> [u64; 6]
    ensures { result ≡ parsed_words p }
{
    let f = p.found;
    let w = found_words(f);
    [w[0], w[1], w[2], w[3], w[4], p.position as u64]
}

pub fn stop_words(s: Result<Stop, Refused>) -> [u64; 5]
    ensures { result ≡ stop_words s }
{
    match s {
        Ok(Stop::End) => [0, 0, 0, 0, 0],
        Ok(Stop::Budget) => [1, 0, 0, 0, 0],
        Err(e) => refused_words(e.refusal, e.place),
        Ok(Stop::Full) => [3, 33, 0, 0, 0],
    }
}

// Why a listing stopped, how many tokens it handed out, and the position.
pub fn listed_words(l: Listed) -> [u64; 7]
    ensures { result ≡ listed_words l }
{
    let s = l.stop;
    let w = stop_words(s);
    [
        w[0],
        w[1],
        w[2],
        w[3],
        w[4],
        l.count as u64,
        l.position as u64,
    ]
}

// 1 and the position past a form, or 2 and a refusal; 41 and 42 have their place too.
pub fn folded_words(f: Result<usize, FoldError>) -> [u64; 5]
    ensures { result ≡ folded_words f }
{
    match f {
        Ok(position) => [1, position as u64, 0, 0, 0],
        Err(FoldError::Refused(e)) => refused_words(e.refusal, e.place),
        Err(FoldError::TooDeep { place }) => [2, 41, place as u64, 0, 0],
        Err(FoldError::Unclosed { place }) => [2, 42, place as u64, 0, 0],
    }
}
