// One token: its first byte tells its family, and each family is read by a function of its own (`parse_kind` and
// `parse_reserved` of the Rust). Returns the kind and the end; `None` on an error. `lex_calls::fault_at` says which
// error, at most once a listing.

#![tactic(auto)]

ghost use Rattle.std.specs.Prelude.{◌≡◌, true, suc, ◌-◌, ◌≤◌, ◌<◌, length, get_or, drop};
ghost use Rattle.wat.specs.Utf8.{WellFormed};
ghost use Rattle.wat.specs.Chars.{idchar};
ghost use Rattle.wat.specs.RunModel as run;
ghost use Rattle.wat.specs.LexModel.{next};
ghost use Rattle.wat.specs.LexModel as model;
ghost use Rattle.lex_token.specs.Steps.{step_of, Stepped, Quick};

pub use alone::token_alone;
use codes::KindNumber;
use lex_classes::Table;
use wat::{Family, Fault, Hidden, Settings, TokenKind};

mod alone;
mod word_kinds;

// A token: its kind, and the place past it.
#[derive(Clone, Copy)]
pub struct Step {
    pub kind: KindNumber,
    pub end: usize,
}

#[inline(always)]
fn token(kind: TokenKind, end: usize) -> Option<Step>
    ensures { result ≡ Some (record { kind = kind; end = end }) }
{
    Some(Step {
        kind: KindNumber::new(kind),
        end,
    })
}

// The token at a place before the end, by its first byte.
// https://webassembly.github.io/spec/core/text/lexical.html#text-token
#[inline(always)]
#[tactic(auto, using(crate::proofs::StepLaws::steps))]
pub fn parse_kind(s: &[u8], at: usize, settings: Settings, t: &Table) -> Option<Step>
    requires at_in_bounds { at < length s.now }
    requires well_formed { WellFormed (drop at s.now) }
    ensures { Stepped settings s.now at result }
{
    match t.begins(s[at]) {
        Family::Spaces => token(TokenKind::Whitespace, lex_classes::skip_ws(s, at + 1, t)),
        Family::OpenParen => open_paren(s, at, settings),
        Family::CloseParen => token(TokenKind::RParen, at + 1),
        Family::Single => token(TokenKind::Reserved, at + 1),
        Family::Semi => semicolon(s, at, settings),
        Family::Run => parse_reserved(s, at, settings, t),
        Family::Other => None,
    }
}

// The same as `parse_kind`, for a loop over many tokens.
#[inline(always)]
#[tactic(auto, using(crate::proofs::QuickLaws::quick_known))]
pub fn step_at(s: &[u8], at: usize, settings: Settings, t: &Table) -> Option<Step>
    requires at_in_bounds { at < length s.now }
    requires well_formed { WellFormed (drop at s.now) }
    ensures { Stepped settings s.now at result }
{
    match quick(s, at, t) {
        Some(step) => Some(step),
        None => parse_kind(s, at, settings, t),
    }
}

// A word, white space, a parenthesis or other punctuation: what most tokens are, and the settings say nothing of. `None`
// where it is none of these.
#[inline(always)]
#[tactic(auto, using(crate::proofs::QuickLaws::quicks))]
fn quick(s: &[u8], at: usize, t: &Table) -> Option<Step>
    requires at_in_bounds { at < length s.now }
    requires well_formed { WellFormed (drop at s.now) }
    ensures { Quick s.now at result }
{
    let b = s[at];
    if t.is_idchar(b) {
        return quick_word(s, at, t);
    }
    match t.begins(b) {
        Family::Spaces => token(TokenKind::Whitespace, lex_classes::skip_ws(s, at + 1, t)),
        Family::OpenParen => quick_paren(s, at),
        Family::CloseParen => token(TokenKind::RParen, at + 1),
        Family::Single => token(TokenKind::Reserved, at + 1),
        Family::Semi => None,
        Family::Run => None,
        Family::Other => None,
    }
}

// `(`, unless it begins a block comment.
#[inline(always)]
#[tactic(auto, using(crate::proofs::QuickLaws::quicks))]
fn quick_paren(s: &[u8], at: usize) -> Option<Step>
    requires at_a_paren { (at < length s.now) × (model.family (get_or s.now at 0) ≡ Family.OpenParen) }
    requires well_formed { WellFormed (drop at s.now) }
    ensures { Quick s.now at result }
{
    if is_at(s, at + 1, b';') {
        return None;
    }
    token(TokenKind::LParen, at + 1)
}

// A word, unless a quotation mark follows it: its first idchar is seen already.
#[inline(always)]
#[tactic(auto, using(crate::proofs::QuickLaws::quicks))]
fn quick_word(s: &[u8], at: usize, t: &Table) -> Option<Step>
    requires at_an_idchar { (at < length s.now) × (idchar (get_or s.now at 0) ≡ true) }
    requires well_formed { WellFormed (drop at s.now) }
    ensures { Quick s.now at result }
{
    let end = lex_classes::idchars_end(s, at + 1, t);
    if is_at(s, end, b'"') {
        return None;
    }
    Some(Step {
        kind: word_kinds::word_kind(s, at, end, t),
        end,
    })
}

// `(`, or a block comment.
#[inline(always)]
#[tactic(auto, using(crate::proofs::CommentLaws::parens))]
fn open_paren(s: &[u8], at: usize, settings: Settings) -> Option<Step>
    requires at_in_bounds { at < length s.now }
    requires well_formed { WellFormed (drop at s.now) }
    ensures { result ≡ step_of at (model.lex_by settings Family.OpenParen (drop at s.now)) }
{
    if !is_at(s, at + 1, b';') {
        return token(TokenKind::LParen, at + 1);
    }
    let end = lex_comments::block_end(s, at + 2)?;
    comment(s, at, end, TokenKind::BlockComment, settings)
}

// `;`, or a line comment: most have no byte that a confusing character begins with, and are passed by one search.
#[inline(always)]
#[tactic(auto, using(crate::proofs::CommentLaws::lines))]
fn semicolon(s: &[u8], at: usize, settings: Settings) -> Option<Step>
    requires at_in_bounds { at < length s.now }
    requires well_formed { WellFormed (drop at s.now) }
    ensures { result ≡ step_of at (model.lex_by settings Family.Semi (drop at s.now)) }
{
    if !is_at(s, at + 1, b';') {
        return token(TokenKind::Reserved, at + 1);
    }
    let k = lex_comments::plain_line(s, at);
    if !is_at(s, k, 0xe2) {
        return token(TokenKind::LineComment, k);
    }
    comment(
        s,
        at,
        lex_comments::line_end(s, k),
        TokenKind::LineComment,
        settings,
    )
}

// The comment from `at` to `end`, unless it has a confusing character and none is allowed.
#[inline(always)]
#[tactic(auto, using(crate::proofs::CommentLaws::comments))]
fn comment(s: &[u8], at: usize, end: usize, kind: TokenKind, settings: Settings) -> Option<Step>
    requires at_le_end { (at ≤ end) × (end ≤ length s.now) }
    requires well_formed { WellFormed (drop at s.now) }
    ensures { result ≡ step_of at (model.comment settings kind (end - at) (drop at s.now)) }
{
    if settings.allow_confusing {
        return token(kind, end);
    }
    match lex_comments::check_confusing_comment(s, at, end) {
        Hidden::Clear => token(kind, end),
        Hidden::Found {
            at: _,
            character: _,
        } => None,
    }
}

// A token that is a run: idchars alone, idchars and one string, or more.
#[tactic(auto, using(crate::proofs::ReservedLaws::word_some))]
fn parse_reserved(s: &[u8], at: usize, settings: Settings, t: &Table) -> Option<Step>
    requires at_a_run { (at < length s.now) × (model.family (get_or s.now at 0) ≡ Family.Run) }
    requires well_formed { WellFormed (drop at s.now) }
    ensures { result ≡ step_of at (model.lex_by settings Family.Run (drop at s.now)) }
{
    let i = lex_classes::idchars_end(s, at, t);
    if !is_at(s, i, b'"') {
        return Some(Step {
            kind: word_kinds::word_kind(s, at, i, t),
            end: i,
        });
    }
    let Ok(j) = lex_strings::parse_str(s, i + 1, settings, t) else {
        return None;
    };
    let Ok(k) = parse_run(s, j, settings, t) else {
        return None;
    };
    if k == j {
        return Some(Step {
            kind: word_kinds::quoted_kind(s, at, i),
            end: j,
        });
    }
    token(TokenKind::Reserved, k)
}

// Where the run of idchars and strings from `at` on stops, or the fault of a string in it.
// https://webassembly.github.io/spec/core/text/values.html#text-string
#[tactic(auto, using(crate::proofs::RunLaws::ran_none))]
pub fn parse_run(s: &[u8], at: usize, settings: Settings, t: &Table) -> Result<usize, Fault>
    requires at_in_bounds { at ≤ length s.now }
    requires well_formed { WellFormed (drop at s.now) }
    ensures { result ≡ run.on at
        (run.walk settings (suc (length (drop at s.now))) (drop at s.now)) }
{
    let mut i = at;
    loop {
        let k = lex_classes::idchars_end(s, i, t);
        if !is_at(s, k, b'"') {
            return Ok(k);
        }
        i = lex_strings::parse_str(s, k + 1, settings, t)?;
    }
}

// Whether the byte at a place, which may be any, is b.
#[tactic(auto, using(crate::proofs::SliceLaws::nexts))]
pub fn is_at(s: &[u8], at: usize, b: u8) -> bool
    ensures { result ≡ next b (drop at s.now) }
{
    if s.len() <= at {
        return false;
    }
    s[at] == b
}
