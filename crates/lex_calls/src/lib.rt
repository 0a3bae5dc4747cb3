// The calls for one token, `parse` and `annotation`: the Rust's `Lexer`, with the text, its flag and the position as
// plain parameters, and the errors.
// A length, a usize, becomes a u32 by `as`: std has no `From` for that.

#![tactic(auto)]

ghost use Rattle.std.specs.Prelude.{◌≡◌, ◌-◌, ◌≤◌, ◌<◌, length, drop};
ghost use Rattle.wat.specs.declared.Settings.{Settings};
ghost use Rattle.wat.specs.Utf8.{WellFormed};
ghost use Rattle.wat.specs.StringModel.{peek};
ghost use Rattle.wat.specs.LexModel as model;
ghost use Rattle.wat.specs.Lexing.{Lexed};
ghost use Rattle.wat.specs.Calls.{Text, Parses, Annotates};
ghost use Rattle.lex_token.specs.Steps.{Faults};

use lex_classes::Table;
use lex_entry::Rest;
use utf8_chars::Char;
use wat::{
    Family, Fault, Hidden, LexError, Lexeme, Parsed, Refusal, Refused, Settings, Token, TokenKind,
};

// One token at a position.
#[tactic(auto, using(crate::proofs::CallLaws::parses))]
pub fn parse(text: &[u8], settings: Settings, pos: usize) -> Parsed
    ensures { Parses settings text.now pos result }
{
    match lex_entry::enter(text, pos) {
        Err(Refused { refusal, place }) => Parsed {
            found: Err(Refused { refusal, place }),
            position: pos,
        },
        Ok(rest) => parse_at(&rest, settings),
    }
}

// The answer where the position stands, counted from the text's start.
#[tactic(auto, using(crate::proofs::CallLaws::parses))]
fn parse_at(rest: &Rest, settings: Settings) -> Parsed
    ensures { Parses settings rest.now.text rest.now.at result }
{
    let text = rest.text();
    let pos = rest.at();
    let t = Table::new();
    match next(text, pos, settings, &t) {
        Ok(None) => Parsed {
            found: Ok(None),
            position: pos,
        },
        Ok(Some(Lexeme { kind, len })) => Parsed {
            found: Ok(Some(Token {
                kind,
                offset: pos,
                len: len as u32,
            })),
            position: pos + len,
        },
        Err(fault) => {
            let error = fault.error;
            Parsed {
                found: Err(Refused {
                    refusal: Refusal::Lexical(error),
                    place: pos + fault.place,
                }),
                position: pos + fault.after,
            }
        }
    }
}

// What is next at a place of a checked text. Every walk over the tokens of a text calls this, except the listing's
// loop. Places count from there.
#[tactic(auto, using(crate::proofs::CallLaws::nexts))]
pub fn next(text: &[u8], at: usize, settings: Settings, t: &Table) -> Result<Option<Lexeme>, Fault>
    requires at_in_bounds { at ≤ length text.now }
    requires well_formed { WellFormed (drop at text.now) }
    ensures { Lexed settings (drop at text.now) result }
{
    if at == text.len() {
        return Ok(None);
    }
    match lex_token::parse_kind(text, at, settings, t) {
        Some(step) => Ok(Some(Lexeme {
            kind: step.kind.kind(),
            len: step.end - at,
        })),
        None => {
            let fault = fault_at(text, at, settings, t);
            let error = fault.error;
            Err(Fault {
                error,
                place: fault.place - at,
                after: fault.after - at,
            })
        }
    }
}

// The error at a place before the end at which `parse_kind` finds no token.
pub fn fault_at(s: &[u8], at: usize, settings: Settings, t: &Table) -> Fault
    requires at_in_bounds { at < length s.now }
    requires well_formed { WellFormed (drop at s.now) }
    ensures { Faults at (model.lex settings (drop at s.now)) result }
{
    match t.begins(s[at]) {
        Family::OpenParen => block_fault(s, at),
        Family::Semi => comment_fault(s, at, lex_comments::line_end(s, at)),
        Family::Run => run_fault(s, at, settings, t),
        Family::Other => unexpected(s, at),
        Family::Spaces => no_error(at),
        Family::CloseParen => no_error(at),
        Family::Single => no_error(at),
    }
}

// 10, or 21 in a block comment.
#[tactic(auto, using(crate::proofs::FaultLaws::block_faults))]
fn block_fault(s: &[u8], at: usize) -> Fault
    requires at_in_bounds { at < length s.now }
    requires well_formed { WellFormed (drop at s.now) }
    ensures { (σ : Settings) → Faults at (model.lex_by σ Family.OpenParen (drop at s.now)) result }
{
    if !lex_token::is_at(s, at + 1, b';') {
        return no_error(at);
    }
    let Some(end) = lex_comments::block_end(s, at + 2) else {
        return Fault {
            error: LexError::DanglingBlockComment,
            place: at,
            after: at,
        };
    };
    comment_fault(s, at, end)
}

// 21 in the comment from `at` to `end`.
#[tactic(auto, using(crate::proofs::FaultLaws::comment_faults))]
fn comment_fault(s: &[u8], at: usize, end: usize) -> Fault
    requires at_le_end { (at ≤ end) × (end ≤ length s.now) }
    requires well_formed { WellFormed (drop at s.now) }
    ensures { (σ : Settings) (k : TokenKind)
        → Faults at (model.comment σ k (end - at) (drop at s.now)) result }
{
    match lex_comments::check_confusing_comment(s, at, end) {
        Hidden::Found {
            at: place,
            character,
        } => Fault {
            error: LexError::ConfusingUnicode(character),
            place,
            after: end,
        },
        Hidden::Clear => no_error(at),
    }
}

// 12 to 20, and 21 in a string.
fn run_fault(s: &[u8], at: usize, settings: Settings, t: &Table) -> Fault
    requires at_in_bounds { at ≤ length s.now }
    requires well_formed { WellFormed (drop at s.now) }
    ensures { Faults at (model.lex_by settings Family.Run (drop at s.now)) result }
{
    match lex_token::parse_run(s, at, settings, t) {
        Err(fault) => fault,
        Ok(_) => no_error(at),
    }
}

// 11.
fn unexpected(s: &[u8], at: usize) -> Fault
    ensures { Faults at (model.other_by (peek (drop at s.now))) result }
{
    match utf8_chars::decode(s, at) {
        Some(Char { value, len: _ }) => Fault {
            error: LexError::Unexpected(value),
            place: at,
            after: at,
        },
        None => no_error(at),
    }
}

// Unreachable; the value is never used. An `Option<Fault>` would move the case that cannot be to both callers of
// `fault_at`, and is no plainer.
fn no_error(at: usize) -> Fault {
    Fault {
        error: LexError::UnexpectedEof,
        place: at,
        after: at,
    }
}

// The annotation at a position, if one is there. A position at which no `@` stands is not looked at further.
#[tactic(auto, using(lex_entry::proofs::CheckLaws::annotates))]
pub fn annotation(text: &[u8], settings: Settings, pos: usize) -> Result<Option<Token>, Refused>
    ensures { Annotates settings text.now pos result }
{
    lex_entry::check_text(text, pos)?;
    annotation_at(text, settings, pos)
}

// The same in a text that is checked.
#[tactic(auto, using(crate::proofs::CallLaws::signs))]
fn annotation_at(text: &[u8], settings: Settings, pos: usize) -> Result<Option<Token>, Refused>
    requires { Text text.now }
    ensures { Annotates settings text.now pos result }
{
    if !lex_token::is_at(text, pos, b'@') {
        return Ok(None);
    }
    let t = Table::new();
    match next(text, pos, settings, &t) {
        Ok(None) => Ok(None),
        Err(fault) => {
            let error = fault.error;
            Err(Refused {
                refusal: Refusal::Lexical(error),
                place: pos + fault.place,
            })
        }
        Ok(Some(Lexeme { kind, len })) => {
            if kind == TokenKind::Annotation {
                return Ok(Some(Token {
                    kind,
                    offset: pos,
                    len: len as u32,
                }));
            }
            Ok(None)
        }
    }
}
