// The call `fold`: from the opening parenthesis of a form to the position past its closing one.

#![tactic(auto)]

ghost use Rattle.std.specs.Prelude.{◌≡◌};
ghost use Rattle.wat.specs.declared.Refusal.TheVariants.{NotThatKind};
ghost use Rattle.wat.specs.Calls.{Stands};
ghost use Rattle.wat_forms.specs.Folded as folded;
ghost use Rattle.wat_forms.specs.Forms.{Folds};
ghost use Rattle.lex_forms.specs.Inner.{InnerFolds};

use lex_classes::Table;
use lex_entry::Rest;
use wat::{Lexeme, Refusal, Refused, Settings, TokenKind};
use wat_forms::{FoldError, LEVELS};

// The position past the form that begins at a position.
#[tactic(auto, using(crate::proofs::FormSteps::refusals))]
pub fn fold(text: &[u8], settings: Settings, pos: usize) -> Result<usize, FoldError>
    ensures { Folds settings text.now pos result }
{
    let rest = lex_entry::enter(text, pos)?;
    fold_at(&rest, settings)
}

// The same where the position stands.
#[tactic(auto, using(crate::proofs::FormSteps::folding))]
fn fold_at(rest: &Rest, settings: Settings) -> Result<usize, FoldError>
    ensures { Folds settings rest.now.text rest.now.at result }
{
    let text = rest.text();
    let pos = rest.at();
    let t = Table::new();
    match lex_calls::next(text, pos, settings, &t) {
        Ok(Some(Lexeme { kind, len })) => match kind {
            TokenKind::LParen => inner(text, pos + len, LEVELS - 1, settings, &t),
            _ => no_form(),
        },
        Ok(None) => no_form(),
        Err(_) => no_form(),
    }
}

// 31, which has no place.
fn no_form() -> Result<usize, FoldError>
    ensures { result ≡ folded.Refused NotThatKind 0 }
{
    Err(FoldError::Refused(Refused {
        refusal: Refusal::NotThatKind,
        place: 0,
    }))
}

// The position past the form in which a place stands, if nothing refuses it before. In it `left` levels more may be
// opened. Each form in it is passed by a call of the function itself, and reading goes on behind it, so that no
// token is lexed twice. It takes a place that was reached, and no `Rest`: `enter` alone makes one, and checks the whole
// text.
#[tactic(auto, using(crate::proofs::FormSteps::inners))]
fn inner(
    text: &[u8],
    start: usize,
    left: usize,
    settings: Settings,
    t: &Table,
) -> Result<usize, FoldError>
    requires stands { Stands text.now start }
    ensures { InnerFolds settings text.now start left result }
{
    let mut at = start;
    loop {
        match lex_calls::next(text, at, settings, t) {
            Ok(None) => return Err(FoldError::Unclosed { place: at }),
            Err(fault) => {
                let error = fault.error;
                return Err(FoldError::Refused(Refused {
                    refusal: Refusal::Lexical(error),
                    place: at + fault.place,
                }));
            }
            Ok(Some(Lexeme { kind, len })) => match kind {
                TokenKind::RParen => return Ok(at + len),
                TokenKind::LParen => {
                    if left == 0 {
                        return Err(FoldError::TooDeep { place: at });
                    }
                    at = inner(text, at + len, left - 1, settings, t)?;
                }
                _ => at += len,
            },
        }
    }
}
