// Which texts and positions are refused before lexing.

#![tactic(auto)]

ghost use Rattle.std.specs.Prelude.{◌≡◌, OnOk, IfOk, IfErr};
ghost use Rattle.wat.specs.Calls.{Text, Stands};
ghost use Rattle.lex_entry.specs.Checks.{Refuses, RefusesText};

use std::marker::Model;
use wat::{Refusal, Refused, Token};

// A text that is checked, and a position that stands in it. What reads on from there takes this in place of the two,
// and asks no more.
#[derive(Drop)]
pub struct Rest<'a> {
    text: &'a [u8],
    at: usize,
}

impl<'a> Model for Rest<'a> {
    ghost use Rattle.wat.specs.Calls.{Stands};
    ghost use Rattle.lex_entry.specs.Left.{Left};

    ghost Value = { Left };

    ghost view = { λ r. record { text = r.text.now; at = r.at } };

    ghost invariant = { λ r. Stands r.text.now r.at };
}

impl<'a> Rest<'a> {
    // The whole text.
    pub fn text(&self) -> &'a [u8]
        ensures { result.now ≡ self.now.text }
    {
        self.text
    }

    // The position, a byte offset in it.
    pub fn at(&self) -> usize
        ensures at { result ≡ self.now.at }
        ensures stands { Stands self.now.text self.now.at }
    {
        self.at
    }
}

// A text and a position, where none of 1 to 4 refuses them: as `check_text`, and then the position is past the end, or
// inside a character.
#[tactic(auto, using(crate::proofs::CheckLaws::placed))]
pub fn enter<'a>(text: &'a [u8], pos: usize) -> Result<Rest<'a>, Refused>
    ensures ok { IfOk result (λ r. r ≡ record { text = text.now; at = pos }) }
    ensures err { IfErr result (Refuses text.now pos) }
{
    check_text(text, pos)?;
    if text.len() < pos {
        return Err(Refused {
            refusal: Refusal::PastEnd,
            place: pos,
        });
    }
    if !utf8_chars::is_char_boundary(text, pos) {
        return Err(Refused {
            refusal: Refusal::InsideCharacter,
            place: pos,
        });
    }
    Ok(Rest { text, at: pos })
}

// 1 and 2, which do not depend on the position: the text is too long, or no UTF-8.
#[tactic(auto, using(crate::proofs::CheckLaws::checked))]
pub fn check_text(text: &[u8], pos: usize) -> Result<(), Refused>
    ensures ok { OnOk result (Text text.now) }
    ensures err { IfErr result (RefusesText text.now pos) }
{
    if Token::MAX_TEXT < text.len() {
        return Err(Refused {
            refusal: Refusal::TooLong,
            place: pos,
        });
    }
    match utf8_check::check(text) {
        Ok(()) => Ok(()),
        Err(e) => Err(Refused {
            refusal: Refusal::NotUtf8 {
                valid_up_to: e.valid_up_to,
                error_len: e.error_len,
            },
            place: e.valid_up_to,
        }),
    }
}
