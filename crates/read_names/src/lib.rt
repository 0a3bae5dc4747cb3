// The values of strings and of names, at places where one stands: a part of the text, or a copy.

#![tactic(auto)]

ghost use Rattle.std.specs.Prelude.{◌≡◌, take, drop};
ghost use Rattle.wat_values.specs.Values.{empty_name};
ghost use Rattle.read_names.specs.Names.{Quoted, Quotes, tail, Sigiled, NameHanded};

use lex_classes::Table;
use wat::{LexError, Refusal, Refused};
use wat_values::{NO_PLACE, Name, NameKind, Part};

// The string of `len` bytes at a place: what stands between its quotes, or a copy if it has an escape. The copy is
// measured first, so that 32 changes no byte.
#[tactic(auto, using(crate::proofs::QuotedLaws::quotes))]
pub fn quoted(
    text: &[u8],
    at: usize,
    len: usize,
    buffer: &mut [u8],
    t: &Table,
) -> Result<Option<Part>, Refused>
    requires quoted { Quoted text.now at len }
    ensures { Quotes (take len (drop at text.now)) at buffer.old result buffer.new }
{
    if !lex_strings::has_escape(text, at, at + len) {
        return Ok(Some(Part::Text {
            start: at + 1,
            len: len - 2,
        }));
    }
    let n = lex_strings::decoded_len(text, at + 1, t);
    if buffer.len() < n {
        return Err(Refused {
            refusal: Refusal::BufferTooShort,
            place: NO_PLACE,
        });
    }
    lex_strings::decode_into(text, at + 1, buffer, t);
    Ok(Some(Part::Buffer { start: 0, len: n }))
}

// The error of a name that is empty.
fn empty_name(kind: NameKind) -> LexError
    ensures { result ≡ empty_name kind }
{
    match kind {
        NameKind::Id => LexError::EmptyId,
        NameKind::Annotation => LexError::EmptyAnnotation,
    }
}

// The name of a token of the kind, after its first byte: a word or a string. Only a decoded copy can fail to be UTF-8
// (22); only a name that is not copied can be empty (23, 24).
#[tactic(auto, using(crate::proofs::NameLaws::named))]
pub fn name(
    text: &[u8],
    offset: usize,
    len: usize,
    kind: NameKind,
    buffer: &mut [u8],
    t: &Table,
) -> Result<Name, Refused>
    requires sigiled { Sigiled kind text.now offset len }
    ensures { NameHanded kind (tail text.now offset len) offset buffer.old result
        buffer.new }
{
    let at = offset + 1;
    let rest = len - 1;
    if rest == 0 {
        return Err(Refused {
            refusal: Refusal::Lexical(empty_name(kind)),
            place: offset,
        });
    }
    if text[at] != b'"' {
        let part = Part::Text {
            start: at,
            len: rest,
        };
        return Ok(Name { kind, part });
    }
    match quoted(text, at, rest, buffer, t) {
        Ok(Some(Part::Text { start, len: n })) => {
            if n == 0 {
                return Err(Refused {
                    refusal: Refusal::Lexical(empty_name(kind)),
                    place: offset,
                });
            }
            let part = Part::Text { start, len: n };
            Ok(Name { kind, part })
        }
        Ok(Some(Part::Buffer { start: _, len: n })) => {
            let copy = &buffer[0..n];
            match utf8_check::check(copy) {
                Ok(()) => {
                    let part = Part::Buffer { start: 0, len: n };
                    Ok(Name { kind, part })
                }
                Err(e) => Err(Refused {
                    refusal: Refusal::Lexical(LexError::InvalidUtf8Id {
                        valid_up_to: e.valid_up_to,
                        error_len: e.error_len,
                    }),
                    place: offset,
                }),
            }
        }
        // A string is never absent, and refused by 32 alone.
        _ => Err(Refused {
            refusal: Refusal::BufferTooShort,
            place: NO_PLACE,
        }),
    }
}
