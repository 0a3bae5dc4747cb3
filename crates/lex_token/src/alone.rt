// A text that is one word, idchars alone, or one string of ASCII characters that stand for themselves: one scan tells
// its kind. Both are ASCII, and so UTF-8 too.
ghost use Rattle.std.specs.Prelude.{◌≡◌, ◌<◌, length, get_or};
ghost use Rattle.wat.specs.Bytes.{byte};
ghost use Rattle.lex_token.specs.Alone.{Alone};

use super::word_kinds;
use codes::KindNumber;
use lex_classes::Table;
use wat::TokenKind;

// The kind of a text that is one such string, or one word; `None` where it is neither.
pub fn token_alone(s: &[u8], t: &Table) -> Option<KindNumber>
    ensures { Alone s.now result }
{
    if *s.first()? == b'"' {
        return string_alone(s, t);
    }
    word_alone(s, t)
}

// The same for a text that begins with a quotation mark, which no word does.
#[tactic(auto, using(crate::proofs::AloneLaws::string_whole))]
fn string_alone(s: &[u8], t: &Table) -> Option<KindNumber>
    requires quoted { (0 < length s.now) × (get_or s.now 0 0 ≡ byte "\"") }
    ensures { Alone s.now result }
{
    let n = s.len();
    let i = lex_classes::ascii_raw_end(s, 1, t);
    if n - i != 1 {
        return None;
    }
    if s[i] != b'"' {
        return None;
    }
    Some(KindNumber::new(TokenKind::String))
}

// The same for a text that begins otherwise.
fn word_alone(s: &[u8], t: &Table) -> Option<KindNumber>
    requires not_empty { 0 < length s.now }
    ensures { Alone s.now result }
{
    let n = s.len();
    if lex_classes::idchars_end(s, 0, t) != n {
        return None;
    }
    Some(word_kinds::word_kind(s, 0, n, t))
}
