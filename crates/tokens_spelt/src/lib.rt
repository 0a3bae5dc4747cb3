// The words that `wat-tokens` prints of a kind: its name and its detail. specs/Details.antt says which they are.

#![tactic(auto)]

ghost use Rattle.std.specs.Prelude.{◌≡◌, ◌++◌};
ghost use Rattle.wat.specs.Bytes.{bytes};
ghost use Rattle.tokens_spelt.specs.Details.{sign_word, polarity_word, base_word, spelling_word};
ghost use Rattle.tokens_spelt.specs.Spelling.{Parted, Plain};

use wat::{FloatKind, IntegerKind, Sign, TokenKind};

// The words of a line: the name with a space, and the detail in at most three.
#[derive(Clone, Copy)]
pub struct Parts {
    pub name: &'static [u8],
    pub first: &'static [u8],
    pub second: &'static [u8],
    pub third: &'static [u8],
}

// ---- each word: a name with its space, and a word of a detail with the comma that always follows it

const LINE_COMMENT: &[u8] = b"line-comment ";

const BLOCK_COMMENT: &[u8] = b"block-comment ";

const WHITESPACE: &[u8] = b"whitespace ";

const LPAREN: &[u8] = b"lparen ";

const RPAREN: &[u8] = b"rparen ";

const STRING: &[u8] = b"string ";

const ID: &[u8] = b"id ";

const KEYWORD: &[u8] = b"keyword ";

const ANNOTATION: &[u8] = b"annotation ";

const RESERVED: &[u8] = b"reserved ";

const INTEGER: &[u8] = b"integer ";

const INF: &[u8] = b"inf ";

const NAN: &[u8] = b"nan ";

const NAN_VAL: &[u8] = b"nan-val ";

const NORMAL: &[u8] = b"normal ";

const UNSIGNED: &[u8] = b"none,";

const COMMA: &[u8] = b",";

const PLUS: &[u8] = b"plus,";

const MINUS: &[u8] = b"minus,";

const POS: &[u8] = b"pos";

const NEG: &[u8] = b"neg";

const HEX: &[u8] = b"hex,";

const DEC: &[u8] = b"dec,";

const UNDERSCORES: &[u8] = b"underscores";

const PLAIN: &[u8] = b"plain";

const DASH: &[u8] = b"-";

const NOTHING: &[u8] = b"";

// ---- the words of a kind

// A kind whose name is w and whose detail is `-`.
fn plain(w: &'static [u8]) -> Parts
    ensures { Plain w.now result }
{
    Parts {
        name: w,
        first: DASH,
        second: NOTHING,
        third: NOTHING,
    }
}

fn sign_word(s: Sign) -> &'static [u8]
    ensures { result.now ≡ sign_word s ++ bytes "," }
{
    match s {
        Sign::Unsigned => UNSIGNED,
        Sign::Plus => PLUS,
        Sign::Minus => MINUS,
    }
}

fn polarity_word(negative: bool) -> &'static [u8]
    ensures { result.now ≡ polarity_word negative }
{
    if negative {
        return NEG;
    }
    POS
}

fn base_word(hex: bool) -> &'static [u8]
    ensures { result.now ≡ base_word hex ++ bytes "," }
{
    if hex {
        return HEX;
    }
    DEC
}

fn spelling_word(underscores: bool) -> &'static [u8]
    ensures { result.now ≡ spelling_word underscores }
{
    if underscores {
        return UNDERSCORES;
    }
    PLAIN
}

fn integer_parts(i: IntegerKind) -> Parts
    ensures { Parted (TokenKind.Integer i) result }
{
    let s = i.sign;
    Parts {
        name: INTEGER,
        first: sign_word(s),
        second: base_word(i.hex),
        third: spelling_word(i.underscores),
    }
}

fn float_parts(f: FloatKind) -> Parts
    ensures { Parted (TokenKind.Float f) result }
{
    match f {
        FloatKind::Inf { negative } => Parts {
            name: INF,
            first: polarity_word(negative),
            second: NOTHING,
            third: NOTHING,
        },
        FloatKind::Nan { negative } => Parts {
            name: NAN,
            first: polarity_word(negative),
            second: NOTHING,
            third: NOTHING,
        },
        FloatKind::NanVal {
            negative,
            underscores,
        } => Parts {
            name: NAN_VAL,
            first: polarity_word(negative),
            second: COMMA,
            third: spelling_word(underscores),
        },
        FloatKind::Normal { underscores, hex } => Parts {
            name: NORMAL,
            first: base_word(hex),
            second: spelling_word(underscores),
            third: NOTHING,
        },
    }
}

// The words of a kind.
pub fn words_of(k: TokenKind) -> Parts
    ensures { Parted k result }
{
    match k {
        TokenKind::LineComment => plain(LINE_COMMENT),
        TokenKind::BlockComment => plain(BLOCK_COMMENT),
        TokenKind::Whitespace => plain(WHITESPACE),
        TokenKind::LParen => plain(LPAREN),
        TokenKind::RParen => plain(RPAREN),
        TokenKind::String => plain(STRING),
        TokenKind::Id => plain(ID),
        TokenKind::Keyword => plain(KEYWORD),
        TokenKind::Annotation => plain(ANNOTATION),
        TokenKind::Reserved => plain(RESERVED),
        TokenKind::Integer(i) => integer_parts(i),
        TokenKind::Float(f) => float_parts(f),
    }
}
