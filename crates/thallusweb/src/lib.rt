// What users link: every public call (docs/PROMISES.md), and the calls for C, which `thallusweb_c` exports. A call for C
// puts its answer into an array of words; include/thallusweb.h explains each word.
#![tactic(auto)]

ghost use Rattle.std.specs.Prelude.{◌≡◌};
ghost use Rattle.c_words.specs.Words.{words_version};
ghost use Rattle.c_asked.specs.Asked.{settings_of};
ghost use Rattle.c_spots.specs.Spots.{PartWords, MovedWords};
ghost use Rattle.thallusweb.specs.Promises.{Utf8Checked, ParsedWords, AnnotatedWords};
ghost use Rattle.thallusweb.specs.Promises.{ListedWords, ReadWords, NameWords, IntegerSignWords};
ghost use Rattle.thallusweb.specs.Promises.{IntegerWords, FloatSignWords, FoldedWords, MessageWords};

pub use lex_calls::{annotation, parse};
pub use lex_forms::fold;
pub use lex_list::list;
pub use lex_struct::Lexer;
pub use messages::message;
pub use place_counter::{move_over, new_place};
pub use read_float::{exponent, float_sign, fraction, integral, payload};
pub use read_integer::{integer, integer_sign};
pub use read_second::{part, reading_of};
pub use read_text::{name, src, string};
pub use read_value::{integer_32, integer_64};
pub use utf8_check::check as check_utf8;

// The number of the words and constants of include/thallusweb.h, which is its THALLUSWEB_VERSION.
pub fn thallusweb_version() -> u32
    ensures { result ≡ words_version }
{
    c_words::version()
}

// Whether the text is UTF-8: 0, or 2 with valid-up-to and error length.
#[tactic(auto, using(crate::proofs::WordLaws::checked_words_lem))]
pub fn thallusweb_utf8_check(text: &[u8], out: &mut [u64; 3])
    ensures { Utf8Checked text.now out.new }
{
    *out = c_words::checked_words(utf8_check::check(text));
}

// One token at a position: what was found in five words, and the position afterwards.
#[tactic(auto, using(crate::proofs::WordLaws::parsed_words_lem))]
pub fn thallusweb_parse(text: &[u8], settings: u32, position: usize, out: &mut [u64; 6])
    ensures { ParsedWords (settings_of settings) text.now position out.new }
{
    *out = c_words::parsed_words(lex_calls::parse(text, c_asked::settings_of(settings), position));
}

// The annotation at a position: what was found, in five words.
#[tactic(auto, using(crate::proofs::WordLaws::annotated_words))]
pub fn thallusweb_annotation(text: &[u8], settings: u32, position: usize, out: &mut [u64; 5])
    ensures { AnnotatedWords (settings_of settings) text.now position out.new }
{
    *out = c_words::found_words(lex_calls::annotation(
        text,
        c_asked::settings_of(settings),
        position,
    ));
}

// The listing: why it stopped in five words, how many tokens it handed out, and the position.
#[tactic(auto, using(crate::proofs::WordLaws::listed_words_lem))]
pub fn thallusweb_list(
    text: &[u8],
    settings: u32,
    start: usize,
    budget: usize,
    list: &mut [u8],
    out: &mut [u64; 7],
)
    ensures { ListedWords (settings_of settings) text.now start budget list.old
        out.new
        list.new }
{
    *out = c_words::listed_words(lex_list::list(
        text,
        c_asked::settings_of(settings),
        start,
        budget,
        list,
    ));
}

// The position past the form that begins at a position, or a refusal, in five words.
#[tactic(auto, using(crate::proofs::WordLaws::folded_words_lem))]
pub fn thallusweb_fold(text: &[u8], settings: u32, position: usize, out: &mut [u64; 5])
    ensures { FoldedWords (settings_of settings) text.now position out.new }
{
    *out = c_words::folded_words(lex_forms::fold(text, c_asked::settings_of(settings), position));
}

// A reader's first call, by the reader's number and the token's three words.
#[tactic(auto, using(crate::proofs::WordLaws::reads))]
pub fn thallusweb_read(
    text: &[u8],
    reader: u64,
    token: &[u64; 3],
    buffer: &mut [u8],
    out: &mut [u64; 5],
)
    ensures { ReadWords reader text.now token.now buffer.old out.new
        buffer.new }
{
    *out = c_read_words::reading_words(read_call::read(
        text,
        reader,
        c_asked::token_of(*token),
        buffer,
    ));
}

// The name of an id or an annotation, by the token's three words; the last word says which of the two it is.
#[tactic(auto, using(crate::proofs::WordLaws::names))]
pub fn thallusweb_name(text: &[u8], token: &[u64; 3], buffer: &mut [u8], out: &mut [u64; 6])
    ensures { NameWords text.now token.now buffer.old out.new
        buffer.new }
{
    *out = c_read_words::name_words(read_text::name(text, c_asked::token_of(*token), buffer));
}

// An integer's sign.
#[tactic(auto, using(crate::proofs::WordLaws::integer_signs))]
pub fn thallusweb_integer_sign(text: &[u8], token: &[u64; 3], out: &mut [u64; 5])
    ensures { IntegerSignWords text.now token.now out.new }
{
    *out = c_read_words::integer_sign_words(read_integer::integer_sign(
        text,
        c_asked::token_of(*token),
    ));
}

// An integer's value: its word of 32 bits.
#[tactic(auto, using(crate::proofs::WordLaws::integers))]
pub fn thallusweb_integer_32(text: &[u8], token: &[u64; 3], out: &mut [u64; 5])
    ensures { IntegerWords 32 text.now token.now out.new }
{
    *out = c_read_words::integer_words(read_value::integer_32(text, c_asked::token_of(*token)));
}

// An integer's value: its word of 64 bits.
#[tactic(auto, using(crate::proofs::WordLaws::integers))]
pub fn thallusweb_integer_64(text: &[u8], token: &[u64; 3], out: &mut [u64; 5])
    ensures { IntegerWords 64 text.now token.now out.new }
{
    *out = c_read_words::integer_words(read_value::integer_64(text, c_asked::token_of(*token)));
}

// Whether a float is negative.
#[tactic(auto, using(crate::proofs::WordLaws::float_signs))]
pub fn thallusweb_float_sign(text: &[u8], token: &[u64; 3], out: &mut [u64; 5])
    ensures { FloatSignWords text.now token.now out.new }
{
    *out = c_read_words::float_sign_words(read_float::float_sign(text, c_asked::token_of(*token)));
}

// A reader's second call, given the answer of the first.
pub fn thallusweb_part(text: &[u8], buffer: &[u8], answer: &[u64; 5], out: &mut [u64; 3])
    ensures { PartWords text.now buffer.now answer.now out.new }
{
    *out = c_spots::part_of(text, buffer, *answer);
}

// The message of the error that has the number and the values.
#[tactic(auto, using(crate::proofs::WordLaws::told_words))]
pub fn thallusweb_message(
    number: u64,
    first: u64,
    second: u64,
    buffer: &mut [u8],
    out: &mut [u64; 5],
)
    ensures { MessageWords number first second buffer.old out.new buffer.new }
{
    *out = c_read_words::message_words(messages::message_of(number, first, second, buffer));
}

// Moves the place counter, line, column and whether the last byte passed is a CR, over a token's bytes; returns false,
// and leaves it, if 35 refuses that.
pub fn thallusweb_move(place: &mut [u32; 3], bytes: &[u8]) -> bool
    ensures { MovedWords place.old bytes.now result place.new }
{
    c_spots::moved(place, bytes)
}
