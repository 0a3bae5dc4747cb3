// What C links: each call of include/thallusweb.h, made by the function of `thallusweb` that has its name.
#![tactic(auto)]

ghost use Rattle.std.specs.Prelude.{◌≡◌};
ghost use Rattle.c_words.specs.Words.{words_version};
ghost use Rattle.c_asked.specs.Asked.{settings_of};
ghost use Rattle.c_spots.specs.Spots.{PartWords, MovedWords};
ghost use Rattle.thallusweb.specs.Promises.{Utf8Checked, ParsedWords, AnnotatedWords};
ghost use Rattle.thallusweb.specs.Promises.{ListedWords, ReadWords, NameWords, IntegerSignWords};
ghost use Rattle.thallusweb.specs.Promises.{IntegerWords, FloatSignWords, FoldedWords, MessageWords};

// The number of the words and constants of include/thallusweb.h, which is its THALLUSWEB_VERSION.
#[unsafe(no_mangle)]
pub extern "C" fn thallusweb_version() -> u32
    ensures { result ≡ words_version }
{
    thallusweb::thallusweb_version()
}

// Whether the text is UTF-8: 0, or 2 with valid-up-to and error length.
#[unsafe(no_mangle)]
pub extern "C" fn thallusweb_utf8_check(text: &[u8], out: &mut [u64; 3])
    ensures { Utf8Checked text.now out.new }
{
    thallusweb::thallusweb_utf8_check(text, out);
}

// One token at a position: what was found in five words, and the position afterwards.
#[unsafe(no_mangle)]
pub extern "C" fn thallusweb_parse(text: &[u8], settings: u32, position: usize, out: &mut [u64; 6])
    ensures { ParsedWords (settings_of settings) text.now position out.new }
{
    thallusweb::thallusweb_parse(text, settings, position, out);
}

// The annotation at a position: what was found, in five words.
#[unsafe(no_mangle)]
pub extern "C" fn thallusweb_annotation(
    text: &[u8],
    settings: u32,
    position: usize,
    out: &mut [u64; 5],
)
    ensures { AnnotatedWords (settings_of settings) text.now position out.new }
{
    thallusweb::thallusweb_annotation(text, settings, position, out);
}

// The listing: why it stopped in five words, how many tokens it handed out, and the position.
#[unsafe(no_mangle)]
pub extern "C" fn thallusweb_list(
    text: &[u8],
    settings: u32,
    start: usize,
    budget: usize,
    list: &mut [u8],
    out: &mut [u64; 7],
)
    ensures { ListedWords (settings_of settings) text.now start budget list.old
        out.new
        list.new }
{
    thallusweb::thallusweb_list(text, settings, start, budget, list, out);
}

// The position past the form that begins at a position, or a refusal, in five words.
#[unsafe(no_mangle)]
pub extern "C" fn thallusweb_fold(text: &[u8], settings: u32, position: usize, out: &mut [u64; 5])
    ensures { FoldedWords (settings_of settings) text.now position out.new }
{
    thallusweb::thallusweb_fold(text, settings, position, out);
}

// A reader's first call, by the reader's number and the token's three words.
#[unsafe(no_mangle)]
pub extern "C" fn thallusweb_read(
    text: &[u8],
    reader: u64,
    token: &[u64; 3],
    buffer: &mut [u8],
    out: &mut [u64; 5],
)
    ensures { ReadWords reader text.now token.now buffer.old out.new
        buffer.new }
{
    thallusweb::thallusweb_read(text, reader, token, buffer, out);
}

// The name of an id or an annotation, by the token's three words; the last word says which of the two it is.
#[unsafe(no_mangle)]
pub extern "C" fn thallusweb_name(
    text: &[u8],
    token: &[u64; 3],
    buffer: &mut [u8],
    out: &mut [u64; 6],
)
    ensures { NameWords text.now token.now buffer.old out.new
        buffer.new }
{
    thallusweb::thallusweb_name(text, token, buffer, out);
}

// An integer's sign.
#[unsafe(no_mangle)]
pub extern "C" fn thallusweb_integer_sign(text: &[u8], token: &[u64; 3], out: &mut [u64; 5])
    ensures { IntegerSignWords text.now token.now out.new }
{
    thallusweb::thallusweb_integer_sign(text, token, out);
}

// An integer's value: its word of 32 bits.
#[unsafe(no_mangle)]
pub extern "C" fn thallusweb_integer_32(text: &[u8], token: &[u64; 3], out: &mut [u64; 5])
    ensures { IntegerWords 32 text.now token.now out.new }
{
    thallusweb::thallusweb_integer_32(text, token, out);
}

// An integer's value: its word of 64 bits.
#[unsafe(no_mangle)]
pub extern "C" fn thallusweb_integer_64(text: &[u8], token: &[u64; 3], out: &mut [u64; 5])
    ensures { IntegerWords 64 text.now token.now out.new }
{
    thallusweb::thallusweb_integer_64(text, token, out);
}

// Whether a float is negative.
#[unsafe(no_mangle)]
pub extern "C" fn thallusweb_float_sign(text: &[u8], token: &[u64; 3], out: &mut [u64; 5])
    ensures { FloatSignWords text.now token.now out.new }
{
    thallusweb::thallusweb_float_sign(text, token, out);
}

// A reader's second call, given the answer of the first.
#[unsafe(no_mangle)]
pub extern "C" fn thallusweb_part(text: &[u8], buffer: &[u8], answer: &[u64; 5], out: &mut [u64; 3])
    ensures { PartWords text.now buffer.now answer.now out.new }
{
    thallusweb::thallusweb_part(text, buffer, answer, out);
}

// The message of the error that has the number and the values.
#[unsafe(no_mangle)]
pub extern "C" fn thallusweb_message(
    number: u64,
    first: u64,
    second: u64,
    buffer: &mut [u8],
    out: &mut [u64; 5],
)
    ensures { MessageWords number first second buffer.old out.new buffer.new }
{
    thallusweb::thallusweb_message(number, first, second, buffer, out);
}

// Moves the place counter, line, column and whether the last byte passed is a CR, over a token's bytes; returns false,
// and leaves it, if 35 refuses that.
#[unsafe(no_mangle)]
pub extern "C" fn thallusweb_move(place: &mut [u32; 3], bytes: &[u8]) -> bool
    ensures { MovedWords place.old bytes.now result place.new }
{
    thallusweb::thallusweb_move(place, bytes)
}
