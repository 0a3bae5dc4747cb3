// The message of an error: the Rust's `Display` of `LexError`, into a lent buffer, as specs/Messages defines it.
// A u32 becomes a usize by `as`: std has no `From` for that.
#![tactic(auto)]

ghost use Rattle.std.specs.Prelude.{◌+◌, ◌^◌, ◌≤◌, ◌<◌, ◌≡◌, ◌++◌, length, IfSome, IfNone};
ghost use Rattle.std.proofs.Math.Option.{none, some};
ghost use Rattle.wat.specs.Bytes.{bytes};
ghost use Rattle.wat.specs.StringModel.{letter_of};
ghost use Rattle.buffers.specs.Writing.{Added};
ghost use Rattle.messages.specs.Messages.{figure, named, Tells};
ghost use Rattle.messages.specs.ByNumber.{TellsBy};
ghost use Rattle.messages.specs.Spelled.{hex, shown, longest_lead, longest_rest, lead as lead_of};
ghost use Rattle.messages.specs.MessageModel.{known, wide, tellable, answer};
ghost use Rattle.messages.specs.MessageModel.{rest as rest_of, message as message_of};

use wat::Refusal;

// Writes an error's message to the front of the buffer, and answers how many bytes it has. Refused by 34 if there is
// none, then by 32 if it is too long.
pub fn message(r: Refusal, buffer: &mut [u8]) -> Result<usize, Refusal>
    ensures { Tells r buffer.old result buffer.new }
{
    let c = codes::refusal_code(r);
    tell(
        u64::from(c.number),
        narrow(c.first),
        narrow(c.second),
        buffer,
    )
}

// The same for the error that has the number and, of the values, those that it carries. 34 if no error has them.
pub fn message_of(number: u64, first: u64, second: u64, buffer: &mut [u8]) -> Result<usize, Refusal>
    ensures { TellsBy number first second buffer.old result buffer.new }
{
    if is_wide(number, first, second) {
        return Err(Refusal::NoMessage);
    }
    tell(number, narrow(first), narrow(second), buffer)
}

// Whether an error carries a value that is over 32 bits. The lengths of 22 may be.
#[tactic(auto, unfolding(wat::specs::Bytes::between, crate::specs::MessageModel::wide))]
fn is_wide(number: u64, first: u64, second: u64) -> bool
    ensures { result ≡ wide number first second }
{
    let one = ((11 <= number) & (number <= 14)) | (number == 16) | (number == 19) | (number == 21);
    ((number == 16) & (0xFFFF_FFFF < second)) | (one & (0xFFFF_FFFF < first))
}

// A value of 32 bits as it is. What may be wider no message shows: the lengths of 2 and 22, and what is not carried.
fn narrow(value: u64) -> u32
    ensures { value < 2 ^ 32 → result ≡ value }
{
    u32::try_from(value).unwrap_or(0)
}

// The longest text that a message begins with.
const LONGEST_LEAD: usize = 43;

// The longest that follows one: two characters of twelve bytes each, the text between them and a quote.
const LONGEST_REST: usize = 38;

// What both calls return. The message is made in a buffer that has room for any lead with any rest, and copied.
#[tactic(auto, using(crate::proofs::AnswerLaws::answers))]
fn tell(number: u64, first: u32, second: u32, buffer: &mut [u8]) -> Result<usize, Refusal>
    ensures { (result, buffer.new) ≡ answer number first second buffer.old }
{
    if !has_message(number, first, second) {
        return Err(Refusal::NoMessage);
    }
    let mut text = [0u8; LONGEST_LEAD + LONGEST_REST];
    let n = fmt(number, first, second, &mut text);
    if buffer.len() < n {
        return Err(Refusal::BufferTooShort);
    }
    buffers::append(buffer, 0, &text[..n]);
    Ok(n)
}

// Writes the message to the front of `out`; returns its length.
#[tactic(auto, using(crate::proofs::CharLaws::texts))]
fn fmt(number: u64, first: u32, second: u32, out: &mut [u8]) -> usize
    requires { (10 ≤ number) × (number ≤ 24) × (length out.old ≡ longest_lead + longest_rest) }
    ensures { Added out.old out.new 0 (message_of number first second) result }
{
    let at = buffers::append(out, 0, lead(number));
    rest(number, first, second, out, at)
}

// What a message says after its lead: the characters that the error carries, or the number.
#[tactic(auto, using(crate::proofs::AnswerLaws::rests))]
fn rest(number: u64, first: u32, second: u32, out: &mut [u8], at: usize) -> usize
    requires { at + longest_rest ≤ length out.old }
    ensures { Added out.old out.new at (rest_of number first second) result }
{
    match number {
        11..=14 | 21 => quoted(out, at, first),
        16 => expected(out, at, first, second),
        19 => lower_hex(out, at, first),
        _ => at,
    }
}

// An error of the Rust, which has a message: 15, `InvalidDigit`, it builds nowhere, and 25 it does not know.
#[tactic(auto, unfolding(wat::specs::Bytes::between, crate::specs::MessageModel::known))]
fn is_error(number: u64) -> bool
    ensures { result ≡ known number }
{
    (10 <= number) & (number <= 24) & !(number == 15)
}

// Whether there is a message: an error's number, characters that are scalar values, a confusing one of the nine.
#[tactic(auto, using(crate::proofs::AnswerLaws::asked))]
fn has_message(number: u64, first: u32, second: u32) -> bool
    ensures { result ≡ tellable number first second }
{
    if !is_error(number) {
        return false;
    }
    match number {
        11..=14 => lex_classes::is_scalar(first),
        16 => lex_classes::is_scalar(first) & lex_classes::is_scalar(second),
        21 => lex_classes::is_confusing_unicode(first),
        _ => true,
    }
}

// ---- pieces of messages

fn hex_digit(d: u32) -> u8
    requires { d < 16 }
    ensures { result ≡ figure d }
{
    let figures = b"0123456789abcdef";
    let i = d as usize;
    figures[i]
}

// Rust's `{:x}`: at most eight digits, the highest first.
#[tactic(auto, using(crate::proofs::HexLaws::digits))]
fn lower_hex(out: &mut [u8], at: usize, n: u32) -> usize
    requires { at + 8 ≤ length out.old }
    ensures { Added out.old out.new at (hex n) result }
{
    if n < 16 {
        out[at] = hex_digit(n);
        return at + 1;
    }
    let end = lower_hex(out, at, n / 16);
    out[end] = hex_digit(n % 16);
    end + 1
}

// The letter that stands for a character behind a backslash.
#[tactic(auto, unfolding(crate::specs::Messages::named))]
fn escape_letter(c: u32) -> Option<u8>
    ensures letter { IfSome result (λ l. letter_of named c ≡ some l) }
    ensures nameless { IfNone result (letter_of named c ≡ none) }
{
    match c {
        0x09 => Some(b't'),
        0x0D => Some(b'r'),
        0x0A => Some(b'n'),
        0x5C => Some(b'\\'),
        0x27 => Some(b'\''),
        _ => None,
    }
}

// A character as a message shows it.
#[tactic(auto, using(crate::proofs::CharLaws::characters), unfolding(crate::specs::Spelled::shown))]
fn escape_char(out: &mut [u8], at: usize, c: u32) -> usize
    requires { at + 12 ≤ length out.old }
    ensures { Added out.old out.new at (shown c) result }
{
    if let Some(letter) = escape_letter(c) {
        out[at] = b'\\';
        out[at + 1] = letter;
        return at + 2;
    }
    match c {
        0x20..=0x7E => {
            out[at] = c as u8;
            at + 1
        }
        _ => {
            let open = buffers::append(out, at, b"\\u{");
            let end = lower_hex(out, open, c);
            buffers::append(out, end, b"}")
        }
    }
}

// A character, and the quote that closes it.
#[tactic(auto, using(crate::proofs::CharLaws::texts))]
fn quoted(out: &mut [u8], at: usize, c: u32) -> usize
    requires { at + 13 ≤ length out.old }
    ensures { Added out.old out.new at (shown c ++ bytes "'") result }
{
    let close = escape_char(out, at, c);
    buffers::append(out, close, b"'")
}

// Two characters: the one that had to come, and the one that came.
#[tactic(auto, using(crate::proofs::CharLaws::texts))]
fn expected(out: &mut [u8], at: usize, wanted: u32, found: u32) -> usize
    requires { at + longest_rest ≤ length out.old }
    ensures { Added out.old out.new at
        (shown wanted ++ (bytes "' but found '" ++ (shown found ++ bytes "'"))) result }
{
    let close = escape_char(out, at, wanted);
    let open = buffers::append(out, close, b"' but found '");
    quoted(out, open, found)
}

// The text with which the message of an error begins, by the error's number.
#[tactic(auto, unfolding(crate::specs::Spelled::lead))]
fn lead(number: u64) -> &'static [u8]
    requires { (10 ≤ number) × (number ≤ 24) }
    ensures text { result.now ≡ lead_of number }
    ensures short { length result.now ≤ longest_lead }
{
    match number {
        10 => b"unterminated block comment",
        11 => b"unexpected character '",
        12 => b"invalid character in string '",
        13 => b"invalid string escape '",
        14 => b"invalid hex digit '",
        16 => b"expected '",
        17 => b"unexpected end-of-file",
        18 => b"number is too big to parse",
        19 => b"invalid unicode scalar value 0x",
        20 => b"bare underscore in numeric literal",
        21 => b"likely-confusing unicode character found '",
        22 => b"malformed UTF-8 encoding of string-based id",
        23 => b"empty identifier",
        24 => b"empty annotation id",
        _ => b"",
    }
}
