// Whole strings as the Rust's `parse_str` reads them: where a string ends or how it fails, and the bytes that a whole
// one stands for. A string is given by the place where its opening quote ends. Places count from the text's start.

#![tactic(auto)]

ghost use Rattle.std.specs.Prelude.{◌≡◌, ◌≤◌, ◌<◌, length, get_or, drop, IfSome};
ghost use Rattle.std.proofs.Math.Seq.{slice};
ghost use Rattle.wat.specs.Bytes.{byte, between, has};
ghost use Rattle.wat.specs.Settings.{lenient};
ghost use Rattle.lex_strings.specs.Raw.{Raw, Raws, Pairs};
ghost use Rattle.lex_strings.specs.Parsing.{string, Parsed, Closes, value_of, Copied};

use lex_classes::Table;
use lex_escapes::Read;
use wat::{Fault, Settings};

// The string whose opening quote ends at `at`: the place past its closing quote.
#[tactic(auto, using(crate::proofs::PassLaws::reached_none))]
pub fn parse_str(s: &[u8], at: usize, settings: Settings, t: &Table) -> Result<usize, Fault>
    requires at_in_bounds { at ≤ length s.now }
    ensures { Parsed settings s.now at result }
{
    let mut i = at;
    loop {
        i = raw_end(s, i, t);
        if pair(s, i, t).is_some() {
            i += 3;
            continue;
        }
        match lex_escapes::element(s, i, settings, t) {
            Read::Byte { value: _, len } => {
                i += len;
            }
            Read::Char { value: _, len } => {
                i += len;
            }
            Read::Quote => {
                return Ok(i + 1);
            }
            Read::Refused(fault) => {
                return Err(Fault {
                    error: fault.error,
                    place: i + fault.place,
                    after: i + fault.after,
                });
            }
        }
    }
}

// Whether the bytes from one place to another have a `\`. A string with none stands for the bytes between its quotes.
// `s[from..to].contains(..)` says it by the byte's `PartialEq`, which proofs do not see to be the definition's `eqb`.
#[tactic(auto, using(crate::proofs::RawLaws::escapes_sought))]
pub fn has_escape(s: &[u8], from: usize, to: usize) -> bool
    requires { (from ≤ to) × (to ≤ length s.now) }
    ensures { result ≡ has (byte "\\") (slice from to s.now) }
{
    for i in from..to {
        if s[i] == b'\\' {
            return true;
        }
    }
    false
}

// How many bytes a whole string stands for.
#[tactic(auto, using(crate::proofs::CopyLaws::measures))]
pub fn decoded_len(s: &[u8], at: usize, t: &Table) -> usize
    requires closes { (at ≤ length s.now) × Closes (string lenient (drop at s.now)) }
    ensures { result ≡ length (value_of (string lenient (drop at s.now))) }
{
    let mut n: usize = 0;
    let mut i = at;
    loop {
        let j = raw_end(s, i, t);
        n += j - i;
        if pair(s, j, t).is_some() {
            n += 1;
            i = j + 3;
            continue;
        }
        match lex_escapes::element(s, j, Settings::LENIENT, t) {
            Read::Byte { value: _, len } => {
                n += 1;
                i = j + len;
            }
            Read::Char { value, len } => {
                n += buffers::len_utf8(value);
                i = j + len;
            }
            Read::Quote => {
                return n;
            }
            Read::Refused(_) => {
                return n;
            }
        }
    }
}

// Writes the bytes that a whole string stands for to the front of a buffer that has the room; returns how many.
#[tactic(auto, using(crate::proofs::CopyLaws::writes))]
pub fn decode_into(s: &[u8], at: usize, dst: &mut [u8], t: &Table) -> usize
    requires closes { (at ≤ length s.now) × Closes (string lenient (drop at s.now)) }
    requires room { length (value_of (string lenient (drop at s.now))) ≤ length dst.old }
    ensures { Copied dst.old dst.new
        (value_of (string lenient (drop at s.now))) result }
{
    let mut to: usize = 0;
    let mut i = at;
    loop {
        let j = raw_end(s, i, t);
        buffers::copy(dst, to, s, i, j - i);
        to += j - i;
        if let Some(b) = pair(s, j, t) {
            dst[to] = b;
            to += 1;
            i = j + 3;
            continue;
        }
        match lex_escapes::element(s, j, Settings::LENIENT, t) {
            Read::Byte { value, len } => {
                dst[to] = value;
                to += 1;
                i = j + len;
            }
            Read::Char { value, len } => {
                to += buffers::encode_utf8(dst, to, value);
                i = j + len;
            }
            Read::Quote => {
                return to;
            }
            Read::Refused(_) => {
                return to;
            }
        }
    }
}

// The fast paths from here on leave to `element` what they do not decide.

// The end of some raw characters from `at` on.
fn raw_end(s: &[u8], at: usize, t: &Table) -> usize
    requires at_in_bounds { at ≤ length s.now }
    ensures { Raws s.now at result }
{
    let mut i = at;
    while i < s.len() {
        if t.is_raw(s[i]) {
            i += 1;
        } else {
            let Some(n) = wide_raw(s, i) else {
                return i;
            };
            i += n;
        }
    }
    i
}

// The length of a character at a place that is neither ASCII nor confusing.
#[tactic(auto, using(crate::proofs::RawLaws::wides))]
fn wide_raw(s: &[u8], at: usize) -> Option<usize>
    requires { at < length s.now }
    ensures { IfSome result (Raw s.now at) }
{
    let a = s[at];
    if a < 0xC2 {
        return None;
    }
    if a < 0xE0 {
        if s.len() - at < 2 {
            return None;
        }
        if continues(s[at + 1]) {
            return Some(2);
        }
        return None;
    }
    if (0xE3 <= a) & (a <= 0xEC) {
        return common_raw(s, at);
    }
    if a < 0xF0 {
        return three_raw(s, at);
    }
    four_raw(s, at)
}

// 3 where a character from U+3000 to U+CFFF stands: those of three bytes that are met most, and none is confusing.
#[tactic(auto, using(crate::proofs::RawLaws::wides))]
fn common_raw(s: &[u8], at: usize) -> Option<usize>
    requires { (at < length s.now) × (0xE3 ≤ get_or s.now at 0) × (get_or s.now at 0 ≤ 0xEC) }
    ensures { IfSome result (Raw s.now at) }
{
    if s.len() - at < 3 {
        return None;
    }
    if continues(s[at + 1]) & continues(s[at + 2]) {
        return Some(3);
    }
    None
}

// 3 where a character of three bytes stands that is not confusing.
#[tactic(auto, using(crate::proofs::RawLaws::wides))]
fn three_raw(s: &[u8], at: usize) -> Option<usize>
    requires { (at < length s.now) × (0xE0 ≤ get_or s.now at 0) × (get_or s.now at 0 < 0xF0) }
    ensures { IfSome result (Raw s.now at) }
{
    if s.len() - at < 3 {
        return None;
    }
    let a = s[at];
    let b = s[at + 1];
    let c = s[at + 2];
    if !(continues(b) & continues(c)) {
        return None;
    }
    if a < 0xE3 {
        if a == 0xE0 {
            if b < 0xA0 {
                return None;
            }
            return Some(3);
        }
        if lex_classes::is_confusing_bytes(a, b, c) {
            return None;
        }
        return Some(3);
    }
    if a == 0xED {
        if 0x9F < b {
            return None;
        }
        return Some(3);
    }
    Some(3)
}

// 4 where a character of four bytes stands.
#[tactic(auto, using(crate::proofs::RawLaws::wides))]
fn four_raw(s: &[u8], at: usize) -> Option<usize>
    requires { (at < length s.now) × (0xF0 ≤ get_or s.now at 0) }
    ensures { IfSome result (Raw s.now at) }
{
    if s.len() - at < 4 {
        return None;
    }
    let a = s[at];
    let b = s[at + 1];
    if !(continues(b) & (continues(s[at + 2]) & continues(s[at + 3]))) {
        return None;
    }
    if a == 0xF0 {
        if b < 0x90 {
            return None;
        }
        return Some(4);
    }
    if a < 0xF4 {
        return Some(4);
    }
    if 0xF4 < a {
        return None;
    }
    if 0x8F < b {
        return None;
    }
    Some(4)
}

// Whether a byte may be one of a character after its first.
#[tactic(auto, unfolding(wat::specs::Bytes::between))]
fn continues(b: u8) -> bool
    ensures { result ≡ between 0x80 0xBF b }
{
    (0x80 <= b) & (b <= 0xBF)
}

// The byte of the `\hh` at a place. In data any digit follows any other: so both are tested at once, and the value is
// had by arithmetic, with no branch to be mispredicted.
#[tactic(auto, using(crate::proofs::RawLaws::pairs))]
fn pair(s: &[u8], at: usize, t: &Table) -> Option<u8>
    requires at_in_bounds { at ≤ length s.now }
    ensures { IfSome result (Pairs (drop at s.now)) }
{
    if s.len() - at < 3 {
        return None;
    }
    if s[at] != b'\\' {
        return None;
    }
    let h = s[at + 1];
    let l = s[at + 2];
    if t.is_digit(true, h) & t.is_digit(true, l) {
        return Some((lex_classes::hex_value(h) * 16 + lex_classes::hex_value(l)) as u8);
    }
    None
}
