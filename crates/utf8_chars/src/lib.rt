// Characters in UTF-8: the one that stands at a place of a text, and where a text may be cut. Rust has this in
// `std::str`; what is right is said by the Unicode Standard's table of well-formed sequences, `wat/specs/Utf8.antt`.

#![tactic(auto)]

ghost use Rattle.std.specs.Prelude.{◌≡◌, ◌+◌, ◌%◌, ◌<◌, ◌≤◌, ◌∷◌, length, take, drop, slice_index};
ghost use Rattle.wat.specs.Utf8.{◌‥◌, scalar, WellFormed};
ghost use Rattle.wat.specs.Utf8Model.{has, follow, front};
ghost use Rattle.utf8_chars.specs.Decoding.{Decodes};
ghost use Rattle.utf8_chars.specs.Fronts.{trailing};
ghost use Rattle.utf8_chars.specs.Boundary.{Boundary};

use wat::Front;

// The character at a place: its scalar value and its length in bytes.
#[derive(Clone, Copy, PartialEq, Eq)]
pub struct Char {
    pub value: u32,
    pub len: usize,
}

fn within(b: u8, lo: u8, hi: u8) -> bool
    ensures { result ≡ has (lo ‥ hi) b }
{
    (lo..=hi).contains(&b)
}

// The third byte of a character, and the fourth if n is 2.
fn last_at(s: &[u8], at: usize, n: usize) -> Front
    requires { (at < length s.now) × (1 ≤ n) × (n ≤ 2) }
    ensures { result ≡ follow 2 (trailing n) (drop (at + 2) s.now) }
{
    if s.len() - at <= 2 {
        return Front::Cut;
    }
    if !within(s[at + 2], 0x80, 0xBF) {
        return Front::Wrong(2);
    }
    if n == 1 {
        return Front::Whole(3);
    }
    if s.len() - at <= 3 {
        return Front::Cut;
    }
    if !within(s[at + 3], 0x80, 0xBF) {
        return Front::Wrong(3);
    }
    Front::Whole(4)
}

// The bytes after the first: one in a range, and then n from 0x80 to 0xBF.
fn rest_at(s: &[u8], at: usize, lo: u8, hi: u8, n: usize) -> Front
    requires { (at < length s.now) × (n ≤ 2) }
    ensures { result ≡ follow 1 (lo ‥ hi ∷ trailing n) (drop (at + 1) s.now) }
{
    if s.len() - at <= 1 {
        return Front::Cut;
    }
    if !within(s[at + 1], lo, hi) {
        return Front::Wrong(1);
    }
    if n == 0 {
        return Front::Whole(2);
    }
    last_at(s, at, n)
}

// What stands at a place, by the rows of the table.
pub fn front_at(s: &[u8], at: usize) -> Front
    requires { at < length s.now }
    ensures { result ≡ front (drop at s.now) }
{
    let a = s[at];
    if a < 0x80 {
        return Front::Whole(1);
    }
    if a < 0xC2 {
        return Front::Wrong(1);
    }
    if a < 0xE0 {
        return rest_at(s, at, 0x80, 0xBF, 0);
    }
    if a < 0xE1 {
        return rest_at(s, at, 0xA0, 0xBF, 1);
    }
    if a < 0xED {
        return rest_at(s, at, 0x80, 0xBF, 1);
    }
    if a < 0xEE {
        return rest_at(s, at, 0x80, 0x9F, 1);
    }
    if a < 0xF0 {
        return rest_at(s, at, 0x80, 0xBF, 1);
    }
    if a < 0xF1 {
        return rest_at(s, at, 0x90, 0xBF, 2);
    }
    if a < 0xF4 {
        return rest_at(s, at, 0x80, 0xBF, 2);
    }
    if a < 0xF5 {
        return rest_at(s, at, 0x80, 0x8F, 2);
    }
    Front::Wrong(1)
}

// The six bits that a byte after the first has of a scalar value.
fn six_bits(s: &[u8], at: usize) -> u32
    requires { at < length s.now }
    ensures { result ≡ slice_index s.now at % 0x40 }
{
    u32::from(s[at]) % 0x40
}

// The scalar value of the character of n bytes at a place.
pub fn value(s: &[u8], at: usize, n: usize) -> u32
    requires { (1 ≤ n) × (at + n ≤ length s.now) }
    ensures { result ≡ scalar (take n (drop at s.now)) }
{
    let a = u32::from(s[at]);
    if n == 1 {
        return a;
    }
    let b = six_bits(s, at + 1);
    if n == 2 {
        return (a % 0x20) * 0x40 + b;
    }
    let c = six_bits(s, at + 2);
    if n == 3 {
        return (a % 0x10) * 0x1000 + b * 0x40 + c;
    }
    let d = six_bits(s, at + 3);
    (a % 0x08) * 0x40000 + b * 0x1000 + c * 0x40 + d
}

// The character at a place; nothing at the end, and where no character stands.
pub fn decode(s: &[u8], at: usize) -> Option<Char>
    ensures { Decodes s.now at result }
{
    if at >= s.len() {
        return None;
    }
    match front_at(s, at) {
        Front::Whole(len) => Some(Char {
            value: value(s, at, len),
            len,
        }),
        Front::Wrong(_) => None,
        Front::Cut => None,
    }
}

// Whether a character of a well-formed text starts at a place, or the text ends there.
pub fn is_char_boundary(s: &[u8], at: usize) -> bool
    requires { WellFormed s.now × (at ≤ length s.now) }
    ensures { Boundary s.now at result }
{
    if at >= s.len() {
        return true;
    }
    let b = s[at];
    if b < 0x80 {
        return true;
    }
    if b < 0xC0 {
        return false;
    }
    true
}
