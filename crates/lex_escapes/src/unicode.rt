// The escape `\u{..}`, after its `\u`: the brace, the number and the closing brace. `at` is the escape's first byte.
ghost use Rattle.std.specs.Prelude.{◌≡◌, true, false, ◌+◌, ◌≤◌, length, drop};
ghost use Rattle.wat.specs.Chars.{is_scalar};
ghost use Rattle.wat.specs.StringModel as model;
ghost use Rattle.lex_escapes.specs.Elements.{consumed, Counted, Says};

use super::{Read, ends, must_char};
use lex_classes::Table;
use utf8_chars::Char;
use wat::{Fault, LexError, Num, Settings};

// After `\u`: the Rust's `must_eat_char` for `{`.
#[tactic(auto, using(crate::proofs::ElementLaws::braces))]
pub fn open_brace(s: &[u8], at: usize, settings: Settings, t: &Table) -> Read
    requires at_in_bounds { at + 2 ≤ length s.now }
    ensures { Says (drop at s.now)
        (model.brace_by settings (model.peek (drop (at + 2) s.now))) result }
{
    let Some(Char { value, len }) = must_char(s, at + 2) else {
        return Read::Refused(ends(2));
    };
    if value == u32::from(b'{') {
        return first_digit(s, at, settings, t);
    }
    Read::Refused(Fault {
        error: LexError::Expected {
            wanted: u32::from(b'{'),
            found: value,
        },
        place: 2,
        after: 2 + len,
    })
}

// After `\u{`: the Rust's `hexnum` up to its loop.
#[tactic(auto, using(crate::proofs::ElementLaws::firsts))]
fn first_digit(s: &[u8], at: usize, settings: Settings, t: &Table) -> Read
    requires at_in_bounds { at + 3 ≤ length s.now }
    ensures { Says (drop at s.now)
        (model.first_by settings (model.peek (drop (at + 3) s.now))) result }
{
    let Some(Char { value, len }) = must_char(s, at + 3) else {
        return Read::Refused(ends(3));
    };
    if let Some(first) = t.to_hex(value) {
        return unicode_value(s, at, u32::from(first), settings, t);
    }
    Read::Refused(Fault {
        error: LexError::InvalidHexDigit(value),
        place: 3,
        after: 3 + len,
    })
}

// After `\u{` and a digit of value `first`. The number must be a scalar value before `}` is looked for.
#[tactic(auto, using(crate::proofs::ElementLaws::numbers))]
fn unicode_value(s: &[u8], at: usize, first: u32, settings: Settings, t: &Table) -> Read
    requires at_in_bounds { at + 4 ≤ length s.now }
    ensures { Says (drop at s.now)
        (model.number_by (drop (at + 3) s.now)
        (model.digits settings false first 1 (drop (at + 4) s.now))) result }
{
    match hexnum(s, at + 4, first, settings, t) {
        Num::Is { value, len } => {
            if lex_classes::is_scalar(value) {
                return close_brace(s, at, value, len);
            }
            Read::Refused(Fault {
                error: LexError::InvalidUnicodeValue(value),
                place: 2 + len,
                after: 3 + len,
            })
        }
        Num::Lone(len) => Read::Refused(Fault {
            error: LexError::LoneUnderscore,
            place: 2 + len,
            after: 3 + len,
        }),
        Num::Big(len) => Read::Refused(Fault {
            error: LexError::NumberTooBig,
            place: 3 + len,
            after: 4 + len,
        }),
        Num::Double(len) => Read::Refused(Fault {
            error: LexError::DoubleUnderscore,
            place: 3 + len,
            after: 4 + len,
        }),
    }
}

// After `\u{` and a number of `len` bytes: the Rust's `must_eat_char` for `}`.
#[tactic(auto, using(crate::proofs::ElementLaws::closes))]
fn close_brace(s: &[u8], at: usize, value: u32, len: usize) -> Read
    requires { (at + (3 + len) ≤ length s.now) × (is_scalar value ≡ true) }
    ensures { Says (drop at s.now)
        (model.close_by value len (model.peek (drop (at + (3 + len)) s.now))) result }
{
    let Some(
        Char {
            value: found,
            len: n,
        },
    ) = must_char(s, at + (3 + len))
    else {
        return Read::Refused(ends(3 + len));
    };
    if found == u32::from(b'}') {
        return Read::Char {
            value,
            len: 4 + len,
        };
    }
    Read::Refused(Fault {
        error: LexError::Expected {
            wanted: u32::from(b'}'),
            found,
        },
        place: 3 + len,
        after: 3 + (len + n),
    })
}

// The number of `\u{..}` whose first digit has the value `first` and ends at `at`: the loop of the Rust's `hexnum`. Where
// digits are strict, the second underscore of a pair is refused as it is met.
#[tactic(auto, using(crate::proofs::NumberLaws::runs))]
fn hexnum(s: &[u8], at: usize, first: u32, settings: Settings, t: &Table) -> Num
    requires at_in_bounds { at ≤ length s.now }
    ensures { Counted (drop at s.now)
        (model.digits settings false first 1 (drop at s.now)) result }
{
    let mut value = first;
    let mut under = false;
    let mut i = at;
    while i < s.len() {
        let b = s[i];
        if b == b'_' {
            if under & settings.strict_digits {
                return Num::Double(1 + (i - at));
            }
            under = true;
            i += 1;
        } else {
            let Some(d) = t.to_hex(u32::from(b)) else {
                return close(under, value, 1 + (i - at));
            };
            if 0x1000_0000 <= value {
                return Num::Big(1 + (i - at));
            }
            value = value * 16 + u32::from(d);
            under = false;
            i += 1;
        }
    }
    close(under, value, 1 + (i - at))
}

// The number ends here, after an underscore or not.
fn close(under: bool, value: u32, len: usize) -> Num
    ensures { (result ≡ model.close under value len) × (consumed result ≡ len) }
{
    if under {
        return Num::Lone(len);
    }
    Num::Is { value, len }
}
