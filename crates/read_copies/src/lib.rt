// Digits and their sign as the readers hand them over: where they stand, or a copy without `+` and underscores.

#![tactic(auto)]

ghost use Rattle.std.specs.Prelude.{◌≡◌, ◌++◌, ℕ, ◌+◌, ◌-◌, ◌≤◌, length};
ghost use Rattle.std.proofs.Math.Seq.{slice};
ghost use Rattle.wat_values.specs.Values.{copy as copy_of, bare, kept};
ghost use Rattle.wat_values.specs.Reading.{Handed};
ghost use Rattle.buffers.specs.Writing.{Put, Added};
ghost use Rattle.read_copies.specs.Copying.{HandsDigits};

use wat::{Refusal, Refused, Sign};
use wat_values::{NO_PLACE, Part};

// Digits and their sign, copied or in the text, where the sign stands beside them.
#[tactic(auto, using(crate::proofs::CopyLaws::handing))]
pub fn hand(
    text: &[u8],
    from: usize,
    to: usize,
    sign: Sign,
    copied: bool,
    buffer: &mut [u8],
) -> Result<Option<Part>, Refused>
    requires { (from ≤ to) × (to ≤ length text.now) × (length (kept sign) ≤ from) }
    ensures { HandsDigits copied sign from (slice from to text.now) buffer.old result
        buffer.new }
{
    if copied {
        return copy(text, from, to, sign, buffer);
    }
    let start = from - kept(sign).len();
    Ok(Some(Part::Text {
        start,
        len: to - start,
    }))
}

// Digits and their sign in the buffer, if it has the room.
fn copy(
    text: &[u8],
    from: usize,
    to: usize,
    sign: Sign,
    buffer: &mut [u8],
) -> Result<Option<Part>, Refused>
    requires { (from ≤ to) × (to ≤ length text.now) × (length (kept sign) ≤ from) }
    ensures { (o : ℕ)
        → Handed o (copy_of (kept sign ++ bare (slice from to text.now))) buffer.old result
        buffer.new }
{
    let first = kept(sign);
    let len = first.len() + bare_len(text, from, to);
    if buffer.len() < len {
        return Err(Refused {
            refusal: Refusal::BufferTooShort,
            place: NO_PLACE,
        });
    }
    let next = put_first(buffer, first);
    bare_into(text, from, to, buffer, next);
    Ok(Some(Part::Buffer { start: 0, len }))
}

// Writes bytes at the front of the buffer; returns where they end. By `buffers::append` the sign would be a call of
// `memset`, and README.md promises that the library needs no more than `memcpy`.
fn put_first(buffer: &mut [u8], first: &[u8]) -> usize
    requires { length first.now ≤ length buffer.old }
    ensures { Added buffer.old buffer.new 0 first.now result }
{
    buffer[..first.len()].copy_from_slice(first);
    first.len()
}

// The sign that is handed over: a `+` is dropped.
fn kept(sign: Sign) -> &'static [u8]
    ensures value { result.now ≡ kept sign }
    ensures len { length result.now ≡ length (kept sign) }
{
    match sign {
        Sign::Unsigned => b"",
        Sign::Plus => b"",
        Sign::Minus => b"-",
    }
}

// How many of the bytes are no underscore.
#[tactic(auto, using(crate::proofs::CopyLaws::bares))]
fn bare_len(text: &[u8], from: usize, to: usize) -> usize
    requires { (from ≤ to) × (to ≤ length text.now) }
    ensures { (result ≡ length (bare (slice from to text.now))) × (result ≤ to - from) }
{
    let mut n: usize = 0;
    for i in from..to {
        if text[i] != b'_' {
            n += 1;
        }
    }
    n
}

// Writes those bytes from a place of the buffer on.
#[tactic(auto, using(crate::proofs::CopyLaws::writing))]
fn bare_into(text: &[u8], from: usize, to: usize, buffer: &mut [u8], at: usize)
    requires { (from ≤ to) × (to ≤ length text.now)
        × (at + length (bare (slice from to text.now)) ≤ length buffer.old) }
    ensures { Put buffer.old buffer.new at (bare (slice from to text.now)) }
{
    let mut n = at;
    for i in from..to {
        let b = text[i];
        if b != b'_' {
            buffer[n] = b;
            n += 1;
        }
    }
}
