// The lines that `wat-tokens` prints, written one behind the other into a buffer. specs/Lines.antt says what they are.

#![tactic(auto)]

ghost use Rattle.std.specs.Prelude.{◌≡◌, ℕ, ◌+◌, ◌≤◌, ◌<◌, [], ◌∷◌, ◌++◌, length};
ghost use Rattle.wat.specs.{Bytes.bytes, Cases.number};
ghost use Rattle.tokens_spelt.specs.Details.{detail, longest_name, longest_detail};
ghost use Rattle.tokens_spelt.specs.Spelling.{Parted};
ghost use Rattle.buffers.specs.Writing.{Added};
ghost use Rattle.tokens_lines.specs.Lines.{decimal, header, line, last_line};
ghost use Rattle.tokens_lines.specs.Room.{most_figures, small, longest_small, longest_line};

use tokens_spelt::Parts;
use wat::{Refusal, TokenKind};

// The most bytes of a line; the last line has no more. specs/Room.antt says what they are made up of.
pub const LONGEST_LINE: usize = 48;

// The most figures of a number.
const MOST_FIGURES: usize = 20;

// ---- parts of a line; each function returns where its bytes end

// The detail of the kind whose words these are.
fn append_detail(out: &mut [u8], to: usize, p: Parts) -> usize
    requires { ((k : TokenKind) × Parted k p) × (to + longest_detail ≤ length out.old) }
    ensures { (k : TokenKind) → Parted k p → Added out.old out.new to (detail k) result }
{
    let a = buffers::append(out, to, p.first);
    let b = buffers::append(out, a, p.second);
    buffers::append(out, b, p.third)
}

// A number in decimal, and a byte after it.
fn append_number(out: &mut [u8], to: usize, n: usize, after: u8) -> usize
    requires { to + (most_figures + 1) ≤ length out.old }
    ensures { Added out.old out.new to (decimal n ++ (after ∷ [])) result
        × (n < small → result ≤ to + longest_small) }
{
    let mut figures = [0u8; MOST_FIGURES];
    // std has no `From<usize>` for u64
    let k = io::decimal(n as u64, &mut figures);
    let end = buffers::append(out, to, &figures[..k]);
    out[end] = after;
    end + 1
}

// ---- lines

// The line of a token.
pub fn put_line(out: &mut [u8], to: usize, k: TokenKind, offset: usize, len: usize) -> usize
    requires { (to + longest_line ≤ length out.old) × (offset < small) × (len < small) }
    ensures { Added out.old out.new to (line k offset len) result }
{
    let p = tokens_spelt::words_of(k);
    let a = buffers::append(out, to, p.name);
    let b = append_number(out, a, offset, b' ');
    let c = append_number(out, b, len, b' ');
    let d = append_detail(out, c, p);
    buffers::append(out, d, b"\n")
}

// The last line: a word with a space, and two numbers.
fn put_last(out: &mut [u8], to: usize, word: &[u8], a: usize, b: usize) -> usize
    requires { (to + longest_line ≤ length out.old) × (length word.now ≤ longest_name) × (a < small) }
    ensures { Added out.old out.new to (last_line word.now a b) result }
{
    let c = buffers::append(out, to, word);
    let d = append_number(out, c, a, b' ');
    append_number(out, d, b, b'\n')
}

pub fn put_end(out: &mut [u8], to: usize, position: usize, count: usize) -> usize
    requires { (to + longest_line ≤ length out.old) × (position < small) }
    ensures { Added out.old out.new to (last_line (bytes "end ") position count) result }
{
    put_last(out, to, b"end ", position, count)
}

pub fn put_error(out: &mut [u8], to: usize, refusal: Refusal, place: usize) -> usize
    requires { to + longest_line ≤ length out.old }
    ensures { Added out.old out.new to
        (last_line (bytes "error ") (number refusal).0 place) result }
{
    let c = codes::refusal_code(refusal);
    put_last(out, to, b"error ", usize::from(c.number), place)
}

pub fn put_header(out: &mut [u8]) -> usize
    requires { length header ≤ length out.old }
    ensures { Added out.old out.new 0 header result }
{
    buffers::append(out, 0, b"kind offset length detail\n")
}
