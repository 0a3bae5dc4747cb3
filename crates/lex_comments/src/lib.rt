// Comments: where one ends, and the first confusing character in it.

#![tactic(auto)]

ghost use Rattle.std.specs.Prelude.{◌≡◌, false, suc, ◌+◌, ◌≤◌, length, take, drop};
ghost use Rattle.wat.specs.Utf8.{WellFormed, scalar};
ghost use Rattle.wat.specs.Chars.{newline};
ghost use Rattle.wat.specs.LexModel.{hidden};
ghost use Rattle.lex_classes.specs.Scan.{Scanned, Finds};
ghost use Rattle.lex_comments.specs.Find.{among, byte_at};
ghost use Rattle.lex_comments.specs.Ends.{line_stop, mark, mark_at, BlockEnd};
ghost use Rattle.lex_comments.specs.Confusing.{confusing_at, hidden_in, Begins};

use wat::Hidden;

// The place of the first byte from `at` on and before `to` that is x or y, if one is. The kit's `memchr` takes 1.13
// of the instructions for line comments of 47 bytes with characters beyond ASCII, and 1.06 for such block comments.
fn memchr2(x: u8, y: u8, s: &[u8], at: usize, to: usize) -> Option<usize>
    requires { (at ≤ to) × (to ≤ length s.now) }
    ensures { Finds (byte_at (among x y) s.now) at to result }
{
    lex_classes::find::<64, _>(at, to, s.len(), |k| (x == s[k]) | (y == s[k]))
}

// Where the line of `at` ends: at its LF or CR, or at the end of the text.
pub fn line_end(s: &[u8], at: usize) -> usize
    requires { at ≤ length s.now }
    ensures { Scanned newline false s.now at result }
{
    memchr2(b'\n', b'\r', s, at, s.len()).unwrap_or(s.len())
}

// Whether a line ends at such a byte, or a confusing character may begin with it.
#[tactic(auto, using(crate::proofs::FindLaws::among_or), unfolding(crate::specs::Ends::line_stop, wat::specs::Chars::newline))]
fn is_line_stop(b: u8) -> bool
    ensures { result ≡ line_stop b }
{
    ((b'\n' == b) | (b'\r' == b)) | (0xe2 == b)
}

// Where the line of `at` ends, or the first byte 0xe2 before that: where there is none, nothing in the line is
// confusing.
pub fn plain_line(s: &[u8], at: usize) -> usize
    requires { at ≤ length s.now }
    ensures { Scanned line_stop false s.now at result }
{
    lex_classes::find::<64, _>(at, s.len(), s.len(), |k| is_line_stop(s[k])).unwrap_or(s.len())
}

// Whether two bytes are a mark, `(;` or `;)`.
#[tactic(auto, unfolding(crate::specs::Ends::mark))]
fn is_mark(b: u8, c: u8) -> bool
    ensures { result ≡ mark b c }
{
    ((b == b'(') & (c == b';')) | ((b == b';') & (c == b')'))
}

// The place of the next mark from `at` on, 64 places at a time.
fn far_mark(s: &[u8], at: usize) -> Option<usize>
    requires { at ≤ length s.now }
    ensures { Finds (mark_at s.now) at (length s.now) result }
{
    if s.len() - at < 2 {
        return None;
    }
    let end = s.len() - 1;
    lex_classes::find::<64, _>(at, end, end, |k| is_mark(s[k], s[k + 1]))
}

// The same, place by place at first: in nested comments the next mark is close by.
fn next_mark(s: &[u8], at: usize) -> Option<usize>
    requires { at ≤ length s.now }
    ensures { Finds (mark_at s.now) at (length s.now) result }
{
    if s.len() - at < 9 {
        return far_mark(s, at);
    }
    if let Some(k) = lex_classes::near(at, |k| is_mark(s[k], s[k + 1])) {
        return Some(k);
    }
    far_mark(s, at + 8)
}

// The place past a block comment whose `(;` ends at `at`, if anything closes it. The marks are ASCII, and in UTF-8
// no other character has such a byte: bytes are looked at, and no character is decoded.
#[tactic(auto, using(crate::proofs::BlockLaws::blocks))]
pub fn block_end(s: &[u8], at: usize) -> Option<usize>
    requires { at ≤ length s.now }
    ensures { BlockEnd s.now at result }
{
    let mut level: usize = 0;
    let mut i = at;
    loop {
        let k = next_mark(s, i)?;
        i = k + 2;
        if s[k] == b'(' {
            level += 1;
        } else if level == 0 {
            return Some(i);
        } else {
            level -= 1;
        }
    }
}

// The character of the three bytes at `at`.
#[tactic(auto, using(crate::proofs::HiddenLaws::three_bytes))]
fn char_at(s: &[u8], at: usize) -> u32
    requires { at + 3 ≤ length s.now }
    ensures { result ≡ scalar (take 3 (drop at s.now)) }
{
    let a = s[at] as u32;
    let b = s[at + 1] as u32;
    let c = s[at + 2] as u32;
    a % 0x10 * 0x1000 + b % 0x40 * 0x40 + c % 0x40
}

// A place from `from` on before which nothing is confusing, or none, if nothing before `to` is. Each of the nine
// characters begins with the byte 0xe2, which most comments do not have: one of more than 32 bytes is first looked
// through for it.
fn first_lead(s: &[u8], from: usize, to: usize) -> Option<usize>
    requires { (from ≤ to) × (to ≤ length s.now) }
    ensures { Begins s.now from to result }
{
    if to - from <= 32 {
        return Some(from);
    }
    memchr2(0xe2, 0xe2, s, from, to)
}

// The first place from `from` on and before `to` where the three bytes of a confusing character stand, 32 at a time.
fn next_hidden(s: &[u8], from: usize, to: usize) -> Option<usize>
    requires { (from ≤ to) × (to ≤ length s.now) }
    ensures { Finds (confusing_at s.now) from to result }
{
    if s.len() - from < 3 {
        return None;
    }
    let i = first_lead(s, from, to)?;
    let end = s.len() - 2;
    lex_classes::find::<32, _>(
        i,
        to.min(end),
        end,
        |k| lex_classes::is_confusing_bytes(s[k], s[k + 1], s[k + 2]),
    )
}

// The first confusing character of the comment from `from` to `to`. Their three bytes are told without decoding, since
// 0xe2 stands nowhere but at the start of a character.
pub fn check_confusing_comment(s: &[u8], from: usize, to: usize) -> Hidden
    requires from_le_to { (from ≤ to) × (to ≤ length s.now) }
    requires well_formed { WellFormed (drop from s.now) }
    ensures { result ≡ hidden_in from to
        (hidden (suc (length (drop from s.now))) (drop from s.now)) }
{
    match next_hidden(s, from, to) {
        Some(at) => Hidden::Found {
            at,
            character: char_at(s, at),
        },
        None => Hidden::Clear,
    }
}
