// Rows of recorded answers, and whether ours are the same.
//
// The file `answers` has rows of 152 bytes; a number of more than a byte has its least first:
//    0  the type: 1 one token, 2 annotation, 3 listing, 4 a reader's first call, 5 the name call; 128 more for a
//       damaged row, which must differ
//    1  the settings' word, or the reader's number; 0 of type 5
//    2  the text's length, at most 40
//    3  the length of the list or buffer, at most 64
//    4  the position, or the token's offset (4 bytes)
//    8  the budget, or the token's kind (4)
//   12  seven numbers of the answer (4 each)
//   40  the message's length, 0 if there is none
//   41  seven bytes of 0
//   48  the text (40)
//   88  the message, or the lent list or buffer afterwards with 238 where nothing was written (64)
// The seven numbers, of types 1 to 3: what was found or why it stopped, 0 nothing or the end, 1 a token or the budget,
// 2 a refusal, 3 no room; its kind or number; its offset or place; its length or first value; its second value; the
// position or the count; the listing's position. Of type 4: the five words of thallusweb_read (include/thallusweb.h),
// the token's length, 0. Of type 5: the same of thallusweb_name, the token's length, its sixth word.
// A usize becomes a u64 by `as`: std has no `From` of it.
#![tactic(auto)]

ghost use Rattle.std.specs.Prelude.{◌+◌, ◌≤◌, length};

use wat::{Listed, Parsed, Refusal, Refused, Token};

// A row of the file.
pub const ROW: usize = 152;

// The number of four bytes that stands at a place of the row.
pub fn number_at(row: &[u8], at: usize) -> u64
    requires { at + 4 ≤ length row.now }
{
    u64::from(u32::from_le_bytes([row[at], row[at + 1], row[at + 2], row[at + 3]]))
}

// The answer's first five numbers.
pub fn agrees(row: &[u8; ROW], answer: [u64; 5]) -> bool {
    [
        number_at(row, 12),
        number_at(row, 16),
        number_at(row, 20),
        number_at(row, 24),
        number_at(row, 28),
    ] == answer
}

// The first n bytes of `bytes` are those of the row.
pub fn bytes_agree(row: &[u8; ROW], bytes: &[u8; 64], n: usize) -> bool
    requires { n ≤ 64 }
{
    row[88..88 + n] == bytes[..n]
}

fn message_agrees(row: &[u8; ROW], refusal: Refusal) -> bool {
    let mut text = [0u8; 64];
    let told = messages::message(refusal, &mut text);
    match told {
        Err(_) => row[40] == 0,
        Ok(n) => {
            if 64 < n {
                return false;
            }
            (usize::from(row[40]) == n) & bytes_agree(row, &text, n)
        }
    }
}

pub fn found_agrees(row: &[u8; ROW], found: Result<Option<Token>, Refused>) -> bool {
    if !agrees(row, c_words::found_words(found)) {
        return false;
    }
    match found {
        Ok(_) => true,
        Err(e) => message_agrees(row, e.refusal),
    }
}

pub fn parsed_agrees(row: &[u8; ROW], parsed: Parsed) -> bool {
    let found = parsed.found;
    found_agrees(row, found) & (number_at(row, 32) == parsed.position as u64)
}

pub fn listed_agrees(row: &[u8; ROW], listed: Listed) -> bool {
    let stop = listed.stop;
    agrees(row, c_words::stop_words(stop))
        & (number_at(row, 32) == listed.count as u64)
        & (number_at(row, 36) == listed.position as u64)
}
