// The part that a reader's answer names, and the place counter, in words. include/thallusweb.h explains them.
// A usize becomes a word by `as`: std has no `From` of it.
#![tactic(auto)]

ghost use Rattle.c_spots.specs.Spots.{PartWords, Lies, MovedWords};

use place::Place;

// A part of n bytes: what it is a part of, its start and its length; nothing if there is no such part.
#[tactic(auto, using(crate::proofs::SpotLaws::lies))]
fn part_words(what: u64, n: usize, start: u64, len: u64) -> [u64; 3]
    ensures { Lies what n start len result }
{
    if (n as u64) < start {
        return [0, 0, 0];
    }
    if (n as u64) - start < len {
        return [0, 0, 0];
    }
    [what, start, len]
}

// The part of the text or of the buffer that the words of a reader's first call name.
#[tactic(auto, using(crate::proofs::SpotLaws::parts))]
pub fn part_of(text: &[u8], buffer: &[u8], answer: [u64; 5]) -> [u64; 3]
    ensures { PartWords text.now buffer.now answer result }
{
    match answer[0] {
        1 => part_words(1, text.len(), answer[1], answer[2]),
        3 => part_words(3, buffer.len(), answer[1], answer[2]),
        _ => [0, 0, 0],
    }
}

// Moves the place counter, line, column and whether the last byte passed is a CR, over a token's bytes; returns false,
// and leaves the words as they are, if 35 refuses that.
#[tactic(auto, using(crate::proofs::SpotLaws::moves))]
pub fn moved(place: &mut [u32; 3], bytes: &[u8]) -> bool
    ensures { MovedWords place.old bytes.now result place.new }
{
    let from = Place {
        line: place[0],
        column: place[1],
        after_cr: place[2] != 0,
    };
    let Some(p) = place::move_over(from, bytes) else {
        return false;
    };
    *place = [p.line, p.column, u32::from(p.after_cr)];
    true
}
