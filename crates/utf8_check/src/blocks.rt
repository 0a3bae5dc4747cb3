// The check by blocks of 64 bytes: each byte is held against the three before it, by a rule without branches, which
// LLVM turns into vector code. It passes over what is right, ASCII or not; of a text too short for that, over ASCII.
// What is left, and what is wrong, is for the check by characters. What `misplaced` to `wrong` answer are numbers, joined
// by `|` with no branch on the bytes: no bool, Option or loop left early, so that the vector code stays.

ghost use Rattle.std.specs.Prelude.{◌≡◌, ◌+◌, ◌-◌, ◌≤◌, length, slice_index};
ghost use Rattle.utf8_check.specs.Following.{Placed, Low, Follows, Right, Begins, Resumes};

// n is not 0 if an earlier byte requires b to be a continuation byte. Returns 0 only if b is one exactly then.
fn misplaced(n: u8, b: u8) -> u8
    ensures { result ≡ 0 → Placed n b }
{
    if b < 0x80 {
        return n;
    }
    if b >= 0xC0 {
        return n;
    }
    if n == 0 { 1 } else { 0 }
}

// The least and the greatest byte after p, if p is a first byte whose second has a range of its own.
fn least(p: u8) -> u8
    ensures { (p ≡ 0xE0 → 0xA0 ≤ result) × (p ≡ 0xF0 → 0x90 ≤ result) }
{
    if p == 0xE0 {
        return 0xA0;
    }
    if p == 0xF0 {
        return 0x90;
    }
    0
}

fn greatest(p: u8) -> u8
    ensures { (p ≡ 0xED → result ≤ 0x9F) × (p ≡ 0xF4 → result ≤ 0x8F) }
{
    if p == 0xED {
        return 0x9F;
    }
    if p == 0xF4 {
        return 0x8F;
    }
    0xFF
}

// 0 unless no character has the byte b.
fn unused(b: u8) -> u8
    ensures { result ≡ 0 → 0xC0 ≤ b → (0xC2 ≤ b) × (b ≤ 0xF4) }
{
    if b == 0xC0 {
        return 1;
    }
    if b == 0xC1 {
        return 1;
    }
    b.saturating_sub(0xF4)
}

// 0 if b may stand after r, q and p. No branch depends on the bytes, so that a loop over this becomes vector code.
fn wrong(r: u8, q: u8, p: u8, b: u8) -> u8
    ensures { result ≡ 0 → Follows r q p b }
{
    let n = p.saturating_sub(0xBF) | q.saturating_sub(0xDF) | r.saturating_sub(0xEF);
    misplaced(n, b) | least(p).saturating_sub(b) | b.saturating_sub(greatest(p)) | unused(b)
}

// 0 if n bytes are ASCII. The callers name n, so that LLVM knows it.
fn high_in(s: &[u8], from: usize, n: usize) -> u8
    requires { from + n ≤ length s.now }
    ensures { result ≡ 0 → Low s.now from (from + n) }
{
    let mut all: u8 = 0;
    for &b in &s[from..from + n] {
        all |= b.saturating_sub(0x7F);
    }
    all
}

// 0 if 64 bytes stand right, the first of them three bytes from the place. By `windows(4)` the check takes 1.035 of the
// instructions.
fn wrong_in(s: &[u8], from: usize) -> u8
    requires { from + 67 ≤ length s.now }
    ensures { result ≡ 0 → Right s.now from (from + 64) }
{
    let mut all: u8 = 0;
    for k in 0..64 {
        let i = from + k;
        all |= wrong(s[i], s[i + 1], s[i + 2], s[i + 3]);
    }
    all
}

// A place up to which each third byte further on stands right. Of 64 ASCII bytes the last three are looked at again,
// before the next block; and of the last 67 bytes of the text those again that a block has passed.
fn right_to(s: &[u8]) -> usize
    requires { 67 ≤ length s.now }
    ensures { (result + 3 ≤ length s.now) × Right s.now 0 result }
{
    // by 61 or 64, as it turns out: no iterator steps so
    let mut i: usize = 0;
    while 67 <= s.len() - i {
        if high_in(s, i, 64) == 0 {
            i += 61;
        } else {
            if wrong_in(s, i) != 0 {
                return i;
            }
            i += 64;
        }
    }
    let last = s.len() - 67;
    if high_in(s, last, 64) == 0 {
        return last + 61;
    }
    if wrong_in(s, last) == 0 {
        return last + 64;
    }
    i
}

// Of the three bytes at a place: where the character starts that is not whole with them, or the place after them.
#[tactic(auto, using(crate::proofs::ResumeLaws::befores))]
fn start_before(s: &[u8], i: usize) -> usize
    requires { (i + 3 ≤ length s.now) × Begins (slice_index s.now 0) (slice_index s.now 1) (slice_index s.now 2)
        × Right s.now 0 i }
    ensures { Resumes s.now result }
{
    if s[i + 2] >= 0xC0 {
        return i + 2;
    }
    if s[i + 1] >= 0xE0 {
        return i + 1;
    }
    if s[i] >= 0xF0 {
        return i;
    }
    i + 3
}

// A place up to which all is ASCII. Where fewer than 16 bytes are left, the last 16 of the text are looked at, some of
// them again.
#[tactic(auto, using(crate::proofs::ResumeLaws::from_start))]
fn ascii_to(s: &[u8]) -> usize
    ensures { Resumes s.now result }
{
    if s.len() < 16 {
        return 0;
    }
    // `chunks_exact(16)` would need this counter all the same
    let mut i: usize = 0;
    while 16 <= s.len() - i {
        if high_in(s, i, 16) != 0 {
            return i;
        }
        i += 16;
    }
    let last = s.len() - 16;
    if high_in(s, last, 16) == 0 {
        return s.len();
    }
    i
}

// A place from which on the check by characters gives the answer for the whole text.
#[tactic(auto, using(crate::proofs::ResumeLaws::from_start))]
pub fn pass(s: &[u8]) -> usize
    ensures { Resumes s.now result }
{
    if s.len() < 67 {
        return ascii_to(s);
    }
    let a = s[0];
    let b = s[1];
    let c = s[2];
    if (wrong(0, 0, 0, a) | wrong(0, 0, a, b) | wrong(0, a, b, c)) != 0 {
        return 0;
    }
    start_before(s, right_to(s))
}
