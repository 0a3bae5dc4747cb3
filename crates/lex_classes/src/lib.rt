// Classes of bytes and of characters, and the scans over them. wat's definitions say which bytes are meant.
// Callers ask a `Table`, which they lend on: so the table can change and no caller does.

#![tactic(auto)]

ghost use Rattle.std.specs.Prelude.{◌≡◌, ℕ, Bool, true, false, length, IfSome, IfNone};
ghost use Rattle.std.specs.Prelude.{◌+◌, ◌*◌, ◌/◌, ◌%◌, ◌^◌, ◌≤◌, ◌<◌};
ghost use Rattle.std.proofs.Math.Option.{some, none};
ghost use Rattle.wat.specs.Numbers.{digit};
ghost use Rattle.wat.specs.Chars.{idchar, space, letter, is_scalar, control, confusing};
ghost use Rattle.wat.specs.LexModel.{family};
ghost use Rattle.wat.specs.StringModel.{hex_of};
ghost use Rattle.lex_classes.specs.Table.{Classes};
ghost use Rattle.lex_classes.specs.Ask.{raw, confusing_bytes};
ghost use Rattle.lex_classes.specs.Scan.{Scanned, First, Finds, alike};

use wat::Family;

// What a byte means to the lexer is its class, and this is the one table of them: every question about a byte is
// answered from here.
const CT: u8 = 0; // control characters, but for the white ones

const WS: u8 = 1; // white space: ' ', '\t', '\n' and '\r'

const NA: u8 = 2; // bytes of characters that are not ASCII

const QU: u8 = 3; // "

const OP: u8 = 4; // (

const CL: u8 = 5; // )

const SC: u8 = 6; // ;

const PU: u8 = 7; // the other punctuation: , [ ] { }

const ID: u8 = 8; // idchars of no class below; from here on all are idchars

const DI: u8 = 9; // 0 to 9

const UX: u8 = 10; // A to F

const LX: u8 = 11; // a to f

const LO: u8 = 12; // g to z

const BS: u8 = 13; // \

#[rattlefmt::skip]
const CLASSES: [u8; 256] = [
    //                                             \t  \n          \r
    /* 0x00 */ CT, CT, CT, CT, CT, CT, CT, CT, CT, WS, WS, CT, CT, WS, CT, CT,
    /* 0x10 */ CT, CT, CT, CT, CT, CT, CT, CT, CT, CT, CT, CT, CT, CT, CT, CT,
    //        ' '  !   "   #   $   %   &   '   (   )   *   +   ,   -   .   /
    /* 0x20 */ WS, ID, QU, ID, ID, ID, ID, ID, OP, CL, ID, ID, PU, ID, ID, ID,
    //         0   1   2   3   4   5   6   7   8   9   :   ;   <   =   >   ?
    /* 0x30 */ DI, DI, DI, DI, DI, DI, DI, DI, DI, DI, ID, SC, ID, ID, ID, ID,
    //         @   A   B   C   D   E   F   G   H   I   J   K   L   M   N   O
    /* 0x40 */ ID, UX, UX, UX, UX, UX, UX, ID, ID, ID, ID, ID, ID, ID, ID, ID,
    //         P   Q   R   S   T   U   V   W   X   Y   Z   [   \   ]   ^   _
    /* 0x50 */ ID, ID, ID, ID, ID, ID, ID, ID, ID, ID, ID, PU, BS, PU, ID, ID,
    //         `   a   b   c   d   e   f   g   h   i   j   k   l   m   n   o
    /* 0x60 */ ID, LX, LX, LX, LX, LX, LX, LO, LO, LO, LO, LO, LO, LO, LO, LO,
    //         p   q   r   s   t   u   v   w   x   y   z   {   |   }   ~
    /* 0x70 */ LO, LO, LO, LO, LO, LO, LO, LO, LO, LO, LO, PU, ID, PU, ID, CT,
    /* 0x80 */ NA, NA, NA, NA, NA, NA, NA, NA, NA, NA, NA, NA, NA, NA, NA, NA,
    /* 0x90 */ NA, NA, NA, NA, NA, NA, NA, NA, NA, NA, NA, NA, NA, NA, NA, NA,
    /* 0xa0 */ NA, NA, NA, NA, NA, NA, NA, NA, NA, NA, NA, NA, NA, NA, NA, NA,
    /* 0xb0 */ NA, NA, NA, NA, NA, NA, NA, NA, NA, NA, NA, NA, NA, NA, NA, NA,
    /* 0xc0 */ NA, NA, NA, NA, NA, NA, NA, NA, NA, NA, NA, NA, NA, NA, NA, NA,
    /* 0xd0 */ NA, NA, NA, NA, NA, NA, NA, NA, NA, NA, NA, NA, NA, NA, NA, NA,
    /* 0xe0 */ NA, NA, NA, NA, NA, NA, NA, NA, NA, NA, NA, NA, NA, NA, NA, NA,
    /* 0xf0 */ NA, NA, NA, NA, NA, NA, NA, NA, NA, NA, NA, NA, NA, NA, NA, NA,
];

// The table of classes. A call makes one and lends it on, since a constant array is stored anew wherever it is named.
#[derive(Clone, Copy)]
pub struct Table {
    classes: [u8; 256],
    ghost answers: { Classes classes },
}

impl Table {
    // The table of this file.
    pub fn new() -> Table {
        Table { classes: CLASSES }
    }

    // Any other whose classes answer as the definitions do.
    pub fn of(classes: [u8; 256]) -> Table
        requires { Classes classes }
        ensures { result.classes ≡ classes }
    {
        Table { classes }
    }

    pub fn is_ws(&self, b: u8) -> bool
        ensures { result ≡ space b }
    {
        self.classes[b as usize] == WS
    }

    // https://webassembly.github.io/spec/core/text/values.html#text-idchar
    pub fn is_idchar(&self, b: u8) -> bool
        ensures { result ≡ idchar b }
    {
        ID <= self.classes[b as usize]
    }

    // What a byte begins: the classes of most bytes first.
    pub fn begins(&self, b: u8) -> Family
        ensures { result ≡ family b }
    {
        let class = self.classes[b as usize];
        if ID <= class {
            return Family::Run;
        }
        match class {
            WS => Family::Spaces,
            OP => Family::OpenParen,
            CL => Family::CloseParen,
            SC => Family::Semi,
            PU => Family::Single,
            QU => Family::Run,
            _ => Family::Other,
        }
    }

    // a to z: what a keyword begins with.
    #[tactic(auto, unfolding(wat::specs::Bytes::between))]
    pub fn is_letter(&self, b: u8) -> bool
        ensures { result ≡ letter b }
    {
        let class = self.classes[b as usize];
        (LX <= class) & (class <= LO)
    }

    // A digit: 0 to 9, and A to F and a to f where it is hexadecimal.
    #[tactic(auto, unfolding(wat::specs::Bytes::between))]
    pub fn is_digit(&self, hex: bool, b: u8) -> bool
        ensures { result ≡ digit hex b }
    {
        let class = self.classes[b as usize];
        if hex {
            return (DI <= class) & (class <= LX);
        }
        class == DI
    }

    // The value of a character that is a hexadecimal digit.
    #[tactic(auto, using(crate::proofs::AskLaws::hexes))]
    pub fn to_hex(&self, c: u32) -> Option<u8>
        ensures digit { IfSome result (λ d. hex_of c ≡ some d) }
        ensures small { IfSome result (λ d. d < 16) }
        ensures other { IfNone result (hex_of c ≡ none) }
    {
        if 0xff < c {
            return None;
        }
        let b = c as u8;
        if self.is_digit(true, b) {
            return Some(hex_value(b) as u8);
        }
        None
    }

    #[tactic(auto, unfolding(wat::specs::Chars::control))]
    pub fn is_control(&self, c: u32) -> bool
        ensures { result ≡ control c }
    {
        if 0xff < c {
            return false;
        }
        let class = self.classes[c as usize];
        (class == CT) | ((class == WS) & (c != 0x20))
    }

    // An ASCII character that a string holds as it is: none that 12 refuses, no `"` and no `\`.
    #[tactic(auto, unfolding(wat::specs::Bytes::between))]
    pub fn is_raw(&self, b: u8) -> bool
        ensures { result ≡ raw b }
    {
        let class = self.classes[b as usize];
        ((OP <= class) & (class <= LO)) | (b == b' ')
    }
}

// The value of a hexadecimal digit: its low four bits, and 9 for a letter.
pub fn hex_value(b: u8) -> u32
    ensures { result ≡ b % 16 + 9 * (b / 64) }
{
    (b as u32) % 16 + 9 * ((b as u32) / 64)
}

#[tactic(auto, unfolding(wat::specs::Chars::is_scalar, wat::specs::Bytes::between))]
pub fn is_scalar(n: u32) -> bool
    ensures { result ≡ is_scalar n }
{
    (n < 0xd800) | ((0xe000 <= n) & (n <= 0x10ffff))
}

// Characters that make a text look different to a person than to the lexer.
#[tactic(auto, unfolding(wat::specs::Chars::confusing, wat::specs::Bytes::has))]
pub fn is_confusing_unicode(c: u32) -> bool
    ensures { result ≡ confusing c }
{
    match c {
        0x202a | 0x202b | 0x202d | 0x202e | 0x2066 | 0x2067 | 0x2068 | 0x206c | 0x2069 => true,
        _ => false,
    }
}

// Whether three bytes are such a character: with no branch, so that a loop over this becomes vector code.
#[tactic(auto, unfolding(crate::specs::Ask::confusing_bytes, wat::specs::Bytes::between))]
pub fn is_confusing_bytes(b: u8, c: u8, d: u8) -> bool
    ensures { result ≡ confusing_bytes b c d }
{
    let after_80 = ((0xaa <= d) & (d <= 0xae)) & (d != 0xac);
    let after_81 = ((0xa6 <= d) & (d <= 0xa9)) | (d == 0xac);
    (b == 0xe2) & (((c == 0x80) & after_80) | ((c == 0x81) & after_81))
}

// White space by comparisons, which become vector code where a lookup does not.
#[tactic(auto, unfolding(wat::specs::Chars::space, wat::specs::Bytes::has))]
fn is_space(b: u8) -> bool
    ensures { result ≡ space b }
{
    (b' ' == b) | (b'\t' == b) | (b'\n' == b) | (b'\r' == b)
}

// The first of N places that passes a test, or N. No branch depends on the test, and LLVM makes vector code of it.
pub fn first_of<const N: usize, F: Fn(usize) -> bool>(passes: F) -> usize
    requires fits { N ≤ 255 }
    requires callable { (k : ℕ) → k < N → F.pre passes k }
    ensures { (f : ℕ → Bool) (i : ℕ)
        → ((k : ℕ) (r : Bool) → F.post passes k r → r ≡ f (i + k))
        → First f i N result }
{
    let mut m: u8 = N as u8;
    for k in 0..N {
        m = m.min(if passes(k) { k as u8 } else { N as u8 });
    }
    m as usize
}

// The place behind the bytes from `at` on that pass a test. A test that answers the contrary of what `Scanned` asks of
// the bytes is one of `alike` with false.
#[tactic(auto, using(crate::proofs::ScanLaws::scans))]
pub fn scan<F: Fn(u8) -> bool>(s: &[u8], at: usize, passes: F) -> usize
    requires at_in_bounds { at ≤ length s.now }
    requires callable { F.IsAlwaysCallable passes }
    ensures { (test : ℕ → Bool) (b : Bool)
        → ((x : ℕ) (r : Bool) → F.post passes x r → r ≡ alike b (test x))
        → Scanned test b s.now at result }
{
    for i in at..s.len() {
        if !passes(s[i]) {
            return i;
        }
    }
    s.len()
}

// The first of the eight places from `at` on that passes a test, if one does. LLVM unrolls a loop of so few steps, and
// each then has a branch of its own for the processor to foresee. By std's `find` over `at..at + 8` ordinary WAT takes
// 1.09 of the instructions, and white space of 6 to 40 bytes 1.17.
pub fn near<F: Fn(usize) -> bool>(at: usize, passes: F) -> Option<usize>
    requires fits { at + 8 < 2 ^ 64 }
    requires callable { (k : ℕ) → at ≤ k → k < at + 8 → F.pre passes k }
    ensures { (f : ℕ → Bool)
        → ((k : ℕ) (r : Bool) → F.post passes k r → r ≡ f k)
        → Finds f at (at + 8) result }
{
    for i in at..at + 8 {
        if passes(i) {
            return Some(i);
        }
    }
    None
}

// The first place from `at` on and before `to` that passes a test, if one does: N places at a time, as long as as many
// are left before `end`, so that those from `to` on may be tested too.
pub fn find<const N: usize, F: Fn(usize) -> bool>(
    at: usize,
    to: usize,
    end: usize,
    passes: F,
) -> Option<usize>
    requires fits { (1 ≤ N) × (N ≤ 255) }
    requires in_order { to ≤ end }
    requires callable { (k : ℕ) → at ≤ k → k < end → F.pre passes k }
    ensures { (f : ℕ → Bool)
        → ((k : ℕ) (r : Bool) → F.post passes k r → r ≡ f k)
        → Finds f at to result }
{
    let mut i = at;
    while i < to {
        if end - i < N {
            for k in i..to {
                if passes(k) {
                    return Some(k);
                }
            }
            return None;
        }
        let n = first_of::<N, _>(|k| passes(i + k));
        if n < N {
            if i + n < to {
                return Some(i + n);
            }
            return None;
        }
        i += N;
    }
    None
}

// https://webassembly.github.io/spec/core/text/lexical.html#white-space
// The place behind the white space from `at` on: four bytes that stand in UTF-8 for themselves alone. Most runs are
// short: the first eight bytes are looked at one by one, and where there are more, 32 at a time.
pub fn skip_ws(s: &[u8], at: usize, t: &Table) -> usize
    requires at_in_bounds { at ≤ length s.now }
    ensures { Scanned space true s.now at result }
{
    if s.len() - at < 8 {
        return long_ws(s, at);
    }
    if let Some(i) = near(at, |i| !t.is_ws(s[i])) {
        return i;
    }
    long_ws(s, at + 8)
}

fn long_ws(s: &[u8], at: usize) -> usize
    requires at_in_bounds { at ≤ length s.now }
    ensures { Scanned space true s.now at result }
{
    find::<32, _>(at, s.len(), s.len(), |k| !is_space(s[k])).unwrap_or(s.len())
}

// The place behind the idchars from `at` on: the first eight bytes as in `skip_ws`.
pub fn idchars_end(s: &[u8], at: usize, t: &Table) -> usize
    requires at_in_bounds { at ≤ length s.now }
    ensures { Scanned idchar true s.now at result }
{
    if s.len() - at < 8 {
        return long_word(s, at, t);
    }
    if let Some(i) = near(at, |i| !t.is_idchar(s[i])) {
        return i;
    }
    long_word(s, at + 8, t)
}

// As `idchars_end`, for a word of any length.
fn long_word(s: &[u8], at: usize, t: &Table) -> usize
    requires at_in_bounds { at ≤ length s.now }
    ensures { Scanned idchar true s.now at result }
{
    scan(s, at, |b| t.is_idchar(b))
}

// The place behind the decimal digits from `at` on.
pub fn digits_end(s: &[u8], at: usize, t: &Table) -> usize
    requires at_in_bounds { at ≤ length s.now }
    ensures { Scanned (digit false) true s.now at result }
{
    scan(s, at, |b| t.is_digit(false, b))
}

// The place behind the raw characters from `at` on, of those that are ASCII.
pub fn ascii_raw_end(s: &[u8], at: usize, t: &Table) -> usize
    requires at_in_bounds { at ≤ length s.now }
    ensures { Scanned raw true s.now at result }
{
    scan(s, at, |b| t.is_raw(b))
}
