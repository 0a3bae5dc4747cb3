// Bytes written into a lent buffer: those of a scalar value in UTF-8, and a part of another slice or all of it.

#![tactic(auto)]

ghost use Rattle.std.specs.Prelude.{◌≡◌, ◌+◌, ◌/◌, ◌%◌, ◌≤◌, ◌<◌, length, take, drop};
ghost use Rattle.wat.specs.StringModel.{encode};
ghost use Rattle.buffers.specs.Writing.{Put, Added, Encoded};

// How many bytes a scalar value has.
#[tactic(auto, unfolding(wat::specs::StringModel::encode))]
pub fn len_utf8(v: u32) -> usize
    ensures { result ≡ length (encode v) }
{
    if v < 0x80 {
        return 1;
    }
    if v < 0x800 {
        return 2;
    }
    if v < 0x10000 {
        return 3;
    }
    4
}

// A number below 256 as a byte: a cast, as the contract rules out all that `u8::try_from` would refuse.
fn low(x: u32) -> u8
    requires { x < 256 }
    ensures { result ≡ x }
{
    x as u8
}

// A byte after the first, with the last six bits of x.
fn six_byte(x: u32) -> u8
    ensures { result ≡ 0x80 + x % 0x40 }
{
    low(0x80 + x % 0x40)
}

// Writes the bytes of a scalar value at a place of a buffer that has the room; returns how many they are.
#[tactic(auto, using(crate::proofs::EncodeLaws::codes))]
pub fn encode_utf8(dst: &mut [u8], to: usize, v: u32) -> usize
    requires { (v < 0x110000) × (to + length (encode v) ≤ length dst.old) }
    ensures { Encoded dst.old dst.new to v result }
{
    if v < 0x80 {
        dst[to] = low(v);
        return 1;
    }
    if v < 0x800 {
        dst[to] = low(0xC0 + v / 0x40);
        dst[to + 1] = six_byte(v);
        return 2;
    }
    if v < 0x10000 {
        dst[to] = low(0xE0 + v / 0x1000);
        dst[to + 1] = six_byte(v / 0x40);
        dst[to + 2] = six_byte(v);
        return 3;
    }
    dst[to] = low(0xF0 + v / 0x40000);
    dst[to + 1] = six_byte(v / 0x1000);
    dst[to + 2] = six_byte(v / 0x40);
    dst[to + 3] = six_byte(v);
    4
}

// Writes n bytes of one slice, from a place on, at a place of another. Byte by byte: by `copy_from_slice` the library
// would need `memmove` of whoever links it (tried), and README.md promises that it needs no more than `memcpy`.
#[tactic(auto, using(crate::proofs::PutLaws::copy_more))]
pub fn copy(dst: &mut [u8], to: usize, src: &[u8], from: usize, n: usize)
    requires { (to + n ≤ length dst.old) × (from + n ≤ length src.now) }
    ensures { Put dst.old dst.new to (take n (drop from src.now)) }
{
    for k in 0..n {
        dst[to + k] = src[from + k];
    }
}

// Writes the bytes of a text at a place of a buffer; returns where they end.
#[tactic(auto, using(crate::proofs::AddedLaws::copied_all))]
pub fn append(out: &mut [u8], at: usize, text: &[u8]) -> usize
    requires { at + length text.now ≤ length out.old }
    ensures { Added out.old out.new at text.now result }
{
    copy(out, at, text, 0, text.len());
    at + text.len()
}
