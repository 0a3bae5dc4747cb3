// The second call of the readers: the part that a first call named.
#![tactic(auto)]

ghost use Rattle.std.specs.Prelude.{◌≡◌};
ghost use Rattle.wat_values.specs.Reading.{Second, reading_of};
ghost use Rattle.read_second.specs.Parts.{PartOf, PartFor};

use wat::Refused;
use wat_values::{Name, Part};

// Returns the part of the text or of the buffer that a first call named, as a reference into it. It takes any answer,
// and returns an empty part if there is no such part: at the start of the slice that the answer names, or of the text.
pub fn part<'a>(
    text: &'a [u8],
    buffer: &'a [u8],
    reading: Result<Option<Part>, Refused>,
) -> &'a [u8]
    ensures { Second text.now buffer.now reading result.now
        × PartFor text.entry buffer.entry reading result }
{
    match reading {
        Ok(Some(Part::Text { start, len })) => sub(text, start, len),
        Ok(Some(Part::Buffer { start, len })) => sub(buffer, start, len),
        Ok(None) => &text[0..0],
        Err(_) => &text[0..0],
    }
}

// A name's answer as that of another reader, so that `part` takes it: without whose name it is.
pub fn reading_of(named: Result<Name, Refused>) -> Result<Option<Part>, Refused>
    ensures { result ≡ reading_of named }
{
    Ok(Some(named?.part))
}

// So many bytes from a start on; none, at the slice's start, if there are fewer.
fn sub<'a>(s: &'a [u8], start: usize, len: usize) -> &'a [u8]
    ensures { PartOf s.entry start len result }
{
    if s.len() < start {
        return &s[0..0];
    }
    if s.len() - start < len {
        return &s[0..0];
    }
    let end = start + len;
    &s[start..end]
}
