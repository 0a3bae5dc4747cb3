// What the readers answer. specs/ says which answer is right: what each reader leaves of a token's bytes.
#![tactic(auto)]

use wat::Refusal;

// The place of a refusal that has none: no such token (30), another kind (31), too short a buffer (32).
pub const NO_PLACE: usize = 0;

// Where a value's bytes are: so many from a start on, in the text or in the buffer. A reader's first call answers a
// `Result<Option<Part>, Refused>`: none where the token has no such value.
#[derive(Clone, Copy, PartialEq, Eq)]
pub enum Part {
    Text { start: usize, len: usize },
    Buffer { start: usize, len: usize },
}

// The two tokens that have a name: an id, after its `$`, and an annotation, after its `@`.
#[derive(Clone, Copy, PartialEq, Eq)]
pub enum NameKind {
    Id,
    Annotation,
}

// A name: whose it is, and where its bytes are. The reader of names answers a `Result<Name, Refused>`.
#[derive(Clone, Copy, PartialEq, Eq)]
pub struct Name {
    pub kind: NameKind,
    pub part: Part,
}

// A part of a float: the digits before its point, after it, and of its exponent; those of a NaN after `nan:0x`.
#[derive(Clone, Copy)]
pub enum FloatPart {
    Integral,
    Fraction,
    Exponent,
    Payload,
}
