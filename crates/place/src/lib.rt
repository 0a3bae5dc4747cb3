// The place counter by value: lines and columns as specs/Places defines them.
#![tactic(auto)]

ghost use Rattle.std.specs.Prelude.{◌≡◌};
ghost use Rattle.place.specs.Places.{Moves, answer};
ghost use Rattle.place.specs.PlaceModel.{step};

// The place counter: line and column, each from 1, and whether the last byte passed is a CR.
#[derive(Clone, Copy, PartialEq, Eq)]
pub struct Place {
    pub line: u32,
    pub column: u32,
    pub after_cr: bool,
}

impl Place {
    // The last line and the last column that a counter holds.
    pub const LAST: u32 = 4_294_967_295;
}

const LAST: u32 = Place::LAST;

// Moves the counter over one byte.
#[tactic(auto, using(crate::proofs::ByteLaws::passings))]
fn over_byte(p: Place, x: u8) -> Option<Place>
    ensures { result ≡ step p x }
{
    let feed = x == b'\n';
    let cr = x == b'\r';
    if feed & p.after_cr {
        // the rest of a CR LF
        return Some(Place {
            line: p.line,
            column: 1,
            after_cr: false,
        });
    }
    if feed | cr {
        if p.line == LAST {
            return None;
        }
        return Some(Place {
            line: p.line + 1,
            column: 1,
            after_cr: cr,
        });
    }
    if p.column == LAST {
        return None;
    }
    Some(Place {
        line: p.line,
        column: p.column + 1,
        after_cr: false,
    })
}

// Moves the counter over the bytes of a token; none, which is 35, if line or column would pass the last number at any
// byte.
pub fn move_over(p: Place, w: &[u8]) -> Option<Place>
    ensures { Moves p w.now (answer p result) }
{
    let mut at = p;
    for &x in w {
        at = over_byte(at, x)?;
    }
    Some(at)
}
