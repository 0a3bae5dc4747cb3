// The place counter, lent and changed by the call, which `thallusweb` passes on.
#![tactic(auto)]

ghost use Rattle.std.specs.Prelude.{◌≡◌};
ghost use Rattle.place.specs.Places.{new, Moves};

use place::Place;

// Where a text begins.
pub fn new_place() -> Place
    ensures { result ≡ new }
{
    Place {
        line: 1,
        column: 1,
        after_cr: false,
    }
}

// Moves the counter over the bytes of a token; returns false, which is 35, and leaves it, if that is refused.
pub fn move_over(p: &mut Place, w: &[u8]) -> bool
    ensures { Moves p.old w.now (record { ok = result; place = p.new }) }
{
    let Some(to) = place::move_over(*p, w) else {
        return false;
    };
    *p = to;
    true
}
