// What folding a form answers. specs/ says which answer is right: what a form is, and which trouble comes first.
#![tactic(auto)]

ghost use Rattle.std.specs.Prelude.{◌≡◌};
ghost use Rattle.wat_forms.specs.declared.FoldError.TheVariants.{Refused as refused};

use wat::Refused;

// How deep forms may stand in each other, the outermost being level 1.
pub const LEVELS: usize = 64;

// Why no form is folded: a refusal and its place; 41, with the opening that would be one level too many; or 42, with the
// end of a text in which a form is still open.
#[derive(Clone, Copy, PartialEq, Eq)]
pub enum FoldError {
    Refused(Refused),
    TooDeep { place: usize },
    Unclosed { place: usize },
}

impl From<Refused> for FoldError {
    ghost from_gives = { λ r e. e ≡ refused r };

    fn from(r: Refused) -> FoldError {
        FoldError::Refused(r)
    }
}
