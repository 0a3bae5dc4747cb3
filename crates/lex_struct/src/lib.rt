// The Rust's `Lexer`, which `thallusweb` passes on: a struct of the text and the settings, with thin methods over the
// calls on plain parameters.

#![tactic(auto)]

ghost use Rattle.std.specs.Prelude.{◌≡◌};
ghost use denote.Ref.{at_last};
ghost use Rattle.wat.specs.Calls.{most, Parses, Annotates};
ghost use Rattle.wat.specs.Division.{Listing};
ghost use Rattle.wat.specs.Settings.{plain};
ghost use Rattle.wat_forms.specs.Forms.{Folds};
ghost use Rattle.lex_struct.specs.Setters.{allowing, strictly};

use wat::{Listed, Refused, Settings, Token};
use wat_forms::FoldError;

// A text of any bytes, which each call checks, and the settings by which it is read.
#[derive(Clone, Copy)]
pub struct Lexer<'a> {
    pub text: &'a [u8],
    pub settings: Settings,
}

impl<'a> Lexer<'a> {
    // The longest text that is lexed, in bytes.
    pub const MAX_TEXT: usize = Token::MAX_TEXT;

    // The same number, promised: a constant has no contract.
    pub fn max_text() -> usize
        ensures { result ≡ most }
    {
        Lexer::MAX_TEXT
    }

    // The settings are off until they are set.
    pub fn new(text: &'a [u8]) -> Lexer<'a>
        ensures { (result.text ≡ text.entry) × (result.settings ≡ plain) }
    {
        Lexer {
            text,
            settings: Settings::PLAIN,
        }
    }

    pub fn input(&self) -> &'a [u8]
        ensures { result ≡ self.now.text }
    {
        self.text
    }

    // Returns the lexer itself: the same reference, with the same text and the new setting.
    pub fn allow_confusing_unicode(&mut self, allow: bool) -> &mut Lexer<'a>
        ensures { result ≡ at_last self.entry (allowing self.old allow) }
    {
        self.settings.allow_confusing = allow;
        self
    }

    // The same for strict digits: in `\u{..}` a single underscore between digits.
    pub fn strict_digits(&mut self, strict: bool) -> &mut Lexer<'a>
        ensures { result ≡ at_last self.entry (strictly self.old strict) }
    {
        self.settings.strict_digits = strict;
        self
    }

    // One token at a position, which is lent and changed by the call.
    pub fn parse(&self, pos: &mut usize) -> Result<Option<Token>, Refused>
        ensures { Parses self.now.settings self.now.text.now pos.old
            (record { found = result; position = pos.new }) }
    {
        parse_from(self.text, self.settings, pos)
    }

    // The annotation at a position, if one is there.
    pub fn annotation(&self, pos: usize) -> Result<Option<Token>, Refused>
        ensures { Annotates self.now.settings self.now.text.now pos result }
    {
        lex_calls::annotation(self.text, self.settings, pos)
    }

    // The Rust's `iter`, up to the first error, as records in a lent list: at most `budget` tokens from `start` on.
    pub fn list(&self, start: usize, budget: usize, list: &mut [u8]) -> Listed
        ensures { Listing self.now.settings self.now.text.now start budget
            list.old result list.new }
    {
        lex_list::list(self.text, self.settings, start, budget, list)
    }

    // The position past the form that begins at a position.
    pub fn fold(&self, pos: usize) -> Result<usize, FoldError>
        ensures { Folds self.now.settings self.now.text.now pos result }
    {
        lex_forms::fold(self.text, self.settings, pos)
    }
}

// `parse` on plain parameters, so that its method is thin.
fn parse_from(text: &[u8], settings: Settings, pos: &mut usize) -> Result<Option<Token>, Refused>
    ensures { Parses settings text.now pos.old
        (record { found = result; position = pos.new }) }
{
    let parsed = lex_calls::parse(text, settings, *pos);
    *pos = parsed.position;
    parsed.found
}
