// What `wat-tokens` prints of a text. specs/Output.antt says it over wat's definitions, and `render` makes just that.

#![tactic(auto)]

ghost use Rattle.std.specs.Prelude.{◌≡◌, ◌≤◌, length, take};
ghost use Rattle.io.specs.Counts.{IsPrefixLen};
ghost use Rattle.tokens_lines.specs.Lines.{header};
ghost use Rattle.tokens_output.specs.Front.{Front, room};
ghost use Rattle.tokens_output.specs.Output.{Output, longest};

use lex_classes::Table;
use lex_entry::Rest;
use wat::{Lexeme, Refusal, Refused, Settings};

// The longest input.
pub const LONGEST: usize = 32_768;

// What every output fits in: a line for each byte, since no token is empty; the header; the last line.
pub const ROOM: usize = tokens_lines::LONGEST_LINE * (LONGEST + 2);

// The lines of a text that can be read, behind the header, and the last line: one walk over its tokens.
#[tactic(auto, using(crate::proofs::OutputLaws::growing))]
fn render_from(rest: &Rest, out: &mut [u8], from: usize) -> usize
    requires start { rest.now.at ≡ 0 }
    requires small { length rest.now.text ≤ longest }
    requires room { room ≤ length out.old }
    requires front { Front out.old header from }
    ensures { Output rest.now.text (take result out.new) × IsPrefixLen result out.new }
{
    let text = rest.text();
    let mut at = rest.at();
    let t = Table::new();
    let mut end = from;
    let mut count: usize = 0;
    // a `loop`, since each turn goes on behind the token that it found, and three things may be next
    loop {
        match lex_calls::next(text, at, Settings::PLAIN, &t) {
            Ok(Some(Lexeme { kind, len })) => {
                end = tokens_lines::put_line(out, end, kind, at, len);
                at += len;
                count += 1;
            }
            Err(fault) => {
                let error = fault.error;
                return tokens_lines::put_error(out, end, Refusal::Lexical(error), at + fault.place);
            }
            Ok(None) => {
                return tokens_lines::put_end(out, end, at, count);
            }
        }
    }
}

// What is printed of a text, at the front of the buffer; returns its length.
#[tactic(auto, using(crate::proofs::OutputLaws::printed))]
pub fn render(text: &[u8], out: &mut [u8; ROOM]) -> usize
    ensures { Output text.now (take result out.new) × IsPrefixLen result out.new }
{
    let end = tokens_lines::put_header(out);
    if text.len() > LONGEST {
        return buffers::append(out, end, b"too-long\n");
    }
    match lex_entry::enter(text, 0) {
        Err(Refused { refusal, place }) => tokens_lines::put_error(out, end, refusal, place),
        Ok(rest) => render_from(&rest, out, end),
    }
}
