// The check of a text: whether it is well-formed UTF-8, as Rust's `std::str` says. What is right is said by the Unicode
// Standard's table of well-formed sequences, `wat/specs/Utf8.antt`.

#![tactic(auto)]

ghost use Rattle.wat.specs.Utf8.{Says};

use wat::{Front, Utf8Error};

mod blocks;

// Whether a text is well formed, or where it goes wrong, as `std::str::from_utf8` says. What the blocks leave is
// checked by characters.
pub fn check(s: &[u8]) -> Result<(), Utf8Error>
    ensures { Says s.now result }
{
    let mut i = blocks::pass(s);
    // by as many bytes as the character has that stands there: no iterator steps so
    while i < s.len() {
        if s[i] < 0x80 {
            i += 1;
        } else {
            match utf8_chars::front_at(s, i) {
                Front::Whole(n) => {
                    i += n;
                }
                Front::Wrong(k) => {
                    return Err(Utf8Error {
                        valid_up_to: i,
                        error_len: k,
                    });
                }
                Front::Cut => {
                    return Err(Utf8Error {
                        valid_up_to: i,
                        error_len: 0,
                    });
                }
            }
        }
    }
    Ok(())
}
