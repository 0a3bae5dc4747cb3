// The listing: the tokens of a text from a start on, as records in a lent list. The Rust's `iter` up to an error.
// A length, a usize, becomes a u32 by `as`: std has no `From` for that.

#![tactic(auto)]

ghost use Rattle.std.specs.Prelude.{◌+◌, ◌≤◌, ◌<◌, ◌++◌, length, drop};
ghost use Rattle.wat.specs.Cases.{kind_number};
ghost use Rattle.wat.specs.Division.{little, record_size, Listing};
ghost use Rattle.buffers.specs.Writing.{Put};

use codes::KindNumber;
use lex_classes::Table;
use lex_entry::Rest;
use wat::{Listed, Refusal, Refused, Settings, Stop, Token};

// A token's record at a place of the list: its length in four bytes and its kind in two, the least first.
#[tactic(auto, using(buffers::proofs::AddedLaws::added_length))]
fn put_record(list: &mut [u8], to: usize, len: u32, kind: KindNumber)
    requires { to + record_size ≤ length list.old }
    ensures { Put list.old list.new to (little 4 len ++ little 2 (kind_number kind)) }
{
    let at = buffers::append(list, to, &len.to_le_bytes());
    buffers::append(list, at, &kind.get().to_le_bytes());
}

// The listing from a place at which a text may be read. The text is checked no more: one check serves for all tokens.
#[tactic(auto, using(crate::proofs::GoesLaws::goings))]
fn list_from(rest: &Rest, settings: Settings, budget: usize, list: &mut [u8]) -> Listed
    ensures { Listing settings rest.now.text rest.now.at budget list.old result list.new }
{
    let text = rest.text();
    let start = rest.at();
    let t = Table::new();
    let mut at = start;
    let mut n: usize = 0;
    let mut used: usize = 0;
    while at < text.len() {
        if n == budget {
            return Listed {
                stop: Ok(Stop::Budget),
                count: n,
                position: at,
            };
        }
        let Some(step) = lex_token::step_at(text, at, settings, &t) else {
            let fault = lex_calls::fault_at(text, at, settings, &t);
            let error = fault.error;
            return Listed {
                stop: Err(Refused {
                    refusal: Refusal::Lexical(error),
                    place: fault.place,
                }),
                count: n,
                position: fault.after,
            };
        };
        if list.len() - used < Token::RECORD {
            return Listed {
                stop: Ok(Stop::Full),
                count: n,
                position: at,
            };
        }
        put_record(list, used, (step.end - at) as u32, step.kind);
        used += Token::RECORD;
        n += 1;
        at = step.end;
    }
    Listed {
        stop: Ok(Stop::End),
        count: n,
        position: at,
    }
}

// The listing call: at most `budget` tokens from `start` on, as many as the list has room for.
#[tactic(auto, using(crate::proofs::GoesLaws::refusals))]
pub fn list(text: &[u8], settings: Settings, start: usize, budget: usize, list: &mut [u8]) -> Listed
    ensures { Listing settings text.now start budget list.old result list.new }
{
    match lex_entry::enter(text, start) {
        Err(Refused { refusal, place }) => Listed {
            stop: Err(Refused { refusal, place }),
            count: 0,
            position: start,
        },
        Ok(rest) => list_from(&rest, settings, budget, list),
    }
}
