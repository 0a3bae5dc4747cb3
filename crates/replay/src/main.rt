// Answers of the Rust, recorded by `oracle record` (tests/oracle), replayed against Thallusweb: how many agree, by
// type of row. `replay_rows` describes the rows of the file `answers`.
// A row's number becomes a usize by `as`: std has no `From` of u64 for it.
#![tactic(auto)]

ghost use Rattle.std.specs.Prelude.{◌≢◌, IfErr};
ghost use Rattle.std.specs.IoError.{error_kind};

mod counts;

use counts::{Counts, RowKind, Verdict};
use replay_rows::ROW;
use std::fs::File;
use std::io;
use std::io::{ErrorKind, Read};
use std::process::ExitCode;
use wat::{Settings, Token};

// What the first byte of a damaged row has more than its type.
const DAMAGED: u8 = 128;

// The settings of a row.
fn row_settings(row: &[u8; ROW]) -> Settings {
    c_asked::settings_of(u32::from(row[1]))
}

fn parse_agrees(row: &[u8; ROW], text: &[u8]) -> bool {
    replay_rows::parsed_agrees(
        row,
        lex_calls::parse(
            text,
            row_settings(row),
            replay_rows::number_at(row, 4) as usize,
        ),
    )
}

fn annotation_agrees(row: &[u8; ROW], text: &[u8]) -> bool {
    replay_rows::found_agrees(
        row,
        lex_calls::annotation(
            text,
            row_settings(row),
            replay_rows::number_at(row, 4) as usize,
        ),
    )
}

fn list_agrees(row: &[u8; ROW], text: &[u8]) -> bool {
    let mut list = [238u8; 64];
    let n = usize::from(row[3]);
    if 64 < n {
        return false;
    }
    let listed = lex_list::list(
        text,
        row_settings(row),
        replay_rows::number_at(row, 4) as usize,
        replay_rows::number_at(row, 8) as usize,
        &mut list[..n],
    );
    replay_rows::listed_agrees(row, listed) & replay_rows::bytes_agree(row, &list, 64)
}

// The token of a row.
fn row_token(row: &[u8; ROW]) -> Token {
    c_asked::token_of([
        replay_rows::number_at(row, 8),
        replay_rows::number_at(row, 4),
        replay_rows::number_at(row, 32),
    ])
}

fn read_agrees(row: &[u8; ROW], text: &[u8]) -> bool {
    let mut buffer = [238u8; 64];
    let n = usize::from(row[3]);
    if 64 < n {
        return false;
    }
    let answer = c_read_words::reading_words(read_call::read(
        text,
        u64::from(row[1]),
        row_token(row),
        &mut buffer[..n],
    ));
    replay_rows::agrees(row, answer) & replay_rows::bytes_agree(row, &buffer, 64)
}

fn name_agrees(row: &[u8; ROW], text: &[u8]) -> bool {
    let mut buffer = [238u8; 64];
    let n = usize::from(row[3]);
    if 64 < n {
        return false;
    }
    let w = c_read_words::name_words(read_text::name(text, row_token(row), &mut buffer[..n]));
    replay_rows::agrees(row, [w[0], w[1], w[2], w[3], w[4]])
        & (replay_rows::number_at(row, 36) == w[5])
        & replay_rows::bytes_agree(row, &buffer, 64)
}

// Whether our answer is the row's.
fn row_agrees(kind: RowKind, row: &[u8; ROW], text: &[u8]) -> bool {
    match kind {
        RowKind::Parse => parse_agrees(row, text),
        RowKind::Annotation => annotation_agrees(row, text),
        RowKind::List => list_agrees(row, text),
        RowKind::Read => read_agrees(row, text),
        RowKind::Name => name_agrees(row, text),
    }
}

// What a row says. The answers to a damaged one must differ.
fn replayed(row: &[u8; ROW]) -> Verdict {
    let n = usize::from(row[2]);
    if 40 < n {
        return Verdict::Unknown;
    }
    let text = &row[48..48 + n];
    if row[0] < DAMAGED {
        return match RowKind::try_from(row[0]) {
            Ok(kind) => Verdict::Whole {
                kind,
                agrees: row_agrees(kind, row, text),
            },
            Err(_) => Verdict::Unknown,
        };
    }
    let noticed = match RowKind::try_from(row[0] - DAMAGED) {
        Ok(kind) => !row_agrees(kind, row, text),
        Err(_) => false,
    };
    Verdict::Damaged { noticed }
}

// What the next row says, if there is one. Less than a row is no row.
fn next<R: Read>(input: &mut R) -> io::Result<Option<Verdict>>
    ensures end_is_no_error { IfErr result (λ e. error_kind e ≢ ErrorKind.UnexpectedEof) }
{
    let mut row = [0u8; ROW];
    match input.read_exact(&mut row) {
        Ok(()) => Ok(Some(replayed(&row))),
        Err(e) if e.kind() == ErrorKind::UnexpectedEof => Ok(None),
        Err(e) => Err(e),
    }
}

// What the rows say; a proved loop has to end, so it counts its turns.
fn replay_all<R: Read>(input: &mut R) -> io::Result<Counts> {
    let mut counts = Counts::new();
    for _ in 0..1_000_000 {
        let Some(verdict) = next(input)? else {
            return Ok(counts);
        };
        counts.count(verdict);
    }
    Ok(counts)
}

fn main(rt: HostRuntime) -> io::Result<ExitCode> {
    let mut file = match File::open(&rt, "answers") {
        Ok(file) => file,
        Err(e) => {
            eprintln!(rt; "answers: {e}")?;
            return Ok(ExitCode::FAILURE);
        }
    };
    let counts = replay_all(&mut file)?;
    counts.report(&rt)?;
    Ok(ExitCode::SUCCESS)
}
