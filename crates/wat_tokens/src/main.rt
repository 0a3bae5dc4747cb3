// wat-tokens: the tokens of standard input, one to a line, with the flag off. `tokens_output` makes what it prints.
#![tactic(auto)]

ghost use Rattle.std.specs.Prelude.{◌≤◌, length, IfOk};

use std::io;
use std::io::Read;
use std::process::ExitCode;

// What every output fits in.
fn room() -> [u8; tokens_output::ROOM] {
    [0; tokens_output::ROOM]
}

// Reads until the buffer is full or the input ends; returns how many bytes. Each read asks for all that is left, since one
// that asks for less loses the rest of a packet. std's `read_to_end` asks for less, takes heap, and goes on when interrupted.
fn read_full<R: Read>(input: &mut R, buffer: &mut [u8]) -> io::Result<usize>
    ensures { IfOk result (λ n. n ≤ length buffer.new) }
{
    let mut done = 0;
    while done < buffer.len() {
        let n = input.read(&mut buffer[done..])?;
        if n == 0 {
            break;
        }
        done += n;
    }
    Ok(done)
}

fn failed(rt: &impl Eprint, what: &str, error: io::Error) -> io::Result<ExitCode> {
    eprintln!(rt; "wat-tokens: {what}: {error}")?;
    Ok(ExitCode::FAILURE)
}

fn main(rt: HostRuntime) -> io::Result<ExitCode> {
    let mut text = [0u8; tokens_output::LONGEST + 1];
    let n = match read_full(&mut rt.reader(), &mut text) {
        Ok(n) => n,
        Err(e) => return failed(&rt, "standard input", e),
    };
    let mut out = room();
    let end = tokens_output::render(&text[..n], &mut out);
    match rt.write_all(&out[..end]) {
        Ok(()) => Ok(ExitCode::SUCCESS),
        Err(e) => failed(&rt, "standard output", e),
    }
}
