// The desk program: a sheet from standard input, its answer to standard output. No sheet has as many bytes as are read,
// and no answer as many as are lent for it. A read or a write that fails ends the program, with an error.
#![tactic(auto)]

ghost use Rattle.std.specs.Prelude.{◌≤◌, length, IfOk};

use report::{TEXT_BYTES, file_place, report};
use std::io;
use std::io::Read;

// Reads until the place is full or the input ends, and hands back how many bytes it put there.
fn read_full(input: &mut impl Read, file: &mut [u8]) -> io::Result<usize>
    ensures { IfOk result (λ n. n ≤ length file.new) }
{
    let mut done = 0;
    while done < file.len() {
        let n = input.read(&mut file[done..])?;
        if n == 0 {
            break;
        }
        done += n;
    }
    Ok(done)
}

fn main(rt: HostRuntime) -> io::Result<()> {
    let mut file = file_place();
    let n = read_full(&mut rt.stdin(), &mut file)?;
    let mut text = [0u8; TEXT_BYTES];
    let k = report(&file[..n], &mut text);
    rt.write_all(&text[..k])
}
