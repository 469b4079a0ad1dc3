// The program: standard input to reply and figures. A thin shell over `lines::answer`.
#![tactic(auto)]

ghost use Rattle.std.specs.Prelude.{◌≡◌, ◌≤◌, OnOk, IfOk, IfSome, take, length};
ghost use Rattle.ringcheck.specs.Judging.{Judged};

use std::io::{self, Read, Write};

// Fills a buffer from its front, as far as the input goes: the answer is how many bytes it gave.
// Kept: no heap. Of the library's methods `read_exact` fails where the input ends, and `read_to_end` asks for memory.
fn read_full<R: Read>(input: &mut R, file: &mut [u8]) -> io::Result<usize>
    ensures bound { IfOk result (λ n. n ≤ length file.new) }
    ensures bytes { IfOk result (λ n. IfSome (R.remaining input.old) (λ xs. take n file.new ≡ take (length file.new) xs)) }
{
    let mut n = 0;
    while n < file.len() {
        let k = input.read(&mut file[n..])?;
        if k == 0 {
            return Ok(n);
        }
        n += k;
    }
    Ok(n)
}

// Judges the first 65,536 bytes of an input.
// Kept: no heap, so that no answer can be that memory ran out: both buffers have a fixed size.
fn judge<R: Read, W: Write>(input: &mut R, output: &mut W) -> io::Result<()>
    ensures { OnOk result (IfSome (R.remaining input.old) (λ file. Judged file (W.contents output.old) (W.contents output.new))) }
{
    let mut file = [0; 65536];
    let n = read_full(input, &mut file)?;
    let mut out = [0; 2048];
    let length = lines::answer(&file[..n], &mut out);
    output.write_all(&out[..length])
}

fn main(rt: HostRuntime) -> io::Result<()> {
    judge(&mut rt.stdin(), &mut rt.stdout())
}
