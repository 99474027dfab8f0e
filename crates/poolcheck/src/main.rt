// Reads a pool from standard input to its end, and writes the verdict on it as a line.
#![tactic(auto)]

ghost use Rattle.std.specs.Prelude.{◌≡◌, ◌<◌, ◌≤◌, IfOk, length};
ghost use Rattle.pool.specs.Pool.{verdict_of};
ghost use Rattle.poolcheck.specs.Line.{digit_of, line_of};

use pool::Verdict;
use std::io;
use std::io::{Read, Write};

fn digit(n: u8) -> u8
    requires { n < 16 }
    ensures { result ≡ digit_of n }
{
    if n < 10 { 48 + n } else { 55 + n }
}

fn line(v: Verdict) -> [u8; 8]
    ensures { result ≡ line_of v }
{
    let code = v.code;
    let object = v.object;
    [
        digit(code / 16),
        digit(code % 16),
        32,
        digit((object / 4096) as u8),
        digit((object / 256 % 16) as u8),
        digit((object / 16 % 16) as u8),
        digit((object % 16) as u8),
        10,
    ]
}

// Reads until the buffer is full or the input ends, and gives how many bytes it put at the buffer's start.
fn read_full<R: Read>(input: &mut R, buffer: &mut [u8]) -> io::Result<usize>
    ensures { IfOk result (λ n. n ≤ length buffer.new) }
{
    // The library's read_exact does not say how many bytes came before the end, and its read_to_end needs a heap.
    let mut done = 0;
    while done < buffer.len() {
        let n = input.read(&mut buffer[done..])?;
        if n == 0 {
            break;
        }
        done += n;
    }
    Ok(done)
}

// Takes in what is left of the input, so that whoever writes it is not cut off.
#[inline(never)]
fn drain<R: Read>(input: &mut R) -> io::Result<()> {
    let mut buffer = [0; 65536];
    for _ in 0..u64::MAX {
        if read_full(input, &mut buffer)? < 65536 {
            break;
        }
    }
    Ok(())
}

// The check, and the reading of what is left, have frames of their own: laid into main, their arrays would add up on the stack.
#[inline(never)]
fn check(bytes: &[u8]) -> Verdict
    ensures { result ≡ verdict_of bytes.now }
{
    pool::check(bytes)
}

// A pool that fills the buffer is longer than any that is taken, so its verdict does not depend on what follows.
fn main(rt: HostRuntime) -> io::Result<()> {
    let mut input = rt.reader();
    let mut buffer = [0; 65536];
    let n = read_full(&mut input, &mut buffer)?;
    let verdict = check(&buffer[..n]);
    if n == 65536 {
        drain(&mut input)?;
    }
    io::writer(&rt).write_all(&line(verdict))
}
