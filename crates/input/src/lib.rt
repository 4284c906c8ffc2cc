// Standard input, read to its end into a buffer of the caller's, for the programs.
//
// Each piece is read into a local array first and then copied behind the pieces before it, so that the promise of `fill` says
// where every byte of the buffer comes from. Which bytes came, and how many, only the system knows.
#![tactic(auto)]

ghost use Rattle.std.specs.Prelude.{◌+◌, ◌<◌, ◌≤◌, ◌≡◌, length};
ghost use Rattle.input.specs.Input.{Filled, Added, Given, Says, given_by, placed_at, said_after};

use std::io;
use std::io::Read;

// What reading gave, where no read failed.
#[derive(Clone, Copy)]
pub enum Input {
    // The whole input: so many bytes, at the start of the buffer.
    Whole(usize),
    // The input is longer than the buffer, which holds its start.
    Longer,
}

// A read of standard input failed. Nothing more is known of it, and the type has one value: of the library's error nothing is promised.
#[derive(Clone, Copy, Debug, PartialEq, Eq)]
pub struct Failed;

// The most bytes that are asked for at once.
const MOST_AT_ONCE: usize = 512;

// What a read gave, by what it answered: so many bytes, at least one, or none at the end of the input. Whatever the error, it failed.
fn given_by(answer: io::Result<usize>) -> Result<Option<usize>, Failed>
    ensures { result ≡ given_by answer }
{
    match answer {
        Ok(0) => Ok(None),
        Ok(n) => Ok(Some(n)),
        Err(_) => Err(Failed),
    }
}

// One read of standard input, into the space from its start. Where the space has no byte, nothing is said of the end.
fn read_some<R: Read>(stdin: &mut R, space: &mut [u8]) -> Result<Option<usize>, Failed>
    requires { 0 < length space.old }
    ensures { Given (length space.old) result }
{
    let answer = stdin.read(space);
    given_by(answer)
}

// Copies a piece into the buffer, behind its first `done` bytes.
fn keep(piece: &[u8], buffer: &mut [u8], done: usize)
    requires { done + length piece.now ≤ length buffer.old }
    ensures { buffer.new ≡ placed_at done piece.now buffer.old }
{
    let end = done + piece.len();
    buffer[done..end].copy_from_slice(piece);
}

// One piece of standard input, read into the space and copied into the buffer behind its first `done` bytes.
fn read_piece<R: Read>(
    stdin: &mut R,
    space: &mut [u8],
    buffer: &mut [u8],
    done: usize,
) -> Result<Option<usize>, Failed>
    requires { (0 < length space.old) × (done < length buffer.old) }
    ensures { Added done buffer.old buffer.new result }
{
    let most = space.len().min(buffer.len() - done);
    let Some(n) = read_some(stdin, &mut space[..most])? else {
        return Ok(None);
    };
    keep(&space[..n], buffer, done);
    Ok(Some(n))
}

// The next piece of standard input, behind the first `done` bytes of the buffer.
fn next_piece<R: Read>(
    stdin: &mut R,
    buffer: &mut [u8],
    done: usize,
) -> Result<Option<usize>, Failed>
    requires { done < length buffer.old }
    ensures { Added done buffer.old buffer.new result }
{
    let mut space = [0u8; MOST_AT_ONCE];
    read_piece(stdin, &mut space, buffer, done)
}

// What is said of the input by what the last read gave, with so many bytes before it. Bytes that the buffer has no room for say that the
// input is longer.
fn said_after(last: Result<Option<usize>, Failed>, done: usize) -> Result<Input, Failed>
    ensures { result ≡ said_after last done }
{
    match last? {
        Some(_) => Ok(Input::Longer),
        None => Ok(Input::Whole(done)),
    }
}

// What is said of a full buffer of that size: one byte more is asked for, and kept nowhere.
fn past_the_end<R: Read>(stdin: &mut R, size: usize) -> Result<Input, Failed>
    ensures { Says result size size }
{
    let mut more = [0u8; 1];
    said_after(read_some(stdin, &mut more), size)
}

// Reads standard input into the buffer, until it ends, is longer than the buffer or a read fails. Where one fails nothing is known of the
// input behind what was read.
pub fn fill<R: Read>(stdin: &mut R, buffer: &mut [u8]) -> Result<Input, Failed>
    ensures { Filled buffer.old buffer.new result }
{
    let mut done: usize = 0;
    while done < buffer.len() {
        // Not by `?`: that the end is no failure, and a failure no end, is what `said_after` promises.
        let piece = next_piece(stdin, buffer, done);
        let Ok(Some(n)) = piece else {
            return said_after(piece, done);
        };
        done += n;
    }
    past_the_end(stdin, done)
}
