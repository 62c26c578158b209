// A read or a write that failed, and its message.
ghost use Rattle.std.specs.Prelude.{◌++◌, ℕ, List, ◌≤◌};
ghost use Rattle.tipshare_run.specs.Run.{Begun, sentence};

use crate::wording::{CANNOT_READ, CANNOT_WRITE, READ_ADVICE, WRITE_ADVICE};
use crate::writing::write_text;
use std::io;
use std::io::{Error, Write};

#[derive(Drop)]
pub enum Failure {
    Reading(Error),
    Writing(Error),
}

// What std puts behind the system's words, before the number of the error.
const NUMBER: [u8; 11] = *b" (os error ";

// Puts the system's words for an error at the start of the buffer: their length.
fn put_reason(error: &Error, room: &mut [u8; 256]) -> usize
    ensures { result ≤ 256 }
{
    let mut rest = &mut room[..];
    let _ = write!(rest, "{error}");
    let size = 256usize.saturating_sub(rest.len());
    let words = &room[..size];
    match words
        .windows(NUMBER.len())
        .position(|part| part == NUMBER.as_slice())
    {
        Some(end) => end,
        None => size,
    }
}

// Writes that stop at the first that fails.
#[tactic(auto, using(crate::proofs::Begun::begun_first, crate::proofs::Begun::begun_second))]
fn write_three<W: Write>(to: &mut W, first: &[u8], second: &[u8], third: &[u8]) -> io::Result<()>
    ensures { Begun (W.contents to.old) (W.contents to.new) (first.now ++ second.now ++ third.now) }
{
    write_text(to, first)?;
    write_text(to, second)?;
    write_text(to, third)
}

// Says what failed and why, and what to do.
pub fn tell<W: Write>(errors: &mut W, failure: &Failure)
    ensures { (reason : List ℕ) × Begun (W.contents errors.old) (W.contents errors.new) (sentence failure.now reason) }
{
    let mut room = [0u8; 256];
    let _ = match failure {
        Failure::Reading(error) => {
            let size = put_reason(error, &mut room);
            write_three(errors, &CANNOT_READ, &room[..size], &READ_ADVICE)
        }
        Failure::Writing(error) => {
            let size = put_reason(error, &mut room);
            write_three(errors, &CANNOT_WRITE, &room[..size], &WRITE_ADVICE)
        }
    };
}
