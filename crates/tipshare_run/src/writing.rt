// A text written whole, or a beginning of it.
ghost use Rattle.std.specs.Prelude.{◌≡◌, OnOk};
ghost use Rattle.std.specs.Io.KnownBytes.{Appends};
ghost use Rattle.tipshare_run.specs.Run.{Begun};

use crate::failing::Failure;
use std::io;
use std::io::{Error, ErrorKind, Write};

// Linux's number for an input or output error, the reason of a write that took nothing and gave none.
const EIO: i32 = 5;

// A write that a signal stopped is tried again. std's `write_all` promises nothing of the bytes after an error.
pub fn write_text<W: Write>(to: &mut W, text: &[u8]) -> io::Result<()>
    ensures whole { OnOk result (Appends (W.contents to.old) (W.contents to.new) text.now) }
    ensures part { Begun (W.contents to.old) (W.contents to.new) text.now }
{
    let mut done = 0;
    for _ in 0..u64::MAX {
        if done >= text.len() {
            return Ok(());
        }
        match to.write(&text[done..]) {
            Ok(0) => return Err(Error::from_raw_os_error(EIO)),
            Ok(count) => done += count,
            Err(error) => {
                if error.kind() != ErrorKind::Interrupted {
                    return Err(error);
                }
            }
        }
    }
    Err(Error::from_raw_os_error(EIO))
}

// Some outputs only say at the end that a write failed.
#[tactic(auto, using(crate::proofs::Begun::whole_kept, crate::proofs::Begun::begun_kept))]
pub fn print<W: Write>(output: &mut W, text: &[u8]) -> Result<(), Failure>
    ensures whole { OnOk result (Appends (W.contents output.old) (W.contents output.new) text.now) }
    ensures part { Begun (W.contents output.old) (W.contents output.new) text.now }
{
    if let Err(error) = write_text(output, text) {
        return Err(Failure::Writing(error));
    }
    match output.flush() {
        Ok(()) => Ok(()),
        Err(error) => Err(Failure::Writing(error)),
    }
}
