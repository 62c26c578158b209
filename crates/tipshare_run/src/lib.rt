// The program tipshare: reads a job file to its end, writes the report on it, and returns the exit status. It takes its
// streams from the caller, so that its contract can name their bytes.
#![tactic(auto)]

ghost use Rattle.std.specs.Prelude.{◌≡◌, IfSome, OnOk};
ghost use Rattle.std.specs.Io.KnownBytes.{Appends};
ghost use Rattle.tipshare_run.specs.Run.{text_for, Begun, StatusFor, Told, planned};

mod failing;
mod wish;
mod wording;
mod writing;

use crate::failing::{Failure, tell};
pub use crate::wish::{Wish, asked};
use crate::wording::{HELP, USAGE, VERSION};
use crate::writing::{print, write_text};
use std::alloc::Global;
use std::io::{Read, Write};

// Prints the report on the file that is read.
fn plan<I: Read + Drop, O: Write>(alloc: Global, input: I, output: &mut O) -> Result<(), Failure>
    ensures whole { OnOk result (IfSome (planned (I.remaining input))
        (Appends (O.contents output.old) (O.contents output.new))) }
    ensures part { IfSome (planned (I.remaining input))
        (Begun (O.contents output.old) (O.contents output.new)) }
{
    let mut file = Vec::new(alloc);
    if let Err(error) = input.take(file_report::TAKEN as u64).read_to_end(&mut file) {
        return Err(Failure::Reading(error));
    }
    let mut text = [0u8; file_report::ROOM];
    let size = file_report::summarize(&file, &mut text);
    print(output, &text[..size])
}

// Writes the text that is asked for; of a wrong call there is none.
fn answer<I: Read + Drop, O: Write>(
    alloc: Global,
    wish: Wish,
    input: I,
    output: &mut O,
) -> Result<(), Failure>
    ensures whole { OnOk result (IfSome (text_for wish (I.remaining input))
        (Appends (O.contents output.old) (O.contents output.new))) }
    ensures part { IfSome (text_for wish (I.remaining input))
        (Begun (O.contents output.old) (O.contents output.new)) }
{
    match wish {
        Wish::Plan => plan(alloc, input, output),
        Wish::Help => print(output, &HELP),
        Wish::Version => print(output, &VERSION),
        Wish::Usage => Ok(()),
    }
}

// Does what is asked for, and returns the exit status.
pub fn run<I: Read + Drop, O: Write, E: Write>(
    alloc: Global,
    wish: Wish,
    input: I,
    output: &mut O,
    errors: &mut E,
) -> u8
    ensures status { StatusFor wish result }
    ensures whole { result ≡ 0 → IfSome (text_for wish (I.remaining input))
        (Appends (O.contents output.old) (O.contents output.new)) }
    ensures part { IfSome (text_for wish (I.remaining input))
        (Begun (O.contents output.old) (O.contents output.new)) }
    ensures errors { Told result (E.contents errors.old) (E.contents errors.new) }
{
    if let Wish::Usage = wish {
        let _ = write_text(errors, &USAGE);
        return 2;
    }
    match answer(alloc, wish, input, output) {
        Ok(()) => 0,
        Err(failure) => {
            tell(errors, &failure);
            1
        }
    }
}
