// What the replay programs do: they read a tape from the input, and write the text that a function of crate
// transcript makes of it. What they say on a failure stands in D94.
#![tactic(auto)]

ghost use Rattle.std.specs.Prelude.{◌≡◌, IfOk, OnOk, Some, Err};
ghost use Rattle.std.specs.Process.{exit_status};
ghost use Rattle.program.specs.Programs.{PrintsTranscript, Replayed, reason, status_of};

use std::io::{Read, Write};
use std::process::ExitCode;
use std::{fmt, io};
use tape::TAPE_MOST;
use transcript::ENOUGH;

// Why a program ends with status 1.
#[derive(Clone, Copy, Debug, PartialEq, Eq)]
pub enum Failure {
    Input,
    Output,
}

impl fmt::Display for Failure {
    ghost output = { λ f. Some (reason f) };

    fn fmt<W: fmt::Write>(&self, f: &mut fmt::Formatter<W>) -> fmt::Result {
        f.write_str(match self {
            Failure::Input => "the input could not be read",
            Failure::Output => "not all of the output was written",
        })
    }
}

// Reads a tape, and writes the text that `print` makes of it. One byte more than the longest tape is enough to see
// that an input is too long.
pub fn replay<R: Read, W: Write, F: Fn(&[u8], &mut [u8]) -> usize>(
    input: &mut R,
    output: &mut W,
    print: F,
) -> Result<(), Failure>
    requires can { F.IsAlwaysCallable print }
    requires prints { PrintsTranscript (F.post print) }
    ensures replayed { OnOk result (Replayed (R.remaining input.old) (R.remaining input.new) (W.contents output.old) (W.contents output.new)) }
    ensures unread { result ≡ Err Failure.Input → output.new ≡ output.old }
{
    let mut tape = [0; TAPE_MOST + 1];
    let n = input::read_full(input, &mut tape).map_err(|_| Failure::Input)?;
    let mut out = [0; ENOUGH];
    let m = print(&tape[..n], &mut out);
    output.write_all(&out[..m]).map_err(|_| Failure::Output)
}

// Says on standard error why the program of this name failed, if it did, and gives its status.
pub fn status(rt: &impl Eprint, name: &str, done: Result<(), Failure>) -> io::Result<ExitCode>
    ensures { IfOk result (λ c. exit_status c ≡ status_of done) }
{
    let Err(failure) = done else {
        return Ok(ExitCode::SUCCESS);
    };
    eprintln!(rt; "{name}: {failure}")?;
    Ok(ExitCode::FAILURE)
}
