// The replay program: reads a tape from standard input and prints what it does to a fresh device.
#![tactic(auto)]

use std::io;
use std::process::ExitCode;

fn main(rt: HostRuntime) -> io::Result<ExitCode> {
    let done = program::replay(&mut rt.stdin(), &mut rt.stdout(), transcript::transcript);
    program::status(&rt, "replay", done)
}
