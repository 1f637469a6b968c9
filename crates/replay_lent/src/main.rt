// The replay program over a device record that is lent: each event alters it where it stands.
#![tactic(auto)]

use std::io;
use std::process::ExitCode;

fn main(rt: HostRuntime) -> io::Result<ExitCode> {
    let done = program::replay(
        &mut rt.stdin(),
        &mut rt.stdout(),
        transcript::lent_transcript,
    );
    program::status(&rt, "replay_lent", done)
}
