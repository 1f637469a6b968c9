// The run of a tape on an image's device, after the check of both. The rules stand in specs/.
#![tactic(auto)]

ghost use Rattle.std.specs.Prelude.{◌≡◌, ◌++◌, ◌*◌, ◌≤◌, Ok, length, drop};
ghost use Rattle.answer.specs.Answers.{answer_bytes};
ghost use Rattle.tape.specs.Tapes.{records, events_of};
ghost use Rattle.checks.specs.Checks.{first_bad};
ghost use Rattle.run.specs.Runs.{run_of, answers_of, outcome_of, image_after, answers_after};

use answer::ANSWER_BYTES;
use device::Device;
use events::RefusedAt;
use record::RECORD_BYTES;

// Runs a checked tape from device d, and writes its answers, each by its place: of as_chunks_mut nothing is known
// once its loan has ended.
fn run_records(d: Device, tape: &[u8], answers: &mut [u8]) -> Device
    requires answers_within { records tape.now * answer_bytes ≤ length answers.old }
    requires checked { first_bad tape.now 0 (records tape.now) ≡ Ok tt }
    ensures { (result ≡ run_of d (events_of tape.now)) × (answers.new ≡ answers_of d (events_of tape.now) ++ drop (records tape.now * answer_bytes) answers.old) }
{
    let (records, _) = tape.as_chunks::<RECORD_BYTES>();
    let mut current = d;
    for (i, bytes) in records.iter().enumerate() {
        let e = tape::event_of(bytes);
        let s = step::step(current, e);
        let at = i * ANSWER_BYTES;
        answers[at..at + ANSWER_BYTES].copy_from_slice(&answer::bytes_of(s));
        current = s.device;
    }
    current
}

// The whole call, on the C call's three buffers: checks everything, then runs the tape from the image's device, and
// writes the answers and the image; or is refused, and leaves both.
pub fn run(image: &mut [u8], tape: &[u8], answers: &mut [u8]) -> Result<(), RefusedAt>
    ensures { (result ≡ outcome_of image.old tape.now answers.old)
        × (image.new ≡ image_after image.old tape.now answers.old)
        × (answers.new ≡ answers_after image.old tape.now answers.old) }
{
    let d = image::load(image)?;
    checks::check(tape, answers.len())?;
    let after = run_records(d, tape, answers);
    image::store(after, image);
    Ok(())
}
