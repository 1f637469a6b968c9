// The check of a whole tape, in the paper's order. The rules stand in specs/. Everything is checked before
// anything is run.
#![tactic(auto)]

ghost use Rattle.std.specs.Prelude.{◌≡◌};
ghost use Rattle.checks.specs.Checks.{checked};

use answer::ANSWER_BYTES;
use events::{Refusal, RefusedAt};
use record::RECORD_BYTES;
use tape::TAPE_MOST;

// Nothing, or the refusal of a tape whose answers have `room` bytes, the length of a buffer that it is not lent, as transcript has none:
// 4, 5 to 8, 9.
#[tactic(auto, unfolding(crate::specs::Checks::checked, crate::specs::Checks::first_bad, tape::specs::Tapes::fitting))]
pub fn check(tape: &[u8], room: usize) -> Result<(), RefusedAt>
    ensures { result ≡ checked tape.now room }
{
    if tape.len() % RECORD_BYTES != 0 || TAPE_MOST < tape.len() {
        return Err(Refusal::TapeLength.into());
    }
    let (records, _) = tape.as_chunks::<RECORD_BYTES>();
    for (i, bytes) in records.iter().enumerate() {
        record::verdict(bytes).map_err(|refusal| RefusedAt {
            refusal,
            // below 512, where `try_from` would bring an error that can't be
            index: i as u16,
        })?;
    }
    if room < ANSWER_BYTES * records.len() {
        return Err(Refusal::AnswerLength.into());
    }
    Ok(())
}
