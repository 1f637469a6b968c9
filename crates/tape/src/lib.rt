// The tape: its records found in the bytes, and what each means. The rules stand in specs/. The check of a
// whole tape is crate checks; the check and the run keep to one meaning of a record.
#![tactic(auto)]

ghost use Rattle.std.specs.Prelude.{◌≡◌};
ghost use Rattle.record.specs.Records.{raw_of};
ghost use Rattle.record.specs.Taken.{taken};
ghost use Rattle.tape.specs.Tapes.{record_at};

use channels::{Channel, Line};
use events::{Event, Refusal};
use record::RECORD_BYTES;

pub const TAPE_MOST: usize = 4096;

// The event that is taken of a record: what it means, if the check lets it pass; n is then its lowest byte in all
// kinds but 5. `taken` speaks of every kind byte. Each arm reads its own bytes and writes its event out (D87).
#[tactic(auto, unfolding(record::specs::Taken::taken))]
pub fn event_of(bytes: &[u8; RECORD_BYTES]) -> Event
    ensures { result ≡ taken (raw_of bytes.now) }
{
    match bytes[2] {
        0 => Event::Reset,
        1 => Event::Read(selects::known(selects::read_select(bytes[3]))),
        2 => Event::Write(selects::known(selects::write_select(bytes[3])), bytes[7]),
        3 => Event::Level(Line(bytes[3]), bytes[7] == 1),
        4 => Event::Input(record::input_of(bytes[3]), bytes[7] == 1),
        5 => Event::Clocks(record::operand(bytes)),
        6 => Event::Acknowledge(bytes[3] == 1),
        _ => Event::Raise(Channel(bytes[3])),
    }
}

// What the tape has at index i, nothing where it ends before it; or refusal 4 where its length is wrong, or that
// of the record.
#[tactic(auto, unfolding(crate::specs::Tapes::record_at, crate::specs::Tapes::fitting))]
pub fn record_at(tape: &[u8], i: usize) -> Result<Option<Event>, Refusal>
    ensures { result ≡ record_at tape.now i }
{
    if tape.len() % RECORD_BYTES != 0 || TAPE_MOST < tape.len() {
        return Err(Refusal::TapeLength);
    }
    let (records, _) = tape.as_chunks::<RECORD_BYTES>();
    let Some(bytes) = records.get(i) else {
        return Ok(None);
    };
    record::verdict(bytes)?;
    Ok(Some(event_of(bytes)))
}
