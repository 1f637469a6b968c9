// The whole text of the replay program for a tape, at the start of a buffer that the caller lends.
// The text stands in specs/Transcript.antt. A buffer of ENOUGH bytes holds the text of every tape; a
// shorter one stays as it was.
#![tactic(auto)]

ghost use Rattle.std.specs.Prelude.{◌≡◌, true, Ok, ◌++◌, ◌+◌, ◌≤◌, ◌<◌, length, take, drop};
ghost use Rattle.events.specs.Ranges.{in_range};
ghost use Rattle.device.specs.Whole.{fresh_device, image_rule};
ghost use Rattle.step.specs.Events.{step_of};
ghost use Rattle.text.specs.Lines.{line_most, Counts};
ghost use Rattle.tape.specs.Tapes.{fitting, records, events_of};
ghost use Rattle.checks.specs.Checks.{first_bad};
ghost use Rattle.transcript.specs.Transcript.{records_most, enough, step_line, lines_of, transcript_of, printed, printed_length};
ghost use Rattle.transcript.specs.Private.{MayStep, Steps};

use answer::ANSWER_BYTES;
use device::{Device, Stepped};
use events::Event;
use lent::{Answered, Handled};
use record::RECORD_BYTES;
use tape::TAPE_MOST;
use text::{LINE_MOST, Line};

// The records of the longest tape, the bytes of their answers, and of their lines.
const RECORDS_MOST: usize = TAPE_MOST / RECORD_BYTES;

const ANSWERS_MOST: usize = ANSWER_BYTES * RECORDS_MOST;

pub const ENOUGH: usize = RECORDS_MOST * LINE_MOST;

// One event through the record lent. It is never refused, since the record keeps the image rule and
// the operands are in range.
#[tactic(auto, unfolding(lent::specs::Handling::handled_of))]
fn lent_step(d: Device, e: Event) -> Stepped
    requires ruled { image_rule d ≡ true }
    requires operands_in_range { in_range e ≡ true }
    ensures { result ≡ step_of d e }
{
    let Handled { device, outcome } = lent::event_by_value(d, e);
    let Answered { answer, timeouts } = outcome.unwrap();
    Stepped {
        device,
        answer,
        timeouts,
    }
}

// Puts the line of record i at the start of the buffer, and returns its length.
fn put_line(out: &mut [u8], i: usize, s: Stepped) -> usize
    requires line_within { line_most ≤ length out.old }
    requires index_within { i < records_most }
    ensures value { result ≡ length (step_line i s) }
    ensures upper_bound { result ≤ line_most }
    ensures out_after { out.new ≡ step_line i s ++ drop result out.old }
{
    let line = Line {
        // below 512, where `try_from` would bring an error that can't be
        index: i as u16,
        answer: s.answer,
        irq: s.device.irq(),
        outputs: s.device.outputs(),
        timeouts: s.timeouts,
    };
    line.write(out)
}

// Puts the lines of a checked tape from a fresh device, by this step, and returns the index after them.
fn put_lines<F: Fn(Device, Event) -> Stepped>(tape: &[u8], out: &mut [u8], step: F) -> usize
    requires may_step { MayStep (F.pre step) }
    requires steps { Steps (F.post step) }
    requires fits { fitting tape.now ≡ true }
    requires checked { first_bad tape.now 0 (records tape.now) ≡ Ok tt }
    requires enough_room { enough ≤ length out.old }
    ensures value { result ≡ length (lines_of 0 fresh_device (events_of tape.now)) }
    ensures upper_bound { result ≤ length out.new }
    ensures out_after { out.new ≡ lines_of 0 fresh_device (events_of tape.now) ++ drop result out.old }
{
    let mut d = Device::fresh();
    let mut at = 0;
    for i in 0..tape.len() / RECORD_BYTES {
        // a checked tape has every record
        let e = tape::record_at(tape, i).unwrap().unwrap();
        let s = step(d, e);
        at += put_line(&mut out[at..], i, s);
        d = s.device;
    }
    at
}

// The text of a tape, by this step.
fn print<F: Fn(Device, Event) -> Stepped>(tape: &[u8], out: &mut [u8], step: F) -> usize
    requires may_step { MayStep (F.pre step) }
    requires steps { Steps (F.post step) }
    ensures value { result ≡ printed_length (transcript_of fresh_device tape.now) out.old }
    ensures out_after { out.new ≡ printed (transcript_of fresh_device tape.now) out.old }
    ensures counts { Counts result out.new }
{
    if out.len() < ENOUGH {
        return 0;
    }
    match checks::check(tape, ANSWERS_MOST) {
        Ok(()) => put_lines(tape, out, step),
        Err(at) => text::refused(out, events::number_of(at.refusal), at.index),
    }
}

// Writes what the replay program prints for a tape, and returns its length; into a buffer that is too short
// nothing, and 0, as `printed_length` has it.
pub fn transcript(tape: &[u8], out: &mut [u8]) -> usize
    ensures value { result ≡ printed_length (transcript_of fresh_device tape.now) out.old }
    ensures out_after { out.new ≡ printed (transcript_of fresh_device tape.now) out.old }
    ensures counts { Counts result out.new }
{
    print(tape, out, step::step)
}

// The same, with every event through the device record lent.
pub fn lent_transcript(tape: &[u8], out: &mut [u8]) -> usize
    ensures value { result ≡ printed_length (transcript_of fresh_device tape.now) out.old }
    ensures out_after { out.new ≡ printed (transcript_of fresh_device tape.now) out.old }
    ensures counts { Counts result out.new }
{
    print(tape, out, lent_step)
}
