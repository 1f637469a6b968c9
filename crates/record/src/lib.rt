// One record of a tape, its eight bytes: what the check finds of it. The rules stand in specs/Records.antt, what
// check and run keep of them in Verdicts and Taken. Every function is total.
#![tactic(auto)]

ghost use Rattle.std.specs.Prelude.{◌≡◌, cond, Ok, Err};
ghost use Rattle.record.specs.Records.{reading, input_of, operand, event_in, marked, meant, raw_of};
ghost use Rattle.record.specs.Verdicts.{verdict_of};

use events::{Refusal, Register};
use lines::TimerInput;

pub const RECORD_BYTES: usize = 8;

// 4D and 45, low byte first.
const MARK: u16 = 77 + 256 * 69;

// The input of number a, 0 or 1. Total, and so no TryFrom: the check has refused any other number.
pub fn input_of(a: u8) -> TimerInput
    ensures { result ≡ input_of a }
{
    if a == 0 {
        return TimerInput::Tai;
    }
    TimerInput::Tbi
}

// n, in four bytes, high byte first.
#[tactic(auto, unfolding(bits::specs::Bytes::number))]
pub fn operand(bytes: &[u8; RECORD_BYTES]) -> u32
    ensures { result ≡ operand (raw_of bytes.now) }
{
    bits::number_from(bytes[4], bytes[5], bytes[6], bytes[7])
}

// ---- the check of one record

// Refusal 7 unless the operands are in range.
fn in_range(t: bool) -> Result<(), Refusal>
    ensures { result ≡ cond t (Ok tt) (Err Refusal.Operand) }
{
    if t { Ok(()) } else { Err(Refusal::Operand) }
}

// Refusal 8 for the serial port's registers.
fn selects(s: Option<Register>) -> Result<(), Refusal>
    ensures { result ≡ verdict_of (reading s) }
{
    match s {
        Some(_) => Ok(()),
        None => Err(Refusal::Serial),
    }
}

// Whether the mark stands there. As one number, low byte first, the compiler takes both bytes at once.
fn is_marked(bytes: &[u8; RECORD_BYTES]) -> bool
    ensures { result ≡ marked (raw_of bytes.now) }
{
    u16::from_le_bytes([bytes[0], bytes[1]]) == MARK
}

// Refusal 6, 7 or 8 of a record's kind and operands. Each kind reads what it needs; as numbers the kinds read like
// the paper's list, and an enum of them would be made here and read here alone.
#[tactic(auto, unfolding(crate::specs::Records::event_of))]
fn kind_verdict(bytes: &[u8; RECORD_BYTES]) -> Result<(), Refusal>
    ensures { result ≡ verdict_of (event_in (raw_of bytes.now)) }
{
    let a = bytes[3];
    match bytes[2] {
        0 => in_range((a == 0) & (operand(bytes) == 0)),
        1 => in_range((a <= 23) & (operand(bytes) == 0)).and(selects(selects::read_select(a))),
        2 => in_range((a <= 23) & (operand(bytes) <= 255)).and(selects(selects::write_select(a))),
        3 => in_range(events::is_line(a) & (operand(bytes) <= 1)),
        4 => in_range((a <= 1) & (operand(bytes) <= 1)),
        5 => in_range(a == 0),
        6 => in_range((a <= 1) & (operand(bytes) == 0)),
        7 => in_range(events::is_serial_channel(a) & (operand(bytes) == 0)),
        _ => Err(Refusal::Kind),
    }
}

// What the check finds of a record: refusal 5 first.
#[tactic(auto, unfolding(crate::specs::Records::meant))]
pub fn verdict(bytes: &[u8; RECORD_BYTES]) -> Result<(), Refusal>
    ensures { result ≡ verdict_of (meant (raw_of bytes.now)) }
{
    if !is_marked(bytes) {
        return Err(Refusal::RecordMark);
    }
    kind_verdict(bytes)
}
