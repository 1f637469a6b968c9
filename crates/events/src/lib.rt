// Events, answers and refusals by value: the types that the device and the tape share, and this
// paper's numbers for them. The rules stand in specs/. Every function is total.
#![tactic(auto)]

ghost use Rattle.std.specs.Prelude.{◌≡◌};
ghost use Rattle.lines.specs.Registers.{is_line};
ghost use Rattle.events.specs.Numbers.{class_of, value_of, number_of, returned};
ghost use Rattle.events.specs.Ranges.{is_serial_channel, in_range};

use channels::{Channel, Line};
use interrupts::InterruptRegister;
use lines::{LineRegister, TimerInput};
use timers::TimerRegister;

// A register, by the part of the device that has it.
#[derive(Clone, Copy)]
pub enum Register {
    OfLines(LineRegister),
    OfInterrupts(InterruptRegister),
    OfTimers(TimerRegister),
}

#[derive(Clone, Copy)]
pub enum Event {
    Reset,
    Read(Register),
    Write(Register, u8),
    Level(Line, bool),
    Input(TimerInput, bool),
    Clocks(u32),
    Acknowledge(bool),
    Raise(Channel),
}

#[derive(Clone, Copy)]
pub enum Answer {
    Done,
    Data(u8),
    Vector(u8),
    PassedOn,
    Held,
}

// The refusals of document 01 by its numbers, then the row's (document 02, 1/13).
#[derive(Clone, Copy, Debug, PartialEq, Eq)]
pub enum Refusal {
    ImageLength = 1,
    ImageMark = 2,
    ImageRule = 3,
    TapeLength = 4,
    RecordMark = 5,
    Kind = 6,
    Operand = 7,
    Serial = 8,
    AnswerLength = 9,
    RowLength = 10,
}

// A refusal and where: the index of the bad record, in a row of the bad image or device, else 0.
#[derive(Clone, Copy, Debug, PartialEq, Eq)]
pub struct RefusedAt {
    pub refusal: Refusal,
    pub index: u16,
}

// Whether a number is a line's.
pub fn is_line(a: u8) -> bool
    ensures { result ≡ is_line a }
{
    a <= 7
}

// Whether a number is a serial channel's.
pub fn is_serial_channel(a: u8) -> bool
    ensures { result ≡ is_serial_channel a }
{
    (9 <= a) & (a <= 12)
}

// Whether an event's operands are in range.
pub fn is_in_range(e: Event) -> bool
    ensures { result ≡ in_range e }
{
    match e {
        Event::Level(i, _) => is_line(i.0),
        Event::Raise(c) => is_serial_channel(c.0),
        Event::Reset => true,
        Event::Read(_) => true,
        Event::Write(_, _) => true,
        Event::Input(_, _) => true,
        Event::Clocks(_) => true,
        Event::Acknowledge(_) => true,
    }
}

// The paper's number of an answer's class: a part of the answer, so no conversion of it.
pub fn class_of(a: Answer) -> u8
    ensures { result ≡ class_of a }
{
    match a {
        Answer::Done => 0,
        Answer::Data(_) => 1,
        Answer::Vector(_) => 2,
        Answer::PassedOn => 3,
        Answer::Held => 4,
    }
}

// Its value, 0 if none, as the answer's byte has it.
pub fn value_of(a: Answer) -> u8
    ensures { result ≡ value_of a }
{
    match a {
        Answer::Done => 0,
        Answer::Data(v) => v,
        Answer::Vector(v) => v,
        Answer::PassedOn => 0,
        Answer::Held => 0,
    }
}

// The paper's number of a refusal, which stands with its case: C and the texts take it.
pub fn number_of(r: Refusal) -> u8
    ensures { result ≡ number_of r }
{
    r as u8
}

// A refusal that has no place.
impl From<Refusal> for RefusedAt {
    ghost from_gives = { λ r at. at ≡ record { refusal = r; index = 0 } };

    fn from(refusal: Refusal) -> RefusedAt {
        RefusedAt { refusal, index: 0 }
    }
}

impl RefusedAt {
    // What the C call returns of it.
    pub fn code(self) -> u32
        ensures { result ≡ returned self.refusal self.index }
    {
        256 * u32::from(self.index) + u32::from(number_of(self.refusal))
    }
}
