// Signals of the lines and the timer inputs, and the channels that a change of them raises. The rules
// stand in specs/Signals.antt. Every function is total.
#![tactic(auto, unfolding(channels::specs::Channels::has, crate::specs::Signals::input_active, crate::specs::Signals::input_becomes, crate::specs::Signals::input_ceases))]

ghost use Rattle.std.specs.Prelude.{◌≡◌, ℕ, ◌<◌};
ghost use Rattle.channels.specs.Channels.{has};
ghost use Rattle.channels.specs.Raises.{raised_by};
ghost use Rattle.signals.specs.Signals.{input_active, input_becomes, input_ceases, line_raises, lines_below, signal_raises, of_inputs};
ghost use Rattle.signals.specs.Private.{heard};

use channels::Line;
use lines::{Lines, TimerInput};

// A change of signals: the lines before it and after it.
#[derive(Clone, Copy)]
pub struct Change {
    pub before: Lines,
    pub after: Lines,
}

// Whether timers A and B are in pulse-width modes: A's mutes line 4, B's line 3.
#[derive(Clone, Copy)]
pub struct Measuring {
    pub a: bool,
    pub b: bool,
}

// The channels of a set of lines.
#[tactic(auto, using(crate::proofs::Changes::spread_is))]
fn channels_of(w: u8) -> u16
    ensures { result ≡ raised_by (lines_below 8 (has w)) }
{
    u16::from(w % 16) + u16::from(w / 16 % 4) * 64 + u16::from(w / 64) * 16384
}

// The lines that no pulse-width mode mutes.
fn unmuted(m: Measuring) -> u8
    ensures { result ≡ heard m.a m.b }
{
    match (m.a, m.b) {
        (true, true) => 0b1110_0111,
        (true, false) => 0b1110_1111,
        (false, true) => 0b1111_0111,
        (false, false) => 0b1111_1111,
    }
}

// Whether TAI or TBI is active.
pub fn input_is_active(l: Lines, i: TimerInput) -> bool
    ensures { result ≡ input_active i l }
{
    match i {
        TimerInput::Tai => l.tai == (l.aer / 16 % 2 == 1),
        TimerInput::Tbi => l.tbi == (l.aer / 8 % 2 == 1),
    }
}

impl Change {
    // Whether TAI or TBI becomes active.
    pub fn input_becomes(self, i: TimerInput) -> bool
        ensures { result ≡ input_becomes i self.before self.after }
    {
        !input_is_active(self.before, i) & input_is_active(self.after, i)
    }

    // Whether TAI or TBI ceases to be active: the paper's other word, no case of the one above.
    fn input_ceases(self, i: TimerInput) -> bool
        ensures { result ≡ input_ceases i self.before self.after }
    {
        input_is_active(self.before, i) & !input_is_active(self.after, i)
    }

    // The set of the lines that raise their channels.
    fn raising(self, m: Measuring) -> u8
        ensures { (i : ℕ) → i < 8 → has result i ≡ line_raises (of_inputs m.a m.b) self.before self.after i }
    {
        (self.before.aer ^ self.before.levels)
            & (self.after.aer ^ self.after.levels ^ 255)
            & (self.before.ddr ^ 255)
            & unmuted(m)
    }

    // The channels that lines raise.
    pub fn line_raises(self, m: Measuring) -> u16
        ensures { result ≡ raised_by (lines_below 8 (line_raises (of_inputs m.a m.b) self.before self.after)) }
    {
        channels_of(self.raising(m))
    }

    // The channels that are raised, by lines and by inputs.
    pub fn raises(self, m: Measuring) -> u16
        ensures { result ≡ raised_by (signal_raises (of_inputs m.a m.b) self.before self.after) }
    {
        let by_tai = channels::only_if(
            m.a & self.input_ceases(TimerInput::Tai),
            channels::channel_of(Line(4)),
        );
        let by_tbi = channels::only_if(
            m.b & self.input_ceases(TimerInput::Tbi),
            channels::channel_of(Line(3)),
        );
        self.line_raises(m) | (by_tai | by_tbi)
    }
}
