// The device by value: lines and timer inputs, interrupt controller, four timers; and what a change of
// its signals does. The rules stand in specs/ and in the crates of the parts. Every function is total;
// an event is crate step.
#![tactic(auto, unfolding(crate::specs::Whole::reset_device, crate::specs::Whole::fresh_device, crate::specs::Whole::read_of, crate::specs::Whole::shown_outputs, crate::specs::Whole::image_rule, crate::specs::Signals::counts))]

ghost use Rattle.std.specs.Prelude.{◌≡◌};
ghost use Rattle.device.specs.Whole.{reset_device, fresh_device, irq_of, shown_outputs, read_of, image_rule};
ghost use Rattle.device.specs.Signals.{counts, signalled, signal_step};
ghost use Rattle.lines.specs.Registers.{with_level};
ghost use Rattle.timer.specs.Timers.{pulse_width};

use channels::Line;
use events::{Answer, Register};
use interrupts::Interrupts;
use lines::{Lines, TimerInput};
use signals::{Change, Measuring};
use timeouts::{Advanced, Timeouts};
use timers::Timers;

#[derive(Clone, Copy)]
pub struct Device {
    pub lines: Lines,
    pub interrupts: Interrupts,
    pub timers: Timers,
}

#[derive(Clone, Copy)]
pub struct Stepped {
    pub device: Device,
    pub answer: Answer,
    pub timeouts: Timeouts,
}

impl Device {
    pub fn fresh() -> Device
        ensures { result ≡ fresh_device }
    {
        Device {
            lines: Lines::fresh(),
            interrupts: Interrupts::clear(),
            timers: Timers::fresh(),
        }
    }

    pub fn reset(self) -> Device
        ensures { result ≡ reset_device self }
    {
        Device {
            lines: self.lines.reset(),
            interrupts: Interrupts::clear(),
            timers: self.timers.reset(),
        }
    }

    pub fn irq(self) -> bool
        ensures { result ≡ irq_of self }
    {
        requests::irq(self.interrupts)
    }

    // The outputs as an answer shows them, bit 0 A to bit 3 D.
    pub fn outputs(self) -> u8
        ensures { result ≡ shown_outputs self }
    {
        self.timers.outputs()
    }

    // ---- signals

    // Which timers measure pulses.
    fn measuring(self) -> Measuring
        ensures { (result.a ≡ pulse_width self.timers.a.mode) × (result.b ≡ pulse_width self.timers.b.mode) }
    {
        Measuring {
            a: self.timers.a.measures_pulses(),
            b: self.timers.b.measures_pulses(),
        }
    }

    // Whether input i gives its timer a count pulse as the lines become `after`.
    fn counts(self, i: TimerInput, after: Lines) -> bool
        ensures { result ≡ counts i self.timers self.lines after }
    {
        let timer = match i {
            TimerInput::Tai => self.timers.a,
            TimerInput::Tbi => self.timers.b,
        };
        let change = Change {
            before: self.lines,
            after,
        };
        timer.counts_events() & change.input_becomes(i)
    }

    // Line i gets this level: no timer input changes, so that only lines can raise.
    pub fn level(self, i: Line, high: bool) -> Device
        ensures { result ≡ signalled (with_level i high self.lines) self }
    {
        let after = self.lines.with_level(i, high);
        let change = Change {
            before: self.lines,
            after,
        };
        Device {
            lines: after,
            interrupts: self.interrupts.raise(change.line_raises(self.measuring())),
            ..self
        }
    }

    // The signals become those of `after`, by an input event or an AER write.
    pub fn signal(self, after: Lines) -> Stepped
        ensures { result ≡ signal_step after self }
    {
        let change = Change {
            before: self.lines,
            after,
        };
        let raised = change.raises(self.measuring());
        let Advanced { timers, timeouts } = timeouts::count(
            self.timers,
            self.counts(TimerInput::Tai, after),
            self.counts(TimerInput::Tbi, after),
        );
        Stepped {
            device: Device {
                lines: after,
                interrupts: self.interrupts.raise(raised | timeouts.channels()),
                timers,
            },
            answer: Answer::Done,
            timeouts,
        }
    }

    pub fn read(self, r: Register) -> u8
        ensures { result ≡ read_of r self }
    {
        match r {
            Register::OfLines(q) => self.lines.read(q),
            Register::OfInterrupts(q) => self.interrupts.read(q),
            Register::OfTimers(q) => self.timers.read(q),
        }
    }

    // Whether the record keeps the image rule.
    pub fn keeps_rule(self) -> bool
        ensures { result ≡ image_rule self }
    {
        self.interrupts.keeps_rule() && self.timers.keeps_rule()
    }
}
