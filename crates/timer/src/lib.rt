// One timer of the MC68901: its mode, data value (`reload`), main counter, prescaler position and
// output. The rules stand in specs/Timers.antt, one clock at a time; any number of clocks at once is
// crate countdown. A method takes the timer and hands back the timer as it then is. Every one is total:
// it asks nothing of its timer.
#![tactic(auto, unfolding(crate::specs::Timers::delay, crate::specs::Timers::pulse_width, crate::specs::Timers::divisor, crate::specs::Timers::runs, crate::specs::Timers::reloaded, crate::specs::Timers::counted_down, crate::specs::Timers::pulsed, crate::specs::Timers::at_divisor, crate::specs::Timers::clocked, crate::specs::Timers::controlled, crate::specs::Timers::reload_written, crate::specs::Timers::position_rule))]

ghost use Rattle.std.specs.Prelude.{◌≡◌};
ghost use Rattle.timer.specs.Timers.{delay, divisor, event_count, pulse_width, runs, timeout, pulsed, clocked, controlled, reload_written, reset_timer, fresh_timer, position_rule};

#[derive(Clone, Copy)]
pub struct Timer {
    // a number, no enum: a record may hold one that no timer has, and the image rule refuses it (`timer_rule`)
    pub mode: u8,
    pub reload: u8,
    pub counter: u8,
    pub position: u8,
    pub output: bool,
}

const DIVISORS: [u8; 8] = [0, 4, 10, 16, 50, 64, 100, 200];

// The divisor of a mode; 0 where it has none, as the definition has it: the laws over the divisor reckon with it.
pub fn divisor_of(mode: u8) -> u8
    ensures { result ≡ divisor mode }
{
    DIVISORS[usize::from(mode % 8)]
}

impl Timer {
    pub fn fresh() -> Timer
        ensures { result ≡ fresh_timer }
    {
        Timer {
            mode: 0,
            reload: 0,
            counter: 0,
            position: 0,
            output: false,
        }
    }

    pub fn reset(self) -> Timer
        ensures { result ≡ reset_timer self }
    {
        Timer {
            mode: 0,
            position: 0,
            output: false,
            ..self
        }
    }

    pub fn counts_events(self) -> bool
        ensures { result ≡ event_count self.mode }
    {
        self.mode == 8
    }

    // The two kinds of modes are two rules of the paper, each in a line.
    pub fn delays(self) -> bool
        ensures { result ≡ delay self.mode }
    {
        1 <= self.mode && self.mode <= 7
    }

    pub fn measures_pulses(self) -> bool
        ensures { result ≡ pulse_width self.mode }
    {
        9 <= self.mode && self.mode <= 15
    }

    // Whether clocks move it.
    pub fn goes(self, active: bool) -> bool
        ensures { result ≡ runs active self }
    {
        self.delays() || self.measures_pulses() && active
    }

    // Whether its next count pulse is a timeout.
    pub fn is_due(self) -> bool
        ensures { result ≡ timeout self }
    {
        self.counter == 1
    }

    pub fn pulse(self) -> Timer
        ensures { result ≡ pulsed self }
    {
        match self.counter {
            1 => Timer {
                counter: self.reload,
                output: !self.output,
                ..self
            },
            0 => Timer {
                counter: 255,
                ..self
            },
            n => Timer {
                counter: n - 1,
                ..self
            },
        }
    }

    // One clock.
    pub fn clock(self, active: bool) -> Timer
        ensures { result ≡ clocked active self }
    {
        if !self.goes(active) {
            return self;
        }
        let next = u16::from(self.position) + 1;
        if u16::from(divisor_of(self.mode)) <= next {
            return Timer {
                position: 0,
                ..self
            }
            .pulse();
        }
        // below the divisor, where `try_from` would bring an error that can't be
        Timer {
            position: next as u8,
            ..self
        }
    }

    // A control write of this mode; `low` forces the output low.
    pub fn control(self, mode: u8, low: bool) -> Timer
        ensures { result ≡ controlled mode low self }
    {
        let output = !low && self.output;
        if mode == self.mode {
            return Timer { output, ..self };
        }
        Timer {
            mode,
            position: 0,
            output,
            ..self
        }
    }

    // A write of the data value.
    pub fn write(self, v: u8) -> Timer
        ensures { result ≡ reload_written v self }
    {
        if self.mode == 0 {
            return Timer {
                reload: v,
                counter: v,
                ..self
            };
        }
        Timer { reload: v, ..self }
    }

    // Its part of the image rule.
    pub fn keeps_rule(self) -> bool
        ensures { result ≡ position_rule self }
    {
        if self.mode % 8 == 0 {
            return self.position == 0;
        }
        self.position < divisor_of(self.mode)
    }
}
