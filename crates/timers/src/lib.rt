// The four timers together, by value: their registers, their outputs, their part of the image rule. The
// rules stand in specs/Registers.antt; clocks and count pulses are crate timeouts. Every function is
// total.
#![tactic(auto, unfolding(channels::specs::Channels::has, crate::specs::Registers::tcdcr_of, crate::specs::Registers::timer_read, crate::specs::Registers::timer_written, crate::specs::Registers::outputs_of, crate::specs::Registers::timer_rule, crate::specs::Registers::timers_rule))]

ghost use Rattle.std.specs.Prelude.{◌≡◌};
ghost use Rattle.timers.specs.Registers.{tcdcr_of, timer_read, timer_written, reset_timers, fresh_timers, outputs_of, timer_rule, timers_rule};

use timer::Timer;

#[derive(Clone, Copy)]
pub struct Timers {
    pub a: Timer,
    pub b: Timer,
    pub c: Timer,
    pub d: Timer,
}

#[derive(Clone, Copy)]
pub enum TimerRegister {
    Tacr,
    Tbcr,
    Tcdcr,
    Tadr,
    Tbdr,
    Tcdr,
    Tddr,
}

// The highest modes: A and B have sixteen, C and D eight.
const MOST_AB: u8 = 15;

const MOST_CD: u8 = 7;

// Whether a timer whose modes end at `most` keeps the image rule.
fn keeps_rule(t: Timer, most: u8) -> bool
    ensures { result ≡ timer_rule most t }
{
    t.mode <= most && t.keeps_rule()
}

impl Timers {
    pub fn fresh() -> Timers
        ensures { result ≡ fresh_timers }
    {
        Timers {
            a: Timer::fresh(),
            b: Timer::fresh(),
            c: Timer::fresh(),
            d: Timer::fresh(),
        }
    }

    pub fn reset(self) -> Timers
        ensures { result ≡ reset_timers self }
    {
        Timers {
            a: self.a.reset(),
            b: self.b.reset(),
            c: self.c.reset(),
            d: self.d.reset(),
        }
    }

    // The byte of C's and D's modes.
    pub fn tcdcr(self) -> u8
        ensures { result ≡ tcdcr_of self }
    {
        self.c.mode % 8 * 16 + self.d.mode % 8
    }

    pub fn read(self, r: TimerRegister) -> u8
        ensures { result ≡ timer_read r self }
    {
        match r {
            TimerRegister::Tacr => self.a.mode % 16,
            TimerRegister::Tbcr => self.b.mode % 16,
            TimerRegister::Tcdcr => self.tcdcr(),
            TimerRegister::Tadr => self.a.counter,
            TimerRegister::Tbdr => self.b.counter,
            TimerRegister::Tcdr => self.c.counter,
            TimerRegister::Tddr => self.d.counter,
        }
    }

    pub fn write(self, r: TimerRegister, v: u8) -> Timers
        ensures { result ≡ timer_written r v self }
    {
        // taken apart first: a timer changed where it stands costs more instructions (D87)
        let Timers { a, b, c, d } = self;
        let mut t = self;
        match r {
            TimerRegister::Tacr => t.a = a.control(v % 16, v / 16 % 2 == 1),
            TimerRegister::Tbcr => t.b = b.control(v % 16, v / 16 % 2 == 1),
            TimerRegister::Tcdcr => {
                t.c = c.control(v / 16 % 8, false);
                t.d = d.control(v % 8, false);
            }
            TimerRegister::Tadr => t.a = a.write(v),
            TimerRegister::Tbdr => t.b = b.write(v),
            TimerRegister::Tcdr => t.c = c.write(v),
            TimerRegister::Tddr => t.d = d.write(v),
        }
        t
    }

    // The outputs, bit 0 A to bit 3 D.
    #[tactic(auto, using(bits::proofs::Bits::bit_at_most), unfolding(crate::specs::Registers::outputs_of))]
    pub fn outputs(self) -> u8
        ensures { result ≡ outputs_of self }
    {
        bits::bit_value(self.a.output, 1)
            + bits::bit_value(self.b.output, 2)
            + bits::bit_value(self.c.output, 4)
            + bits::bit_value(self.d.output, 8)
    }

    // The timers' part of the image rule.
    pub fn keeps_rule(self) -> bool
        ensures { result ≡ timers_rule self }
    {
        keeps_rule(self.a, MOST_AB)
            & keeps_rule(self.b, MOST_AB)
            & keeps_rule(self.c, MOST_CD)
            & keeps_rule(self.d, MOST_CD)
    }
}
