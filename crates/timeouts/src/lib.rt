// Clocks and count pulses of the four timers, and the timeouts that they make, by value. The rules stand
// in specs/Clocks.antt. Every function is total.
#![tactic(auto)]

ghost use Rattle.std.specs.Prelude.{◌≡◌, cond};
ghost use Rattle.timer.specs.Timers.{pulsed};
ghost use Rattle.channels.specs.Raises.{raised_by};
ghost use Rattle.timeouts.specs.Clocks.{none, timeout_raises, clocked_by, pulsed_by};

use channels::Channel;
use timer::Timer;
use timers::Timers;

// How many timeouts each timer made. Its methods and those of Timers have nothing in common but the four names.
#[derive(Clone, Copy)]
pub struct Timeouts {
    pub a: u32,
    pub b: u32,
    pub c: u32,
    pub d: u32,
}

// The timers after clocks or count pulses, and the timeouts that these made: for all four what `Clocked` is for one, under the same names and no common rule.
#[derive(Clone, Copy)]
pub struct Advanced {
    pub timers: Timers,
    pub timeouts: Timeouts,
}

fn pulse_if(b: bool, t: Timer) -> Timer
    ensures { result ≡ cond b (pulsed t) t }
{
    if b { t.pulse() } else { t }
}

impl Timeouts {
    pub fn zero() -> Timeouts
        ensures { result ≡ none }
    {
        Timeouts {
            a: 0,
            b: 0,
            c: 0,
            d: 0,
        }
    }

    // The channels of the timers that timed out.
    pub fn channels(self) -> u16
        ensures { result ≡ raised_by (timeout_raises self) }
    {
        let of_d = channels::only_if(0 < self.d, Channel(4));
        let of_c = channels::only_if(0 < self.c, Channel(5));
        let of_b = channels::only_if(0 < self.b, Channel(8));
        let of_a = channels::only_if(0 < self.a, Channel(13));
        of_a | (of_b | (of_c | of_d))
    }
}

// n clocks at once; A's and B's inputs are active or not all the while.
pub fn clocks(t: Timers, tai: bool, tbi: bool, n: u32) -> Advanced
    ensures { result ≡ clocked_by tai tbi n t }
{
    // taken apart by a pattern: `t.a` and its like tie the timers together (D87)
    let Timers { a, b, c, d } = t;
    let a = countdown::clocks(a, tai, n);
    let b = countdown::clocks(b, tbi, n);
    let c = countdown::clocks(c, false, n);
    let d = countdown::clocks(d, false, n);
    Advanced {
        timers: Timers {
            a: a.timer,
            b: b.timer,
            c: c.timer,
            d: d.timer,
        },
        timeouts: Timeouts {
            a: a.timeouts,
            b: b.timeouts,
            c: c.timeouts,
            d: d.timeouts,
        },
    }
}

// One count pulse of A, of B, of both or of none. Most changes of signals give none, and then nothing is
// worked out. The timers are taken apart by a pattern: `..t` would tie them together (D87).
pub fn count(t: Timers, a: bool, b: bool) -> Advanced
    ensures { result ≡ pulsed_by a b t }
{
    if !a && !b {
        return Advanced {
            timers: t,
            timeouts: Timeouts::zero(),
        };
    }
    let Timers {
        a: of_a,
        b: of_b,
        c,
        d,
    } = t;
    Advanced {
        timers: Timers {
            a: pulse_if(a, of_a),
            b: pulse_if(b, of_b),
            c,
            d,
        },
        timeouts: Timeouts {
            a: u32::from(a & of_a.is_due()),
            b: u32::from(b & of_b.is_due()),
            c: 0,
            d: 0,
        },
    }
}
