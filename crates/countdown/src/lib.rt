// Any number of clocks of one timer at once, without a loop: its position is a countdown of clocks, its
// counter one of count pulses. The rules are crate timer's, one clock at a time; the countdown itself is
// specs/Countdown.antt. Each `as` narrows a number proved to fit, where `try_from` would bring an error that can't be.
#![tactic(auto, unfolding(crate::specs::Countdown::span, crate::specs::Countdown::to_go, crate::specs::Countdown::toggled))]

ghost use Rattle.std.specs.Prelude.{◌≡◌, ◌-◌, ◌≤◌};
ghost use Rattle.timer.specs.Timers.{divisor, clocks, timeouts};
ghost use Rattle.countdown.specs.Countdown.{left, ran_out, span, to_go, toggled, pulses_in, position_after, timeouts_in, counter_after};

use timer::Timer;

// A timer after some clocks, and the timeouts that they made.
#[derive(Clone, Copy)]
pub struct Clocked {
    pub timer: Timer,
    pub timeouts: u32,
}

// A countdown after some units: how often it ran out, and after how many units it next will.
#[derive(Clone, Copy)]
struct Counted {
    times: u32,
    left: u32,
}

// A timer's position after some clocks, and the count pulses that they gave. The like of `Down` by chance: no rule
// is common to the two.
#[derive(Clone, Copy)]
struct Along {
    pulses: u32,
    position: u8,
}

// A timer's counter after some count pulses, and the timeouts that they made.
#[derive(Clone, Copy)]
struct Down {
    timeouts: u32,
    counter: u8,
}

// n units of a countdown that has `first` units left and starts anew from `period`, reckoned as if it had
// set out a period earlier. One that has more than its period left may not have come that far. It divides
// whatever n is, as `go_along` does: a long span costs what a short one costs. A test and a difference: `checked_sub`
// is no plainer, and costs more (D87).
fn count(first: u32, period: u32, n: u32) -> Counted
    requires some_left { 1 ≤ first }
    requires some_period { 1 ≤ period }
    ensures { (result.times ≡ ran_out period n first) × (result.left ≡ left period n first) }
{
    let p = u64::from(period);
    let ahead = u64::from(n) + p;
    let f = u64::from(first);
    if ahead < f {
        return Counted {
            times: 0,
            left: first - n,
        };
    }
    let over = ahead - f;
    Counted {
        times: (over / p) as u32,
        left: period - (over % p) as u32,
    }
}

// The count pulses that a data value or a counter stands for: 0 is 256.
fn span_of(v: u8) -> u32
    ensures { result ≡ span v }
{
    if v == 0 { 256 } else { u32::from(v) }
}

// The clocks of a period of d that have gone by at position p; at or past the divisor all but one (D77): `min` says
// that no plainer, and costs more (D87).
fn gone(d: u32, p: u8) -> u32
    requires { 1 ≤ d }
    ensures { result ≡ d - to_go d p }
{
    let position = u32::from(p);
    if position < d { position } else { d - 1 }
}

fn toggled_by(k: u32, output: bool) -> bool
    ensures { result ≡ toggled k output }
{
    if k % 2 == 0 { output } else { !output }
}

// A timer's position after n clocks that move it, and the count pulses that they give.
fn go_along(t: Timer, n: u32) -> Along
    requires { 1 ≤ divisor t.mode }
    ensures { (result.pulses ≡ pulses_in n t) × (result.position ≡ position_after n t) }
{
    let d = u32::from(timer::divisor_of(t.mode));
    let whole = n / d;
    let rest = n % d + gone(d, t.position);
    if rest < d {
        return Along {
            pulses: whole,
            position: rest as u8,
        };
    }
    Along {
        pulses: whole + 1,
        position: (rest - d) as u8,
    }
}

// A timer's counter after k count pulses, and the timeouts that they make.
fn go_down(t: Timer, k: u32) -> Down
    ensures { (result.timeouts ≡ timeouts_in k t) × (result.counter ≡ counter_after k t) }
{
    let c = count(span_of(t.counter), span_of(t.reload), k);
    Down {
        timeouts: c.times,
        counter: (c.left % 256) as u8,
    }
}

// n clocks at once, and the timeouts that they make.
pub fn clocks(t: Timer, active: bool, n: u32) -> Clocked
    ensures { (result.timer ≡ clocks active n t) × (result.timeouts ≡ timeouts active n t) }
{
    if n == 0 || !t.goes(active) {
        return Clocked {
            timer: t,
            timeouts: 0,
        };
    }
    let a = go_along(t, n);
    let k = go_down(t, a.pulses);
    Clocked {
        timer: Timer {
            counter: k.counter,
            position: a.position,
            output: toggled_by(k.timeouts, t.output),
            ..t
        },
        timeouts: k.timeouts,
    }
}
