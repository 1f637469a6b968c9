// One event of the device, by value: what it does, answers and counts. The rules stand in specs/. An
// event is begun and then finished, so that each change in which a timer input may take part stands in
// one place. Every function is total; the entry that refuses is crate lent's.
#![tactic(auto, unfolding(crate::specs::Events::effect_of, crate::specs::Events::write_step))]

ghost use Rattle.std.specs.Prelude.{◌≡◌};
ghost use Rattle.events.specs.declared.Event.TheVariants.{Write, Clocks, Acknowledge};
ghost use Rattle.events.specs.declared.Register.TheVariants.{OfLines};
ghost use Rattle.device.specs.Signals.{done};
ghost use Rattle.step.specs.Events.{write_step, step_of, replied};
ghost use Rattle.step.specs.Private.{finished};

use device::{Device, Stepped};
use events::{Answer, Event, Register};
use lines::{LineRegister, Lines, TimerInput};
use requests::{Acknowledged, Reply};
use timeouts::{Advanced, Timeouts};

// An event begun: up to its signals, which are to become those of these lines, or whole. Neither way is a failure of
// the other, so it is no Result.
#[derive(Clone, Copy)]
enum Begun {
    Signals(Lines),
    Whole(Stepped),
}

// An event done: what it comes to, with the device written out (D87).
fn whole(s: Stepped) -> Begun
    ensures { result ≡ Begun.Whole s }
{
    let d = s.device;
    Begun::Whole(Stepped {
        device: Device {
            lines: d.lines.written_out(),
            interrupts: d.interrupts.written_out(),
            ..d
        },
        ..s
    })
}

// An event whose whole work is to leave this device.
fn done_with(d: Device) -> Begun
    ensures { result ≡ Begun.Whole (done d) }
{
    whole(Stepped {
        device: d,
        answer: Answer::Done,
        timeouts: Timeouts::zero(),
    })
}

// No `From`: requests knows no answers, and events no replies.
fn replied(r: Reply) -> Answer
    ensures { result ≡ replied r }
{
    match r {
        Reply::Vector(v) => Answer::Vector(v),
        Reply::PassedOn => Answer::PassedOn,
        Reply::Held => Answer::Held,
    }
}

// n clocks at once, begun.
fn begin_clocks(d: Device, n: u32) -> Begun
    ensures { finished result d ≡ step_of d (Clocks n) }
{
    let Advanced { timers, timeouts } = timeouts::clocks(
        d.timers,
        signals::input_is_active(d.lines, TimerInput::Tai),
        signals::input_is_active(d.lines, TimerInput::Tbi),
        n,
    );
    whole(Stepped {
        device: Device {
            interrupts: d.interrupts.raise(timeouts.channels()),
            timers,
            ..d
        },
        answer: Answer::Done,
        timeouts,
    })
}

// A write of GPDR, AER or DDR, begun.
fn begin_line_write(d: Device, r: LineRegister, v: u8) -> Begun
    ensures { finished result d ≡ write_step (OfLines r) v d }
{
    let after = d.lines.write(r, v);
    match r {
        LineRegister::Aer => Begun::Signals(after),
        LineRegister::Gpdr | LineRegister::Ddr => done_with(Device { lines: after, ..d }),
    }
}

// A write of any register, begun.
fn begin_write(d: Device, r: Register, v: u8) -> Begun
    ensures { finished result d ≡ write_step r v d }
{
    match r {
        Register::OfLines(q) => begin_line_write(d, q, v),
        Register::OfInterrupts(q) => done_with(Device {
            interrupts: d.interrupts.write(q, v),
            ..d
        }),
        Register::OfTimers(q) => done_with(Device {
            timers: d.timers.write(q, v),
            ..d
        }),
    }
}

// An acknowledge, begun.
fn begin_acknowledge(d: Device, iei: bool) -> Begun
    ensures { finished result d ≡ step_of d (Acknowledge iei) }
{
    let Acknowledged { interrupts, reply } = requests::acknowledge(d.interrupts, iei);
    whole(Stepped {
        device: Device { interrupts, ..d },
        answer: replied(reply),
        timeouts: Timeouts::zero(),
    })
}

// One event, begun.
fn begin(d: Device, e: Event) -> Begun
    ensures { finished result d ≡ step_of d e }
{
    match e {
        Event::Reset => done_with(d.reset()),
        Event::Read(r) => whole(Stepped {
            device: d,
            answer: Answer::Data(d.read(r)),
            timeouts: Timeouts::zero(),
        }),
        Event::Write(r, v) => begin_write(d, r, v),
        Event::Level(k, high) => done_with(d.level(k, high)),
        Event::Input(k, high) => Begun::Signals(d.lines.with_input(k, high)),
        Event::Clocks(n) => begin_clocks(d, n),
        Event::Acknowledge(iei) => begin_acknowledge(d, iei),
        Event::Raise(c) => done_with(Device {
            interrupts: d.interrupts.raise(channels::set_of(c)),
            ..d
        }),
    }
}

// What an event begun comes to: the one place where a timer input may change.
fn finish(d: Device, b: Begun) -> Stepped
    ensures { result ≡ finished b d }
{
    match b {
        Begun::Signals(after) => d.signal(after),
        Begun::Whole(s) => s,
    }
}

// One event, by the rules: the one way to every event's end. It asks nothing of the device;
// `handle` refuses.
pub fn step(d: Device, e: Event) -> Stepped
    ensures { result ≡ step_of d e }
{
    finish(d, begin(d, e))
}

// A write of a register, and an acknowledge: their events.
pub fn write(d: Device, r: Register, v: u8) -> Stepped
    ensures { result ≡ step_of d (Write r v) }
{
    step(d, Event::Write(r, v))
}

pub fn acknowledge(d: Device, iei: bool) -> Stepped
    ensures { result ≡ step_of d (Acknowledge iei) }
{
    step(d, Event::Acknowledge(iei))
}
