// Register selects: which register a read or a write of rs is of. The table stands in specs/Selects.antt.
// Every function is total.
#![tactic(auto)]

ghost use Rattle.std.specs.Prelude.{◌≡◌};
ghost use Rattle.selects.specs.Selects.{register_of, read_select, write_select, known_of};

use channels::Half;
use events::Register;
use interrupts::InterruptRegister;
use lines::LineRegister;
use timers::TimerRegister;

// What a register select names; none is the serial port's, which is no error here, and so no TryFrom.
#[tactic(auto, unfolding(crate::specs::Selects::register_of))]
fn register_of(rs: u8) -> Option<Register>
    ensures { result ≡ register_of rs }
{
    match rs {
        0 => Some(Register::OfLines(LineRegister::Gpdr)),
        1 => Some(Register::OfLines(LineRegister::Aer)),
        2 => Some(Register::OfLines(LineRegister::Ddr)),
        3 => Some(Register::OfInterrupts(InterruptRegister::Ier(Half::A))),
        4 => Some(Register::OfInterrupts(InterruptRegister::Ier(Half::B))),
        5 => Some(Register::OfInterrupts(InterruptRegister::Ipr(Half::A))),
        6 => Some(Register::OfInterrupts(InterruptRegister::Ipr(Half::B))),
        7 => Some(Register::OfInterrupts(InterruptRegister::Isr(Half::A))),
        8 => Some(Register::OfInterrupts(InterruptRegister::Isr(Half::B))),
        9 => Some(Register::OfInterrupts(InterruptRegister::Imr(Half::A))),
        10 => Some(Register::OfInterrupts(InterruptRegister::Imr(Half::B))),
        11 => Some(Register::OfInterrupts(InterruptRegister::Vr)),
        12 => Some(Register::OfTimers(TimerRegister::Tacr)),
        13 => Some(Register::OfTimers(TimerRegister::Tbcr)),
        14 => Some(Register::OfTimers(TimerRegister::Tcdcr)),
        15 => Some(Register::OfTimers(TimerRegister::Tadr)),
        16 => Some(Register::OfTimers(TimerRegister::Tbdr)),
        17 => Some(Register::OfTimers(TimerRegister::Tcdr)),
        18 => Some(Register::OfTimers(TimerRegister::Tddr)),
        _ => None,
    }
}

// What a read selects, and below what a write does: two functions, since the definitions are two and will part.
#[tactic(auto, unfolding(crate::specs::Selects::read_select))]
pub fn read_select(rs: u8) -> Option<Register>
    ensures { result ≡ read_select rs }
{
    register_of(rs)
}

// What a write selects.
#[tactic(auto, unfolding(crate::specs::Selects::write_select))]
pub fn write_select(rs: u8) -> Option<Register>
    ensures { result ≡ write_select rs }
{
    register_of(rs)
}

// The register of a select that the check has let pass.
pub fn known(s: Option<Register>) -> Register
    ensures { result ≡ known_of s }
{
    s.unwrap_or(Register::OfLines(LineRegister::Gpdr))
}
