// Lines and channels, sets of channels, and a set's two registers. A set is a u16 in which channel c is
// bit c. The rules stand in specs/Channels.antt. A line number and a channel number are kept apart.
// Every function is total.
#![tactic(auto, unfolding(crate::specs::Channels::channel_of, crate::specs::Channels::has, crate::specs::Channels::set_of, crate::specs::Channels::half, crate::specs::Channels::with_half, crate::specs::Raises::raised_by))]

ghost use Rattle.std.specs.Prelude.{◌≡◌, ℕ, ◌/◌, ◌%◌, ◌^◌, ◌<◌};
ghost use Rattle.channels.specs.Channels.{set_of, channel_of, half, with_half};
ghost use Rattle.channels.specs.Raises.{only_if};

// The number of a general-purpose line, 0 to 7.
#[derive(Clone, Copy)]
pub struct Line(pub u8);

// The number of an interrupt channel, 0 to 15.
#[derive(Clone, Copy)]
pub struct Channel(pub u8);

// The two registers of a set: A holds channels 15 to 8, B channels 7 to 0.
#[derive(Clone, Copy)]
pub enum Half {
    A,
    B,
}

const CHANNELS: [u8; 8] = [0, 1, 2, 3, 6, 7, 14, 15];

// The channel of a line; above line 7 the number 16 of the definition `channel_of`, which is in no set: an Option
// would be unwrapped to it by every caller.
pub fn channel_of(line: Line) -> Channel
    ensures { result ≡ channel_of line }
{
    Channel(CHANNELS.get(usize::from(line.0)).copied().unwrap_or(16))
}

// The set of one channel.
pub fn set_of(c: Channel) -> u16
    ensures { result ≡ set_of c }
{
    if c.0 < 16 { 1u16 << c.0 } else { 0 }
}

// The set of a channel, or none.
pub fn only_if(b: bool, c: Channel) -> u16
    ensures { result ≡ only_if b c }
{
    if b { set_of(c) } else { 0 }
}

// The lowest channel of a register: shifted down by it, a set has the register in its low byte.
fn lowest_of(h: Half) -> u8
    ensures { (result < 16) × ((s : ℕ) → s < 65536 → s / 2 ^ result % 256 ≡ half h s) }
{
    match h {
        Half::A => 8,
        Half::B => 0,
    }
}

// A register of a set.
pub fn half_of(h: Half, s: u16) -> u8
    ensures { result ≡ half h s }
{
    // below 256, where `try_from` would bring an error that can't be
    ((s >> lowest_of(h)) % 256) as u8
}

// The set with a register stored.
pub fn with_half(h: Half, s: u16, v: u8) -> u16
    ensures { result ≡ with_half h s v }
{
    match h {
        Half::A => u16::from(v) * 256 + s % 256,
        Half::B => s / 256 * 256 + u16::from(v),
    }
}
