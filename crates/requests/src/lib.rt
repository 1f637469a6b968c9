// Requests and the acknowledge: which channel requests, whether IRQ is asserted, and what an acknowledge
// gives and leaves. The rules stand in specs/Requests.antt. Every function is
// total.
#![tactic(auto, unfolding(crate::specs::Requests::given))]

ghost use Rattle.std.specs.Prelude.{◌≡◌, ◌^◌, ◌<◌, ◌&&◌, ltb};
ghost use Rattle.std.specs.Int.Bits.{bit_and};
ghost use Rattle.channels.specs.Channels.{has};
ghost use Rattle.interrupts.specs.declared.Interrupts.{Interrupts as InterruptsT};
ghost use Rattle.requests.specs.Requests.{highest, irq, given, acknowledged};

use channels::Channel;
use interrupts::Interrupts;

// What an acknowledge gives.
#[derive(Clone, Copy)]
pub enum Reply {
    Vector(u8),
    PassedOn,
    Held,
}

#[derive(Clone, Copy)]
pub struct Acknowledged {
    pub interrupts: Interrupts,
    pub reply: Reply,
}

// Whether channel c, one of the sixteen, is wanted and no channel equal to or above it in service.
#[tactic(auto, using(channels::proofs::Sets::shifted), unfolding(channels::specs::Channels::has))]
fn asks(wanted: u16, service: u16, c: u8) -> bool
    requires { c < 16 }
    ensures { result ≡ (has wanted c && ltb service (2 ^ c)) }
{
    (wanted >> c) % 2 == 1 && service < 1u16 << c
}

// The highest requesting channel of interrupts in which these are pending and unmasked, and these in
// service: a walk from channel 15 down, spared where none is wanted. It takes the two sets alone, so
// that a call copies no interrupts.
fn search(wanted: u16, service: u16) -> Option<Channel>
    ensures { (i : InterruptsT) → bit_and i.pending i.mask ≡ wanted → i.service ≡ service → result ≡ highest i }
{
    if wanted == 0 {
        return None;
    }
    for c in (0..16).rev() {
        if asks(wanted, service, c) {
            return Some(Channel(c));
        }
    }
    None
}

// The highest requesting channel.
pub fn highest(i: Interrupts) -> Option<Channel>
    ensures { result ≡ highest i }
{
    search(i.pending & i.mask, i.service)
}

// Some channel requests: the wanted channels that are not themselves in service, taken as a number,
// exceed those in service, since then their highest stands above all of these.
pub fn irq(i: Interrupts) -> bool
    ensures { result ≡ irq i }
{
    let wanted = i.pending & i.mask;
    i.service < wanted & (wanted ^ i.service)
}

// The interrupts once channel c has given its vector.
fn give(i: Interrupts, c: Channel) -> Interrupts
    ensures { result ≡ given c i }
{
    let set = channels::set_of(c);
    let service = if interrupts::software_end(i.vector) {
        i.service | set
    } else {
        i.service
    };
    Interrupts {
        pending: i.pending & 65535 - set,
        service,
        ..i
    }
}

pub fn acknowledge(i: Interrupts, iei: bool) -> Acknowledged
    ensures { result ≡ acknowledged iei i }
{
    if !iei {
        return Acknowledged {
            interrupts: i,
            reply: Reply::Held,
        };
    }
    match highest(i) {
        Some(c) => Acknowledged {
            interrupts: give(i, c),
            reply: Reply::Vector(i.vector / 16 * 16 + c.0),
        },
        None => Acknowledged {
            interrupts: i,
            reply: Reply::PassedOn,
        },
    }
}
