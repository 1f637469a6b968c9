// The parts of a device read from the 32 bytes of an image. The table of bytes stands in
// specs/Layout.antt, both ways. Each reader takes a whole image.
#![tactic(auto)]

ghost use Rattle.std.specs.Prelude.{◌≡◌, ◌+◌, ◌<◌};
ghost use Rattle.channels.specs.Channels.{has};
ghost use Rattle.layout.specs.Layout.{image_bytes, lines_from, interrupts_from, timers_from, timer_from};

use interrupts::Interrupts;
use lines::Lines;
use timer::Timer;
use timers::Timers;

pub const IMAGE_BYTES: usize = 32;

#[tactic(auto, unfolding(channels::specs::Channels::has))]
fn bit_at(b: u8, k: u8) -> bool
    requires { k < 8 }
    ensures { result ≡ has b k }
{
    (b >> k) % 2 == 1
}

#[tactic(auto, unfolding(crate::specs::Layout::lines_from))]
pub fn lines_from(image: &[u8; IMAGE_BYTES]) -> Lines
    ensures { result ≡ lines_from image.now }
{
    let inputs = image[31];
    Lines {
        gpdr: image[2],
        aer: image[3],
        ddr: image[4],
        levels: image[30],
        tai: bit_at(inputs, 0),
        tbi: bit_at(inputs, 1),
    }
}

#[tactic(auto, unfolding(crate::specs::Layout::interrupts_from))]
pub fn interrupts_from(image: &[u8; IMAGE_BYTES]) -> Interrupts
    ensures { result ≡ interrupts_from image.now }
{
    // each set from its registers A and B
    Interrupts {
        enabled: u16::from_be_bytes([image[5], image[6]]),
        pending: u16::from_be_bytes([image[7], image[8]]),
        service: u16::from_be_bytes([image[9], image[10]]),
        mask: u16::from_be_bytes([image[11], image[12]]),
        vector: image[13],
    }
}

// The timer whose data value stands at byte `at`, with this mode and output. One place for three bytes,
// since the counter and the position stand four and eight bytes on.
fn timer_from(image: &[u8; IMAGE_BYTES], at: usize, mode: u8, output: bool) -> Timer
    requires { at + 8 < image_bytes }
    ensures { result ≡ timer_from image.now at mode output }
{
    Timer {
        mode,
        reload: image[at],
        counter: image[at + 4],
        position: image[at + 8],
        output,
    }
}

#[tactic(auto, unfolding(crate::specs::Layout::timers_from))]
pub fn timers_from(image: &[u8; IMAGE_BYTES]) -> Timers
    ensures { result ≡ timers_from image.now }
{
    let tcdcr = image[16];
    let outputs = image[29];
    Timers {
        a: timer_from(image, 17, image[14], bit_at(outputs, 0)),
        b: timer_from(image, 18, image[15], bit_at(outputs, 1)),
        c: timer_from(image, 19, tcdcr / 16 % 8, bit_at(outputs, 2)),
        d: timer_from(image, 20, tcdcr % 8, bit_at(outputs, 3)),
    }
}
