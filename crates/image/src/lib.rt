// The 32-byte image of a device: load, save, store. The rules stand in specs/Image.antt, the table of
// bytes in crate layout. No public function has a `requires`.
#![tactic(auto)]

ghost use Rattle.std.specs.Prelude.{◌≡◌, ◌+◌};
ghost use Rattle.bits.specs.Bits.{bit_value};
ghost use Rattle.layout.specs.Layout.{image_of};
ghost use Rattle.image.specs.Image.{unused_zero, load_of, stored_over, saved_of, saved_over};

use device::Device;
use events::Refusal;
use layout::IMAGE_BYTES;
use lines::Lines;

const MARK_0: u8 = 77;

const MARK_1: u8 = 49;

// Whether the unused bits of bytes 16, 29 and 31 are zero.
#[tactic(auto, unfolding(crate::specs::Image::unused_zero))]
fn is_unused_zero(image: &[u8; IMAGE_BYTES]) -> bool
    ensures { result ≡ unused_zero image.now }
{
    image[16] < 128 && image[16] / 8 % 2 == 0 && image[29] < 16 && image[31] < 4
}

// The device of an image, or refusal 1, 2 or 3.
#[tactic(auto, unfolding(crate::specs::Image::load_of))]
pub fn load(image: &[u8]) -> Result<Device, Refusal>
    ensures { result ≡ load_of image.now }
{
    let image: &[u8; IMAGE_BYTES] = image.as_array().ok_or(Refusal::ImageLength)?;
    if image[0] != MARK_0 || image[1] != MARK_1 {
        return Err(Refusal::ImageMark);
    }
    let d = Device {
        lines: layout::lines_from(image),
        interrupts: layout::interrupts_from(image),
        timers: layout::timers_from(image),
    };
    if !is_unused_zero(image) || !d.keeps_rule() {
        return Err(Refusal::ImageRule);
    }
    Ok(d)
}

// The bytes of a device.
#[tactic(auto, unfolding(layout::specs::Layout::image_of, channels::specs::Channels::half))]
fn bytes_of(d: Device) -> [u8; IMAGE_BYTES]
    ensures { result ≡ image_of d }
{
    let l = d.lines;
    let i = d.interrupts;
    let t = d.timers;
    let [iera, ierb] = i.enabled.to_be_bytes();
    let [ipra, iprb] = i.pending.to_be_bytes();
    let [isra, isrb] = i.service.to_be_bytes();
    let [imra, imrb] = i.mask.to_be_bytes();
    [
        MARK_0,
        MARK_1,
        l.gpdr,
        l.aer,
        l.ddr,
        iera,
        ierb,
        ipra,
        iprb,
        isra,
        isrb,
        imra,
        imrb,
        i.vector,
        t.a.mode,
        t.b.mode,
        t.tcdcr(),
        t.a.reload,
        t.b.reload,
        t.c.reload,
        t.d.reload,
        t.a.counter,
        t.b.counter,
        t.c.counter,
        t.d.counter,
        t.a.position,
        t.b.position,
        t.c.position,
        t.d.position,
        t.outputs(),
        l.levels,
        inputs_of(l),
    ]
}

// TAI bit 0, TBI bit 1.
#[tactic(auto, using(bits::proofs::Bits::bit_at_most))]
fn inputs_of(l: Lines) -> u8
    ensures { result ≡ bit_value l.tai 1 + bit_value l.tbi 2 }
{
    bits::bit_value(l.tai, 1) + bits::bit_value(l.tbi, 2)
}

// Writes a device over a buffer of an image's length; leaves any other buffer as it came.
#[tactic(auto, unfolding(crate::specs::Image::stored_over))]
pub fn store(d: Device, image: &mut [u8])
    ensures { image.new ≡ stored_over d image.old }
{
    if image.len() == IMAGE_BYTES {
        image.copy_from_slice(&bytes_of(d));
    }
}

// Saves a device record: refusal 1 for the buffer's length, then 3 for the record.
#[tactic(auto, unfolding(crate::specs::Image::saved_of, crate::specs::Image::saved_over, crate::specs::Image::stored_over))]
pub fn save(d: Device, image: &mut [u8]) -> Result<(), Refusal>
    ensures { (result ≡ saved_of d image.old) × (image.new ≡ saved_over d image.old) }
{
    if image.len() != IMAGE_BYTES {
        return Err(Refusal::ImageLength);
    }
    if !d.keeps_rule() {
        return Err(Refusal::ImageRule);
    }
    store(d, image);
    Ok(())
}
