// The calls of the C face, on lent byte buffers, and nothing else. crates/mfp_c exports them to C. C takes a number
// where the calls below answer a Result.
#![tactic(auto)]

ghost use Rattle.std.specs.Prelude.{◌≡◌};
ghost use Rattle.run.specs.Runs.{result_of, image_after, answers_after};
ghost use Rattle.row_images.specs.RowImages.{row_result, row_images};
ghost use Rattle.mfp.specs.Calls.{fresh_result, fresh_over};

use device::Device;
use events::Refusal;
use layout::IMAGE_BYTES;

// Runs a tape on the device of an image: 0, or 256 × index of the bad record + the refusal's number.
pub fn mfp_run(image: &mut [u8], tape: &[u8], answers: &mut [u8]) -> u32
    ensures { (result ≡ result_of image.old tape.now answers.old)
        × (image.new ≡ image_after image.old tape.now answers.old)
        × (answers.new ≡ answers_after image.old tape.now answers.old) }
{
    match run::run(image, tape, answers) {
        Ok(()) => 0,
        Err(refused) => refused.code(),
    }
}

// Writes the image of a fresh device: 0, or 1 where the buffer is not of an image's length.
#[tactic(auto, unfolding(crate::specs::Calls::fresh_result, crate::specs::Calls::fresh_over, image::specs::Image::stored_over))]
pub fn mfp_fresh(image: &mut [u8]) -> u32
    ensures { (result ≡ fresh_result image.old) × (image.new ≡ fresh_over image.old) }
{
    if image.len() != IMAGE_BYTES {
        return u32::from(events::number_of(Refusal::ImageLength));
    }
    image::store(Device::fresh(), image);
    0
}

// Acknowledges the row of one to eight images, one after another, the first with IEI asserted: the code,
// 0 or 256 × index of the bad image + the refusal's number, and above its 32 bits 256 × how many passed on
// + the vector.
pub fn mfp_row_acknowledge(images: &mut [u8]) -> u64
    ensures { (result ≡ row_result images.old) × (images.new ≡ row_images images.old) }
{
    match row_images::acknowledge(images) {
        Ok(told) => u64::from(told) << 32,
        Err(refused) => u64::from(refused.code()),
    }
}
