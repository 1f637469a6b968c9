// The C face, exported: each call hands its buffers on to the function of crates/mfp of the same name and
// clauses, in a crate of its own, since a static library is no library for other crates. host/include/mfp.h
// declares them.
#![tactic(auto)]

ghost use Rattle.std.specs.Prelude.{◌≡◌};
ghost use Rattle.run.specs.Runs.{result_of, image_after, answers_after};
ghost use Rattle.row_images.specs.RowImages.{row_result, row_images};
ghost use Rattle.mfp.specs.Calls.{fresh_result, fresh_over};

// Runs a tape on the device of an image: 0, or 256 × index of the bad record + the refusal's number.
#[unsafe(no_mangle)]
pub extern "C" fn mfp_run(image: &mut [u8], tape: &[u8], answers: &mut [u8]) -> u32
    ensures { (result ≡ result_of image.old tape.now answers.old)
        × (image.new ≡ image_after image.old tape.now answers.old)
        × (answers.new ≡ answers_after image.old tape.now answers.old) }
{
    mfp::mfp_run(image, tape, answers)
}

// Writes the image of a fresh device: 0, or 1 where the buffer is not of an image's length.
#[unsafe(no_mangle)]
pub extern "C" fn mfp_fresh(image: &mut [u8]) -> u32
    ensures { (result ≡ fresh_result image.old) × (image.new ≡ fresh_over image.old) }
{
    mfp::mfp_fresh(image)
}

// Acknowledges the row of one to eight images, one after another, the first with IEI asserted: the code,
// 0 or 256 × index of the bad image + the refusal's number, and above its 32 bits 256 × how many passed on
// + the vector.
#[unsafe(no_mangle)]
pub extern "C" fn mfp_row_acknowledge(images: &mut [u8]) -> u64
    ensures { (result ≡ row_result images.old) × (images.new ≡ row_images images.old) }
{
    mfp::mfp_row_acknowledge(images)
}
