// A row of devices as images one after another, acknowledged together. The rules stand in
// specs/RowImages.antt. Each image is checked by the run of no record, on a copy, and acknowledged by the
// run of one record: so that the C call has one caller of each step below it (docs/BENCHMARKS.md).
#![tactic(auto)]

ghost use Rattle.std.specs.Prelude.{◌≡◌, ◌%◌, ◌≤◌, length, Ok};
ghost use Rattle.layout.specs.Layout.{image_bytes, image_of, device_of};
ghost use Rattle.image.specs.Image.{load_of};
ghost use Rattle.row.specs.Rows.{row_most, acknowledged_row, given_from, devices_of};
ghost use Rattle.row_images.specs.RowImages.{images, row, images_of, refused_at, first_refused, row_check, told_by, row_told, row_images};
ghost use Rattle.row_images.specs.Private.{acknowledge_record, stepped};

use answer::ANSWER_BYTES;
use events::{Answer, Refusal, RefusedAt};
use layout::IMAGE_BYTES;
use record::RECORD_BYTES;
use row::ROW_MOST;

// The mark and the kind of an acknowledge's record, and the places of class and value in an answer: a
// wrong one is not proved.
const RECORD_MARK_0: u8 = 77;

const RECORD_MARK_1: u8 = 69;

const ACKNOWLEDGE: u8 = 6;

const CLASS: usize = 2;

const VALUE: usize = 3;

// ---- the check

// The refusal of an image.
fn check_image(image: &[u8; IMAGE_BYTES]) -> Result<(), RefusedAt>
    ensures { result ≡ refused_at (load_of image.now) 0 (Ok tt) }
{
    let mut copy = *image;
    run::run(&mut copy, &[], &mut [])
}

// The refusal of a whole row.
fn check(images: &[u8]) -> Result<(), RefusedAt>
    ensures { result ≡ row_check images.now }
{
    if images.is_empty() || ROW_MOST * IMAGE_BYTES < images.len() {
        return Err(Refusal::RowLength.into());
    }
    let (images, rest) = images.as_chunks::<IMAGE_BYTES>();
    if !rest.is_empty() {
        return Err(Refusal::ImageLength.into());
    }
    for (i, image) in images.iter().enumerate() {
        check_image(image).map_err(|e| RefusedAt {
            // below 8, where `try_from` would bring an error that can't be
            index: i as u16,
            ..e
        })?;
    }
    Ok(())
}

// ---- the acknowledge

// The record of an acknowledge.
fn acknowledge_record(iei: bool) -> [u8; RECORD_BYTES]
    ensures { result ≡ acknowledge_record iei }
{
    [
        RECORD_MARK_0,
        RECORD_MARK_1,
        ACKNOWLEDGE,
        u8::from(iei),
        0,
        0,
        0,
        0,
    ]
}

// The acknowledge of an accepted image, so that neither it nor the record is refused. The classes are the paper's,
// as patterns: 2 a vector, 3 passed on, any other held; with a wrong one it is not proved.
fn acknowledge_image(image: &mut [u8], iei: bool) -> Answer
    requires { load_of image.old ≡ Ok (device_of image.old) }
    ensures { (result ≡ (stepped image.old iei).answer) × (image.new ≡ image_of (stepped image.old iei).device) }
{
    let mut answer = [0; ANSWER_BYTES];
    let _ = run::run(image, &acknowledge_record(iei), &mut answer);
    match answer[CLASS] {
        2 => Answer::Vector(answer[VALUE]),
        3 => Answer::PassedOn,
        _ => Answer::Held,
    }
}

// The acknowledge of checked images, and what it tells. Each is written, whatever it answers; in its place in
// the whole, as nothing is promised of what a slice ends as after `as_chunks_mut`.
fn acknowledge_images(bytes: &mut [u8]) -> u32
    requires even { length bytes.old % image_bytes ≡ 0 }
    requires at_most_a_row { images bytes.old ≤ row_most }
    requires accepted { first_refused 0 (images bytes.old) bytes.old ≡ Ok tt }
    ensures { (result ≡ told_by (images bytes.old) (given_from 0 (acknowledged_row (row bytes.old)))) × (bytes.new ≡ images_of (devices_of (acknowledged_row (row bytes.old)))) }
{
    let n = bytes.len() / IMAGE_BYTES;
    // n and i are at most 8, where `try_from` would bring an error that can't be
    let mut told = 256 * n as u32;
    let mut iei = true;
    for i in 0..n {
        let at = i * IMAGE_BYTES;
        let answer = acknowledge_image(&mut bytes[at..at + IMAGE_BYTES], iei);
        iei = row::ieo(answer);
        if let Answer::Vector(vector) = answer {
            told = 256 * i as u32 + u32::from(vector);
        }
    }
    told
}

// The whole call: checks everything, then acknowledges the row; or returns a refusal and leaves the buffer. What it
// tells is the C call's number, as `row_told` has it; `row::acknowledge` tells it by types.
pub fn acknowledge(images: &mut [u8]) -> Result<u32, RefusedAt>
    ensures { (result ≡ row_told images.old) × (images.new ≡ row_images images.old) }
{
    check(images)?;
    Ok(acknowledge_images(images))
}
