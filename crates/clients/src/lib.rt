// Clients of the public calls: small functions over nothing but the calls, whose contracts are the
// demands. Each is proved from what the calls promise, so a promise that is weakened breaks a proof
// here. No program needs this crate.
#![tactic(auto)]

ghost use Rattle.std.specs.Prelude.{◌≡◌, length};
ghost use Rattle.layout.specs.Layout.{image_bytes};
ghost use Rattle.demands.specs.Refusals.{Given, Ends};
ghost use Rattle.clients.specs.Clients.{SavedAndLoaded, LoadedAndSaved, RanNothing, JoinedOrCut};

use device::Device;
use events::Refusal;

// What two runs returned: the C face's numbers.
#[derive(Clone, Copy)]
pub struct Codes {
    pub cut: u32,
    pub joined: u32,
}

// What a save and a load returned.
#[derive(Clone, Copy)]
pub struct SavedLoaded {
    pub saved: Result<(), Refusal>,
    pub loaded: Result<Device, Refusal>,
}

// What a fresh image and a run on it returned: the C face's numbers.
#[derive(Clone, Copy)]
pub struct FreshRun {
    pub fresh: u32,
    pub run: u32,
}

// Demand 1: what a run returns is a row of the table of refusals, or 0. This and the next are two demands of one
// call, whose number is the C face's.
#[tactic(auto, using(crate::proofs::Relied::has_its_row))]
pub fn run_has_its_row(image: &mut [u8], tape: &[u8], answers: &mut [u8]) -> u32
    ensures { Given image.old tape.now (length answers.old) result }
{
    mfp::mfp_run(image, tape, answers)
}

// Demand 1: a run is answered, or refused with both buffers as they came.
#[tactic(auto, using(crate::proofs::Relied::answers_or_refuses))]
pub fn run_answers_or_refuses(image: &mut [u8], tape: &[u8], answers: &mut [u8]) -> u32
    ensures { Ends image.old tape.now answers.old result image.new answers.new }
{
    mfp::mfp_run(image, tape, answers)
}

// Demand 2: a device saved and loaded again is the same device.
pub fn save_then_load(d: Device, image: &mut [u8]) -> SavedLoaded
    ensures { SavedAndLoaded image.old d result.saved result.loaded }
{
    let saved = image::save(d, image);
    let loaded = image::load(image);
    SavedLoaded { saved, loaded }
}

// Demand 2: an accepted image loaded and saved again is the same bytes, and so is any other buffer.
pub fn load_then_save(image: &mut [u8]) -> Result<(), Refusal>
    ensures { LoadedAndSaved image.old image.new result }
{
    let d = image::load(image)?;
    image::save(d, image)
}

// A fresh image is accepted and runs; the empty tape leaves it fresh.
pub fn fresh_runs_nothing(image: &mut [u8], tape: &[u8], answers: &mut [u8]) -> FreshRun
    ensures { length image.old ≡ image_bytes
        → RanNothing answers.old result.fresh result.run image.new answers.new }
{
    let fresh = mfp::mfp_fresh(image);
    let run = mfp::mfp_run(image, &tape[..0], answers);
    FreshRun { fresh, run }
}

// Demand 3: a span's clock records cut or joined, by two runs on equal images.
#[tactic(auto, using(crate::proofs::Relied::joined_or_cut))]
pub fn run_cut_and_joined(
    image: &mut [u8],
    other: &mut [u8],
    cut: &[u8],
    joined: &[u8],
    answers: &mut [u8],
    more: &mut [u8],
) -> Codes
    ensures { image.old ≡ other.old
        → JoinedOrCut cut.now joined.now answers.old more.old result.cut result.joined image.new other.new answers.new more.new }
{
    let cut = mfp::mfp_run(image, cut, answers);
    let joined = mfp::mfp_run(other, joined, more);
    Codes { cut, joined }
}
