// The device record as a caller in Rattle has it: an event takes the record by value, or alters it where
// it stands, lent. These are the entries that refuse; the rules of an event are crate step's.
#![tactic(auto)]

ghost use Rattle.std.specs.Prelude.{◌≡◌};
ghost use Rattle.lent.specs.Handling.{handled_of};

use device::{Device, Stepped};
use events::{Answer, Event, Refusal};
use timeouts::Timeouts;

// What an event gives that is not refused.
#[derive(Clone, Copy)]
pub struct Answered {
    pub answer: Answer,
    pub timeouts: Timeouts,
}

// The record after an event, and the event's answer or its refusal: refused, the record as it came. It
// stands beside the `Result`, since `handled_of` says of a refusal too what becomes of the record.
#[derive(Clone, Copy)]
pub struct Handled {
    pub device: Device,
    pub outcome: Result<Answered, Refusal>,
}

// One event of a device record, or refusal 3 or 7, with the record as it came.
#[tactic(auto, unfolding(crate::specs::Handling::handled_of))]
pub fn handle(d: Device, e: Event) -> Handled
    ensures { result ≡ handled_of d e }
{
    if !d.keeps_rule() {
        return Handled {
            device: d,
            outcome: Err(Refusal::ImageRule),
        };
    }
    if !events::is_in_range(e) {
        return Handled {
            device: d,
            outcome: Err(Refusal::Operand),
        };
    }
    let Stepped {
        device,
        answer,
        timeouts,
    } = step::step(d, e);
    Handled {
        device,
        outcome: Ok(Answered { answer, timeouts }),
    }
}

// One event of a lent record. A record that breaks the image rule is refused with 3, an operand out
// of range with 7; the record is then as it came.
pub fn event(d: &mut Device, e: Event) -> Result<Answered, Refusal>
    ensures { (result ≡ (handled_of d.old e).outcome) × (d.new ≡ (handled_of d.old e).device) }
{
    let out = handle(*d, e);
    *d = out.device;
    out.outcome
}

// The same by value, over a local that it lends: its callers lend nothing. It has a promise and an edit of its own
// (lent/by_value_left).
pub fn event_by_value(d: Device, e: Event) -> Handled
    ensures as_handled { result ≡ handled_of d e }
{
    let mut device = d;
    let outcome = event(&mut device, e);
    Handled { device, outcome }
}
