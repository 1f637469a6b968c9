// The bytes of an answer. The layout stands in specs/Answers.antt. Every function is total.
#![tactic(auto)]

ghost use Rattle.std.specs.Prelude.{◌≡◌};
ghost use Rattle.answer.specs.Answers.{head_of, answer_of};

use device::Stepped;

pub const HEAD_BYTES: usize = 6;

pub const COUNT_BYTES: usize = 4;

pub const ANSWER_BYTES: usize = HEAD_BYTES + 4 * COUNT_BYTES;

// Where the counts stand.
const COUNT_A: usize = HEAD_BYTES;

const COUNT_B: usize = COUNT_A + COUNT_BYTES;

const COUNT_C: usize = COUNT_B + COUNT_BYTES;

const COUNT_D: usize = COUNT_C + COUNT_BYTES;

const MARK_0: u8 = 77;

const MARK_1: u8 = 65;

// Mark, class, value, IRQ and outputs.
pub fn head(s: Stepped) -> [u8; HEAD_BYTES]
    ensures { result ≡ head_of s }
{
    [
        MARK_0,
        MARK_1,
        events::class_of(s.answer),
        events::value_of(s.answer),
        u8::from(s.device.irq()),
        s.device.outputs(),
    ]
}

// The bytes of an answer. Each count is put by itself: the compiler then stores it in one move.
#[tactic(auto, unfolding(crate::specs::Answers::answer_of))]
pub fn bytes_of(s: Stepped) -> [u8; ANSWER_BYTES]
    ensures { result ≡ answer_of s }
{
    let n = s.timeouts;
    let mut bytes = [0; ANSWER_BYTES];
    bytes[..COUNT_A].copy_from_slice(&head(s));
    bytes[COUNT_A..COUNT_B].copy_from_slice(&bits::four_bytes(n.a));
    bytes[COUNT_B..COUNT_C].copy_from_slice(&bits::four_bytes(n.b));
    bytes[COUNT_C..COUNT_D].copy_from_slice(&bits::four_bytes(n.c));
    bytes[COUNT_D..].copy_from_slice(&bits::four_bytes(n.d));
    bytes
}
