// The words of a line of the replay program that take a fixed room: class, value, IRQ and outputs, as
// bytes, not as a `Display`, for the reason that stands at `text::Text`. The text stands in specs/Words.antt.
#![tactic(auto)]

ghost use Rattle.std.specs.Prelude.{◌≡◌};
ghost use Rattle.words.specs.Words.{hex_byte, class_letter, value_text, middle_of};

use events::Answer;

// The bytes of these words, each with its space.
pub const MIDDLE_BYTES: usize = 12;

const HEX_DIGITS: [u8; 16] = *b"0123456789ABCDEF";

// The letter of a class, by the paper's table: a part of the words, as bytes, like the rest.
fn class_letter(a: Answer) -> u8
    ensures { result ≡ class_letter a }
{
    match a {
        Answer::Done => b'D',
        Answer::Data(_) => b'R',
        Answer::Vector(_) => b'V',
        Answer::PassedOn => b'P',
        Answer::Held => b'H',
    }
}

// The two hex digits of a byte.
fn hex_byte(v: u8) -> [u8; 2]
    ensures { result ≡ hex_byte v }
{
    [
        HEX_DIGITS[usize::from(v / 16)],
        HEX_DIGITS[usize::from(v % 16)],
    ]
}

fn value_text(a: Answer) -> [u8; 2]
    ensures { result ≡ value_text a }
{
    match a {
        Answer::Data(v) | Answer::Vector(v) => hex_byte(v),
        Answer::Done | Answer::PassedOn | Answer::Held => *b"--",
    }
}

// Class, value, IRQ and outputs, with a space after each.
pub fn middle(a: Answer, irq: bool, outputs: u8) -> [u8; MIDDLE_BYTES]
    ensures { result ≡ middle_of a irq outputs }
{
    let [high, low] = value_text(a);
    [
        class_letter(a),
        b' ',
        high,
        low,
        b' ',
        b'0' + u8::from(irq),
        b' ',
        b'0' + outputs % 2,
        b'0' + outputs / 2 % 2,
        b'0' + outputs / 4 % 2,
        b'0' + outputs / 8 % 2,
        b' ',
    ]
}
