// Four chained parts, acknowledged until none of them requests, and a row that is refused. A line tells
// what one acknowledge over the row answers: G, the device and its vector; P, all passed on; R, the
// refusal and its device.
#![tactic(auto)]

ghost use Rattle.std.specs.Prelude.{◌≡◌};
ghost use Rattle.rows.specs.Rows.{device_with, given_line, refused_line};

use device::Device;
use events::{Answer, RefusedAt};
use interrupts::Interrupts;
use row::Given;
use std::io;

// Channel 12, on which the receiver asks, and channel 15, above it.
const RECEIVER: u16 = 4096;

const TOP: u16 = 32768;

// A fresh device with these channels pending and in service; all are enabled and unmasked.
fn device(pending: u16, service: u16, vector: u8) -> Device
    ensures { result ≡ device_with pending service vector }
{
    Device {
        interrupts: Interrupts {
            enabled: 65535,
            pending,
            service,
            mask: 65535,
            vector,
        },
        ..Device::fresh()
    }
}

// The hex digits are those of a vector in a line of the replay program.
// In bytes, as the definition has it; `text::Text` says why not by `write!`. An index is cut to a digit.
fn given_line(g: Given) -> [u8; 6]
    ensures { result ≡ given_line g }
{
    let words = words::middle(Answer::Vector(g.vector), false, 0);
    [
        b'G',
        b'0' + (g.index % 10) as u8,
        b' ',
        words[2],
        words[3],
        b'\n',
    ]
}

fn refused_line(r: RefusedAt) -> [u8; 6]
    ensures { result ≡ refused_line r }
{
    let n = events::number_of(r.refusal);
    [
        b'R',
        b'0' + n / 10,
        b'0' + n % 10,
        b' ',
        b'0' + (r.index % 10) as u8,
        b'\n',
    ]
}

fn print(rt: &impl Print, answer: Result<Option<Given>, RefusedAt>) -> io::Result<()> {
    match answer {
        Ok(Some(g)) => rt.write_all(&given_line(g)),
        Ok(None) => rt.write_all(b"P\n"),
        Err(r) => rt.write_all(&refused_line(r)),
    }
}

// Four parts, of which the first has a channel in service and no request, the second and the fourth ask.
// Then four, of which the third and the fourth break the image rule: in service, with S clear.
fn main(rt: HostRuntime) -> io::Result<()> {
    let serving = device(0, TOP, 0x48);
    let first = device(RECEIVER, 0, 0x50);
    let mut row = [serving, first, device(0, 0, 0), device(RECEIVER, 0, 0x10)];
    for _ in 0..3 {
        print(&rt, row::acknowledge(&mut row))?;
    }
    let broken = device(0, TOP, 0);
    let refused = row::acknowledge_four([serving, first, broken, broken]);
    print(&rt, refused.answer)
}
