// A row of devices chained by IEI and IEO, acknowledged together. The rules stand in specs/Rows.antt: the
// whole row is checked before any device changes, and then each is acknowledged where it stands.
#![tactic(auto)]

ghost use Rattle.std.specs.Prelude.{◌≡◌};
ghost use Rattle.row.specs.Rows.{ieo, fitting, row_answer, row_after};

use device::Device;
use events::{Answer, Refusal, RefusedAt};

// At most so many devices make a row.
pub const ROW_MOST: usize = 8;

// Which device gave which vector.
#[derive(Clone, Copy, Debug, PartialEq, Eq)]
pub struct Given {
    pub index: usize,
    pub vector: u8,
}

// IEO of a device that answers so.
pub fn ieo(a: Answer) -> bool
    ensures { result ≡ ieo a }
{
    matches!(a, Answer::PassedOn)
}

// Whether so many devices make a row.
fn fits(n: usize) -> bool
    ensures { result ≡ fitting n }
{
    0 < n && n <= ROW_MOST
}

// The acknowledge over a lent row, the first device with IEI asserted: who gave which vector, or None where
// all passed on. Refusal 10, then 3 with the index of the first device that breaks the image rule; the row
// is then as it came.
pub fn acknowledge(row: &mut [Device]) -> Result<Option<Given>, RefusedAt>
    ensures { (result ≡ row_answer row.old) × (row.new ≡ row_after row.old) }
{
    if !fits(row.len()) {
        return Err(Refusal::RowLength.into());
    }
    for (i, d) in row.iter().enumerate() {
        if !d.keeps_rule() {
            return Err(RefusedAt {
                refusal: Refusal::ImageRule,
                // below 8, where `try_from` would bring an error that can't be
                index: i as u16,
            });
        }
    }
    let mut iei = true;
    let mut given = None;
    for (i, d) in row.iter_mut().enumerate() {
        let k = step::acknowledge(*d, iei);
        *d = k.device;
        iei = ieo(k.answer);
        if let Answer::Vector(vector) = k.answer {
            given = given.or(Some(Given { index: i, vector }));
        }
    }
    Ok(given)
}

#[derive(Clone, Copy)]
pub struct Four {
    pub row: [Device; 4],
    pub answer: Result<Option<Given>, RefusedAt>,
}

// The same over four devices by value: its callers lend nothing. It has a promise and an edit of its own
// (row/four_are_left_as_they_came).
pub fn acknowledge_four(mut row: [Device; 4]) -> Four
    ensures { (result.answer ≡ row_answer row) × (result.row ≡ row_after row) }
{
    let answer = acknowledge(&mut row);
    Four { row, answer }
}
