// The lines of the replay program as bytes at the start of a buffer that the caller lends. The text
// stands in specs/Lines.antt. A buffer of LINE_MOST bytes holds every line; a shorter one stays as it
// was.
#![tactic(auto)]

ghost use Rattle.std.specs.Prelude.{◌≡◌, [], ◌∷◌, ◌++◌, ◌+◌, ◌≤◌, ◌<◌, length};
ghost use Rattle.arrayvec.specs.ArrayVec.{array_vec_len};
ghost use Rattle.text.specs.Lines.{decimal, counts_of, line_of, refused_line, written, written_length, Counts};
ghost use Rattle.text.specs.Lines.{line_most, counts_most};

use arrayvec::ArrayVec;
use events::Answer;
use timeouts::Timeouts;
use words::MIDDLE_BYTES;

// The most bytes of an index and of the four counts, each with the byte after it.
const INDEX_MOST: usize = 5 + 1;

const COUNTS_MOST: usize = 4 * (10 + 1);

// The bytes of a buffer that holds every line: its parts, and two to spare.
pub const LINE_MOST: usize = INDEX_MOST + MIDDLE_BYTES + COUNTS_MOST + 2;

// A line as it grows. Its parts are put one by one, not by `write!`: that promises its text only where it gives Ok,
// no contract of the library says when it does, and a line is never refused.
type Text = ArrayVec<u8, LINE_MOST>;

// What the line of a record tells.
#[derive(Clone, Copy)]
pub struct Line {
    pub index: u16,
    pub answer: Answer,
    pub irq: bool,
    pub outputs: u8,
    pub timeouts: Timeouts,
}

// Adds text, for which there is room.
fn put(line: &mut Text, text: &[u8])
    requires { array_vec_len line.old + length text.now ≤ line_most }
    ensures items { line.new.items ≡ line.old.items ++ text.now }
    ensures len { array_vec_len line.new ≡ array_vec_len line.old + length text.now }
{
    line.try_extend_from_slice(text).unwrap()
}

// Adds n in decimal: one digit, as most counts are, or what the library prints of its tens, and the last digit. By
// the library alone a line of small counts takes half as long again (D87).
fn put_decimal(line: &mut Text, n: u32)
    requires { array_vec_len line.old + length (decimal n) ≤ line_most }
    ensures items { line.new.items ≡ line.old.items ++ decimal n }
    ensures len { array_vec_len line.new ≡ array_vec_len line.old + length (decimal n) }
{
    let is_digit = n < 10;
    if is_digit {
        line.push(b'0' + n as u8);
    } else {
        put(line, itoa::Buffer::new().format(n / 10).as_bytes());
        line.push(b'0' + (n % 10) as u8);
    }
}

// Adds n in decimal and the byte after it.
fn put_number(line: &mut Text, n: u32, after: u8)
    requires { array_vec_len line.old + length (decimal n) < line_most }
    ensures items { line.new.items ≡ line.old.items ++ (decimal n ++ (after ∷ [])) }
    ensures len { array_vec_len line.new ≡ array_vec_len line.old + length (decimal n) + 1 }
{
    put_decimal(line, n);
    line.push(after);
}

// Adds the four counts, A to D, and the end of the line.
fn put_counts(line: &mut Text, n: Timeouts)
    requires { array_vec_len line.old + counts_most ≤ line_most }
    ensures { line.new.items ≡ line.old.items ++ counts_of n }
{
    put_number(line, n.a, b' ');
    put_number(line, n.b, b' ');
    put_number(line, n.c, b' ');
    put_number(line, n.d, b'\n');
}

// Writes a line at the start of the buffer, and returns its length; into one that is too short nothing, and 0, as
// `written_length` has it.
fn write(out: &mut [u8], line: &Text) -> usize
    ensures value { result ≡ written_length line.now.items out.old }
    ensures out_after { out.new ≡ written line.now.items out.old }
    ensures counts { Counts result out.new }
{
    if out.len() < LINE_MOST {
        return 0;
    }
    let n = line.len();
    out[..n].copy_from_slice(line);
    n
}

impl Line {
    // Writes the line of a record, and returns its length.
    pub fn write(self, out: &mut [u8]) -> usize
        ensures value { result ≡ written_length (line_of self.index self.answer self.irq self.outputs self.timeouts) out.old }
        ensures out_after { out.new ≡ written (line_of self.index self.answer self.irq self.outputs self.timeouts) out.old }
        ensures counts { Counts result out.new }
    {
        let mut line = Text::new();
        put_number(&mut line, self.index.into(), b' ');
        put(
            &mut line,
            &words::middle(self.answer, self.irq, self.outputs),
        );
        put_counts(&mut line, self.timeouts);
        write(out, &line)
    }
}

// Writes the line of a refused tape, and returns its length. It takes any number, a refusal's or not: its clauses
// say so of every number, and a narrower type would ask more.
pub fn refused(out: &mut [u8], number: u8, index: u16) -> usize
    ensures value { result ≡ written_length (refused_line number index) out.old }
    ensures out_after { out.new ≡ written (refused_line number index) out.old }
    ensures counts { Counts result out.new }
{
    let mut line = Text::new();
    put(&mut line, b"refused ");
    put_number(&mut line, number.into(), b' ');
    put_number(&mut line, index.into(), b'\n');
    write(out, &line)
}
