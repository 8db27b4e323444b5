//! A line of a plan, put together from its end, since the last digit of a number is found first. A plan has thousands
//! of lines, and `write!` asks the writer once for each word.
//!
//! A line is written at once, which takes 2.3 million instructions for 1,023 slots, in place of 5.2 million by
//! `write!`. All other texts are written by `write!`.
ghost use Rattle.std.specs.Prelude.{◌≡◌, ◌<◌, ◌≤◌, ◌+◌, ◌∷◌, ◌++◌, [], length, drop, OnOk};
ghost use Rattle.std.specs.Fmt.{decimal};
ghost use Rattle.std.specs.Io.KnownBytes.{Appends};
ghost use Rattle.fr_lines.specs.Spelling.{line_text};

use itoa::write_digits;
use std::io::{self, Write};

/// Room for a line, in bytes.
///
/// A line has two words of up to 7 and 2 letters, four numbers of up to 20 digits, five spaces and a line feed.
const ROOM: usize = 95;

/// Puts a space and the word right before `end`, and returns their place.
fn put_word(line: &mut [u8; ROOM], end: usize, word: &str) -> usize
    requires room { length word.now < end }
    requires inside { end ≤ ROOM }
    ensures start { result + 1 + length word.now ≡ end }
    ensures put { drop result line.new ≡ 32 ∷ word.now ++ drop end line.old }
{
    let start = end - word.len();
    line[start..end].copy_from_slice(word.as_bytes());
    line[start - 1] = b' ';
    start - 1
}

/// Puts a space and the digits of the number right before `end`, and returns their place.
fn put_number(line: &mut [u8; ROOM], end: usize, number: u64) -> usize
    requires room { 21 ≤ end }
    requires inside { end ≤ ROOM }
    ensures start { (end ≤ result + 21) × (result < end) }
    ensures put { drop result line.new ≡ 32 ∷ decimal number ++ drop end line.old }
{
    let start = write_digits(number, line, end);
    line[start - 1] = b' ';
    start - 1
}

/// The numbers of a line that come after its channels.
#[derive(Clone, Copy)]
pub(crate) struct LastNumbers {
    pub(crate) second: u64,
    pub(crate) third: u64,
    pub(crate) fourth: u64,
}

/// Writes a line: its first word, a number, the channels, and three more numbers (project-defined).
///
/// Fails if the writer fails, which may have written a part by then.
pub(crate) fn write_line<W: Write>(
    writer: &mut W,
    told: &str,
    first: u64,
    channels: &str,
    last: LastNumbers,
) -> io::Result<()>
    requires told { length told.now ≤ 7 }
    requires channels { length channels.now ≤ 2 }
    ensures { OnOk result
        (Appends (W.contents writer.old) (W.contents writer.new)
        (line_text
        (told.now ∷ decimal first ∷ channels.now ∷ decimal last.second ∷ decimal last.third ∷ decimal last.fourth
        ∷ []))) }
{
    let mut line = [b'\n'; ROOM];
    let end = ROOM - 1;
    let end = put_number(&mut line, end, last.fourth);
    let end = put_number(&mut line, end, last.third);
    let end = put_number(&mut line, end, last.second);
    let end = put_word(&mut line, end, channels);
    let end = put_number(&mut line, end, first);
    let start = end - told.len();
    line[start..end].copy_from_slice(told.as_bytes());
    writer.write_all(&line[start..])
}
