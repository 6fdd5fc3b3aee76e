// The list of stored answers: records of a byte for the kind, four for the length, and as many bytes as that.
ghost use Rattle.std.specs.Prelude.{◌≤◌, length, take};
ghost use Rattle.std.specs.Io.KnownBytes.{Consumes};
ghost use Rattle.replay.specs.Lists.{IsRead};

use lending::reader::Reader;
use std::io::Read;

// The bytes of the longest record.
pub const LONGEST: usize = 65_536;

// What comes next in a list: a record of a kind and a length, its end, or a piece of a record. A read that fails ends what is read.
pub enum Next {
    Record { kind: u8, length: usize },
    End,
    Cut,
}

// Reads until the bytes are full, the input ends or a read fails, and says how many came. Nothing beyond them is read.
fn fill<R: Read>(input: &mut R, bytes: &mut [u8]) -> usize
    ensures room { result ≤ length bytes.new }
    ensures taken { Consumes (R.remaining input.old) (R.remaining input.new) (take result bytes.new) }
{
    let mut filled = 0;
    while filled < bytes.len() {
        match input.read(&mut bytes[filled..]) {
            Ok(0) | Err(_) => break,
            Ok(count) => filled += count,
        }
    }
    filled
}

// Reads the next record into the bytes, from their start. One that is longer than they are cuts the list, as one of kind 255 does, and one
// of kind 0 ends it.
pub fn read<R: Read>(input: &mut R, bytes: &mut [u8]) -> Next
    ensures { IsRead (R.remaining input.old) (R.remaining input.new) bytes.new result }
{
    let mut head = [0; 5];
    let filled = fill(input, &mut head);
    if filled == 0 {
        return Next::End;
    }
    if filled < head.len() {
        return Next::Cut;
    }
    let mut head = Reader::new(&head);
    let kind = head.octet();
    let length = head.size();
    if length > bytes.len() {
        return Next::Cut;
    }
    if fill(input, &mut bytes[..length]) < length {
        return Next::Cut;
    }
    match kind {
        0 => Next::End,
        255 => Next::Cut,
        _ => Next::Record { kind, length },
    }
}
