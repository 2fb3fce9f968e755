//! The line of a report while it is made.

ghost use Rattle.std.specs.Prelude.{◌≡◌, ◌≤◌, ◌+◌, ◌++◌, length};
ghost use Rattle.std.specs.Fmt.{decimal};
ghost use Rattle.arrayvec.specs.ArrayVec.{array_vec_len};
ghost use Rattle.fk_top.specs.Report.{place_text};

use arrayvec::ArrayVec;
use fk_syntax::Place;
use itoa::Buffer;

/// A line, or the beginning of one. It takes no memory.
pub type Line = ArrayVec<u8, 160>;

/// Appends a piece, for which there is room.
pub fn append(line: &mut Line, piece: &[u8])
    requires room { array_vec_len line.old + length piece.now ≤ 160 }
    ensures items { line.new.items ≡ line.old.items ++ piece.now }
    ensures len { array_vec_len line.new ≡ array_vec_len line.old + length piece.now }
{
    let _ = line.try_extend_from_slice(piece);
}

/// Appends a number in decimal.
pub fn append_number(line: &mut Line, number: u64)
    requires room { array_vec_len line.old + 20 ≤ 160 }
    ensures items { line.new.items ≡ line.old.items ++ decimal number }
    ensures len { array_vec_len line.new ≤ array_vec_len line.old + 20 }
{
    let mut buffer = Buffer::new();
    append(line, buffer.format(number).as_bytes());
}

/// Appends a line and a column, with a colon between them.
pub fn append_place(line: &mut Line, place: Place)
    requires room { array_vec_len line.old + 41 ≤ 160 }
    ensures items { line.new.items ≡ line.old.items ++ place_text place }
    ensures len { array_vec_len line.new ≤ array_vec_len line.old + 41 }
{
    append_number(line, u64::from(place.line));
    append(line, b":");
    append_number(line, u64::from(place.column));
}

/// A text without a number.
pub fn plain(text: &[u8]) -> Line
    requires { length text.now ≤ 30 }
    ensures text { result.items ≡ text.now }
    ensures len { array_vec_len result ≡ length text.now }
{
    let mut line = ArrayVec::new();
    append(&mut line, text);
    line
}

/// A text followed by a number.
pub fn numbered(before: &[u8], number: u64) -> Line
    requires { length before.now ≤ 30 }
    ensures text { result.items ≡ before.now ++ decimal number }
    ensures short { array_vec_len result ≤ 50 }
{
    let mut line = plain(before);
    append_number(&mut line, number);
    line
}

/// A text with a number in it.
pub fn counted(before: &[u8], number: u32, after: &[u8]) -> Line
    requires before { length before.now ≤ 30 }
    requires after { length after.now ≤ 10 }
    ensures text { result.items ≡ before.now ++ decimal number ++ after.now }
    ensures short { array_vec_len result ≤ 60 }
{
    let mut line = numbered(before, u64::from(number));
    append(&mut line, after);
    line
}

/// A text followed by a place.
pub fn placed(before: &[u8], place: Place) -> Line
    requires { length before.now ≤ 30 }
    ensures text { result.items ≡ before.now ++ place_text place }
    ensures short { array_vec_len result ≤ 71 }
{
    let mut line = plain(before);
    append_place(&mut line, place);
    line
}
