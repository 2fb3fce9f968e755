//! Why a file or an input text is refused.

ghost use Rattle.std.specs.Prelude.{◌≡◌, ◌≤◌, ◌++◌, codes, length};
ghost use Rattle.std.specs.Fmt.{decimal};
ghost use Rattle.arrayvec.specs.ArrayVec.{array_vec_len};
ghost use Rattle.fk_top.specs.declared.reason.Reason.TheVariants as reasons;
ghost use Rattle.fk_top.specs.Report.{reason_text};

use crate::line::{Line, append, append_number, append_place, numbered, placed, plain};
use fk_syntax::Place;

/// Why a file or an input text is refused. The refusals that have a name in their line,
/// `FrameTooLarge` and `NoGlobal`, are in `LastLine`.
#[derive(Clone, Copy, PartialEq, Eq, Debug)]
pub enum Reason {
    /// A byte of the source begins no token.
    BadByte(Place),
    /// A comment isn't closed.
    OpenComment(Place),
    /// A text in quotes isn't closed.
    OpenString(Place),
    /// A number is above 2^32 - 1.
    WideNumber(Place),
    /// No program goes on with this token.
    Unexpected(Place),
    /// The text ends before its program does.
    EndOfText,
    /// A token opens one level too many.
    Nesting(Place),
    /// The source breaks a rule of the language: the place, and the number of the rule.
    Rule(Place, u8),
    /// The source has this many operations, more than 16,000.
    TooManySites(u64),
    /// The shared variables of file scope have this many words, more than 524,288.
    GlobalsTooLarge(u64),
    /// The source has more than 1,048,576 bytes. This many were read.
    SourceTooLong(u64),
    /// The bytes of the image don't begin as those of one.
    Magic,
    /// The image has this version, which isn't known.
    Version(u32),
    /// The image has this many bytes, fewer than it needs, which is the second number.
    Short(u64, u64),
    /// Bytes follow the image, which needs this many.
    LongTail(u64),
    /// This entry of the image's tables is past its limits.
    BadTable(u32),
    /// This word of the image's header is past its limits.
    BadWord(u32),
    /// This word of the input isn't a number.
    NotANumber(u32),
    /// This word of the input is no number of 32 bits.
    OutOfRange(u32),
    /// This word of the input is one too many; or, as 0, the input text is too long.
    TooMany(u32),
    /// No trace text goes on with this line.
    BadTrace(u64),
    /// This round of the trace isn't possible.
    NotPossible(u32),
    /// In the 256 rounds up to this one this processor could act, and is in none of them.
    Pace(u32, u32),
    /// This byte of the ELF file isn't that of the headers which its own sizes demand.
    ElfHeader(u32),
    /// The ELF file has this many bytes, fewer than it needs, which is the second number.
    ElfShort(u64, u64),
    /// Bytes follow the ELF file, which needs this many.
    ElfTail(u64),
    /// The numbers of sites and commits don't fit their part of the ELF file.
    ElfSizes,
    /// This entry of the ELF file's tables is past its limits.
    ElfTable(u32),
}

impl Reason {
    /// The line of the refusal without its newline.
    pub fn text(&self) -> Line
        ensures text { result.items ≡ reason_text self.now }
        ensures short { array_vec_len result ≤ 95 }
    {
        match *self {
            Reason::BadByte(place) => placed(b"refused 1 BadByte at ", place),
            Reason::OpenComment(place) => placed(b"refused 2 OpenComment at ", place),
            Reason::OpenString(place) => placed(b"refused 3 OpenString at ", place),
            Reason::WideNumber(place) => placed(b"refused 4 WideNumber at ", place),
            Reason::Unexpected(place) => placed(b"refused 5 Unexpected at ", place),
            Reason::EndOfText => plain(b"refused 6 EndOfText"),
            Reason::Nesting(place) => placed(b"refused 7 Nesting at ", place),
            Reason::Rule(place, number) => rule_text(place, number),
            Reason::TooManySites(count) => numbered(b"refused 9 TooManySites ", count),
            Reason::GlobalsTooLarge(words) => numbered(b"refused 11 GlobalsTooLarge ", words),
            Reason::SourceTooLong(bytes) => numbered(b"refused 12 SourceTooLong ", bytes),
            Reason::Magic => plain(b"refused 13 Magic"),
            Reason::Version(version) => numbered(b"refused 14 Version ", u64::from(version)),
            Reason::Short(bytes, wanted) => paired(b"refused 15 Short ", bytes, wanted),
            Reason::LongTail(wanted) => numbered(b"refused 16 LongTail ", wanted),
            Reason::BadTable(entry) => numbered(b"refused 17 BadTable ", u64::from(entry)),
            Reason::BadWord(word) => numbered(b"refused 18 BadWord ", u64::from(word)),
            Reason::NotANumber(word) => numbered(b"refused 19 NotANumber ", u64::from(word)),
            Reason::OutOfRange(word) => numbered(b"refused 20 OutOfRange ", u64::from(word)),
            Reason::TooMany(word) => numbered(b"refused 21 TooMany ", u64::from(word)),
            Reason::BadTrace(line) => numbered(b"refused 24 BadTrace ", line),
            Reason::NotPossible(round) => numbered(b"refused 25 NotPossible ", u64::from(round)),
            Reason::Pace(round, processor) => {
                paired(b"refused 26 Pace ", u64::from(round), u64::from(processor))
            }
            Reason::ElfHeader(offset) => numbered(b"refused 27 ElfHeader ", u64::from(offset)),
            Reason::ElfShort(bytes, wanted) => paired(b"refused 28 ElfShort ", bytes, wanted),
            Reason::ElfTail(wanted) => numbered(b"refused 29 ElfTail ", wanted),
            Reason::ElfSizes => plain(b"refused 30 ElfSizes"),
            Reason::ElfTable(entry) => numbered(b"refused 31 ElfTable ", u64::from(entry)),
        }
    }
}

// The text of a rule that a source breaks.
fn rule_text(place: Place, number: u8) -> Line
    ensures text { result.items ≡ reason_text (reasons.Rule place number) }
    ensures short { array_vec_len result ≤ 95 }
{
    let mut line = numbered(b"refused 8 Rule ", u64::from(number));
    append(&mut line, b" at ");
    append_place(&mut line, place);
    line
}

// A text followed by two numbers.
fn paired(before: &[u8], first: u64, second: u64) -> Line
    requires { length before.now ≤ 30 }
    ensures text { result.items ≡ before.now ++ decimal first ++ codes " " ++ decimal second }
    ensures short { array_vec_len result ≤ 71 }
{
    let mut line = numbered(before, first);
    append(&mut line, b" ");
    append_number(&mut line, second);
    line
}
