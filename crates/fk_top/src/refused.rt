//! The reports of refusals.

ghost use Rattle.std.specs.Prelude.{◌≡◌};
ghost use Rattle.std.specs.Option.{option_map};
ghost use Rattle.fk_top.specs.Ending.{last_line};
ghost use Rattle.fk_top.specs.Refused.{elf_report_of, image_report_of, input_report_of};
ghost use Rattle.fk_top.specs.Refused.{refusal_line, trace_report_of};

use crate::ending::LastLine;
use crate::reason::Reason;
use crate::report::Report;
use fk_compile_text::Refusal;
use fk_elf::ElfFault;
use fk_image::ImageFault;
use fk_replay_source::ReplayFault;
use fk_top_input::InputFault;

/// The last line where a source is refused. `Memory` is no refusal, and has no line.
pub fn last_line_of<'a>(refusal: Refusal) -> Option<LastLine<'a>>
    ensures { option_map last_line result ≡ refusal_line refusal }
{
    let reason = match refusal {
        Refusal::BadByte(place) => Reason::BadByte(place),
        Refusal::OpenComment(place) => Reason::OpenComment(place),
        Refusal::OpenString(place) => Reason::OpenString(place),
        Refusal::WideNumber(place) => Reason::WideNumber(place),
        Refusal::Unexpected(place) => Reason::Unexpected(place),
        Refusal::EndOfText => Reason::EndOfText,
        Refusal::Nesting(place) => Reason::Nesting(place),
        Refusal::Rule(place, number) => Reason::Rule(place, number),
        Refusal::TooManySites(count) => Reason::TooManySites(count),
        Refusal::FrameTooLarge(name, words) => return Some(LastLine::FrameTooLarge(name, words)),
        Refusal::GlobalsTooLarge(words) => Reason::GlobalsTooLarge(words),
        Refusal::SourceTooLong(bytes) => Reason::SourceTooLong(bytes),
        Refusal::Memory(_) => return None,
    };
    Some(LastLine::Reported(Report::Refused(reason)))
}

/// The report of why bytes are no image. `Memory` has none.
pub fn image_report_of(fault: ImageFault) -> Option<Report>
    ensures { result ≡ image_report_of fault }
{
    let reason = match fault {
        ImageFault::Magic => Reason::Magic,
        ImageFault::Version(version) => Reason::Version(version),
        ImageFault::Short(bytes, wanted) => Reason::Short(bytes, wanted),
        ImageFault::LongTail(wanted) => Reason::LongTail(wanted),
        ImageFault::BadTable(entry) => Reason::BadTable(entry),
        ImageFault::BadWord(word) => Reason::BadWord(word),
        ImageFault::Memory(_) => return None,
    };
    Some(Report::Refused(reason))
}

/// The report of why bytes are the file of no image. `Memory` has none.
pub fn elf_report_of(fault: ElfFault) -> Option<Report>
    ensures { result ≡ elf_report_of fault }
{
    let reason = match fault {
        ElfFault::ElfHeader(offset) => Reason::ElfHeader(offset),
        ElfFault::ElfShort(bytes, wanted) => Reason::ElfShort(bytes, wanted),
        ElfFault::ElfTail(wanted) => Reason::ElfTail(wanted),
        ElfFault::ElfSizes => Reason::ElfSizes,
        ElfFault::ElfTable(entry) => Reason::ElfTable(entry),
        ElfFault::Memory(_) => return None,
    };
    Some(Report::Refused(reason))
}

/// The report of why an input text is refused. `Memory` has none.
pub fn input_report_of(fault: InputFault) -> Option<Report>
    ensures { result ≡ input_report_of fault }
{
    let reason = match fault {
        InputFault::NotANumber(word) => Reason::NotANumber(word),
        InputFault::OutOfRange(word) => Reason::OutOfRange(word),
        InputFault::TooMany(word) => Reason::TooMany(word),
        InputFault::Memory => return None,
    };
    Some(Report::Refused(reason))
}

/// The report of why a trace is refused. `Memory` has none.
pub fn trace_report_of(fault: ReplayFault) -> Option<Report>
    ensures { result ≡ trace_report_of fault }
{
    let reason = match fault {
        ReplayFault::BadTrace(line) => Reason::BadTrace(line),
        ReplayFault::NotPossible(round) => Reason::NotPossible(round),
        ReplayFault::Pace(round, processor) => Reason::Pace(round, processor),
        ReplayFault::Memory => return None,
    };
    Some(Report::Refused(reason))
}
