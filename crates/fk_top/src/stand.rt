//! The status and the report for a machine's status.

ghost use Rattle.std.specs.Prelude.{◌≡◌};
ghost use Rattle.fk_top.specs.Outcome.{fault_report, stand_report, status_of};

use crate::kinds::{FaultKind, TrapKind};
use crate::report::Report;
use crate::status::Status;
use fk_image::Image;
use fk_machine::Stand;
use fk_syntax::Place;

/// The status for the status of the machine.
pub fn status_of(stand: Stand) -> Status
    ensures { result ≡ status_of stand }
{
    match stand {
        Stand::Finished => Status::Done,
        Stand::Running => Status::CycleBound,
        Stand::Faulted(_, _) => Status::SourceFault,
        Stand::Trapped(_, _, _) => Status::Trap,
    }
}

/// The report for the status of the machine of an image, after this many cycles of at most `bound`.
pub fn stand_report(image: &Image, bound: u32, stand: Stand, cycles: u32) -> Report
    ensures { result ≡ stand_report image.now bound stand cycles }
{
    match stand {
        Stand::Finished => Report::Finished(cycles),
        Stand::Running => Report::Stopped(bound),
        Stand::Faulted(site, processor) => {
            let site = image.sites.get(site as usize).copied();
            fault_report(site, processor, cycles)
        }
        Stand::Trapped(hart, pc, number) => Report::Trap {
            kind: TrapKind::of_number(number),
            pc,
            hart,
            cycles,
        },
    }
}

/// The report of a fault at a site, given its kind, line and column. If there is no such site, the
/// place is 0:0.
pub fn fault_report(site: Option<(u32, u32, u32)>, processor: u32, cycles: u32) -> Report
    ensures { result ≡ fault_report site processor cycles }
{
    let (kind, line, column) = site.unwrap_or((0, 0, 0));
    Report::Fault {
        kind: FaultKind::of_site(kind),
        place: Place { line, column },
        processor,
        cycles,
    }
}
