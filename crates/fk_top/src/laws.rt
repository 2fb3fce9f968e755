//! Laws of the commands, which no code runs.

ghost use Rattle.fk_trace_laws.specs.Traced.{TraceIsLawful};

use fk_trace_laws::laws as traces;

/// The trace of a run of a text's image is a trace text, and a certificate of the run: the rounds
/// that it tells are a lawful schedule of the text's program, and under that schedule the program
/// has the output and the status of the machine. This holds for every image that is faithful to the
/// text, every input, 1 to 1,024 harts, and every bound below 2^32 on the cycles.
pub fn trace_is_lawful()
    ensures { TraceIsLawful }
{
    traces::trace_is_lawful();
}
