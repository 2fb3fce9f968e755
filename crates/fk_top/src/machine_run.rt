//! A run that can begin.

ghost use Rattle.std.specs.Prelude.{◌≡◌};
ghost use Rattle.fk_machine.specs.View.{machine_of};

use crate::variable::Variable;
use fk_image::Image;
use fk_machine::Machine;

/// What is written of a run.
#[derive(Clone, Copy)]
pub enum RunText<'a> {
    /// What the program prints, followed by the line of a variable, if one is shown.
    Output(Option<Variable<'a>>),
    /// The trace of the run.
    Trace,
}

/// A run that can begin. It has all the memory that it needs.
#[derive(Drop)]
pub struct MachineRun<'a> {
    /// The machine before its first cycle.
    pub machine: Machine,
    /// The image that it runs.
    pub image: Image,
    /// The bound on its cycles.
    pub bound: u32,
    /// What is written of the run.
    pub text: RunText<'a>,
    ghost fresh: { (machine_of machine).begun ≡ 0 },
}
