//! The law of rounds in which several nodes step.

ghost use Rattle.fk_lockstep_nodes.specs.Steps.{RoundsStepNodes};

/// Behind a round each node is what its own members made of it, whatever others do: it is as it
/// was, turned, smaller, ended, or divided into parts with numbers of their own. Each processor is
/// where the step of its node leads it.
pub fn rounds_step_nodes<W>()
    ensures { RoundsStepNodes W }
{}
