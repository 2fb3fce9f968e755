//! Laws of code that is shown.

ghost use Rattle.fk_lower.specs.Building.{CodeIsBuilt};

/// Code that is shown is added after what is built, its operations numbered from the next site on.
pub fn shown_code_is_built<A>()
    ensures { CodeIsBuilt A }
{}
