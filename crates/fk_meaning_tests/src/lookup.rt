use fk_layout_lookup::Lookup;
use fk_layout_walk::ProgramTables;
use std::test::Fail;

// The lookup tables of an empty text are made if there is enough memory.
#[test]
fn a_text_of_nothing_is_looked_up(rt: HostRuntime) -> Result<(), Fail> {
    let known = ProgramTables {
        notes: &[],
        kinds: &[],
        slots: &[],
        regions: &[],
        items: &[],
        callees: &[],
        framed: &[],
    };
    let _lookup = Lookup::of(rt.alloc(), &known)?;
    Ok(())
}
