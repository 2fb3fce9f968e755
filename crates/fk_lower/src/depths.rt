//! The depths of a list.

ghost use Rattle.std.specs.Prelude.{◌≡◌, map};
ghost use Rattle.fk_lower.specs.Depths as d;

use fk_core::CoreOp;

// The number of values that the running call has before the operation of a site, and 0 if none is
// given.
fn depth_at(depths: &[u32], site: u32) -> u32
    ensures { result ≡ d.depth_at depths.now site }
{
    match depths.get(site as usize) {
        Some(depth) => *depth,
        None => 0,
    }
}

// Gives each operation of a list the depth of its site.
pub(crate) fn tell(ops: &mut [CoreOp], depths: &[u32])
    ensures { ops.new ≡ map (d.told depths.now) ops.old }
{
    for op in ops.iter_mut() {
        op.depth = depth_at(depths, op.site);
    }
}
