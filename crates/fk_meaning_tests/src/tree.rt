ghost use Rattle.std.specs.Prelude.{◌≡◌};
ghost use Rattle.fk_tree.specs.Tree as t;
ghost use Rattle.fk_tree.specs.View.{tree_of, processors};

use fk_tree::Tree;
use std::alloc::{AllocError, Global};
use std::process::Abort;

// Starts the seven processors of a tree, and splits their group into three parts by the remainder.
// Returns the group and the first part.
fn split_by_rest(alloc: Global, tree: &mut Tree) -> Result<(u64, u64), AllocError>
    requires root { tree_of tree.old ≡ t.root 7 }
    requires seven { processors tree.old ≡ 7 }
    ensures { processors tree.new ≡ 7 }
{
    let group = tree.begin(alloc, 7)?;
    let first = tree.split(alloc, group, 3, &[0, 1, 2, 0, 1, 2, 0])?;
    Ok((group, first))
}

// Checks the members of a node.
pub(crate) fn has_members(rt: &impl Abort, tree: &Tree, node: u64, members: &[u32]) {
    assert!(rt; tree.members(node) == members, "{node}");
}

// Nodes and their members.
static MEMBERS: [(u64, &[u32]); 3] = [(2, &[0, 3, 6]), (3, &[1, 4]), (4, &[2, 5])];

// Processors, and the node of each.
static PLACES: [(u32, u64); 3] = [(6, 2), (4, 3), (5, 4)];

// Checks that the members of the parts are at their nodes.
fn is_split(rt: &impl Abort, tree: &Tree)
    requires seven { processors tree.now ≡ 7 }
{
    for (processor, node) in &PLACES {
        assert!(rt;
            *processor < 7 && tree.node_of(*processor) == *node,
            "{processor}"
        );
    }
}

// The tree of `start fork (3; @=$%3; $=$/3) ..` on seven processors. Each part has the processors
// whose number has the part's number as its remainder, so that the sizes of the parts are 3, 2 and
// 2.
#[test]
fn a_group_is_split_by_the_rest(rt: HostRuntime) -> Result<(), AllocError> {
    let mut tree = Tree::root(rt.alloc(), 7)?;
    has_members(&rt, &tree, 0, &[0, 1, 2, 3, 4, 5, 6]);
    assert!(rt; tree.node_of(6) == 0);
    let (group, first) = split_by_rest(rt.alloc(), &mut tree)?;
    assert!(rt; group == 1 && first == 2 && tree.given() == 5 && !tree.ready(group));
    is_split(&rt, &tree);
    for (node, members) in &MEMBERS {
        has_members(&rt, &tree, *node, members);
    }
    Ok(())
}
