// The chain of the places that hold no version.
ghost use Rattle.std.specs.Prelude.{◌≤◌, length, None};
ghost use Rattle.search_tree.specs.Tree.{IsTree};

use crate::Node;
use keys::kind::KeyKind;

// Chains all nodes by their right links, and gives the first.
#[tactic(auto, using(crate::proofs::Chaining::chain_more))]
pub(crate) fn chain_all<K: KeyKind>(nodes: &mut [Node<K>]) -> Option<u16>
    requires { length nodes.old ≤ 65535 }
    ensures { IsTree nodes.new None result 0 }
{
    let mut free = None;
    for (place, node) in nodes.iter_mut().enumerate() {
        node.left = None;
        node.right = free;
        free = Some(place as u16);
    }
    free
}
