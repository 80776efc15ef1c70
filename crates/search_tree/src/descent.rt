// Ways down the tree, from the root to where they end.
ghost use Rattle.std.specs.Prelude.{◌≡◌};
ghost use Rattle.store.specs.Keys.{first_key as first_key_of, next_key as next_key_of};
ghost use Rattle.store.specs.Newest.{IsOnlyAnswer, newest, only_of};
ghost use Rattle.store.specs.Versions.{IsSorted, is_up_to as is_up_to_of};
ghost use Rattle.search_tree.specs.Shape.{IsTidy, below, walk};

use crate::Node;
use keys::kind::KeyKind;
use store::version::Version;

// Is it not above this key and stamp?
fn is_up_to<K: KeyKind>(version: &Version<K>, key: K, stamp: u64) -> bool
    ensures { result ≡ is_up_to_of K.cmp key stamp version.now }
{
    (version.key, version.stamp) <= (key, stamp)
}

// The last version not above this key and stamp: the newest, if it is of the key.
pub(crate) fn last_up_to<K: KeyKind>(
    nodes: &[Node<K>],
    root: Option<u16>,
    key: K,
    stamp: u64,
) -> Option<Version<K>>
    requires tidy { IsTidy nodes.now root }
    requires sorted { IsSorted K.cmp (walk (below nodes.now root)) }
    ensures newest { let held = walk (below nodes.now root) in
        only_of K.cmp key result ≡ newest K.cmp held key stamp }
    ensures in_words { let held = walk (below nodes.now root) in
        IsOnlyAnswer held key stamp (only_of K.cmp key result) }
{
    let mut last = None;
    let mut link = root;
    while let Some(place) = link {
        let node = &nodes[place as usize];
        if is_up_to(&node.version, key, stamp) {
            last = Some(node.version);
            link = node.right;
        } else {
            link = node.left;
        }
    }
    last
}

// The first key.
#[tactic(auto, using(crate::proofs::Parting::or_none))]
pub(crate) fn first_key<K: KeyKind>(nodes: &[Node<K>], root: Option<u16>) -> Option<K>
    requires { IsTidy nodes.now root }
    ensures { result ≡ first_key_of (walk (below nodes.now root)) }
{
    let mut first = None;
    let mut link = root;
    while let Some(place) = link {
        let node = &nodes[place as usize];
        first = Some(node.version.key);
        link = node.left;
    }
    first
}

// The first key after this one.
#[tactic(auto, using(crate::proofs::Parting::or_none))]
pub(crate) fn next_key<K: KeyKind>(nodes: &[Node<K>], root: Option<u16>, key: K) -> Option<K>
    requires tidy { IsTidy nodes.now root }
    requires sorted { IsSorted K.cmp (walk (below nodes.now root)) }
    ensures { result ≡ next_key_of K.cmp (walk (below nodes.now root)) key }
{
    let mut next = None;
    let mut link = root;
    while let Some(place) = link {
        let node = &nodes[place as usize];
        if node.version.key > key {
            next = Some(node.version.key);
            link = node.left;
        } else {
            link = node.right;
        }
    }
    next
}
