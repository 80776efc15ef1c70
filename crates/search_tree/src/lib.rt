// The search tree: versions in a binary search tree in nodes that the caller lends.
#![tactic(auto)]

ghost use Rattle.std.specs.Prelude.{◌≡◌, length, None};
ghost use Rattle.refusals.specs.Refusals.{result_map, shown};
ghost use Rattle.store.specs.Contents.{made_answer, most_places};

use crate::hanging::Links;
use keys::kind::KeyKind;
use refusals::refusal::Refusal;
use std::marker::Model;
use store::listable::Listable;
use store::version::Version;
use store::version_store::{MAX_PLACES, VersionStore};

mod chain;
mod descent;
mod hanging;

// A place for one version, with links to what hangs left and right of it.
#[derive(Clone, Copy)]
pub struct Node<K> {
    version: Version<K>,
    left: Option<u16>,
    right: Option<u16>,
}

impl<K: KeyKind> Node<K> {
    // A node with no links, to be lent. The tree holds no version of it until one is added.
    pub fn new(version: Version<K>) -> Node<K>
        ensures { result ≡ record { version = version; left = None; right = None } }
    {
        Node {
            version,
            left: None,
            right: None,
        }
    }
}

// A binary search tree of versions in the caller's nodes. The nodes that hold no version form a chain by their right links.
#[derive(Drop)]
pub struct SearchTree<'a, K: KeyKind> {
    nodes: &'a mut [Node<K>],
    len: usize,
    root: Option<u16>,
    free: Option<u16>,
}

impl<'a, K: KeyKind> Model for SearchTree<'a, K> {
    ghost use Rattle.store.specs.Contents.{Contents, IsSound};

    ghost Value = { Contents K };

    ghost use Rattle.search_tree.specs.Tree.{contents_of, IsTree};

    ghost view = { contents_of };

    ghost invariant = { λ t. IsTree t.nodes.now t.root t.free t.len × IsSound K.cmp (contents_of t) };
}

impl<'a, K: KeyKind> SearchTree<'a, K> {
    // An empty tree in these nodes, as many as its capacity: refused with 4 where there are more than 65,535.
    #[tactic(auto, using(crate::proofs::Answering::sound_made, crate::proofs::Answering::answer_made))]
    pub fn new(nodes: &'a mut [Node<K>]) -> Result<SearchTree<'a, K>, Refusal>
        ensures made { shown (result_map (⟦<SearchTree<'a, K> as VersionStore<K>>⟧.contents) result)
            ≡ made_answer (length nodes.old) }
        ensures most { MAX_PLACES ≡ most_places }
    {
        if nodes.len() > MAX_PLACES {
            return Err(Refusal::SettingOutOfRange);
        }
        let free = chain::chain_all(nodes);
        Ok(SearchTree {
            nodes,
            len: 0,
            root: None,
            free,
        })
    }
}

impl<'a, K: KeyKind> VersionStore<K> for SearchTree<'a, K> {
    ghost contents = { λ s. s };

    fn add(&mut self, version: &Version<K>) -> Result<(), Refusal> {
        let Links { root, free } = hanging::hang(self.nodes, self.root, self.free, version)?;
        self.root = root;
        self.free = free;
        self.len += 1;
        Ok(())
    }

    fn at(&self, key: K, stamp: u64) -> Option<Version<K>> {
        let last = descent::last_up_to(self.nodes, self.root, key, stamp)?;
        (last.key == key).then_some(last)
    }

    #[tactic(auto, using(crate::proofs::Walking::length_walk))]
    fn count(&self) -> usize {
        self.len
    }

    fn capacity(&self) -> usize {
        self.nodes.len()
    }
}

impl<'a, K: KeyKind> Listable<K> for SearchTree<'a, K> {
    fn first_key(&self) -> Option<K> {
        descent::first_key(self.nodes, self.root)
    }

    fn next_key(&self, key: K) -> Option<K> {
        descent::next_key(self.nodes, self.root, key)
    }
}
