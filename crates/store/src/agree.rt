// Two stores, asked alike.
ghost use Rattle.std.specs.Prelude.{◌≡◌, ◌↔◌, IsTrue};
ghost use Rattle.store.specs.Answers.{answers_of};

use crate::listable::Listable;
use keys::kind::KeyKind;

// Whether two stores answer every question on this key and stamp alike. Stores of the same contents do, whatever they are.
pub fn agree<K: KeyKind, A: Listable<K>, B: Listable<K>>(a: &A, b: &B, key: K, stamp: u64) -> bool
    ensures answer { IsTrue result ↔ (answers_of K.cmp (A.contents a.now) key stamp
        ≡ answers_of K.cmp (B.contents b.now) key stamp) }
    ensures same_contents { A.contents a.now ≡ B.contents b.now → IsTrue result }
{
    a.count() == b.count()
        && a.capacity() == b.capacity()
        && a.at(key, stamp) == b.at(key, stamp)
        && a.first_key() == b.first_key()
        && a.next_key(key) == b.next_key(key)
}
