// Stores that tell which keys they have.
ghost use Rattle.std.specs.Prelude.{◌≡◌};
ghost use Rattle.store.specs.Contents.{IsSound};
ghost use Rattle.store.specs.Keys.{first_key, next_key};

use crate::version_store::VersionStore;
use keys::kind::KeyKind;

pub trait Listable<K: KeyKind>: VersionStore<K> {
    fn first_key(&self) -> Option<K>
        ensures key { result ≡ first_key (Self.contents self.now).versions }
        ensures sound { IsSound K.cmp (Self.contents self.now) };

    // The first key after this one, which need not be there.
    fn next_key(&self, key: K) -> Option<K>
        ensures { result ≡ next_key K.cmp (Self.contents self.now).versions key };
}
