// What every version store does.
ghost use Rattle.std.specs.Prelude.{◌≡◌, length};
ghost use Rattle.refusals.specs.Refusals.{shown};
ghost use Rattle.store.specs.Contents.{Contents, IsSound, add_answer, after_add};
ghost use Rattle.store.specs.Newest.{IsOnlyAnswer, newest};

use crate::version::Version;
use keys::kind::KeyKind;
use refusals::refusal::Refusal;

// The most places that a store takes from its caller.
pub const MAX_PLACES: usize = 65_535;

// A set of versions of keys of one kind, of a fixed capacity.
pub trait VersionStore<K: KeyKind> {
    ghost contents: { Self → Contents K };

    // Refused with 17 where the version's key, stamp and node are there, then with 16 where the store is full; else the store
    // gains the version.
    fn add(&mut self, version: &Version<K>) -> Result<(), Refusal>
        ensures answer { shown result ≡ add_answer K.cmp (contents self.old) version.now }
        ensures change { contents self.new ≡ after_add K.cmp (contents self.old) version.now }
        ensures sound { IsSound K.cmp (contents self.new) };

    // The version of the key with the largest stamp not above this one, the higher node among equal stamps.
    fn at(&self, key: K, stamp: u64) -> Option<Version<K>>
        ensures newest { result ≡ newest K.cmp (contents self.now).versions key stamp }
        ensures in_words { IsOnlyAnswer (contents self.now).versions key stamp result };

    // How many versions there are. They stand in order, and are no more than the capacity.
    fn count(&self) -> usize
        ensures count { result ≡ length (contents self.now).versions }
        ensures sound { IsSound K.cmp (contents self.now) };

    fn capacity(&self) -> usize
        ensures { result ≡ (contents self.now).capacity };
}
