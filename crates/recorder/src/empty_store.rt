// A store that is fit to be recorded into.
ghost use Rattle.std.specs.Prelude.{◌≡◌};
ghost use Rattle.refusals.specs.Refusals.{result_map, shown};

use keys::kind::KeyKind;
use refusals::refusal::Refusal;
use std::marker::{Model, PhantomData};
use store::version_store::VersionStore;

// A store that has no version yet.
#[derive(Drop)]
pub struct EmptyStore<K: KeyKind, S: VersionStore<K>> {
    pub(crate) store: S,
    keys: PhantomData<K>,
}

impl<K: KeyKind, S: VersionStore<K>> Model for EmptyStore<K, S> {
    ghost use Rattle.std.specs.Prelude.{◌≡◌, []};
    ghost use Rattle.store.specs.Contents.{Contents};

    ghost Value = { Contents K };

    ghost view = { λ s. S.contents s.store };

    ghost invariant = { λ s. (S.contents s.store).versions ≡ [] };
}

impl<K: KeyKind, S: VersionStore<K> + Drop> EmptyStore<K, S> {
    ghost use Rattle.recorder.specs.State.{empty_answer};

    // Refused with 4 where the store has a version.
    pub fn new(store: S) -> Result<EmptyStore<K, S>, Refusal>
        ensures { shown result ≡ empty_answer (S.contents store) }
    {
        if store.count() > 0 {
            return Err(Refusal::SettingOutOfRange);
        }
        Ok(EmptyStore {
            store,
            keys: PhantomData,
        })
    }
}
