// Reads, and what may be answered.
ghost use Rattle.std.specs.Prelude.{◌≡◌, Err, Ok, OnOk, if◌then◌else◌};
ghost use Rattle.recorder.specs.Answers.{read_answer};
ghost use Rattle.recorder.specs.State.{is_settled};
ghost use Rattle.store.specs.Newest.{IsOnlyAnswer, newest};
ghost use Rattle.refusals.specs.Refusals.{shown};

use crate::open::Open;
use clocks::bank::ClockBank;
use keys::kind::KeyKind;
use refusals::refusal::Refusal;
use store::version::Version;
use store::version_store::VersionStore;

impl<B: ClockBank, K: KeyKind, S: VersionStore<K>> Open<B, K, S> {
    // The version of the key with the largest stamp not above this one, the higher node among equal stamps. Refused with 18 where
    // some node's last stamp is below it, since the answer could still change.
    pub fn read(&self, key: K, stamp: u64) -> Result<Option<Version<K>>, Refusal>
        ensures answer { shown result ≡ read_answer K.cmp (is_settled self.now) self.now.contents key stamp }
        ensures in_words { let all = self.now.contents.versions in
            OnOk result (IsOnlyAnswer all key stamp (newest K.cmp all key stamp)) }
    {
        self.check_settled(stamp)?;
        Ok(self.store.at(key, stamp))
    }

    // Refused with 18 where some node's last stamp is below this one.
    pub(super) fn check_settled(&self, stamp: u64) -> Result<(), Refusal>
        ensures { shown result ≡ (if is_settled self.now stamp then Ok tt else Err 18) }
    {
        if self.exchange.none_below(stamp) {
            Ok(())
        } else {
            Err(Refusal::NotSettled)
        }
    }
}
