// Puts.
ghost use Rattle.std.specs.Prelude.{◌≡◌, ◌<◌, length, IsOk, Ok};
ghost use Rattle.recorder.specs.Answers.{clock_answer, put_answer};
ghost use Rattle.recorder.specs.Changes.{after_put};
ghost use Rattle.stamper.specs.Readings.{TookReading};
ghost use Rattle.refusals.specs.Refusals.{result_map, shown};
ghost use Rattle.stamps.specs.Rules.{stamped_numbers};
ghost use Rattle.stamper.specs.Stamps.{stamp_at};
ghost use Rattle.stamps.specs.Stamp.{code_of, stamp_code};

use crate::open::Open;
use clocks::bank::ClockBank;
use clocks::sample::Sample;
use keys::kind::KeyKind;
use refusals::refusal::Refusal;
use stamps::stamped::Stamped;
use store::version::Version;
use store::version_store::VersionStore;

impl<B: ClockBank, K: KeyKind, S: VersionStore<K>> Open<B, K, S> {
    // The put of a value under a key: the store gains a version with the event's stamp.
    pub fn put(&mut self, sample: Sample, key: K, value: i32) -> Result<Stamped, Refusal>
        ensures answer { shown (result_map stamped_numbers result) ≡ put_answer B.meaning self.old sample }
        ensures change { self.new ≡ after_put self.old K.cmp sample key value
            (shown (result_map stamped_numbers result)) self.new.bank }
        ensures reading { TookReading B.meaning B.beside sample (shown (result_map stamped_numbers result))
            self.old.bank self.new.bank }
    {
        self.exchange.check_node(sample.node)?;
        if self.store.count() == self.store.capacity() {
            return Err(Refusal::StoreFull);
        }
        let stamped = self.exchange.own(sample)?;
        self.enter_put(sample, stamped, key, value)?;
        Ok(stamped)
    }

    // A put gets this stamp: the store gains its version, which is never there yet, and the event is entered. Nothing refuses it.
    fn enter_put(
        &mut self,
        sample: Sample,
        stamped: Stamped,
        key: K,
        value: i32,
    ) -> Result<(), Refusal>
        requires node { sample.node < length self.old.last }
        requires later { code_of (stamp_at self.old.last sample.node) < stamp_code stamped.stamp }
        requires room { length self.old.contents.versions < self.old.contents.capacity }
        requires clock { IsOk (clock_answer B.meaning self.old sample) }
        ensures answer { IsOk result }
        ensures change { self.new ≡ after_put self.old K.cmp sample key value
            (Ok (stamped_numbers stamped)) self.new.bank }
        ensures reading { TookReading B.meaning B.beside sample
            (Ok (stamped_numbers stamped)) self.old.bank self.new.bank }
    {
        self.store.add(&Version {
            key,
            stamp: stamped.stamp.code(),
            node: sample.node,
            value,
        })?;
        self.exchange.enter(sample, stamped)
    }
}
