// The open recorder. Each of its calls stands in a file below.
ghost use Rattle.std.specs.Prelude.{◌≡◌, []};
ghost use Rattle.stamper.specs.Settings.{setting_numbers};
ghost use Rattle.recorder.specs.State.{closed_state, fresh_state};

mod cut;
mod list;
mod loss;
mod note;
mod put;
mod read;
mod receipt;
mod send;

use crate::closed::Closed;
use crate::empty_store::EmptyStore;
use clocks::bank::ClockBank;
use exchange::exchange::Exchange;
use keys::kind::KeyKind;
use stamper::settings::Settings;
use std::marker::{Model, PhantomData};
use store::version_store::VersionStore;

// A recorder that is fed.
#[derive(Drop)]
pub struct Open<B: ClockBank, K: KeyKind, S: VersionStore<K>> {
    exchange: Exchange<B>,
    store: S,
    keys: PhantomData<K>,
}

impl<B: ClockBank, K: KeyKind, S: VersionStore<K>> Model for Open<B, K, S> {
    ghost use Rattle.recorder.specs.State.{IsBehind, State};

    ghost Value = { State B K };

    ghost view = { λ recorder. record {
      lead = recorder.exchange.lead;
      bank = recorder.exchange.bank;
      last = recorder.exchange.last;
      messages = recorder.exchange.messages;
      contents = S.contents recorder.store;
    } };

    ghost invariant = { λ recorder. IsBehind recorder.exchange.last (S.contents recorder.store) };
}

impl<B: ClockBank, K: KeyKind, S: VersionStore<K>> Open<B, K, S> {
    // A recorder without any event.
    pub fn new(settings: Settings, bank: B, store: EmptyStore<K, S>) -> Open<B, K, S>
        ensures fresh { result ≡ fresh_state (setting_numbers settings) bank store }
        ensures empty { result.contents.versions ≡ [] }
    {
        Open {
            exchange: Exchange::new(settings, bank),
            store: store.store,
            keys: PhantomData,
        }
    }
}

impl<B: ClockBank + Drop, K: KeyKind, S: VersionStore<K>> Open<B, K, S> {
    // No node will report any more.
    pub fn close(self) -> Closed<K, S>
        ensures { result ≡ closed_state self }
    {
        Closed::new(self.exchange.close(), self.store)
    }
}
