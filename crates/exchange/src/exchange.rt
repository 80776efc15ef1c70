// The nodes and the messages between them. Each event but a put stands in a file beside.
ghost use Rattle.std.specs.Prelude.{◌≡◌, ◌<◌, ◌≤◌, length, map, Err, IfOk, IsOk, Ok, OnErr, OnOk, if◌then◌else◌};
ghost use Rattle.exchange.specs.Answers.{clock_answer, enter_answer, own_event};
ghost use Rattle.exchange.specs.Changes.{with_event};
ghost use Rattle.exchange.specs.State.{GoesForward, fresh_exchange, is_node};
ghost use Rattle.messages.specs.Messages.{AreDistinct, message_numbers, most_under_way};
ghost use Rattle.refusals.specs.Refusals.{result_map, shown};
ghost use Rattle.stamper.specs.Readings.{TookReading, WasAsked};
ghost use Rattle.stamper.specs.Settings.{setting_numbers};
ghost use Rattle.stamper.specs.Stamps.{none_below, stamp_at};
ghost use Rattle.stamps.specs.Rules.{stamped_numbers};
ghost use Rattle.stamps.specs.Stamp.{code_of, stamp_code, stamp_of};
ghost use Rattle.store.specs.Page.{after_cut, cut_answer};

use clocks::bank::ClockBank;
use clocks::sample::Sample;
use messages::message::Message;
use messages::messages::Messages;
use refusals::refusal::Refusal;
use stamper::settings::Settings;
use stamper::stamper::Stamper;
use stamps::stamped::Stamped;
use std::marker::Model;

// The nodes of a circuit, and the messages under way between them.
#[derive(Drop)]
pub struct Exchange<B> {
    pub(crate) stamper: Stamper<B>,
    pub(crate) messages: Messages,
}

impl<B> Model for Exchange<B> {
    ghost use Rattle.exchange.specs.State.{ExchangeState};

    ghost Value = { ExchangeState B };

    ghost view = { λ exchange. record {
      lead = exchange.stamper.lead;
      bank = exchange.stamper.bank;
      last = exchange.stamper.last;
      messages = exchange.messages;
    } };
}

impl<B: ClockBank> Exchange<B> {
    // Nodes without any event.
    pub fn new(settings: Settings, bank: B) -> Exchange<B>
        ensures { result ≡ fresh_exchange (setting_numbers settings) bank }
    {
        Exchange {
            stamper: Stamper::new(settings, bank),
            messages: Messages::new(),
        }
    }

    // Refused with 7 where there is no such node.
    pub fn check_node(&self, node: u8) -> Result<(), Refusal>
        ensures { shown result ≡ (if is_node self.now node then Ok tt else Err 7) }
    {
        if self.stamper.has(node) {
            Ok(())
        } else {
            Err(Refusal::NoSuchNode)
        }
    }

    // Whether no node's last stamp is below the code.
    pub fn none_below(&self, code: u64) -> bool
        ensures { result ≡ none_below self.now.last code }
    {
        self.stamper.none_below(code)
    }

    // The stamp of an event behind the node's last one: the clock's refusal, then 10.
    pub fn own(&self, sample: Sample) -> Result<Stamped, Refusal>
        ensures answer { shown (result_map stamped_numbers result) ≡ own_event B.meaning self.now sample }
        ensures later { IfOk result (λ stamped.
            code_of (stamp_at self.now.last sample.node) < stamp_code stamped.stamp) }
    {
        self.stamper.own(sample)
    }

    // An event gets this stamp: its reading is taken, and the stamp is the node's last. Refused with 7, and then as the clock
    // refuses; then nothing changes, nor what the clocks mean.
    pub fn enter(&mut self, sample: Sample, stamped: Stamped) -> Result<(), Refusal>
        ensures answer { shown result ≡ enter_answer B.meaning self.old sample }
        ensures change { OnOk result (self.new
            ≡ with_event self.old sample.node (stamp_of stamped.stamp) self.new.bank self.old.messages) }
        ensures reading { OnOk result (TookReading B.meaning B.beside sample
            (Ok (stamped_numbers stamped)) self.old.bank self.new.bank) }
        ensures refused { OnErr result (self.new ≡ record self.old { bank = self.new.bank }) }
        ensures unmoved { OnErr result (B.meaning self.new.bank ≡ B.meaning self.old.bank) }
        ensures beside { let nodes = length self.old.last in
            WasAsked B.meaning B.beside nodes sample self.old.bank self.new.bank }
    {
        self.stamper.enter(sample, stamped)
    }

    // The same of a stamp that is later than the node's last, where the clock has answered a reading: so nothing refuses it.
    #[tactic(auto, using(crate::proofs::Forward::forward_with_last))]
    pub(crate) fn go_on(&mut self, sample: Sample, stamped: Stamped)
        requires node { sample.node < length self.old.last }
        requires later { code_of (stamp_at self.old.last sample.node) < stamp_code stamped.stamp }
        requires clock { IsOk (clock_answer B.meaning self.old sample) }
        ensures change { self.new
            ≡ with_event self.old sample.node (stamp_of stamped.stamp) self.new.bank self.old.messages }
        ensures reading { TookReading B.meaning B.beside sample
            (Ok (stamped_numbers stamped)) self.old.bank self.new.bank }
        ensures forward { GoesForward self.old.last self.new.last }
    {
        self.enter(sample, stamped).unwrap()
    }

    // Writes the messages under way into the rows, each once, and answers how many. Refused with 19 where there are fewer places,
    // and then none changes; the places behind the last row stay.
    pub fn list_messages(&self, rows: &mut [Message]) -> Result<usize, Refusal>
        ensures answer { shown result ≡ cut_answer self.now.messages (length rows.old) }
        ensures rows { map message_numbers rows.new
            ≡ after_cut self.now.messages (map message_numbers rows.old) }
        ensures distinct { AreDistinct self.now.messages }
        ensures few { length self.now.messages ≤ most_under_way }
    {
        self.messages.list(rows)
    }
}
