// What an event's stamp is made from.
ghost use Rattle.std.specs.Prelude.{◌≡◌, ◌<◌, length, nat_lt, IfOk, Ok, OnErr, OnOk};
ghost use Rattle.clocks.specs.Bank.{look_answer};
ghost use Rattle.refusals.specs.Refusals.{result_map, shown};
ghost use Rattle.stamper.specs.Readings.{TookReading, WasAsked, at_reading, enter_answer};
ghost use Rattle.stamper.specs.Settings.{setting_numbers};
ghost use Rattle.stamper.specs.Stamps.{fresh_stamping, none_below, stamp_at, with_last};
ghost use Rattle.stamps.specs.Rules.{lead_receipt_answer, own_answer, stamped_numbers};
ghost use Rattle.stamps.specs.Stamp.{code_of, stamp_code, stamp_of};

use crate::last_stamps::LastStamps;
use crate::settings::Settings;
use clocks::bank::ClockBank;
use clocks::sample::Sample;
use refusals::refusal::Refusal;
use stamps::lead::Lead;
use stamps::rules;
use stamps::stamp::Stamp;
use stamps::stamped::Stamped;
use std::marker::Model;

// The clocks of the nodes, their last stamps, and the lead.
#[derive(Drop)]
pub struct Stamper<B> {
    lead: Lead,
    bank: B,
    last: LastStamps,
}

impl<B> Model for Stamper<B> {
    ghost use Rattle.stamper.specs.Stamps.{Stamping};
    ghost use Rattle.stamps.specs.Lead.{lead_of};

    ghost Value = { Stamping B };

    ghost view = { λ stamper. record {
      lead = lead_of stamper.lead;
      bank = stamper.bank;
      last = stamper.last;
    } };
}

impl<B: ClockBank> Stamper<B> {
    // Nodes without any event.
    pub fn new(settings: Settings, bank: B) -> Stamper<B>
        ensures { result ≡ fresh_stamping (setting_numbers settings) bank }
    {
        Stamper {
            lead: settings.lead(),
            bank,
            last: LastStamps::new(settings.nodes()),
        }
    }

    pub fn has(&self, node: u8) -> bool
        ensures { result ≡ nat_lt node (length self.now.last) }
    {
        self.last.has(node)
    }

    // The stamp of an event behind the node's last one: the clock's refusal, then 10.
    pub fn own(&self, sample: Sample) -> Result<Stamped, Refusal>
        ensures answer { shown (result_map stamped_numbers result)
            ≡ at_reading (own_answer (stamp_at self.now.last sample.node))
            (look_answer (B.meaning self.now.bank) sample.node sample.raw.0) }
        ensures later { IfOk result (λ stamped.
            code_of (stamp_at self.now.last sample.node) < stamp_code stamped.stamp) }
    {
        let last = self.last.of(sample.node);
        let reading = self.bank.look(sample)?;
        rules::stamp_own(last, reading)
    }

    // The stamp of the receipt of a message with the stamp `sent`: the clock's refusal, then 15, then 10.
    pub fn receipt(&self, sample: Sample, sent: Stamp) -> Result<Stamped, Refusal>
        ensures answer { shown (result_map stamped_numbers result)
            ≡ at_reading (lead_receipt_answer self.now.lead (stamp_at self.now.last sample.node) (stamp_of sent))
            (look_answer (B.meaning self.now.bank) sample.node sample.raw.0) }
        ensures later { IfOk result (λ stamped.
            code_of (stamp_at self.now.last sample.node) < stamp_code stamped.stamp) }
    {
        let last = self.last.of(sample.node);
        let reading = self.bank.look(sample)?;
        rules::receive(self.lead, last, sent, reading)
    }

    // An event gets this stamp: its reading is taken, and the stamp is the node's last. Refused with 7, and then as the clock
    // refuses; then no last stamp changes, nor what the clocks mean.
    pub fn enter(&mut self, sample: Sample, stamped: Stamped) -> Result<(), Refusal>
        ensures answer { shown result ≡ enter_answer B.meaning self.old sample }
        ensures lead { self.new.lead ≡ self.old.lead }
        ensures reading { OnOk result (TookReading B.meaning B.beside sample
            (Ok (stamped_numbers stamped)) self.old.bank self.new.bank) }
        ensures last { OnOk result (self.new.last
            ≡ with_last sample.node (stamp_of stamped.stamp) self.old.last) }
        ensures refused { OnErr result (self.new.last ≡ self.old.last) }
        ensures unmoved { OnErr result (B.meaning self.new.bank ≡ B.meaning self.old.bank) }
        ensures beside { let nodes = length self.old.last in
            WasAsked B.meaning B.beside nodes sample self.old.bank self.new.bank }
    {
        if !self.has(sample.node) {
            return Err(Refusal::NoSuchNode);
        }
        self.bank.take(sample)?;
        self.last.set(sample.node, stamped.stamp);
        Ok(())
    }

    // Whether no node's last stamp is below the code.
    pub fn none_below(&self, code: u64) -> bool
        ensures { result ≡ none_below self.now.last code }
    {
        self.last.none_below(code)
    }
}
