// The stamp rules of a hybrid logical clock. A node's last stamp, a message's stamp and a reading come from three places, and
// are three parameters.
ghost use Rattle.std.specs.Prelude.{◌≡◌};
ghost use Rattle.clocks.specs.Reading.{millis_of};
ghost use Rattle.refusals.specs.Refusals.{result_map, shown};
ghost use Rattle.stamps.specs.Lead.{lead_of};
ghost use Rattle.stamps.specs.Rules.{lead_receipt_answer, stamped_numbers, own_answer, receipt_answer};
ghost use Rattle.stamps.specs.Stamp.{stamp_of};

use crate::lead::Lead;
use crate::stamp::Stamp;
use crate::stamped::Stamped;
use clocks::reading::Reading;
use refusals::refusal::Refusal;

// An event that comes behind the stamp `last`, as a note, send or put does behind its node's last one: refused with 10 where
// the counter would be 65536.
pub fn stamp_own(last: Stamp, reading: Reading) -> Result<Stamped, Refusal>
    ensures { shown (result_map stamped_numbers result) ≡ own_answer (stamp_of last) (millis_of reading) }
{
    let time = last.time.max(reading.millis());
    let counter = if time == last.time {
        last.counter.checked_add(1).ok_or(Refusal::CounterSpent)?
    } else {
        0
    };
    Ok(Stamped {
        stamp: Stamp { time, counter },
        drift: time - reading.millis(),
    })
}

// The receipt of a message with the stamp `sent`, which counts on from the later of the two stamps.
pub fn stamp_receipt(last: Stamp, sent: Stamp, reading: Reading) -> Result<Stamped, Refusal>
    ensures { shown (result_map stamped_numbers result)
        ≡ receipt_answer (stamp_of last) (stamp_of sent) (millis_of reading) }
{
    stamp_own(last.max(sent), reading)
}

// The receipt of a message that may be ahead of the reading by the lead: refused with 15 beyond it, then with 10.
pub fn receive(lead: Lead, last: Stamp, sent: Stamp, reading: Reading) -> Result<Stamped, Refusal>
    ensures { shown (result_map stamped_numbers result)
        ≡ lead_receipt_answer (lead_of lead) (stamp_of last) (stamp_of sent) (millis_of reading) }
{
    if lead.is_exceeded(sent, reading) {
        return Err(Refusal::MessageTooFarAhead);
    }
    stamp_receipt(last, sent, reading)
}
