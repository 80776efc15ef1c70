// Any sequence of takes, and its law.
ghost use Rattle.std.specs.Prelude.{◌≡◌, ◌+◌, ◌≤◌, length, vec_len, vec_capacity, IsOk, OnErr, OnOk};
ghost use Rattle.clocks.specs.Runs.{TookAll};

use crate::bank::ClockBank;
use crate::reading::Reading;
use crate::sample::Sample;
use refusals::refusal::Refusal;
use std::alloc::AllocError;

// Takes a reading for each sample in turn, and adds the answers to a list in the same order. Where the list has no room for
// them and no memory is left for it to grow, nothing is taken or added.
pub fn take_all<B: ClockBank>(
    bank: &mut B,
    samples: &[Sample],
    answers: &mut Vec<Result<Reading, Refusal>>,
) -> Result<(), AllocError>
    ensures taken { let took = TookAll B.meaning B.beside bank.old bank.new in
        OnOk result (took samples.now answers.old.items answers.new.items) }
    ensures bank_stays { OnErr result (bank.new ≡ bank.old) }
    ensures answers_stay { OnErr result (answers.new.items ≡ answers.old.items) }
    ensures no_growth { OnErr result (vec_capacity answers.new ≡ vec_capacity answers.old) }
    ensures capacity { vec_capacity answers.old ≤ vec_capacity answers.new }
    ensures room { vec_len answers.old + length samples.now ≤ vec_capacity answers.old → IsOk result }
{
    answers.reserve(samples.len())?;
    for sample in samples {
        answers.push_reserved(bank.take(*sample));
    }
    Ok(())
}
