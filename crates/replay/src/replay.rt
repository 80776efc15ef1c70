// A whole run.
ghost use Rattle.std.specs.Prelude.{◌≡◌, ◌+◌, ◌≤◌, length, vec_len, vec_capacity, IsOk, OnErr, OnOk};
ghost use Rattle.stamper.specs.Settings.{setting_numbers};
ghost use Rattle.recorder.specs.State.{fresh_state};
ghost use Rattle.replay.specs.Calls.{answer_numbers};
ghost use Rattle.replay.specs.Replay.{GainsAnswers};
ghost use Rattle.replay.specs.Runs.{IsCalled};
ghost use Rattle.replay.specs.Within.{GainsEach, GainsRun, WasGiven};

use crate::ask::Asked;
use crate::call::{Answer, Call, Question};
use clocks::bank::ClockBank;
use keys::kind::KeyKind;
use recorder::empty_store::EmptyStore;
use recorder::open::Open;
use stamper::settings::Settings;
use std::alloc::AllocError;
use store::listable::Listable;

// The calls to an open recorder, in order; whether it is closed then; and the questions to it behind that.
#[derive(Drop)]
pub struct Run<K> {
    pub calls: Vec<Call<K>>,
    pub closes: bool,
    pub questions: Vec<Question<K>>,
}

fn apply<B: ClockBank, K: KeyKind, S: Listable<K>>(
    recorder: &mut Open<B, K, S>,
    call: Call<K>,
) -> Answer<K>
    ensures { IsCalled K.cmp B.meaning B.beside recorder.old call (answer_numbers result) recorder.new }
{
    match call {
        Call::Note { sample } => Answer::Event(recorder.note(sample)),
        Call::Send { sample, to, number } => Answer::Event(recorder.send(sample, to, number)),
        Call::Receipt { sample, number } => Answer::Event(recorder.receipt(sample, number)),
        Call::Loss { number } => Answer::Loss(recorder.loss(number)),
        Call::Put { sample, key, value } => Answer::Event(recorder.put(sample, key, value)),
        Call::Ask(question) => recorder.ask(question),
    }
}

// Gives the calls to the recorder one after another, and adds an answer for each.
#[tactic(auto, using(crate::proofs::Gaining::gains_none))]
fn apply_all<B: ClockBank, K: KeyKind, S: Listable<K>>(
    recorder: &mut Open<B, K, S>,
    calls: Vec<Call<K>>,
    answers: &mut Vec<Answer<K>>,
)
    requires { vec_len answers.old + length calls.items ≤ vec_capacity answers.old }
    ensures run { GainsRun K.cmp B.meaning B.beside recorder.old recorder.new calls.items
        answers.old.items answers.new.items }
    ensures len { vec_len answers.new ≡ vec_len answers.old + length calls.items }
    ensures capacity { vec_capacity answers.new ≡ vec_capacity answers.old }
{
    for call in calls {
        answers.push_reserved(apply(recorder, call));
    }
}

// Asks a recorder the questions one after another, and adds an answer for each.
#[tactic(auto, using(crate::proofs::Gaining::gains_nothing))]
fn ask_all<K: KeyKind, R: Asked<K>>(
    recorder: &R,
    questions: Vec<Question<K>>,
    answers: &mut Vec<Answer<K>>,
)
    requires { vec_len answers.old + length questions.items ≤ vec_capacity answers.old }
    ensures capacity { vec_capacity answers.new ≡ vec_capacity answers.old }
    ensures each { GainsEach (R.answer recorder.now) questions.items answers.old.items answers.new.items }
{
    for question in questions {
        answers.push_reserved(recorder.ask(question));
    }
}

// Gives a run to a recorder: the calls, the close, if there is one, and the questions.
fn give<B: ClockBank + Drop, K: KeyKind, S: Listable<K> + Drop>(
    mut recorder: Open<B, K, S>,
    run: Run<K>,
    answers: &mut Vec<Answer<K>>,
)
    requires { vec_len answers.old + (length run.calls.items + length run.questions.items)
        ≤ vec_capacity answers.old }
    ensures capacity { vec_capacity answers.new ≡ vec_capacity answers.old }
    ensures given { WasGiven K.cmp B.meaning B.beside recorder run answers.old.items answers.new.items }
{
    apply_all(&mut recorder, run.calls, answers);
    if run.closes {
        ask_all(&recorder.close(), run.questions, answers);
    } else {
        ask_all(&recorder, run.questions, answers);
    }
}

// A whole run of a fresh recorder: adds an answer to each call, and then to each question, to the list in order. They are the
// answers that the calls and the questions have one after another, and the law of whole runs holds over the history of exactly
// this run. Where the list has no room for the answers and no memory is left for it to grow, nothing is done.
pub fn replay<B: ClockBank + Drop, K: KeyKind, S: Listable<K> + Drop>(
    settings: Settings,
    bank: B,
    store: EmptyStore<K, S>,
    run: Run<K>,
    answers: &mut Vec<Answer<K>>,
) -> Result<(), AllocError>
    ensures replayed { let start = fresh_state (setting_numbers settings) bank store in
        OnOk result (GainsAnswers K.cmp B.meaning B.beside start run answers.old.items answers.new.items) }
    ensures stays { OnErr result (answers.new.items ≡ answers.old.items) }
    ensures no_growth { OnErr result (vec_capacity answers.new ≡ vec_capacity answers.old) }
    ensures room { vec_len answers.old + (length run.calls.items + length run.questions.items)
        ≤ vec_capacity answers.old → IsOk result }
    ensures capacity { vec_capacity answers.old ≤ vec_capacity answers.new }
{
    answers.reserve(run.calls.len() + run.questions.len())?;
    give(Open::new(settings, bank, store), run, answers);
    Ok(())
}
