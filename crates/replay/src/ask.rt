// Questions to a recorder, open or closed.
ghost use Rattle.std.specs.Prelude.{◌≡◌, true};
ghost use Rattle.recorder.specs.State.{is_settled};
ghost use Rattle.replay.specs.Calls.{AnswerNumbers, answer_numbers, question_answer};
ghost use Rattle.replay.specs.declared.call.Question.{Question};

use crate::call::{Answer, Question};
use clocks::bank::ClockBank;
use keys::kind::KeyKind;
use recorder::closed::Closed;
use recorder::open::Open;
use store::listable::Listable;

pub(crate) trait Asked<K: KeyKind> {
    ghost answer: { Self → Question K → AnswerNumbers K };

    fn ask(&self, question: Question<K>) -> Answer<K>
        ensures { answer_numbers result ≡ answer self.now question };
}

impl<B: ClockBank, K: KeyKind, S: Listable<K>> Asked<K> for Open<B, K, S> {
    ghost answer = { λ s question. question_answer K.cmp (is_settled s) s.contents s.messages question };

    fn ask(&self, question: Question<K>) -> Answer<K>
        ensures { answer_numbers result ≡ question_answer K.cmp (is_settled self.now)
            self.now.contents self.now.messages question }
    {
        match question {
            Question::Read { key, stamp } => Answer::Read(self.read(key, stamp)),
            Question::Cut { stamp, mut rows } => {
                let count = self.cut(stamp, &mut rows);
                Answer::Cut { count, rows }
            }
            Question::UnderWay { mut rows } => {
                let count = self.list_messages(&mut rows);
                Answer::UnderWay { count, rows }
            }
        }
    }
}

impl<K: KeyKind, S: Listable<K>> Asked<K> for Closed<K, S> {
    ghost answer = { λ s question. question_answer K.cmp (λ _. true) s.contents s.messages question };

    fn ask(&self, question: Question<K>) -> Answer<K>
        ensures { answer_numbers result ≡ question_answer K.cmp (λ _. true)
            self.now.contents self.now.messages question }
    {
        match question {
            Question::Read { key, stamp } => Answer::Read(Ok(self.read(key, stamp))),
            Question::Cut { stamp, mut rows } => {
                let count = self.cut(stamp, &mut rows);
                Answer::Cut { count, rows }
            }
            Question::UnderWay { mut rows } => {
                let count = self.list_messages(&mut rows);
                Answer::UnderWay { count, rows }
            }
        }
    }
}
