// The law of whole runs, said of the answers.
ghost use Rattle.std.specs.Prelude.{◌≡◌, true};
ghost use Rattle.run_laws.specs.InWords.{AnswersKeepLaw, HistoryKeepsLaw, OrdersAreAlike, RunsKeepBeside};

use clocks::bank::ClockBank;
use keys::kind::KeyKind;

// What the promise of `replay` says of any run. Whether its answers keep the law: a stamp is ahead of its clock by at most the
// lead and the backstep, and a read and a cut are right among all versions that were put. Whether each clause of the law holds
// over what the run came to, written out. Whether what every take of the bank keeps stays. And whether two runs of the same
// events in two orders have the same stamps, answers and pages.
pub fn law_in_words<B: ClockBank, K: KeyKind>() -> bool
    ensures answer { result ≡ true }
    ensures answers { AnswersKeepLaw K.cmp B.meaning B.beside }
    ensures law { HistoryKeepsLaw K.cmp B.meaning B.beside }
    ensures beside { RunsKeepBeside K.cmp B.meaning B.beside }
    ensures orders { OrdersAreAlike K.cmp B.meaning B.beside }
{
    true
}
