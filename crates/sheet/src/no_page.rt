// Why a trace has no page.
use std::fmt;
use trace_run::reading::Bad;

// Why a trace has no page: it is longer than a trace may be, or has no record; or its first record is refused, or it cannot be
// read to its end.
#[derive(Clone, Copy, Debug)]
pub enum NoPage {
    TooLong,
    Empty,
    Bad(Bad),
}

impl fmt::Display for NoPage {
    ghost use Rattle.std.specs.Prelude.{Some};
    ghost use Rattle.sheet.specs.NoPage.{no_page_numbers, no_page_text};

    ghost output = { λ why. Some (no_page_text (no_page_numbers why)) };

    fn fmt<W: fmt::Write>(&self, f: &mut fmt::Formatter<W>) -> fmt::Result {
        match self {
            NoPage::TooLong => write!(
                f,
                "too long: there is no page of a trace of more than 65536 bytes"
            ),
            NoPage::Empty => write!(f, "empty: there is no page of a trace without a record"),
            NoPage::Bad(bad) => {
                let number = bad.refusal.number();
                let offset = bad.offset;
                write!(
                    f,
                    "bad {number} at {offset}: there is no page of such a trace"
                )
            }
        }
    }
}
