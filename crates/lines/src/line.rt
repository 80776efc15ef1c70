// What a line is made of.
ghost use Rattle.std.specs.Prelude.{◌≡◌};
ghost use Rattle.lines.specs.Lines.{word_text};

// The words that stand in a line.
#[derive(Clone, Copy, PartialEq, Eq, Debug)]
pub enum Word {
    SetUp,
    Note,
    Send,
    Receipt,
    Loss,
    Put,
    Read,
    Drift,
    Nothing,
    Refused,
    Bad,
    At,
    End,
    TooLong,
}

impl Word {
    // By the library's name for it.
    pub fn as_str(self) -> &'static str
        ensures { result.now ≡ word_text self }
    {
        match self {
            Word::SetUp => "setup",
            Word::Note => "note",
            Word::Send => "send",
            Word::Receipt => "receipt",
            Word::Loss => "loss",
            Word::Put => "put",
            Word::Read => "read",
            Word::Drift => "drift",
            Word::Nothing => "none",
            Word::Refused => "refused",
            Word::Bad => "bad",
            Word::At => "at",
            Word::End => "end",
            Word::TooLong => "too long",
        }
    }
}

// What stands between two spaces of a line.
#[derive(Clone, Copy, PartialEq, Eq, Debug)]
pub enum Piece {
    Word(Word),
    Number(u64),
    Signed(i32),
    // A stamp's code, which is printed as time.counter.
    Stamp(u64),
}

// What stands in a place of an `ArrayVec` that is free.
impl Default for Piece {
    ghost use Rattle.lines.specs.declared.line.Piece.TheVariants.{Number};

    ghost is_default = { λ piece. piece ≡ Number 0 };

    fn default() -> Piece {
        Piece::Number(0)
    }
}
