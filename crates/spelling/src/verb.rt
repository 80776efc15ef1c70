// The words that say what kind of record a line is.
ghost use Rattle.std.specs.Prelude.{◌≡◌};
ghost use Rattle.spelling.specs.Verbs.{verb_of, verb_text};

// The first word of a line.
#[derive(Clone, Copy, Debug)]
pub(crate) enum Verb {
    SetUp,
    Note,
    Send,
    Receipt,
    Loss,
    Put,
    Read,
}

const VERBS: [Verb; 7] = [
    Verb::SetUp,
    Verb::Note,
    Verb::Send,
    Verb::Receipt,
    Verb::Loss,
    Verb::Put,
    Verb::Read,
];

impl Verb {
    // How it is written.
    fn as_bytes(self) -> &'static [u8]
        ensures { result.now ≡ verb_text self }
    {
        match self {
            Verb::SetUp => b"setup",
            Verb::Note => b"note",
            Verb::Send => b"send",
            Verb::Receipt => b"receipt",
            Verb::Loss => b"loss",
            Verb::Put => b"put",
            Verb::Read => b"read",
        }
    }

    // The one that is written so.
    #[tactic(auto, unfolding(crate::specs::Verbs::verb_of))]
    pub(crate) fn from_word(word: &[u8]) -> Option<Verb>
        ensures { result ≡ verb_of word.now }
    {
        VERBS.iter().copied().find(|verb| verb.as_bytes() == word)
    }
}
