// The kinds of records.
ghost use Rattle.std.specs.Prelude.{◌≡◌};
ghost use Rattle.std.specs.Option.{ok_or};
ghost use Rattle.refusals.specs.Refusals.{shown};
ghost use Rattle.trace.specs.Kinds.{kind_at, byte_of, body_len_of};

use refusals::refusal::Refusal;

// A kind of record, and the byte that stands for it.
#[derive(Clone, Copy, PartialEq, Eq, Debug)]
pub enum Kind {
    SetUp = 0,
    Note = 1,
    Send = 2,
    Receipt = 3,
    Loss = 4,
    PutPoint = 5,
    PutTag = 6,
    ReadPoint = 7,
    ReadTag = 8,
}

// The kind that a byte stands for, refused where there is none.
impl TryFrom<u8> for Kind {
    type Error = Refusal;

    ghost try_from_gives = { λ byte result. shown result ≡ ok_or (kind_at byte) 1 };

    fn try_from(byte: u8) -> Result<Kind, Refusal> {
        match byte {
            0 => Ok(Kind::SetUp),
            1 => Ok(Kind::Note),
            2 => Ok(Kind::Send),
            3 => Ok(Kind::Receipt),
            4 => Ok(Kind::Loss),
            5 => Ok(Kind::PutPoint),
            6 => Ok(Kind::PutTag),
            7 => Ok(Kind::ReadPoint),
            8 => Ok(Kind::ReadTag),
            _ => Err(Refusal::UnknownKind),
        }
    }
}

// The byte that stands for a kind.
impl From<Kind> for u8 {
    ghost from_gives = { λ kind byte. byte ≡ byte_of kind };

    fn from(kind: Kind) -> u8 {
        kind as u8
    }
}

impl Kind {
    // How many bytes follow the byte of kind.
    pub fn body_len(self) -> usize
        ensures { result ≡ body_len_of self }
    {
        match self {
            Kind::SetUp => 10,
            Kind::Note => 9,
            Kind::Send => 14,
            Kind::Receipt => 13,
            Kind::Loss => 4,
            Kind::PutPoint => 17,
            Kind::PutTag => 29,
            Kind::ReadPoint => 12,
            Kind::ReadTag => 24,
        }
    }
}
