// Why a call was refused. A refused call has changed nothing.
ghost use Rattle.std.specs.Prelude.{◌≡◌, ◌==◌};
ghost use Rattle.refusals.specs.Refusals.{number_of};

// The refusals, each with the number that the listing prints; the specification says what each means.
#[derive(Clone, Copy, PartialEq, Eq, Debug)]
pub enum Refusal {
    UnknownKind = 1,
    CutShort = 2,
    MalformedTag = 3,
    SettingOutOfRange = 4,
    MisplacedSetUp = 5,
    OtherKeyKind = 6,
    NoSuchNode = 7,
    ReadingOutOfRange = 8,
    ClockFellBack = 9,
    CounterSpent = 10,
    NumberUnderWay = 11,
    TooManyUnderWay = 12,
    NumberNotUnderWay = 13,
    OtherAddressee = 14,
    MessageTooFarAhead = 15,
    StoreFull = 16,
    VersionPresent = 17,
    NotSettled = 18,
    NoRoom = 19,
}

impl Refusal {
    // The number that the listing prints. By a name, since `u64::from(u8::from(refusal))` in a line would say less.
    pub fn number(self) -> u8
        ensures number { result ≡ number_of self }
        ensures equality { (other : Refusal) → ⟦<Refusal as PartialEq>⟧.eq self other ≡ (result == number_of other) }
    {
        self as u8
    }
}
