// The plans that traces are made by.

// Where raw numbers come from.
#[derive(Clone, Copy)]
pub enum Clocks {
    // Near the time that goes on.
    Near,
    // The time itself.
    Exact,
    // For some nodes ahead by about the lead.
    Ahead,
    // Behind by about the backstep, now and then.
    Fallen,
    // The ends of their range.
    Extreme,
}

// Where stamp codes come from.
#[derive(Clone, Copy)]
pub enum Codes {
    // Times up to this many milliseconds ago.
    Past(u64),
    // Times near the present.
    Near,
    // The ends of their range.
    Extreme,
}

// What a record is drawn to be.
#[derive(Clone, Copy)]
pub enum Choice {
    Note,
    Send,
    Receipt,
    Loss,
    Put,
    Read,
    SetUp,
}

// How a trace is put together.
#[derive(Clone, Copy)]
pub enum Shape {
    // A set-up, and the records behind.
    Whole,
    // A first record that is refused.
    BadOpening,
    // Cut off at any place.
    Cut,
    // Each kind of record cut off at each place of its body.
    CutRecord,
    // A kind above 8 behind some records.
    UnknownKind,
    // Records with any bytes in their bodies.
    Noise,
    // No bytes at all, or a few.
    Short,
    // As long as a trace may be, of notes.
    Longest,
    // A byte too long, or more.
    TooLong,
}

use Choice::{Loss, Note, Put, Read, Receipt, Send};

#[derive(Clone, Copy)]
pub struct Plan {
    pub name: &'static str,
    pub shape: Shape,
    // How many nodes there are: one of these.
    pub nodes: [u64; 4],
    // How many records, unless the trace is full before.
    pub records: u64,
    // A record is drawn evenly from these.
    pub choices: [Choice; 16],
    // How many keys and message numbers there are.
    pub keys: u64,
    pub messages: u64,
    pub clocks: Clocks,
    pub codes: Codes,
    // The time goes on by less than this at each record.
    pub pace: u64,
    // One field in so many has a value that is out of place.
    pub slips: u64,
    // One key in so many is of the other kind or malformed.
    pub key_slips: u64,
    // One read in so many is asked again.
    pub repeats: u64,
}

// A little of everything.
const MIXED: Plan = Plan {
    name: "mixed",
    shape: Shape::Whole,
    nodes: [1, 2, 4, 16],
    records: 90,
    choices: [
        Note,
        Note,
        Note,
        Send,
        Send,
        Send,
        Receipt,
        Receipt,
        Receipt,
        Loss,
        Put,
        Put,
        Put,
        Read,
        Read,
        Choice::SetUp,
    ],
    keys: 4,
    messages: 12,
    clocks: Clocks::Near,
    codes: Codes::Past(40),
    pace: 8,
    slips: 20,
    key_slips: 20,
    repeats: 6,
};

// Few nodes, keys and times: several versions of a key at one stamp.
const TIES: Plan = Plan {
    name: "ties",
    nodes: [2, 2, 3, 4],
    records: 120,
    choices: [
        Note, Put, Put, Put, Put, Put, Put, Put, Put, Put, Read, Read, Read, Read, Read, Read,
    ],
    keys: 2,
    clocks: Clocks::Exact,
    codes: Codes::Past(8),
    pace: 2,
    slips: 100,
    key_slips: 100,
    ..MIXED
};

// More puts than a store has places.
const FULL_STORE: Plan = Plan {
    name: "full store",
    nodes: [1, 2, 3, 4],
    records: 1_500,
    choices: [
        Put, Put, Put, Put, Put, Put, Put, Put, Put, Put, Put, Put, Put, Put, Put, Read,
    ],
    keys: 300,
    clocks: Clocks::Exact,
    codes: Codes::Past(800),
    pace: 2,
    slips: 80,
    key_slips: 80,
    ..MIXED
};

// More sends than can be under way, with receipts and losses.
const MESSAGES: Plan = Plan {
    name: "messages",
    records: 160,
    choices: [
        Note, Send, Send, Send, Send, Send, Send, Send, Send, Send, Send, Send, Receipt, Receipt,
        Receipt, Loss,
    ],
    messages: 150,
    slips: 60,
    ..MIXED
};

// Messages from clocks that are ahead by about the lead.
const AHEAD: Plan = Plan {
    name: "ahead",
    nodes: [2, 2, 4, 16],
    choices: [
        Note, Note, Send, Send, Send, Send, Receipt, Receipt, Receipt, Receipt, Receipt, Receipt,
        Receipt, Put, Put, Read,
    ],
    messages: 6,
    clocks: Clocks::Ahead,
    pace: 2,
    slips: 100,
    ..MIXED
};

// Messages to and fro while all clocks stand still: stamps of one time, told apart by their counters.
const STILL: Plan = Plan {
    name: "still",
    nodes: [2, 2, 3, 4],
    choices: [
        Note, Send, Send, Send, Send, Send, Send, Receipt, Receipt, Receipt, Receipt, Receipt,
        Receipt, Receipt, Put, Read,
    ],
    clocks: Clocks::Exact,
    pace: 1,
    slips: 100,
    ..MIXED
};

// Clocks that fall back by about the backstep.
const FALLEN: Plan = Plan {
    name: "fallen",
    clocks: Clocks::Fallen,
    pace: 3,
    slips: 200,
    ..MIXED
};

// Raw numbers and stamp codes at the ends of their ranges.
const EXTREMES: Plan = Plan {
    name: "extremes",
    keys: 2,
    clocks: Clocks::Extreme,
    codes: Codes::Extreme,
    ..MIXED
};

// Reads that come again and again until they are settled.
const LATE_READS: Plan = Plan {
    name: "late reads",
    nodes: [1, 2, 3, 4],
    choices: [
        Note, Note, Note, Send, Receipt, Put, Put, Put, Put, Read, Read, Read, Read, Read, Read,
        Read,
    ],
    keys: 2,
    codes: Codes::Near,
    slips: 100,
    key_slips: 100,
    repeats: 2,
    ..MIXED
};

// Keys of the other kind, and tags that are no names.
const KEYS: Plan = Plan {
    name: "keys",
    keys: 30,
    slips: 200,
    key_slips: 3,
    ..MIXED
};

// Records with several faults at once.
const FAULTY: Plan = Plan {
    name: "faulty",
    nodes: [5, 7, 10, 15],
    slips: 4,
    key_slips: 5,
    ..MIXED
};

// One node, which sends to itself.
const ALONE: Plan = Plan {
    name: "alone",
    nodes: [1, 1, 1, 1],
    ..MIXED
};

const SIXTEEN: Plan = Plan {
    name: "sixteen",
    nodes: [16, 16, 16, 16],
    records: 200,
    codes: Codes::Past(200),
    slips: 200,
    ..MIXED
};

const BAD_OPENING: Plan = Plan {
    name: "bad opening",
    shape: Shape::BadOpening,
    records: 8,
    ..MIXED
};

const CUT: Plan = Plan {
    name: "cut",
    shape: Shape::Cut,
    ..MIXED
};

const CUT_RECORD: Plan = Plan {
    name: "cut record",
    shape: Shape::CutRecord,
    records: 8,
    ..MIXED
};

const UNKNOWN_KIND: Plan = Plan {
    name: "unknown kind",
    shape: Shape::UnknownKind,
    records: 8,
    ..MIXED
};

const NOISE: Plan = Plan {
    name: "noise",
    shape: Shape::Noise,
    records: 8,
    ..MIXED
};

const SHORT: Plan = Plan {
    name: "short",
    shape: Shape::Short,
    ..MIXED
};

const LONGEST: Plan = Plan {
    name: "longest",
    shape: Shape::Longest,
    records: 7_000,
    choices: [Note; 16],
    clocks: Clocks::Exact,
    pace: 1,
    slips: 10_000,
    ..MIXED
};

const LONGEST_MIXED: Plan = Plan {
    name: "longest mixed",
    records: 7_000,
    keys: 40,
    messages: 100,
    slips: 200,
    ..MIXED
};

const TOO_LONG: Plan = Plan {
    name: "too long",
    shape: Shape::TooLong,
    ..LONGEST
};

// The plans in turn, those of long traces left out.
static USUAL: [Plan; 24] = [
    MIXED,
    TIES,
    MESSAGES,
    AHEAD,
    FALLEN,
    EXTREMES,
    LATE_READS,
    KEYS,
    FAULTY,
    ALONE,
    SIXTEEN,
    BAD_OPENING,
    CUT,
    CUT_RECORD,
    UNKNOWN_KIND,
    NOISE,
    MIXED,
    TIES,
    MESSAGES,
    STILL,
    FALLEN,
    EXTREMES,
    LATE_READS,
    SHORT,
];

// Those of long traces: each in turn is that of one trace in a hundred.
static LONG: [Plan; 8] = [
    FULL_STORE,
    LONGEST,
    FULL_STORE,
    LONGEST_MIXED,
    FULL_STORE,
    TOO_LONG,
    FULL_STORE,
    FULL_STORE,
];

impl Plan {
    pub fn of(number: usize) -> &'static Plan {
        if number % 100 == 50 {
            &LONG[(number / 100) % 8]
        } else {
            &USUAL[number % 24]
        }
    }
}
