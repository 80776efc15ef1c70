// What a run consists of.
use clocks::sample::Sample;
use messages::message::Message;
use refusals::refusal::Refusal;
use stamps::stamped::Stamped;
use store::version::Version;

// A question to a recorder. A cut and a list of the messages under way bring the caller's rows, and the answer gives them back.
#[derive(Drop)]
pub enum Question<K> {
    Read { key: K, stamp: u64 },
    Cut { stamp: u64, rows: Vec<Version<K>> },
    UnderWay { rows: Vec<Message> },
}

// A call of an open recorder.
#[derive(Drop)]
pub enum Call<K> {
    Note { sample: Sample },
    Send { sample: Sample, to: u8, number: u32 },
    Receipt { sample: Sample, number: u32 },
    Loss { number: u32 },
    Put { sample: Sample, key: K, value: i32 },
    Ask(Question<K>),
}

// What a call or a question answers.
#[derive(Drop)]
pub enum Answer<K> {
    Event(Result<Stamped, Refusal>),
    Loss(Result<(), Refusal>),
    Read(Result<Option<Version<K>>, Refusal>),
    Cut {
        count: Result<usize, Refusal>,
        rows: Vec<Version<K>>,
    },
    UnderWay {
        count: Result<usize, Refusal>,
        rows: Vec<Message>,
    },
}
