// Stamps, and the stamp that an event gets.

#[derive(Clone, Copy, PartialEq, Eq)]
pub struct Stamp {
    pub time: u64,
    pub counter: u64,
}

// The stamp of a node that has none.
pub const ZERO: Stamp = Stamp {
    time: 0,
    counter: 0,
};

const HIGHEST_COUNTER: u64 = 65_535;

const COUNTERS: u64 = 65_536;

impl Stamp {
    pub fn code(&self) -> u64 {
        self.time
            .saturating_mul(COUNTERS)
            .saturating_add(self.counter)
    }

    pub fn drift(&self, reading: u64) -> u64 {
        self.time.saturating_sub(reading)
    }
}

fn counted(time: u64, counter: u64) -> Result<Stamp, u8> {
    if counter > HIGHEST_COUNTER {
        Err(10)
    } else {
        Ok(Stamp { time, counter })
    }
}

// The stamp of a note, a send or a put.
pub fn own_stamp(last: Stamp, reading: u64) -> Result<Stamp, u8> {
    let time = last.time.max(reading);
    let counter = if time == last.time {
        last.counter.saturating_add(1)
    } else {
        0
    };
    counted(time, counter)
}

// The stamp of a receipt.
pub fn receipt_stamp(last: Stamp, message: Stamp, reading: u64, lead: u64) -> Result<Stamp, u8> {
    if message.time > reading.saturating_add(lead) {
        return Err(15);
    }
    let time = last.time.max(message.time).max(reading);
    let counter = match (time == last.time, time == message.time) {
        (true, true) => last.counter.max(message.counter).saturating_add(1),
        (true, false) => last.counter.saturating_add(1),
        (false, true) => message.counter.saturating_add(1),
        (false, false) => 0,
    };
    counted(time, counter)
}
