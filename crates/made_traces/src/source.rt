// What the records of a generated trace are drawn from.
use crate::plans::{Choice, Clocks, Codes, Plan};
use crate::random::Random;
use naive_format::records::{Key, Record, Sample, SetUp};

const A_DAY: u64 = 86_400_000;

const HIGHEST_READING: u64 = 281_474_976_710_655;

// What a trace's records are drawn from; with the time that goes on, and the read that was asked last.
#[derive(Drop)]
pub(crate) struct Source {
    pub random: Random,
    pub set_up: SetUp,
    pub plan: &'static Plan,
    now: u64,
    asked: Option<Record>,
}

fn as_number_32(number: u64) -> u32 {
    u32::try_from(number).unwrap_or(u32::MAX)
}

// Numbers that lie far apart for numbers that lie close.
fn spread(number: u64) -> u32 {
    as_number_32(number).wrapping_mul(2_654_435_769)
}

fn draw_set_up(random: &mut Random, plan: &Plan) -> SetUp {
    SetUp {
        nodes: u8::try_from(random.one_of(&plan.nodes)).unwrap_or(1),
        key_kind: random.byte_below(2),
        lead: as_number_32(random.one_of(&[0, 1, 5, 500, A_DAY])),
        backstep: as_number_32(random.one_of(&[0, 1, 4, 20, A_DAY])),
    }
}

// A set-up with a setting out of range.
pub(crate) fn draw_bad_set_up(random: &mut Random, plan: &Plan) -> SetUp {
    let mut set_up = draw_set_up(random, plan);
    match random.below(5) {
        0 => set_up.nodes = 0,
        1 => set_up.nodes = random.byte_below(239).saturating_add(17),
        2 => set_up.key_kind = random.byte_below(254).saturating_add(2),
        3 => set_up.lead = as_number_32(random.one_of(&[A_DAY.wrapping_add(1), 0xffff_ffff])),
        _ => set_up.backstep = as_number_32(random.one_of(&[A_DAY.wrapping_add(1), 0xffff_ffff])),
    }
    set_up
}

fn draw_start(random: &mut Random) -> u64 {
    let near_the_last = HIGHEST_READING.wrapping_sub(random.below(400));
    random.one_of(&[1, 30, 1_000, 70_000, 1_000_000_000_000, near_the_last])
}

// A tag's sixteen bytes: a letter for the key, and what some of them have behind.
fn tag_of(number: u64) -> [u8; 16] {
    let mut tag = [0; 16];
    let digits = number.to_be_bytes();
    tag[0] = b'A'.saturating_add((digits[7] / 16) % 16);
    tag[1] = match digits[7] % 16 {
        0 => 0,
        1 => b'-',
        low => b'A'.saturating_add(low),
    };
    if digits[7] % 16 == 2 {
        tag = *b"SUCTION-PUMP-01Z";
    }
    if tag[1] != 0 && digits[6] > 0 {
        tag[2] = b'0'.saturating_add(digits[6] % 10);
    }
    tag
}

impl Source {
    pub(crate) fn new(plan: &'static Plan, mut random: Random) -> Source {
        let set_up = draw_set_up(&mut random, plan);
        let now = draw_start(&mut random);
        Source {
            random,
            set_up,
            plan,
            now,
            asked: None,
        }
    }

    fn is_slip(&mut self) -> bool {
        self.random.is_one_in(self.plan.slips)
    }

    fn node(&mut self) -> u8 {
        if self.is_slip() {
            [self.set_up.nodes, 16, 255][usize::from(self.random.byte_below(3)) % 3]
        } else {
            self.random.byte_below(self.set_up.nodes)
        }
    }

    // The time, or one that is by less than these before or behind it.
    fn near(&mut self, before: u64, behind: u64) -> u64 {
        let before = self.random.below(before);
        let behind = self.random.below(behind);
        self.now.saturating_add(behind).saturating_sub(before)
    }

    fn extreme_raw(&mut self) -> u64 {
        let above = HIGHEST_READING.wrapping_add(1);
        let below = HIGHEST_READING.wrapping_sub(1);
        if self.random.is_one_in(2) {
            return self.now;
        }
        self.random
            .one_of(&[0, 1, 2, below, HIGHEST_READING, above, u64::MAX])
    }

    // The time; for nodes of an even number, more than the lead ahead of it by a little.
    fn raw_ahead(&mut self, node: u8) -> u64 {
        let more = match node % 4 {
            0 => 3,
            2 => 9,
            _ => return self.now,
        };
        let lead = u64::from(self.set_up.lead);
        self.now
            .wrapping_add(lead)
            .wrapping_add(more)
            .wrapping_add(self.random.below(2))
    }

    // The time, or what is about the backstep behind it.
    fn raw_fallen(&mut self) -> u64 {
        let backstep = u64::from(self.set_up.backstep);
        let behind = [
            0,
            backstep,
            backstep.wrapping_add(1),
            backstep.saturating_sub(1),
        ];
        self.now.saturating_sub(self.random.one_of(&behind))
    }

    fn raw(&mut self, node: u8) -> u64 {
        if self.is_slip() {
            return self.extreme_raw();
        }
        match self.plan.clocks {
            Clocks::Near => self.near(4, 4),
            Clocks::Exact => self.now,
            Clocks::Ahead => self.raw_ahead(node),
            Clocks::Fallen => self.raw_fallen(),
            Clocks::Extreme => self.extreme_raw(),
        }
    }

    fn sample(&mut self) -> Sample {
        let node = self.node();
        let raw = self.raw(node);
        Sample { node, raw }
    }

    // A tag's bytes with one of them written over, which mostly is no name.
    fn malformed_tag(&mut self, number: u64) -> [u8; 16] {
        let mut tag = tag_of(number);
        let place = usize::from(self.random.byte_below(16)) % 16;
        tag[place] = match self.random.below(4) {
            0 => b' ',
            1 => 0,
            2 => b'Z',
            _ => self.random.byte(),
        };
        tag
    }

    fn key_of_kind(&mut self, kind: u8, number: u64) -> Key {
        if kind == 0 {
            Key::Point(spread(number))
        } else if self.random.is_one_in(self.plan.key_slips) {
            Key::Tag(self.malformed_tag(number))
        } else {
            Key::Tag(tag_of(number))
        }
    }

    fn key(&mut self) -> Key {
        let number = self.random.below(self.plan.keys);
        let is_other = self.random.is_one_in(self.plan.key_slips);
        let kind = self.set_up.key_kind ^ u8::from(is_other);
        self.key_of_kind(kind, number)
    }

    pub(crate) fn message(&mut self) -> u32 {
        spread(self.random.below(self.plan.messages))
    }

    // The node that a message is mostly sent to.
    fn addressee(&mut self, message: u32) -> u8 {
        if self.random.is_one_in(15) {
            return self.node();
        }
        let node = message.checked_rem(u32::from(self.set_up.nodes));
        u8::try_from(node.unwrap_or(0)).unwrap_or(0)
    }

    fn send(&mut self) -> Record {
        let message = self.message();
        Record::Send {
            sample: self.sample(),
            to: self.addressee(message),
            message,
        }
    }

    fn receipt(&mut self) -> Record {
        let message = self.message();
        let node = self.addressee(message);
        let raw = self.raw(node);
        Record::Receipt {
            sample: Sample { node, raw },
            message,
        }
    }

    fn put(&mut self) -> Record {
        let value = match self.random.below(4) {
            0 => [0, 1, -1, i32::MIN, i32::MAX][usize::from(self.random.byte_below(5)) % 5],
            _ => self.random.number_32().cast_signed(),
        };
        Record::Put {
            sample: self.sample(),
            key: self.key(),
            value,
        }
    }

    fn extreme_code(&mut self) -> u64 {
        let present = self.now.wrapping_mul(65_536);
        let last = HIGHEST_READING.wrapping_mul(65_536);
        let codes = [
            0,
            1,
            65_535,
            65_536,
            65_537,
            present,
            last,
            last.wrapping_add(1),
            u64::MAX,
        ];
        self.random.one_of(&codes)
    }

    fn code(&mut self) -> u64 {
        if self.is_slip() {
            return self.extreme_code();
        }
        let time = match self.plan.codes {
            Codes::Past(most) => self.now.saturating_sub(self.random.below(most)),
            Codes::Near => self.near(9, 3),
            Codes::Extreme => return self.extreme_code(),
        };
        let counter = match self.random.below(3) {
            0 => 0,
            1 => 65_535,
            _ => self.random.below(4),
        };
        time.wrapping_mul(65_536).wrapping_add(counter)
    }

    fn read(&mut self) -> Record {
        if self.random.is_one_in(self.plan.repeats)
            && let Some(read) = self.asked
        {
            return read;
        }
        let read = Record::Read {
            code: self.code(),
            key: self.key(),
        };
        self.asked = Some(read);
        read
    }

    // A set-up that comes too late: the same once more, or one that would be out of range too.
    fn later_set_up(&mut self) -> SetUp {
        if self.random.is_one_in(2) {
            self.set_up
        } else {
            draw_bad_set_up(&mut self.random, self.plan)
        }
    }

    pub(crate) fn record(&mut self) -> Record {
        self.now = self.now.wrapping_add(self.random.below(self.plan.pace));
        let place = usize::from(self.random.byte_below(16)) % 16;
        match self.plan.choices[place] {
            Choice::Note => Record::Note(self.sample()),
            Choice::Send => self.send(),
            Choice::Receipt => self.receipt(),
            Choice::Loss => Record::Loss(self.message()),
            Choice::Put => self.put(),
            Choice::Read => self.read(),
            Choice::SetUp => Record::SetUp(self.later_set_up()),
        }
    }
}
