// The set-up of a trace.
ghost use Rattle.std.specs.Prelude.{◌≡◌};
ghost use Rattle.refusals.specs.Refusals.{result_map, shown};
ghost use Rattle.trace.specs.Contents.{content_of};

use clocks::backstep::Backstep;
use refusals::refusal::Refusal;
use stamper::settings::Settings;
use trace::records::Record;

// The kind of a trace's keys.
#[derive(Clone, Copy, PartialEq, Eq, Debug)]
pub enum Keys {
    Points,
    Tags,
}

// Refused with 4 above 1.
impl TryFrom<u8> for Keys {
    ghost use Rattle.trace_run.specs.SetUp.{keys_answer};

    type Error = Refusal;

    ghost try_from_gives = { λ byte result. shown result ≡ keys_answer byte };

    fn try_from(byte: u8) -> Result<Keys, Refusal> {
        match byte {
            0 => Ok(Keys::Points),
            1 => Ok(Keys::Tags),
            _ => Err(Refusal::SettingOutOfRange),
        }
    }
}

// What a trace's first record sets.
#[derive(Clone, Copy, Debug)]
pub struct SetUp {
    pub settings: Settings,
    pub keys: Keys,
    pub backstep: Backstep,
}

// Refused with 5 where the record is none, then with 4 where a number is out of its range.
impl TryFrom<&Record<'_>> for SetUp {
    ghost use Rattle.trace_run.specs.SetUp.{set_up_answer, set_up_numbers};

    type Error = Refusal;

    ghost try_from_gives = { λ r result.
        shown (result_map set_up_numbers result) ≡ set_up_answer (content_of r.now) };

    fn try_from(record: &Record<'_>) -> Result<SetUp, Refusal> {
        let &Record::SetUp {
            nodes,
            key_kind,
            lead,
            backstep,
        } = record
        else {
            return Err(Refusal::MisplacedSetUp);
        };
        Ok(SetUp {
            settings: Settings::new(nodes, lead)?,
            keys: Keys::try_from(key_kind)?,
            backstep: Backstep::new(backstep)?,
        })
    }
}
