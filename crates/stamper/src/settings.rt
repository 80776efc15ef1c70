// What a recorder is set up with.
ghost use Rattle.std.specs.Prelude.{◌≡◌, ◌≤◌};
ghost use Rattle.refusals.specs.Refusals.{result_map, shown};

use clocks::bank::NODES;
use refusals::refusal::Refusal;
use stamps::lead::Lead;

// How many nodes there are, 1 to 16, and by how much a message's time may be above the reading of the node that receives it.
#[derive(Clone, Copy, Debug)]
pub struct Settings {
    nodes: u8,
    lead: Lead,
    ghost positive: { 1 ≤ nodes },
    ghost limited: { nodes ≤ 16 },
}

impl Settings {
    ghost use Rattle.stamper.specs.Settings.{setting_numbers, settings_answer};

    // Refused with 4 for no node or more than sixteen, or a lead above a day.
    pub fn new(nodes: u8, lead_millis: u32) -> Result<Settings, Refusal>
        ensures { shown (result_map setting_numbers result) ≡ settings_answer nodes «lead_millis» }
    {
        if !(1..=NODES).contains(&usize::from(nodes)) {
            return Err(Refusal::SettingOutOfRange);
        }
        let lead = Lead::new(lead_millis)?;
        Ok(Settings { nodes, lead })
    }

    // The nodes are 0, 1, and so on: so many.
    pub fn nodes(self) -> u8
        ensures { result ≡ (setting_numbers self).nodes }
    {
        self.nodes
    }

    pub fn lead(self) -> Lead
        ensures { result ≡ self.lead }
    {
        self.lead
    }
}
