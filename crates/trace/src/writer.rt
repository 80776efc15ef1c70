// Writes records into a lent buffer.
ghost use Rattle.std.specs.Prelude.{◌≡◌, ◌+◌, ◌≤◌, ◌∷◌, length, OnOk};
ghost use Rattle.refusals.specs.Refusals.{shown};
ghost use Rattle.trace.specs.Contents.{content_of, encoding_of, key_bytes, key_len, size_of};
ghost use Rattle.trace.specs.Numbers.{bytes_of};
ghost use Rattle.trace.specs.Ranges.{IsInRange};
ghost use Rattle.trace.specs.Writing.{overlay, write_answer, buffer_after_write};

use crate::records::{KeyBytes, Record};
use refusals::refusal::Refusal;

// The size of the longest record, a put by a tag.
const LONGEST_RECORD: usize = 30;

// Lays some bytes over the buffer from `place` on, and answers the place behind them. Put in line, so that each field is
// written by its own width.
#[inline(always)]
#[tactic(auto, unfolding(crate::specs::Writing::overlay))]
fn lay(buffer: &mut [u8], place: usize, bytes: &[u8]) -> usize
    requires { place + length bytes.now ≤ length buffer.old }
    ensures place { result ≡ place + length bytes.now }
    ensures after { buffer.new ≡ overlay place bytes.now buffer.old }
{
    let end = place + bytes.len();
    buffer[place..end].copy_from_slice(bytes);
    end
}

// Lays a key's bytes over the buffer: by cases, since each case has a width of its own.
#[inline(always)]
fn lay_key(buffer: &mut [u8], place: usize, key: KeyBytes) -> usize
    requires { place + key_len key ≤ length buffer.old }
    ensures place { result ≡ place + key_len key.entry }
    ensures len { key_len key.entry ≡ length (key_bytes key.entry) }
    ensures after { buffer.new ≡ overlay place (key_bytes key.entry) buffer.old }
{
    match key {
        KeyBytes::Point(bytes) => lay(buffer, place, bytes),
        KeyBytes::Tag(bytes) => lay(buffer, place, bytes),
    }
}

// Lays what an event begins with: its kind, its node and the raw number of that node's clock.
#[inline(always)]
#[tactic(auto, using(crate::proofs::Over::overlays))]
fn lay_event(buffer: &mut [u8], place: usize, kind: u8, node: u8, raw: u64) -> usize
    requires { place + 10 ≤ length buffer.old }
    ensures place { result ≡ place + 10 }
    ensures after { buffer.new ≡ overlay place (kind ∷ node ∷ bytes_of 8 raw) buffer.old }
{
    let behind_node = lay(buffer, place, &[kind, node]);
    lay(buffer, behind_node, &raw.to_be_bytes())
}

impl Record<'_> {
    // Lays the record's bytes over the buffer, which has room for them.
    #[tactic(auto, using(crate::proofs::Over::overlays))]
    fn lay_over(&self, buffer: &mut [u8], place: usize) -> usize
        requires { place + size_of (content_of self.now) ≤ length buffer.old }
        ensures place { result ≡ place + size_of (content_of self.now) }
        ensures after { buffer.new ≡ overlay place (encoding_of (content_of self.now)) buffer.old }
        ensures ranges { IsInRange (content_of self.now) }
    {
        let kind = u8::from(self.kind());
        match self {
            Record::SetUp {
                nodes,
                key_kind,
                lead,
                backstep,
            } => {
                let behind_kinds = lay(buffer, place, &[kind, *nodes, *key_kind]);
                let behind_lead = lay(buffer, behind_kinds, &lead.to_be_bytes());
                lay(buffer, behind_lead, &backstep.to_be_bytes())
            }
            Record::Note { node, raw } => lay_event(buffer, place, kind, *node, *raw),
            Record::Send {
                node,
                raw,
                to,
                message,
            } => {
                let behind_raw = lay_event(buffer, place, kind, *node, *raw);
                let behind_to = lay(buffer, behind_raw, &[*to]);
                lay(buffer, behind_to, &message.to_be_bytes())
            }
            Record::Receipt { node, raw, message } => {
                let behind_raw = lay_event(buffer, place, kind, *node, *raw);
                lay(buffer, behind_raw, &message.to_be_bytes())
            }
            Record::Loss { message } => {
                let behind_kind = lay(buffer, place, &[kind]);
                lay(buffer, behind_kind, &message.to_be_bytes())
            }
            Record::Put {
                node,
                raw,
                key,
                value,
            } => {
                let behind_raw = lay_event(buffer, place, kind, *node, *raw);
                let behind_key = lay_key(buffer, behind_raw, key.bytes);
                lay(buffer, behind_key, &value.to_be_bytes())
            }
            Record::Read { at, key } => {
                let behind_kind = lay(buffer, place, &[kind]);
                let behind_at = lay(buffer, behind_kind, &at.to_be_bytes());
                lay_key(buffer, behind_at, key.bytes)
            }
        }
    }

    // Writes the record over the buffer from `place` on and answers the place behind it. Where the
    // record does not fit, no byte changes. The caller lends the whole buffer and names a place in it,
    // as a reader names its offset, since the promise is about every byte of the buffer.
    #[tactic(auto, using(crate::proofs::Longest::no_longer))]
    pub fn write_to(&self, buffer: &mut [u8], place: usize) -> Result<usize, Refusal>
        ensures answer { shown result ≡ write_answer (content_of self.now) place buffer.old }
        ensures buffer { buffer.new ≡ buffer_after_write (content_of self.now) place buffer.old }
        ensures ranges { OnOk result (IsInRange (content_of self.now)) }
    {
        if buffer.len() < place {
            return Err(Refusal::NoRoom);
        }
        let room = buffer.len() - place;
        // The size is asked for only where the longest record would not fit.
        if room < LONGEST_RECORD && room < self.size() {
            return Err(Refusal::NoRoom);
        }
        Ok(self.lay_over(buffer, place))
    }
}
