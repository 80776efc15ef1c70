// Tags.
ghost use Rattle.std.specs.Prelude.{◌≡◌, IsAscii, IsTrue, length};
ghost use Rattle.keys.specs.Name.{is_name_byte, is_padded_name};

use crate::kind::KeyKind;
use refusals::refusal::Refusal;
use std::cmp::Ordering;
use std::fmt;

// A name of 1 to 16 bytes, with only zero bytes behind it up to the sixteenth.
#[derive(Clone, Copy, PartialEq, Eq, Debug)]
pub struct Tag {
    bytes: [u8; 16],
    // To the laws an array is a list of any length.
    ghost sixteen: { length bytes ≡ 16 },
    ghost named: { IsTrue (is_padded_name bytes) },
}

// What a name is made of.
fn is_name_char(c: char) -> bool
    ensures { result ≡ is_name_byte c }
{
    matches!(c, 'A'..='Z' | '0'..='9' | '-')
}

// The tag of these bytes, refused with 3 where they are no padded name.
impl TryFrom<&[u8; 16]> for Tag {
    ghost use Rattle.keys.specs.Name.{tag_answer};
    ghost use Rattle.keys.specs.Tag.{bytes_of};
    ghost use Rattle.refusals.specs.Refusals.{result_map, shown};

    type Error = Refusal;

    ghost try_from_gives = { λ bytes result.
        shown (result_map bytes_of result) ≡ tag_answer bytes.now };

    fn try_from(bytes: &[u8; 16]) -> Result<Tag, Refusal> {
        let mut name_len = 0;
        for (place, &byte) in bytes.iter().enumerate() {
            // The name goes on only if it has reached this place.
            if place == name_len && is_name_char(char::from(byte)) {
                name_len += 1;
            } else if place == 0 || byte != 0 {
                return Err(Refusal::MalformedTag);
            }
        }
        Ok(Tag { bytes: *bytes })
    }
}

impl Tag {
    ghost use Rattle.keys.specs.Name.{name_of};
    ghost use Rattle.keys.specs.Tag.{bytes_of};

    // The name and its padding. They read back as this tag.
    pub fn bytes(&self) -> &[u8; 16]
        ensures bytes { result.now ≡ bytes_of self.now }
        ensures padded { IsTrue (is_padded_name result.now) }
    {
        &self.bytes
    }

    // The name without its padding.
    #[tactic(auto, using(crate::proofs::Names::front_is_ascii))]
    pub fn name(&self) -> &[u8]
        ensures name { result.now ≡ name_of (bytes_of self.now) }
        ensures ascii { IsAscii result.now }
    {
        &self.bytes[..self.name_len()]
    }

    fn name_len(&self) -> usize
        ensures { result ≡ length (name_of (bytes_of self.now)) }
    {
        self.bytes
            .iter()
            .take_while(|&&byte| is_name_char(char::from(byte)))
            .count()
    }
}

// The name.
impl fmt::Display for Tag {
    ghost use Rattle.std.specs.Prelude.{Some};
    ghost use Rattle.keys.specs.Name.{name_of};
    ghost use Rattle.keys.specs.Tag.{bytes_of};

    ghost output = { λ tag. Some (name_of (bytes_of tag)) };

    fn fmt<W: fmt::Write>(&self, f: &mut fmt::Formatter<W>) -> fmt::Result {
        for &byte in self.name() {
            write!(f, "{}", char::from(byte))?;
        }
        Ok(())
    }
}

// The bytes compare as the names do, since the zero byte is below every byte of a name.
impl Ord for Tag {
    ghost use Rattle.std.specs.Prelude.{refl};
    ghost use Rattle.keys.specs.Laws.{tag_cmp-ties, tag_cmp-total};
    ghost use Rattle.keys.specs.Tag.{tag_cmp};

    ghost cmp = { tag_cmp };

    ghost total = { tag_cmp-total };

    ghost matches_partial_cmp = { λ a b. refl };

    ghost matches_eq = { tag_cmp-ties };

    #[tactic(auto, using(crate::specs::Laws::bytes_cmp))]
    fn cmp(&self, other: &Tag) -> Ordering {
        self.bytes.cmp(&other.bytes)
    }
}

impl PartialOrd for Tag {
    ghost use Rattle.std.specs.Ordering.{as_partial_cmp};
    ghost use Rattle.keys.specs.Laws.{tag_cmp-partial};
    ghost use Rattle.keys.specs.Tag.{tag_cmp};

    ghost partial_cmp = { as_partial_cmp tag_cmp };

    ghost laws = { tag_cmp-partial };

    fn partial_cmp(&self, other: &Tag) -> Option<Ordering> {
        Some(self.cmp(other))
    }
}

impl KeyKind for Tag {
    ghost use Rattle.keys.specs.Laws.{tag_cmp-key_order};

    ghost law = { tag_cmp-key_order };
}
