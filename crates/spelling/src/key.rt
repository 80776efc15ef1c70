// Keys as a person writes them.
ghost use Rattle.std.specs.Prelude.{◌≡◌, length};
ghost use Rattle.std.specs.List.{list_all};
ghost use Rattle.keys.specs.Name.{is_name_byte};
ghost use Rattle.spelling.specs.Keys.{is_name, padded, tag_of, unquoted};

use numerals::{is_number, number};

// What a name is made of.
fn is_name_char(byte: u8) -> bool
    ensures { result ≡ is_name_byte byte }
{
    matches!(byte, b'A'..=b'Z' | b'0'..=b'9' | b'-')
}

fn has_name_chars(word: &[u8]) -> bool
    ensures { result ≡ list_all is_name_byte word.now }
{
    word.iter().all(|byte| is_name_char(*byte))
}

// The word without the double quotes around it.
fn unquote(word: &[u8]) -> &[u8]
    ensures { result.now ≡ unquoted word.now }
{
    match word {
        [b'"', name @ .., b'"'] => name,
        _ => word,
    }
}

// Whether the word is the name of a tag.
fn is_tag_name(word: &[u8]) -> bool
    ensures { result ≡ is_name word.now }
{
    !word.is_empty() && word.len() <= 16 && has_name_chars(word)
}

// The sixteen bytes of the tag of this name.
#[tactic(auto, unfolding(crate::specs::Keys::tag_of))]
fn tag_bytes(name: &[u8]) -> Option<[u8; 16]>
    ensures { result ≡ tag_of name.now }
{
    if !is_tag_name(name) {
        return None;
    }
    let mut bytes = [0; 16];
    bytes[..name.len()].copy_from_slice(name);
    Some(bytes)
}

// The bytes of a key.
#[derive(Clone, Copy, Debug)]
pub enum WrittenKey {
    Point([u8; 4]),
    Tag([u8; 16]),
}

impl WrittenKey {
    ghost use Rattle.trace.specs.Contents.{key_bytes};
    ghost use Rattle.spelling.specs.Keys.{key_of};

    // The key that the word is: a point if it is a number, and else a tag.
    #[tactic(auto, unfolding(crate::specs::Keys::key_of))]
    pub(crate) fn from_word(word: &[u8]) -> Option<WrittenKey>
        ensures { result ≡ key_of word.now }
    {
        if is_number(word) {
            let point = number(word, u64::from(u32::MAX))?;
            Some(WrittenKey::Point((point as u32).to_be_bytes()))
        } else {
            Some(WrittenKey::Tag(tag_bytes(unquote(word))?))
        }
    }
}
