// The arguments of the program.
ghost use Rattle.std.specs.Prelude.{◌≡◌, map, string_bytes};
ghost use Rattle.page_program.specs.Arguments.{at_stamp as at_stamp_of, is_closed as is_closed_word, request_of as request_by};

use numerals::stamp_code;
use sheet::request::Request;

fn is_closed(word: &String) -> bool
    ensures { result ≡ is_closed_word (string_bytes word.now) }
{
    word.as_str() == "closed"
}

// The page at the stamp that this word is.
fn at_stamp(word: &String, closed: bool) -> Option<Request>
    ensures { result ≡ at_stamp_of (string_bytes word.now) closed }
{
    let code = stamp_code(word.as_bytes())?;
    Some(Request {
        stamp: Some(code),
        closed,
    })
}

// What the arguments ask for: a stamp, the word `closed`, both in this order, or neither.
pub fn request_of(words: &[String]) -> Option<Request>
    ensures { result ≡ request_by (map string_bytes words.now) }
{
    match words {
        [] => Some(Request {
            stamp: None,
            closed: false,
        }),
        [word] => {
            if is_closed(word) {
                return Some(Request {
                    stamp: None,
                    closed: true,
                });
            }
            at_stamp(word, false)
        }
        [stamp, word] => {
            if !is_closed(word) {
                return None;
            }
            at_stamp(stamp, true)
        }
        _ => None,
    }
}
