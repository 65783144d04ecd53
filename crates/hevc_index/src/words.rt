//! What the words of the command line ask for.
ghost use Rattle.std.specs.Prelude.{◌≡◌};
ghost use Rattle.hevc_index.specs.Requests.{asked_request, picture_number};

use hevc_io::Word;

/// What is asked for.
#[derive(Clone, Copy, Debug, PartialEq, Eq)]
pub enum Request {
    /// The points of the stream.
    Points,
    /// The stream from the point of this picture number on.
    Splice(u64),
}

/// What the words ask for: none for the points, `splice N`, N in decimal digits, for the stream from
/// point N on. None where they are other words.
pub(crate) fn read_request(words: &[Word]) -> Option<Request>
    ensures { result ≡ asked_request words.now }
{
    match words {
        [] => Some(Request::Points),
        [splice, number] => {
            if splice.as_bytes() != "splice".as_bytes() {
                return None;
            }
            Some(Request::Splice(read_number(number.as_bytes())?))
        }
        _ => None,
    }
}

/// The number up to 2^64 - 1 that decimal digits spell; of several the first isn't 0.
fn read_number(digits: &[u8]) -> Option<u64>
    ensures { result ≡ picture_number digits.now }
{
    if let [] | [b'0', _, ..] = digits {
        return None;
    }
    let mut number: u64 = 0;
    for digit in digits {
        let b'0'..=b'9' = *digit else {
            return None;
        };
        let tens = number.checked_mul(10)?;
        number = tens.checked_add((*digit - b'0') as u64)?;
    }
    Some(number)
}
