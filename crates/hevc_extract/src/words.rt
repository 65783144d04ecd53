//! What the words of the command line ask for.
ghost use Rattle.std.specs.Prelude.{◌≡◌, ◌≤◌, IfSome};
ghost use Rattle.hevc_extract.specs.Targets.{asked_targets, layer, sub_layer};

use hevc_io::Word;

/// The highest temporal sub-layer, 0 to 6, and the highest layer, 0 to 63, that are kept.
#[derive(Clone, Copy, Debug, PartialEq, Eq)]
pub struct Targets {
    pub highest_tid: u8,
    pub highest_layer: u8,
}

/// What the words ask for: `T`, one digit from 0 to 6, for the sub-layers up to T and all layers,
/// `T L`, L from 0 to 62, for the layers up to L of these. None where they are other words.
pub(crate) fn read_targets(words: &[Word]) -> Option<Targets>
    ensures value { result ≡ asked_targets words.now }
    ensures bounds { IfSome result (λ t. (t.highest_tid ≤ 6) × (t.highest_layer ≤ 63)) }
{
    match words {
        [tid] => {
            let highest_tid = read_sub_layer(tid)?;
            Some(Targets {
                highest_tid,
                highest_layer: 63,
            })
        }
        [tid, top] => {
            let highest_tid = read_sub_layer(tid)?;
            let highest_layer = read_layer(top)?;
            Some(Targets {
                highest_tid,
                highest_layer,
            })
        }
        _ => None,
    }
}

/// The number that a word of one digit spells, from 0 to 6.
fn read_sub_layer(word: &Word) -> Option<u8>
    ensures value { result ≡ sub_layer word.now }
    ensures bound { IfSome result (λ tid. tid ≤ 6) }
{
    let [digit @ b'0'..=b'6'] = word.as_bytes() else {
        return None;
    };
    Some(*digit - b'0')
}

/// The number that a word of one or two digits spells, from 0 to 62.
fn read_layer(word: &Word) -> Option<u8>
    ensures value { result ≡ layer word.now }
    ensures bound { IfSome result (λ top. top ≤ 62) }
{
    match word.as_bytes() {
        [ones @ b'0'..=b'9'] => Some(*ones - b'0'),
        [tens @ b'1'..=b'6', ones @ b'0'..=b'9'] => {
            let top = 10 * (*tens - b'0') + (*ones - b'0');
            if top <= 62 { Some(top) } else { None }
        }
        _ => None,
    }
}
