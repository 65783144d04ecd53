//! Texts that stand one after the other.
ghost use Rattle.std.specs.Prelude.{◌≡◌, ◌<◌, slice_index_or};
ghost use Rattle.hevc_element_names.specs.Names.{span, text_at};

/// The text at a place of many, each of which begins where the one before ends, and nothing where
/// there is none.
pub fn text_at<'a>(texts: &'a [u8], spans: &[u16], at: usize) -> &'a [u8]
    requires { at < 131072 }
    ensures { result.now ≡ text_at texts.now spans.now at }
{
    span(texts, place_at(spans, at), place_at(spans, at + 1))
}

/// The number at a place of a table of numbers, and 0 where there is none.
pub(crate) fn place_at(numbers: &[u16], at: usize) -> usize
    ensures value { result ≡ slice_index_or numbers.now at 0 }
    ensures small { result < 65536 }
{
    match numbers.get(at) {
        Some(number) => usize::from(*number),
        None => 0,
    }
}

/// A part of a text, and nothing where it doesn't have it.
fn span<'a>(text: &'a [u8], start: usize, end: usize) -> &'a [u8]
    ensures { result.now ≡ span text.now start end }
{
    if start <= end && end <= text.len() {
        &text[start..end]
    } else {
        &[]
    }
}
