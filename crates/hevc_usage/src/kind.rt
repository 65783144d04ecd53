//! What kind of input begins with some bytes.

/// What an input looks like by its first bytes.
#[derive(Clone, Copy, Debug, PartialEq, Eq)]
pub(crate) enum Kind {
    Empty,
    Mp4,
    Matroska,
    Png,
    Text,
    Zeros,
    /// Its first unit is a sequence parameter set or a delimiter of H.264.
    Avc,
    /// It has a start code.
    Units,
    Unknown,
}

/// The kind of an input that begins with these bytes.
pub(crate) fn kind_of(head: &[u8]) -> Kind {
    match head {
        [] => Kind::Empty,
        [_, _, _, _, b'f', b't', b'y', b'p', ..] => Kind::Mp4,
        [0x1a, 0x45, 0xdf, 0xa3, ..] => Kind::Matroska,
        [0x89, b'P', b'N', b'G', ..] => Kind::Png,
        _ if head.iter().all(|byte| is_text(*byte)) => Kind::Text,
        _ if head.iter().all(|byte| *byte == 0) => Kind::Zeros,
        _ => kind_of_unit(head),
    }
}

/// The kind by the first unit, whose type H.264 (7.3.1) has in the lowest five bits of one byte.
fn kind_of_unit(head: &[u8]) -> Kind {
    match first_unit(head) {
        Some([header, ..]) if matches!(*header & 0x9f, 7 | 9) => Kind::Avc,
        Some(_) => Kind::Units,
        None => Kind::Unknown,
    }
}

/// What is after the first start code.
fn first_unit(head: &[u8]) -> Option<&[u8]> {
    for place in 0..head.len() {
        if let [0, 0, 1, unit @ ..] = &head[place..] {
            return Some(unit);
        }
    }
    None
}

fn is_text(byte: u8) -> bool {
    matches!(byte, b'\t' | b'\n' | b'\r' | b' '..=b'~')
}

/// How many layers the first video parameter set among these bytes declares (7.3.2.1, vps_max_layers_minus1), or 1.
pub(crate) fn num_layers(head: &[u8]) -> u8 {
    for place in 0..head.len() {
        if let [0, 0, 1, 0x40, _, high, low, ..] = &head[place..] {
            return (*high % 4) * 16 + *low / 16 + 1;
        }
    }
    1
}

impl Kind {
    /// What is said of a file that is no byte stream at all, or one of another standard.
    pub(crate) fn stranger(self) -> Option<&'static str> {
        match self {
            Kind::Mp4 => Some(
                "this is a file of MP4: `ffmpeg -i x.mp4 -c copy -f hevc x.h265` makes a stream of it",
            ),
            Kind::Matroska => Some(
                "this is a file of Matroska: `ffmpeg -i x.mkv -c copy -f hevc x.h265` makes a stream of it",
            ),
            Kind::Png => Some("this is a PNG image"),
            Kind::Text => Some("this looks like text"),
            Kind::Avc => Some("this looks like H.264"),
            Kind::Empty | Kind::Zeros | Kind::Units | Kind::Unknown => None,
        }
    }

    /// Why nothing is found in such an input.
    pub(crate) fn lack(self) -> &'static str {
        match self {
            Kind::Empty => "the input is empty",
            Kind::Zeros => "it begins with zeros: is this an Annex B stream of H.265?",
            Kind::Units => "are its parameter sets (VPS, SPS, PPS) missing?",
            _ => match self.stranger() {
                Some(what) => what,
                None => "is this an Annex B stream of H.265?",
            },
        }
    }
}
