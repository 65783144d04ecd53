//! The command that the words of the command line are.
ghost use Rattle.std.specs.Prelude.{◌≡◌, ◌≤◌, IfSome, IsSome, option_map};
ghost use Rattle.std.specs.declared.option.Option.TheVariants.{None};
ghost use Rattle.std.specs.Str.{bytes_eq};
ghost use Rattle.hevc_options.specs.Options.{options_of};
ghost use Rattle.hevc_report.specs.Command.{asked_options, command, number_of_pictures};
ghost use Rattle.hevc_report.specs.Command.{nothing_asked, pictures_to_make, sub_layer, with_word};

use hevc_decoder::Options;
use hevc_io::Word;

/// What words ask for: each of the three at most once.
#[derive(Clone, Copy)]
struct Asked {
    /// `cra`: CRA pictures are handled as BLA pictures (8.1.3).
    cra: bool,
    /// `base`: the base layer alone is wanted (8.1.2).
    base: bool,
    /// `layer` was the last word.
    awaits_digit: bool,
    /// `layer T`: the sub-layers up to T, 0 to 6, are wanted (8.1.2).
    sub_layer: Option<u8>,
}

impl Asked {
    /// Where no word asks for anything.
    fn nothing() -> Asked
        ensures { result ≡ nothing_asked }
    {
        Asked {
            cra: false,
            base: false,
            awaits_digit: false,
            sub_layer: None,
        }
    }

    /// With what one more word asks for.
    fn with_word(self, word: &Word) -> Option<Asked>
        ensures { result ≡ with_word self word.now }
    {
        if self.awaits_digit {
            let sub_layer = Some(read_sub_layer(word)?);
            Some(Asked {
                awaits_digit: false,
                sub_layer,
                ..self
            })
        } else if is_text(word, "cra") && !self.cra {
            Some(Asked { cra: true, ..self })
        } else if is_text(word, "base") && !self.base {
            Some(Asked { base: true, ..self })
        } else if is_text(word, "layer") && self.sub_layer.is_none() {
            Some(Asked {
                awaits_digit: true,
                ..self
            })
        } else {
            None
        }
    }

    /// The options that are asked for, where no digit is missing.
    fn options(&self) -> Option<Options>
        ensures { option_map options_of result ≡ asked_options self.now }
    {
        if self.awaits_digit {
            return None;
        }
        let default = Options::new();
        Some(Options {
            handle_cra_as_bla: self.cra,
            highest_tid: self.sub_layer.unwrap_or(default.highest_tid),
            highest_layer: if self.base { 0 } else { default.highest_layer },
        })
    }
}

/// The options with which the words ask for a report, or none where they are no command. The words
/// are any of these, in any order, each at most once:
///
/// | words | options |
/// |---|---|
/// | `cra` | CRA pictures are handled as BLA pictures |
/// | `base` | the base layer alone is wanted |
/// | `layer T` | the highest sub-layer that is wanted is T, one digit from 0 to 6 |
pub(crate) fn read_command(words: &[Word]) -> Option<Options>
    ensures { option_map options_of result ≡ command words.now }
{
    let mut asked = Asked::nothing();
    for word in words {
        asked = asked.with_word(word)?;
    }
    asked.options()
}

/// The number of pictures that the words `make N` ask for, from 1 to 100000, or none where they are
/// other words.
pub(crate) fn read_make(words: &[Word]) -> Option<u32>
    ensures number { result ≡ pictures_to_make words.now }
    ensures apart { IsSome result → command words.now ≡ None }
    ensures bounds { IfSome result (λ pictures. (1 ≤ pictures) × (pictures ≤ 100000)) }
{
    let [make, number] = words else {
        return None;
    };
    if !is_text(make, "make") {
        return None;
    }
    read_number(number.as_bytes())
}

/// The number from 1 to 100000 that decimal digits spell, the first of which isn't 0.
fn read_number(digits: &[u8]) -> Option<u32>
    ensures { result ≡ number_of_pictures digits.now }
{
    let [b'1'..=b'9', ..] = digits else {
        return None;
    };
    let mut number = 0;
    for digit in digits {
        let b'0'..=b'9' = *digit else {
            return None;
        };
        number = 10 * number + (*digit - b'0') as u32;
        if number > 100_000 {
            return None;
        }
    }
    Some(number)
}

/// The number that a word of one digit spells, from 0 to 6.
fn read_sub_layer(word: &Word) -> Option<u8>
    ensures { result ≡ sub_layer word.now }
{
    let [digit @ b'0'..=b'6'] = word.as_bytes() else {
        return None;
    };
    Some(*digit - b'0')
}

/// Whether a word is this text.
fn is_text(word: &Word, text: &str) -> bool
    ensures { result ≡ bytes_eq word.now text.now }
{
    word.as_bytes() == text.as_bytes()
}
