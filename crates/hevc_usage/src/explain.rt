//! What a program says at its end.
use crate::cause::Cause;
use crate::kind::{kind_of, num_layers};

/// What is said of a program itself.
#[derive(Clone, Copy)]
pub(crate) struct About {
    pub(crate) name: &'static str,
    pub(crate) usage: &'static str,
    pub(crate) writes_stream: bool,
}

/// Says on standard error why a program ends with this status: by 2 its usage, and one line where the input was refused, where nothing was
/// found in it, and where the program gave up. `head` is what the input begins with, and `line` the last line of the output, or none where
/// nothing was written. What can't be written there is left unsaid.
pub(crate) fn explain<R: Eprint>(
    runtime: &R,
    about: About,
    status: u8,
    head: &[u8],
    line: Option<&[u8]>,
) {
    let text = line.map(|line| std::str::from_utf8(line).unwrap_or(""));
    match status {
        0 => explain_done(runtime, about.name, head, text),
        1 => explain_refusal(runtime, about, head, text.unwrap_or("")),
        2 => {
            let _ = runtime.eprint(about.usage);
        }
        _ => explain_stop(runtime, about, status),
    }
}

/// Says what is missing where nothing was found, and what kind of file the input is where it is no stream.
fn explain_done<R: Eprint>(runtime: &R, name: &str, head: &[u8], line: Option<&str>) {
    let kind = kind_of(head);
    if let Some(missing) = missing(line) {
        let lack = kind.lack();
        let _ = eprintln!(runtime; "{name}: {missing}: {lack}");
    } else if let Some(what) = kind.stranger() {
        let _ = eprintln!(runtime; "{name}: {what}");
    }
}

/// What wasn't found, by the last line that was written.
fn missing(line: Option<&str>) -> Option<&'static str> {
    let Some(line) = line else {
        return Some("nothing is written");
    };
    match line {
        "end pictures 0 shown 0" | "check yes sequences 0 pictures 0" | "pictures 0" => {
            Some("no picture was found")
        }
        "end points 0" => Some("no point was found"),
        "units 0" | "end units 0 refused 0" | "{\"units\":0,\"refused\":0}" => {
            Some("no unit was found")
        }
        "bytes 0" => Some("no byte was read"),
        _ => None,
    }
}

/// Says which unit was refused, and why.
fn explain_refusal<R: Eprint>(runtime: &R, about: About, head: &[u8], line: &str) {
    let name = about.name;
    let Some((unit, text)) = refusal(line) else {
        let _ = eprintln!(runtime; "{name}: units are refused; the line after each tells why");
        return;
    };
    let ending = if about.writes_stream {
        "; the output is no stream"
    } else {
        ""
    };
    if let Some(what) = kind_of(head).stranger() {
        let _ = eprintln!(runtime; "{name}: refused unit {unit}: {what}{ending}");
        return;
    }
    let cause = Cause { text, unit };
    let layers = num_layers(head);
    if layers == 1 {
        let _ = eprintln!(runtime; "{name}: refused unit {unit}: {cause}{ending}");
    } else {
        let _ = eprintln!(runtime;
            "{name}: refused unit {unit}: {cause}; the stream has {layers} layers, and `hevc_extractor 6 0` takes out the lowest one{ending}"
        );
    }
}

/// The unit and the cause that the line of a refusal names, if it is one.
fn refusal(line: &str) -> Option<(&str, &str)> {
    let rest = line.strip_prefix("refused unit ")?;
    Some(rest.split_once(" ").unwrap_or((rest, "")))
}

/// Says why a program gave up.
fn explain_stop<R: Eprint>(runtime: &R, about: About, status: u8) {
    let name = about.name;
    if let Some(reason) = reason(status, about.writes_stream) {
        let _ = eprintln!(runtime; "{name}: {reason}");
    }
}

/// Why a program ends with this status, where it is neither for its words nor for what it found.
fn reason(status: u8, writes_stream: bool) -> Option<&'static str> {
    match status {
        3 => Some("the input can't be read"),
        4 => Some("the output can't be written"),
        5 => Some("an allocation failed: out of memory"),
        6 => Some("the input has more than 268435456 bytes"),
        7 if writes_stream => Some(
            "no point has this number: without words it lists them; the output is no stream",
        ),
        8 => Some("the system doesn't hand over the words of the command line"),
        _ => None,
    }
}
