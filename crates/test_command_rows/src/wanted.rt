//! What is wanted of the streams and the file that the program writes.

use std::alloc::AllocError;
use test_rows::texts::Texts;

/// What begins each text of the program's own on standard error.
const OWN: &[u8] = b"kcsan_litmus: ";

/// What a stream has to hold.
#[derive(Drop)]
pub enum Wanted {
    Nothing,
    /// Words of the command line's reader.
    Something,
    Text(String),
    /// One of two texts: which of them is left to how threads meet.
    Either(String, String),
}

impl Wanted {
    /// What a word calls for: `-` nothing, `*` something that isn't the program's own, names with `+` between them the
    /// texts of these names, and two such with `/` between them one of both.
    pub fn read(texts: &Texts, word: &str) -> Result<Option<Wanted>, AllocError> {
        match word {
            "-" => return Ok(Some(Wanted::Nothing)),
            "*" => return Ok(Some(Wanted::Something)),
            _ => {}
        }
        let Some((one, other)) = word.split_once('/') else {
            return Ok(texts.join(word)?.map(Wanted::Text));
        };
        match (texts.join(one)?, texts.join(other)?) {
            (Some(one), Some(other)) => Ok(Some(Wanted::Either(one, other))),
            _ => Ok(None),
        }
    }

    /// The stream holds it.
    pub fn is_in(&self, stream: &[u8]) -> bool {
        match self {
            Wanted::Nothing => stream.is_empty(),
            Wanted::Something => !stream.is_empty() && !stream.starts_with(OWN),
            Wanted::Text(text) => stream == text.as_bytes(),
            Wanted::Either(one, other) => stream == one.as_bytes() || stream == other.as_bytes(),
        }
    }
}

/// What has to become of the trace's file.
#[derive(Drop)]
pub enum Trace {
    /// It is not touched.
    Untouched,
    /// It can't be written.
    Refused,
    /// It holds this.
    Text(String),
}

impl Trace {
    /// What a word calls for: none that the file is not touched, `!` that it can't be written, names with `+` between
    /// them the texts of these names.
    pub fn read(texts: &Texts, word: Option<&str>) -> Result<Option<Trace>, AllocError> {
        match word {
            None => Ok(Some(Trace::Untouched)),
            Some("!") => Ok(Some(Trace::Refused)),
            Some(names) => match texts.join(names)? {
                Some(text) => Ok(Some(Trace::Text(text))),
                None => Ok(None),
            },
        }
    }

    /// The file can be written.
    pub fn may_be_written(&self) -> bool {
        !matches!(self, Trace::Refused)
    }

    /// That became of the file.
    pub fn is_in(&self, file: Option<&[u8]>) -> bool {
        match (self, file) {
            (Trace::Text(text), Some(bytes)) => bytes == text.as_bytes(),
            (Trace::Untouched | Trace::Refused, None) => true,
            (Trace::Text(_), None) | (Trace::Untouched | Trace::Refused, Some(_)) => false,
        }
    }
}
