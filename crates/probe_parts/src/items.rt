//! Parts of words of a line, such as those of `3:pull:8:9`. A part that is `-` is unset.

use ob_base::RecId;

/// The id that a part names.
pub fn id_of(part: &str) -> Option<RecId> {
    match part.parse() {
        Ok(number) => Some(RecId(number)),
        Err(_) => None,
    }
}

/// The number that a part names.
pub fn number_of(part: &str) -> Option<i64> {
    part.parse().ok()
}

/// What a part says that is `yes` or `no`.
pub fn flag_of(part: &str) -> Option<bool> {
    match part {
        "yes" => Some(true),
        "no" => Some(false),
        _ => None,
    }
}

/// The parts of a word, read one after another. A part that is wanting or of another form reads
/// as nothing, and that is noted.
#[derive(Drop)]
pub struct Parts<'a> {
    /// What isn't read yet; none behind the last part.
    rest: Option<&'a str>,
    is_malformed: bool,
}

impl<'a> Parts<'a> {
    /// The parts of a word, of which none is read.
    pub fn of(word: &'a str) -> Parts<'a> {
        Parts {
            rest: Some(word),
            is_malformed: false,
        }
    }

    /// Whether each part was read, and was of its form.
    pub fn are_read(&self) -> bool {
        !self.is_malformed && self.rest.is_none()
    }

    /// Notes that a part is of another form.
    pub fn refuse(&mut self) {
        self.is_malformed = true;
    }

    /// The next part.
    pub fn text(&mut self) -> &'a str {
        let Some(rest) = self.rest else {
            self.is_malformed = true;
            return "";
        };
        match rest.split_once(':') {
            Some((part, rest)) => {
                self.rest = Some(rest);
                part
            }
            None => {
                self.rest = None;
                rest
            }
        }
    }

    /// The next part, which is an id.
    pub fn id(&mut self) -> RecId {
        let part = self.text();
        self.found(id_of(part), RecId(0))
    }

    /// The next part, which is an id where it isn't unset.
    pub fn some_id(&mut self) -> Option<RecId> {
        match self.text() {
            "-" => None,
            part => Some(self.found(id_of(part), RecId(0))),
        }
    }

    /// The next part, which is a number.
    pub fn number(&mut self) -> i64 {
        let part = self.text();
        self.found(number_of(part), 0)
    }

    /// The next part, which is a number where it isn't unset.
    pub fn some_number(&mut self) -> Option<i64> {
        match self.text() {
            "-" => None,
            part => Some(self.found(number_of(part), 0)),
        }
    }

    /// The next part, which is `yes` or `no`.
    pub fn flag(&mut self) -> bool {
        let part = self.text();
        self.found(flag_of(part), false)
    }

    /// What a part is, where it is of its form.
    pub fn found<T: Copy>(&mut self, part: Option<T>, otherwise: T) -> T {
        match part {
            Some(found) => found,
            None => {
                self.is_malformed = true;
                otherwise
            }
        }
    }
}
