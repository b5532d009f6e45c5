//! The words of a call.

/// The words that were not read, with one blank between, and whether one that was read is not what it should be.
#[derive(Drop)]
pub struct Words<'a> {
    rest: &'a str,
    is_wrong: bool,
}

impl<'a> Words<'a> {
    pub fn new(text: &'a str) -> Words<'a> {
        Words {
            rest: text,
            is_wrong: false,
        }
    }

    /// The next word.
    pub fn word(&mut self) -> &'a str {
        match self.rest.split_once(' ') {
            Some((word, rest)) => {
                self.rest = rest;
                word
            }
            None => {
                let word = self.rest;
                self.rest = "";
                self.is_wrong |= word.is_empty();
                word
            }
        }
    }

    /// The next word, or that it is absent.
    pub fn optional(&mut self) -> Option<&'a str> {
        match self.word() {
            "~" => None,
            word => Some(word),
        }
    }

    pub fn number(&mut self) -> u64 {
        match self.word().parse::<u64>() {
            Ok(number) => number,
            Err(_) => self.refuse(0),
        }
    }

    pub fn flag(&mut self) -> bool {
        match self.word() {
            "true" => true,
            "false" => false,
            _ => self.refuse(false),
        }
    }

    /// What was read is wrong: this stands for it.
    pub fn refuse<T: Copy>(&mut self, value: T) -> T {
        self.is_wrong = true;
        value
    }

    /// All words were read, and each was what it should be.
    pub fn are_right(&self) -> bool {
        self.rest.is_empty() && !self.is_wrong
    }
}
