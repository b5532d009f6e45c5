//! The lines, and the connection that they call.

use crate::stop::Stop;
use crate::words::Words;
use crate::{builders, looks, values};
use pulsar_session::Connection;
use std::alloc::Global;

/// The connection that lines call, and how many of them there were.
#[derive(Drop)]
pub struct Bench {
    link: Option<Box<Connection>>,
    line: u64,
    calls: u64,
    differ: u64,
}

impl Bench {
    /// No line was read.
    pub fn new() -> Bench {
        Bench {
            link: None,
            line: 0,
            calls: 0,
            differ: 0,
        }
    }

    /// Runs a line, and prints it where its answer differs.
    pub fn take(&mut self, rt: &impl Print, alloc: Global, line: &str) -> Result<(), Stop> {
        self.line = self.line.saturating_add(1);
        if line.is_empty() || line.starts_with('#') {
            return Ok(());
        }
        let Some((call, wanted)) = line.split_once(" = ") else {
            return Err(Stop::NoForm);
        };
        let answer = self.answer(alloc, call)?;
        self.calls = self.calls.saturating_add(1);
        if answer.as_str() != wanted {
            self.differ = self.differ.saturating_add(1);
            let number = self.line;
            println!(rt; "line {number}: {call} = {answer}")?;
        }
        Ok(())
    }

    /// Prints how many calls there were, and says whether all were answered as they should.
    pub fn sum(&self, rt: &impl Print) -> Result<bool, Stop> {
        let calls = self.calls;
        let differ = self.differ;
        println!(rt; "{calls} calls, {differ} differ")?;
        Ok(differ == 0)
    }

    /// The answer to a call, and `?` where there is no such call.
    fn answer(&mut self, alloc: Global, call: &str) -> Result<String, Stop> {
        let mut words = Words::new(call);
        let answer = self.answer_words(alloc, &mut words)?;
        if words.are_right() {
            return Ok(answer);
        }
        Ok(String::from_str(alloc, "?")?)
    }

    fn answer_words(&mut self, alloc: Global, words: &mut Words<'_>) -> Result<String, Stop> {
        match words.word() {
            "new" => {
                self.link = Some(values::connection(alloc, words)?);
                Ok(String::from_str(alloc, "()")?)
            }
            "messages" => builders::answer(alloc, words),
            call => match &mut self.link {
                Some(link) => looks::answer(alloc, link, call, words),
                None => Err(Stop::NoForm),
            },
        }
    }
}
