//! What the words of the command line ask for.

use crate::sample::Sample;

/// What is done, again and again.
#[derive(Clone, Copy)]
pub enum Work {
    /// Frames are read from pieces of a stream.
    Decode(Sample),
    /// Frames are written.
    Encode(Sample),
    /// A command alone is read and written, without a frame.
    Command(Sample),
    /// The checksum of a buffer is taken.
    Checksum,
}

#[derive(Clone, Copy)]
pub struct Job {
    pub work: Work,
    /// How many times.
    pub count: u64,
}

impl Work {
    pub fn name(self) -> &'static str {
        match self {
            Work::Decode(_) => "decode",
            Work::Encode(_) => "encode",
            Work::Command(_) => "command",
            Work::Checksum => "checksum",
        }
    }

    /// What it is done with.
    pub fn subject(self) -> &'static str {
        match self {
            Work::Decode(sample) | Work::Encode(sample) | Work::Command(sample) => sample.name(),
            Work::Checksum => "buffer",
        }
    }

    fn of(name: &str, subject: &str) -> Option<Work> {
        if name == "checksum" && subject == "buffer" {
            return Some(Work::Checksum);
        }
        let sample = Sample::of(subject)?;
        if name == "decode" {
            Some(Work::Decode(sample))
        } else if name == "encode" {
            Some(Work::Encode(sample))
        } else if name == "command" {
            Some(Work::Command(sample))
        } else {
            None
        }
    }
}

impl Job {
    /// What the words ask for, if they are the three words of a job.
    pub fn of(words: &[String]) -> Option<Job> {
        let [name, subject, count] = words else {
            return None;
        };
        let count = match count.as_str().parse::<u64>() {
            Ok(count) => count,
            Err(_) => return None,
        };
        Some(Job {
            work: Work::of(name.as_str(), subject.as_str())?,
            count,
        })
    }
}
