//! What the plan of a send is told.

use crate::content::{Batch, Version};
use pulsar_addresses::content::Text;

/// The number that was drawn for a message, its link, and whether there is room on it; and the name of its producer.
#[derive(Drop)]
pub struct Drawn {
    pub number: u64,
    pub link: u64,
    pub room: bool,
    pub name: Text,
}

/// What a plan is told, with what comes of an action, and the command by which a topic producer is made again.
#[derive(Drop)]
pub enum News<O, C> {
    /// What came of an action or of a request. A link that is not ready, and numbers that are spent, fail a draw.
    Told(O),
    /// Its frame is queued.
    Queued,
    /// Its frame stands in the line.
    InLine,
    /// It has its turn. The schema version of the topic producer is this.
    HasTurn(Option<Version>),
    /// It drew the number of a message.
    Drew(Drawn),
    /// A topic producer is made again by this command.
    Recalled(C),
    /// It drew the number of a new topic producer.
    Numbered(u64),
    /// A batch was cut, and none was under way.
    Ready,
    /// The next batch, where one was cut.
    HasBatch(Option<Batch>),
    /// What it did is done.
    Done,
}
