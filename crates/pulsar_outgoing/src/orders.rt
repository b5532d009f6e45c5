//! What is asked of producers: an order for one, and where a message is to go.

use crate::content::Settings;
use pulsar_addresses::content::Text;

/// The producer that is to be built.
#[derive(Drop)]
pub struct ProducerOrder {
    pub topic: Text,
    pub name: Option<Text>,
    pub options: Settings,
}

/// The number of the topic producer that is to send, and whether a message waits for room on its link.
#[derive(Clone, Copy)]
pub struct Errand {
    pub producer: u64,
    pub block: bool,
}
