//! What is asked of consumers: an order for one.

use crate::settings::Settings;
use pulsar_addresses::content::Text;

/// The consumer that is to be built.
#[derive(Drop)]
pub struct ConsumerOrder {
    /// Its topic, as that was asked for.
    pub topic: Text,
    /// How it is to be made.
    pub config: Settings,
}
