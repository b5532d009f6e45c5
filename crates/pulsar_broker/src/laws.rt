//! What follows from the definitions, whatever the code.

ghost use Rattle.pulsar_broker.specs.Laws.{EndKeepsTopics, EndsAsIfClosed, KeepsWhatWasSent, ServesInOrder};

/// The messages of each topic are those that were sent to it, in order, and the end of a link changes none.
pub fn keeps_what_was_sent()
    ensures sent { KeepsWhatWasSent }
    ensures ended { EndKeepsTopics }
{}

/// A consumer is served the next messages of its subscription, in order, and the subscription has passed just these.
pub fn serves_in_order()
    ensures { ServesInOrder }
{}

/// The end of a link leaves what it would leave if each of its producers and consumers had been closed.
pub fn ends_as_if_closed()
    ensures { EndsAsIfClosed }
{}
