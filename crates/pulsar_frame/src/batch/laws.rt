//! What follows from the definition, whatever the code.

ghost use Rattle.pulsar_frame.specs.Batch.{BatchesReadBack};

/// The bytes of a batch, read with its count, give its entries unchanged and in order.
pub fn batches_read_back()
    ensures { BatchesReadBack }
{}
