//! What goes into a sink.

ghost use Rattle.std.specs.Prelude.{◌≡◌, ◌≤◌, OnErr, OnOk};
ghost use Rattle.pulsar_streams.specs.Outside.{Rose};
ghost use Rattle.pulsar_job.specs.Outside.{Adds, AddsFront};

use pulsar_streams::outside::Failed;
use pulsar_streams::outside::sink::Sink;

/// Puts all bytes.
pub fn put_all<K: Sink>(sink: &mut K, bytes: &[u8]) -> Result<(), Failed>
    ensures ok { OnOk result (Adds (K.holds sink.old) (K.holds sink.new) bytes.now) }
    ensures front { OnErr result (AddsFront (K.holds sink.old) (K.holds sink.new) bytes.now) }
    ensures rises { OnErr result (Rose (K.faults sink.old) (K.faults sink.new)) }
    ensures grows { K.faults sink.old ≤ K.faults sink.new }
{
    let mut done = 0;
    while done < bytes.len() {
        let Ok(n) = sink.put(&bytes[done..]) else {
            return Err(Failed);
        };
        if n == 0 {
            return Err(Failed);
        }
        done += n;
    }
    Ok(())
}
