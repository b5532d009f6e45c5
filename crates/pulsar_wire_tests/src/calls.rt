//! Calls that could always answer want of memory, and that no program runs.

use pulsar_wire::laws::round_trip;
use pulsar_wire::{
    AuthData, EncryptionKeys, KeyValue, MessageIdData, NoMemory, Schema, SingleMessageMetadata,
};
use std::alloc::Global;

/// Whether it was made. It is let go.
fn is_made<T: Drop>(made: Result<T, NoMemory>) -> bool {
    made.is_ok()
}

fn property(alloc: Global) -> bool {
    is_made(KeyValue::new(alloc).copy())
}

fn keys(alloc: Global) -> bool {
    is_made(EncryptionKeys::new(alloc).copy())
}

fn entry(alloc: Global) -> bool {
    is_made(SingleMessageMetadata::new(alloc).copy())
}

fn schema(alloc: Global) -> bool {
    is_made(Schema::new(alloc).copy())
}

#[test]
fn parts_are_copied(rt: HostRuntime) {
    assert!(rt; property(rt.alloc()));
    assert!(rt; keys(rt.alloc()));
    assert!(rt; entry(rt.alloc()));
    assert!(rt; schema(rt.alloc()));
    assert!(rt; is_made(AuthData::new().copy()));
}

fn goes_round(alloc: Global) -> bool {
    round_trip(alloc, &MessageIdData::new(alloc)).is_ok()
}

#[test]
fn what_is_written_is_read(rt: HostRuntime) {
    assert!(rt; goes_round(rt.alloc()));
}
