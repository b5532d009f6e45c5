//! Sends whose receipts are asked for by their tickets, and what was built.

use crate::help::{LOCAL, events, options};
use pulsar_client::{Call, Consumer, Producer, Pulsar, SendFuture, Taken};
use pulsar_wire::{CommandSendReceipt, Error, NoMemory, ProducerError};
use std::alloc::Global;
use std::test::Fail;

/// Behind a build: the producer of a topic, whose ticket is 1.
const PRODUCER: &str = "opened 0
bytes 0 0000000a0000000608031a020a00
call producer topic=t name=p
bytes 0 0000000f0000000b0816b20106080010001800
bytes 0 00000028000000240818c2011f0a1770756c7361723a2f2f3132372e302e302e313a36363530180120012801
bytes 0 0000000e0000000a08118a01050802120170
";

/// Behind a build: the consumer of a topic, whose ticket is 1.
const CONSUMER: &str = "opened 0
bytes 0 0000000a0000000608031a020a00
call consumer topic=t sub=s name=c
bytes 0 0000000f0000000b0816b20106080010001800
bytes 0 00000028000000240818c2011f0a1770756c7361723a2f2f3132372e302e302e313a36363530180120012801
bytes 0 0000000a00000006080d6a020802
";

/// A message of that producer.
const SEND: &str = "call send 1 data=a";

/// The receipt of its first message.
const RECEIPT: &str = "bytes 0 000000120000000e08073a0a080010001a0408011002";

/// What a poll has told.
#[derive(Clone, Copy, PartialEq, Eq)]
enum Told {
    Nothing,
    Receipt,
    Lost,
    Else,
}

fn of_poll(answer: &Option<Result<CommandSendReceipt, Error>>) -> Told {
    match answer {
        None => Told::Nothing,
        Some(Ok(receipt)) => of_number(receipt.sequence_id),
        Some(Err(error)) => of_error(error),
    }
}

fn of_number(number: u64) -> Told {
    if number == 0 {
        Told::Receipt
    } else {
        Told::Else
    }
}

fn of_error(error: &Error) -> Told {
    match error {
        Error::Producer(ProducerError::Custom(text)) => of_text(text.as_str()),
        _ => Told::Else,
    }
}

fn of_text(text: &str) -> Told {
    if text == "producer unexpectedly disconnected" {
        Told::Lost
    } else {
        Told::Else
    }
}

/// What is told of the send of a ticket.
fn poll(client: &mut Pulsar, ticket: u64) -> Told {
    of_poll(&SendFuture { ticket }.poll(client))
}

/// Takes the lines. One that lacks memory shows in what is told.
fn take(client: &mut Pulsar, alloc: Global, lines: &str) -> Result<(), NoMemory> {
    for event in events(alloc, lines)? {
        drop(client.step(event));
    }
    Ok(())
}

/// A client that has taken the lines behind its build.
fn client(alloc: Global, lines: &str) -> Result<Box<Pulsar>, NoMemory> {
    let made = Pulsar::new(alloc, options(alloc, LOCAL)?)?;
    let mut client = Box::new(alloc, made)?;
    drop(client.submit(Call::Build));
    take(&mut client, alloc, lines)?;
    Ok(client)
}

/// What is told of a send before its receipt, then, and after that; and of a ticket that was never drawn.
fn send(alloc: Global) -> Result<[Told; 4], NoMemory> {
    let mut client = client(alloc, PRODUCER)?;
    take(&mut client, alloc, SEND)?;
    let before = poll(&mut client, 2);
    take(&mut client, alloc, RECEIPT)?;
    let then = poll(&mut client, 2);
    let after = poll(&mut client, 2);
    Ok([before, then, after, poll(&mut client, 99)])
}

#[test]
fn a_receipt_is_told_once(rt: HostRuntime) -> Result<(), Fail> {
    let seen = send(rt.alloc())?;
    assert!(rt; seen == [Told::Nothing, Told::Receipt, Told::Lost, Told::Lost]);
    Ok(())
}

/// Whether this is the producer of the topic.
fn is_built(producer: Option<&Producer>) -> bool {
    match producer {
        Some(producer) => producer.topic() == "t",
        None => false,
    }
}

/// Whether the answer of a call is told once.
fn is_told_once(client: &mut Pulsar, ticket: u64) -> bool {
    let is_first = matches!(client.take_answer(ticket), Taken::Answer(Ok(_)));
    is_first && matches!(client.take_answer(ticket), Taken::Unknown)
}

/// Whether the producer is lent under its ticket, and the answer of its call told once.
fn lends(alloc: Global) -> Result<bool, NoMemory> {
    let mut client = client(alloc, PRODUCER)?;
    let is_lent = is_built(client.producer_at(1)) && client.producer_at(0).is_none();
    Ok(is_lent && is_told_once(&mut client, 1))
}

#[test]
fn a_producer_is_lent(rt: HostRuntime) -> Result<(), Fail> {
    assert!(rt; lends(rt.alloc())?);
    Ok(())
}

/// Whether this is a consumer of that subscription.
fn is_subscribed(consumer: Option<&Consumer>) -> bool {
    match consumer {
        Some(consumer) => consumer.subscription() == "s",
        None => false,
    }
}

/// Whether the consumer is lent under its ticket, and the answer of its call told once.
fn lends_consumer(alloc: Global) -> Result<bool, NoMemory> {
    let mut client = client(alloc, CONSUMER)?;
    let is_lent = is_subscribed(client.consumer_at(1)) && client.consumer_at(0).is_none();
    Ok(is_lent && is_told_once(&mut client, 1))
}

#[test]
fn a_consumer_is_lent(rt: HostRuntime) -> Result<(), Fail> {
    assert!(rt; lends_consumer(rt.alloc())?);
    Ok(())
}
