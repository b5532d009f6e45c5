//! Each raw call is copied, and asked for.

use pulsar_exchange::content::Request;
use pulsar_exchange::{Authentication, ConsumerOptions, ProducerMessage, ProducerOptions, RawCall};
use pulsar_links::ask::ask;
use pulsar_session::{Asked, Connection};
use pulsar_wire::commands::enumerations::SubType;
use pulsar_wire::commands::topics::Mode;
use pulsar_wire::{MessageIdData, NoMemory};
use std::alloc::Global;
use std::test::Fail;
use url::Url;
use uuid::Uuid;

/// What a broker says first, as another encoder writes it.
const CONNECTED: &[u8] = b"\x00\x00\x00\x0a\x00\x00\x00\x06\x08\x03\x1a\x02\x0a\x00";

/// The request 0 for the topics of a namespace, as another encoder writes it.
const TOPICS: &[u8] =
    b"\x00\x00\x00\x1d\x00\x00\x00\x19\x08\x20\x82\x02\x14\x08\x00\x12\x0epublic/default\x18\x02";

/// The close of the consumer 7 under the request 0, as another encoder writes it.
const CLOSE: &[u8] = b"\x00\x00\x00\x0d\x00\x00\x00\x09\x08\x10\x82\x01\x04\x08\x07\x10\x00";

/// A connection that is ready. Its connect frame has place 0.
fn ready(alloc: Global) -> Result<Box<Connection>, NoMemory> {
    let Ok(url) = Url::parse(alloc, "pulsar://127.0.0.1:6650") else {
        return Err(NoMemory);
    };
    let made = Connection::new(alloc, Uuid::nil(), url, None, None, 10000, 30000, 100, 0, 0)?;
    let mut connection = Box::new(alloc, made)?;
    connection.opened(0)?;
    connection.feed(CONNECTED)?;
    connection.next(0)?;
    Ok(connection)
}

/// A call is asked for, and queued at this place.
fn is_queued(
    connection: &mut Connection,
    alloc: Global,
    call: RawCall,
    place: u64,
) -> Result<bool, NoMemory> {
    let request = Request::new(alloc, call.copy()?)?;
    match ask(connection, 0, request) {
        Ok(asked) => Ok(asked == Asked::Queued(place)),
        Err(_) => Ok(false),
    }
}

fn text(alloc: Global) -> Result<String, NoMemory> {
    Ok(String::from_str(alloc, "t")?)
}

fn ids(alloc: Global) -> Result<Vec<MessageIdData>, NoMemory> {
    let mut ids = Vec::new(alloc);
    ids.push(MessageIdData::new(alloc))?;
    Ok(ids)
}

fn subscribe(alloc: Global) -> Result<RawCall, NoMemory> {
    Ok(RawCall::Subscribe {
        topic: text(alloc)?,
        subscription: text(alloc)?,
        sub_type: SubType::Shared,
        consumer_id: 7,
        name: Some(text(alloc)?),
        options: ConsumerOptions::new(alloc),
    })
}

#[test]
fn questions(rt: HostRuntime) -> Result<(), Fail> {
    let alloc = rt.alloc();
    let mut connection = ready(alloc)?;
    let call = RawCall::GetTopicsOfNamespace {
        namespace: String::from_str(alloc, "public/default")?,
        mode: Mode::All,
    };
    assert!(rt; is_queued(&mut connection, alloc, call, 1)?);
    assert!(rt; connection.frame(1) == Some(TOPICS));
    let call = RawCall::LookupTopic {
        topic: text(alloc)?,
        authoritative: true,
    };
    assert!(rt; is_queued(&mut connection, alloc, call, 2)?);
    let call = RawCall::LookupPartitionedTopic {
        topic: text(alloc)?,
    };
    assert!(rt; is_queued(&mut connection, alloc, call, 3)?);
    let call = RawCall::GetSchema {
        topic: text(alloc)?,
        version: Some(b"v".to_vec(alloc)?),
    };
    assert!(rt; is_queued(&mut connection, alloc, call, 4)?);
    Ok(())
}

#[test]
fn producers(rt: HostRuntime) -> Result<(), Fail> {
    let alloc = rt.alloc();
    let mut connection = ready(alloc)?;
    let call = RawCall::CreateProducer {
        topic: text(alloc)?,
        producer_id: 5,
        name: Some(text(alloc)?),
        options: ProducerOptions::new(alloc),
    };
    assert!(rt; is_queued(&mut connection, alloc, call, 1)?);
    let call = RawCall::Send {
        producer_id: 5,
        name: text(alloc)?,
        sequence_id: 0,
        message: ProducerMessage::new(alloc),
        block: false,
    };
    assert!(rt; is_queued(&mut connection, alloc, call, 2)?);
    let call = RawCall::CloseProducer { producer_id: 5 };
    assert!(rt; is_queued(&mut connection, alloc, call, 3)?);
    let call = RawCall::AuthChallenge {
        auth: Authentication {
            name: text(alloc)?,
            auth_data: b"d".to_vec(alloc)?,
        },
    };
    assert!(rt; is_queued(&mut connection, alloc, call, 4)?);
    assert!(rt; is_queued(&mut connection, alloc, RawCall::SendPing, 5)?);
    Ok(())
}

#[test]
fn consumers(rt: HostRuntime) -> Result<(), Fail> {
    let alloc = rt.alloc();
    let mut connection = ready(alloc)?;
    let call = subscribe(alloc)?;
    assert!(rt; is_queued(&mut connection, alloc, call, 1)?);
    let call = RawCall::SendFlow {
        consumer_id: 7,
        permits: 1000,
    };
    assert!(rt; is_queued(&mut connection, alloc, call, 2)?);
    let call = RawCall::SendAck {
        consumer_id: 7,
        ids: ids(alloc)?,
        cumulative: false,
    };
    assert!(rt; is_queued(&mut connection, alloc, call, 3)?);
    let call = RawCall::SendRedeliver {
        consumer_id: 7,
        ids: ids(alloc)?,
    };
    assert!(rt; is_queued(&mut connection, alloc, call, 4)?);
    let call = RawCall::Seek {
        consumer_id: 7,
        id: Some(MessageIdData::new(alloc)),
        time: None,
    };
    assert!(rt; is_queued(&mut connection, alloc, call, 5)?);
    Ok(())
}

#[test]
fn consumers_by_number(rt: HostRuntime) -> Result<(), Fail> {
    let alloc = rt.alloc();
    let mut connection = ready(alloc)?;
    let call = RawCall::GetConsumerStats { consumer_id: 7 };
    assert!(rt; is_queued(&mut connection, alloc, call, 1)?);
    let call = RawCall::GetLastMessageId { consumer_id: 7 };
    assert!(rt; is_queued(&mut connection, alloc, call, 2)?);
    let call = RawCall::Unsubscribe { consumer_id: 7 };
    assert!(rt; is_queued(&mut connection, alloc, call, 3)?);
    let call = RawCall::CloseConsumer { consumer_id: 7 };
    assert!(rt; is_queued(&mut connection, alloc, call, 4)?);
    Ok(())
}

#[test]
fn what_is_known_of_a_request(rt: HostRuntime) -> Result<(), Fail> {
    let alloc = rt.alloc();
    let request = Request::new(alloc, subscribe(alloc)?)?;
    assert!(rt; request.number() == 4);
    assert!(rt; request.closed_consumer() == None);
    assert!(rt; request.named_consumer() == Some(7));
    match request.subscribed(alloc)? {
        Some(made) => {
            assert!(rt; made.consumer() == 7);
            let made = made.into_inner();
            assert!(rt; made.topic.as_str() == "t" && made.subscription.as_str() == "t");
        }
        None => {
            assert!(rt; false);
        }
    }
    Ok(())
}

#[test]
fn a_call_names_its_consumer(rt: HostRuntime) -> Result<(), Fail> {
    let alloc = rt.alloc();
    let flow = RawCall::SendFlow {
        consumer_id: 7,
        permits: 1,
    };
    assert!(rt; flow.named_consumer() == Some(7) && !flow.is_awaited());
    let close = RawCall::CloseProducer { producer_id: 7 };
    assert!(rt; close.named_consumer() == None);
    let request = Request::new(alloc, close)?;
    assert!(rt; request.named_consumer() == None && request.subscribed(alloc)?.is_none());
    assert!(rt; request.is_awaited());
    Ok(())
}

/// It is asked for as a close is, and no answer to it is waited for.
#[test]
fn a_consumer_is_closed_and_nobody_waits(rt: HostRuntime) -> Result<(), Fail> {
    let alloc = rt.alloc();
    let mut connection = ready(alloc)?;
    let request = Request::closing(7).copy(alloc)?;
    assert!(rt; request.number() == 16 && !request.is_awaited());
    assert!(rt; request.closed_consumer() == Some(7) && request.named_consumer() == Some(7));
    assert!(rt; request.subscribed(alloc)?.is_none());
    let asked = ask(&mut connection, 0, request);
    assert!(rt; matches!(&asked, Ok(Asked::Queued(1))));
    assert!(rt; connection.frame(1) == Some(CLOSE));
    assert!(rt; !connection.overdue(1, 30000));
    Ok(())
}
