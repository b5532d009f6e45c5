//! Searches, as frames.

use crate::help::{Tell, manager, run};
use pulsar_discovery::{
    ServiceDiscovery, handle_retry_error, retry_create_producer, retry_subscribe_consumer,
};
use pulsar_messages::{ConsumerOptions, ProducerOptions};
use pulsar_wire::commands::enumerations::{ServerError, SubType};
use pulsar_wire::error::ConnectionError;
use std::alloc::Global;
use std::test::Fail;

const MOST: &[u8] =
    b"\x00\x00\x00\x13\x00\x00\x00\x0f\x08\x16\xb2\x01\x0a\x08\xff\xff\xff\xff\x0f\x10\x00\x18\x00";

const TWO: &[u8] = b"\x00\x00\x00\x0f\x00\x00\x00\x0b\x08\x16\xb2\x01\x06\x08\x02\x10\x00\x18\x00";

const NOT_READY: &[u8] =
    b"\x00\x00\x00\x0f\x00\x00\x00\x0b\x08\x18\xc2\x01\x06\x18\x02\x20\x00\x30\x06";

const SERVED: &[u8] =
    b"\x00\x00\x00\x28\x00\x00\x00\x24\x08\x18\xc2\x01\x1f\x0a\x17pulsar://127.0.0.1:6650\x18\x01\x20\x01\x28\x01";

const REDIRECTED: &[u8] =
    b"\x00\x00\x00\x1f\x00\x00\x00\x1b\x08\x18\xc2\x01\x16\x0a\x0cpulsar://b:7\x18\x00\x20\x01\x28\x01\x40\x01";

const SUCCESS: &[u8] = b"\x00\x00\x00\x0a\x00\x00\x00\x06\x08\x0d\x6a\x02\x08\x00";

const MADE: &[u8] = b"\x00\x00\x00\x0e\x00\x00\x00\x0a\x08\x11\x8a\x01\x05\x08\x00\x12\x01p";

const ASK_COUNT: &str = "ask 0 0000000e0000000a0815aa01050a01741000\n";

const ASK_LOOK: &str = "ask 0 000000100000000c0817ba01070a017410001800\n";

const BASE: &str = "get pulsar://127.0.0.1:6650 127.0.0.1:6650 false\n";

fn discovery(alloc: Global, retries: Option<u32>) -> Result<ServiceDiscovery, Fail> {
    Ok(ServiceDiscovery::with_manager(alloc, &manager(alloc, retries)?)?)
}

/// What a machine says, and what it is to say.
fn says(alloc: Global, text: &str, lines: &[&str]) -> Result<bool, Fail> {
    let mut wanted = String::new(alloc);
    for line in lines {
        wanted.push_str(line)?;
    }
    Ok(text == wanted.as_str())
}

#[test]
fn a_topic_that_is_a_partition_has_none(rt: HostRuntime) -> Result<(), Fail> {
    let alloc = rt.alloc();
    let machine = discovery(alloc, None)?.lookup_partitioned_topic_number("x-partition-3")?;
    let text = run(alloc, machine, &[Tell::Start, Tell::Start])?;
    assert_eq!(rt;
        text.as_str(),
        "done 0\nrefuse Connection error: Disconnected\n"
    );
    Ok(())
}

#[test]
fn the_first_of_very_many_partitions_is_looked_up(rt: HostRuntime) -> Result<(), Fail> {
    let alloc = rt.alloc();
    let machine = discovery(alloc, None)?.lookup_partitioned_topic("t")?;
    let tells = [Tell::Start, Tell::Link(0), Tell::Reply(MOST), Tell::Link(0)];
    let text = run(alloc, machine, &tells)?;
    let part = "ask 0 0000001c000000180817ba01130a0d742d706172746974696f6e2d3010001800\n";
    assert!(rt;
        says(alloc, text.as_str(), &[BASE, ASK_COUNT, BASE, part])?,
        "{text}"
    );
    Ok(())
}

#[test]
fn partitions_are_found_in_order(rt: HostRuntime) -> Result<(), Fail> {
    let alloc = rt.alloc();
    let machine = discovery(alloc, None)?.lookup_partitioned_topic("t")?;
    let tells = [
        Tell::Start,
        Tell::Link(0),
        Tell::Reply(TWO),
        Tell::Link(0),
        Tell::Reply(SERVED),
        Tell::Link(0),
        Tell::Link(0),
        Tell::Reply(SERVED),
        Tell::Link(0),
    ];
    let text = run(alloc, machine, &tells)?;
    let first = "ask 0 0000001c000000180817ba01130a0d742d706172746974696f6e2d3010001800\n";
    let second = "ask 0 0000001c000000180817ba01130a0d742d706172746974696f6e2d3110001800\n";
    let done =
        "done t-partition-0 pulsar://127.0.0.1:6650 127.0.0.1:6650 false;t-partition-1 pulsar://127.0.0.1:6650 127.0.0.1:6650 false;\n";
    let wanted = [BASE, ASK_COUNT, BASE, first, BASE, BASE, second, BASE, done];
    assert!(rt; says(alloc, text.as_str(), &wanted)?, "{text}");
    Ok(())
}

#[test]
fn a_lookup_is_asked_again_where_the_service_is_not_ready(rt: HostRuntime) -> Result<(), Fail> {
    let alloc = rt.alloc();
    let machine = discovery(alloc, None)?.lookup_topic("t")?;
    let tells = [
        Tell::Start,
        Tell::Link(0),
        Tell::Reply(NOT_READY),
        Tell::Moment,
        Tell::Reply(SERVED),
        Tell::Link(0),
        Tell::Moment,
    ];
    let text = run(alloc, machine, &tells)?;
    let done = "done pulsar://127.0.0.1:6650 127.0.0.1:6650 false\n";
    let behind = "refuse Connection error: Disconnected\n";
    let wanted = [BASE, ASK_LOOK, "wait 5000\n", ASK_LOOK, BASE, done, behind];
    assert!(rt; says(alloc, text.as_str(), &wanted)?, "{text}");
    Ok(())
}

#[test]
fn without_retries_the_broker_s_error_is_the_end(rt: HostRuntime) -> Result<(), Fail> {
    let alloc = rt.alloc();
    let machine = discovery(alloc, Some(0))?.lookup_topic("t")?;
    let tells = [Tell::Start, Tell::Link(0), Tell::Reply(NOT_READY)];
    let text = run(alloc, machine, &tells)?;
    let end = "refuse service discovery error: Query error (Some(ServiceNotReady)): \n";
    assert!(rt;
        says(alloc, text.as_str(), &[BASE, ASK_LOOK, end])?,
        "{text}"
    );
    Ok(())
}

#[test]
fn the_second_loss_of_a_question_is_the_end(rt: HostRuntime) -> Result<(), Fail> {
    let alloc = rt.alloc();
    let machine = discovery(alloc, None)?.lookup_topic("t")?;
    let tells = [
        Tell::Start,
        Tell::Link(0),
        Tell::Lost,
        Tell::Link(1),
        Tell::Lost,
    ];
    let text = run(alloc, machine, &tells)?;
    let again = "ask 1 000000100000000c0817ba01070a017410001800\n";
    let end = "refuse service discovery error: Connection error: Disconnected\n";
    assert!(rt;
        says(alloc, text.as_str(), &[BASE, ASK_LOOK, BASE, again, end])?,
        "{text}"
    );
    Ok(())
}

#[test]
fn a_proxy_stays(rt: HostRuntime) -> Result<(), Fail> {
    let alloc = rt.alloc();
    let machine = discovery(alloc, None)?.lookup_topic("t")?;
    let tells = [
        Tell::Start,
        Tell::Link(0),
        Tell::Reply(REDIRECTED),
        Tell::Link(1),
        Tell::Reply(SERVED),
        Tell::Link(2),
    ];
    let text = run(alloc, machine, &tells)?;
    let wanted = [
        BASE,
        ASK_LOOK,
        "get pulsar://127.0.0.1:6650 b:7 true\n",
        "ask 1 000000100000000c0817ba01070a017410001801\n",
        "get pulsar://127.0.0.1:6650 127.0.0.1:6650 true\n",
        "done pulsar://127.0.0.1:6650 127.0.0.1:6650 true\n",
    ];
    assert!(rt; says(alloc, text.as_str(), &wanted)?, "{text}");
    Ok(())
}

#[test]
fn a_producer_is_made_behind_a_retry(rt: HostRuntime) -> Result<(), Fail> {
    let alloc = rt.alloc();
    let options = ProducerOptions::new(alloc);
    let address = manager(alloc, None)?.get_base_address()?;
    let discovery = discovery(alloc, Some(1))?;
    let machine = retry_create_producer(alloc, &discovery, "t", address, 0, None, &options)?;
    let tells = [
        Tell::Start,
        Tell::Link(0),
        Tell::Late,
        Tell::Moment,
        Tell::Link(0),
        Tell::Reply(SERVED),
        Tell::Link(0),
        Tell::Link(0),
        Tell::Reply(MADE),
    ];
    let text = run(alloc, machine, &tells)?;
    let ask = "ask 0 0000000f0000000b08052a070a017410001800\n";
    let done = "done 0 0000000e0000000a08118a01050800120170\n";
    let wanted = [
        BASE,
        ask,
        "wait 5000\n",
        BASE,
        ASK_LOOK,
        BASE,
        BASE,
        ask,
        done,
    ];
    assert!(rt; says(alloc, text.as_str(), &wanted)?, "{text}");
    Ok(())
}

#[test]
fn a_consumer_is_made(rt: HostRuntime) -> Result<(), Fail> {
    let alloc = rt.alloc();
    let options = ConsumerOptions::new(alloc);
    let address = manager(alloc, None)?.get_base_address()?;
    let discovery = discovery(alloc, Some(1))?;
    let machine = retry_subscribe_consumer(
        alloc,
        &discovery,
        "t",
        address,
        "s",
        SubType::Shared,
        0,
        None,
        &options,
    )?;
    let tells = [Tell::Start, Tell::Link(0), Tell::Reply(SUCCESS)];
    let text = run(alloc, machine, &tells)?;
    let ask = "ask 0 0000001800000014080422100a017412017318012000280058006800\n";
    let done = "done 0 0000000a00000006080d6a020800\n";
    assert!(rt; says(alloc, text.as_str(), &[BASE, ask, done])?, "{text}");
    Ok(())
}

#[test]
fn an_error_that_stays_is_no_retry(rt: HostRuntime) -> Result<(), Fail> {
    let alloc = rt.alloc();
    let discovery = discovery(alloc, None)?;
    let error = ConnectionError::Shutdown;
    let machine = handle_retry_error(alloc, &discovery, "t", 0, error)?;
    let text = run(alloc, machine, &[Tell::Start])?;
    assert_eq!(rt;
        text.as_str(),
        "refuse Connection error: The connection was shut down\n"
    );
    Ok(())
}

#[test]
fn a_command_is_tried_again_where_the_broker_is_then(rt: HostRuntime) -> Result<(), Fail> {
    let alloc = rt.alloc();
    let discovery = discovery(alloc, Some(1))?;
    let error = ConnectionError::PulsarError(Some(ServerError::ProducerBusy), None);
    let machine = handle_retry_error(alloc, &discovery, "t", 0, error)?;
    let tells = [
        Tell::Start,
        Tell::Moment,
        Tell::Link(0),
        Tell::Reply(SERVED),
        Tell::Link(0),
    ];
    let text = run(alloc, machine, &tells)?;
    let done = "done pulsar://127.0.0.1:6650 127.0.0.1:6650 false\n";
    let wanted = ["wait 5000\n", BASE, ASK_LOOK, BASE, done];
    assert!(rt; says(alloc, text.as_str(), &wanted)?, "{text}");
    let error = ConnectionError::PulsarError(Some(ServerError::ProducerBusy), None);
    let machine = handle_retry_error(alloc, &discovery, "t", 1, error)?;
    let text = run(alloc, machine, &[Tell::Start])?;
    assert!(rt;
        text.as_str().starts_with("refuse Connection error: "),
        "{text}"
    );
    Ok(())
}
