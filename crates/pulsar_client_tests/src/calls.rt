//! Events that are taken together, and URLs beside their addresses.

use crate::help::{LOCAL, events, options};
use pulsar_client::{Effect, Pulsar};
use pulsar_printing::effect::push_step;
use pulsar_wire::NoMemory;
use std::alloc::Global;
use std::test::Fail;

/// The effects of each line.
fn driven(alloc: Global, url: &str, lines: &str) -> Result<Vec<Vec<Effect>>, NoMemory> {
    let events = events(alloc, lines)?;
    Pulsar::drive(alloc, options(alloc, url)?, &events)
}

fn count(alloc: Global, lines: &str) -> Result<usize, NoMemory> {
    Ok(driven(alloc, LOCAL, lines)?.len())
}

/// One of each kind, on a link that is ready.
const EVENTS: &str = "call build
opened 0
bytes 0 0000000a0000000608031a020a00
drain 0 1
call topics ns all
call lookup t
call partitions t
call brokers t
call producer topic=t name=p
call send 5 data=a pk=k
call send-all 5 data=a / data=b
call flush 5
call check-producer 5
call close-producer 5
call consumer topic=t sub=s name=c
call ack 1 t 08001000
call ack-all 1 t 08001000
call nack 1 t 08001000
call close 1
call link 0 ping
call link 0 auth token %00%ff
call link 0 lookup a/b true
call link 0 partitions t
call link 0 topics ns non-persistent
call link 0 schema t %7E
call link 0 producer t 5 p
call link 0 send 5 p 2 true data=a pk=k
call link 0 close-producer 5
call link 0 subscribe t s shared 0
call link 0 flow 0 1000
call link 0 ack 0 individual 08011002
call link 0 redeliver 0 08011002
call link 0 seek 0 08011002 ~
call link 0 last-id 0
call link 0 stats 0
call link 0 unsubscribe 0
call link 0 close-consumer 0
poll 1
tick 1
failed 0 refused
lost 0
call stop
";

#[test]
fn events_are_taken_together(rt: HostRuntime) -> Result<(), Fail> {
    assert_eq!(rt; count(rt.alloc(), EVENTS)?, EVENTS.lines().count());
    Ok(())
}

/// The text of a build by a client with this URL.
fn built(alloc: Global, url: &str) -> Result<String, NoMemory> {
    let mut text = String::new(alloc);
    let steps = driven(alloc, url, "call build")?;
    for effects in &steps {
        push_step(&mut text, 0, effects)?;
    }
    Ok(text)
}

fn is_built(alloc: Global, url: &str, wanted: &str) -> Result<bool, NoMemory> {
    let built = built(alloc, url)?;
    Ok(built.as_str().lines().nth(1) == Some(wanted))
}

/// URLs, and what a build does.
const ADDRESSES: &str = "pulsar://127.0.0.1:6650 = connect 0 127.0.0.1 6650
pulsar://h = connect 0 h 6650
pulsar://h: = connect 0 h 6650
PULSAR://broker.example:7/a?b#c = connect 0 broker.example 7
pulsar://u:p@h:0 = connect 0 h 0
pulsar://[::1]:65535 = connect 0 %5B::1%5D 65535
 = ended 0 err connection.notfound
h = ended 0 err connection.notfound
h:6650 = ended 0 err connection.notfound
pulsar: = ended 0 err connection.notfound
pulsar:h = ended 0 err connection.notfound
pulsar:/h = ended 0 err connection.notfound
pulsar:// = ended 0 err connection.notfound
pulsar:///h = ended 0 err connection.notfound
pulsar://:7 = ended 0 err connection.notfound
pulsar://h:65536 = ended 0 err connection.notfound
pulsar://h:a = ended 0 err connection.notfound
pulsar://h i = ended 0 err connection.notfound
pulsar://[::1 = ended 0 err connection.notfound
pulsar+ssl://h = ended 0 err connection.notfound
http://h:6650 = ended 0 err connection.notfound
pulsars://h = ended 0 err connection.notfound
";

#[test]
fn the_address_is_that_of_the_url(rt: HostRuntime) -> Result<(), Fail> {
    for line in ADDRESSES.lines() {
        let (url, wanted) = line.split_once(" = ").unwrap_or((line, ""));
        assert!(rt; is_built(rt.alloc(), url, wanted)?, "{url}");
    }
    Ok(())
}
