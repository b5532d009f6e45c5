//! What a failed build made is closed.

use pulsar_addresses::content::Refusal;
use pulsar_searches::closing::{self, Close, Closing, Made, MadeList};
use pulsar_searches::transition::Transition;
use pulsar_wire::error::ConnectionError;
use std::alloc::Global;
use std::test::Fail;

const PRODUCER: Made = Made {
    link: 0,
    what: Close::Producer(7),
};

const CONSUMER: Made = Made {
    link: 3,
    what: Close::Consumer(2),
};

fn refusal(alloc: Global) -> Result<Refusal, Fail> {
    Ok(Refusal::in_connection(alloc, ConnectionError::Exhausted)?)
}

/// What is closed from a step on, and what is given then.
fn closed(alloc: Global, mut step: Transition<Closing, Made, Refusal>) -> Result<String, Fail> {
    let mut text = String::new(alloc);
    for _ in 0..8 {
        match step {
            Transition::Stays(closing, made) => {
                text.push_str(format!(in alloc; "{made:?}\n")?.as_str())?;
                step = closing::told(closing);
            }
            Transition::Gives(refusal) => {
                let error = refusal.into_inner();
                text.push_str(format!(in alloc; "{error}")?.as_str())?;
                return Ok(text);
            }
        }
    }
    Ok(text)
}

#[test]
fn what_was_made_is_closed_in_order(rt: HostRuntime) -> Result<(), Fail> {
    let alloc = rt.alloc();
    let made = MadeList::new(alloc).with(PRODUCER)?.with(CONSUMER)?;
    let text = closed(alloc, closing::begins(made, refusal(alloc)?))?;
    assert_eq!(rt;
        text.as_str(),
        "Made { link: 0, what: Producer(7) }\nMade { link: 3, what: Consumer(2) }\nConnection error: counter exhausted"
    );
    Ok(())
}
