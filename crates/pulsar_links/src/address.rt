//! Where an address leads.

ghost use Rattle.std.specs.Prelude.{◌≡◌, ◌++◌, OnOk, map};
ghost use Rattle.pulsar_calls.specs.Content.{shown};
ghost use Rattle.pulsar_links.specs.LinkEffects.{connects};

use pulsar_addresses::content::Address;
use pulsar_calls::effect::Effect;
use pulsar_wire::error::NoMemory;
use std::alloc::Global;

/// The port of a broker.
const DEFAULT_PORT: u16 = 6650;

/// Asks for a connection to where an address leads.
pub fn connect(
    alloc: Global,
    address: &Address,
    link: u64,
    out: &mut Vec<Effect>,
) -> Result<(), NoMemory>
    ensures { OnOk result (map shown out.new.items ≡ map shown out.old.items ++ connects link address.now) }
{
    let url = address.url();
    let Some(host) = url.host_str() else {
        return Ok(());
    };
    let host = String::from_str(alloc, host)?;
    let port = url.port().unwrap_or(DEFAULT_PORT);
    out.push(Effect::Connect { link, host, port })?;
    Ok(())
}
