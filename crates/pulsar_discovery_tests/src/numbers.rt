//! Retries, their delays, and what is drawn.

use pulsar_addresses::options::{
    ConnectionRetryOptions, OperationRetryOptions, allow_retry, backoff,
};
use pulsar_addresses::random::connection_id;
use uuid::Version;

#[test]
fn retries_have_their_delay(rt: HostRuntime) {
    let options = ConnectionRetryOptions::default();
    assert_eq!(rt; backoff(&options, 11, 9), 20570);
    assert_eq!(rt; backoff(&options, 0, 0), 10);
    assert_eq!(rt; backoff(&options, u32::MAX, 0), 30000);
    assert!(rt; OperationRetryOptions::default().allow_retry(7));
    for n in [0, 100, 4294967295] {
        assert!(rt; allow_retry(None, n));
    }
    for (n, allowed) in [(0, true), (2, true), (3, false), (4, false)] {
        assert!(rt; allow_retry(Some(3), n) == allowed);
    }
    assert!(rt; !allow_retry(Some(0), 0));
}

#[test]
fn an_id_is_of_version_four(rt: HostRuntime) {
    let id = connection_id(0, 7);
    assert!(rt; matches!(id.get_version(), Some(Version::Random)));
    assert!(rt; id != connection_id(0, 8));
}
