//! What follows of alarms from the definition of a good run: each contract is a law, and its body is empty.

ghost use Rattle.pulsar_laws.specs.AlarmLaws.{AlarmsAct, AlarmsComeInTime, IdleIsUnused};

/// An alarm whose moment has come comes in the tick at which it has, and does what it is for: an attempt is made again, one who waited is told so, what is
/// stored is cut into a batch, a link is pinged, and links end that nothing uses.
pub fn alarms_act()
    ensures in_time { AlarmsComeInTime }
    ensures act { AlarmsAct }
    ensures idle { IdleIsUnused }
{}
