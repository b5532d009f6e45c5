//! What words mean that the laws of runs name: each contract is a law, and its body is empty.

ghost use Rattle.pulsar_laws.specs.WordLaws.{CommandsAreSaid, ConsumersAreMadeSo, EffectsAreSaid, EndsAreSaid, FaultsAreSaid, FaultsThatPass, GivenIsSaid, LinksAreDialed, LinksAreDue, MetadataSays, RequestsAreDue, VersionIsTaken};

/// A frame says of its message what its producer says of that, under the name that the broker has given, with the version of the schema that the broker
/// has said where the message has none.
pub fn frames_say_their_messages()
    ensures metadata { MetadataSays }
    ensures version { VersionIsTaken }
    ensures given { GivenIsSaid }
{}

/// A consumer is made so as its call, or the raw request, says; and it is subscribed again, and a producer made again, by what their calls have said.
pub fn consumers_are_made_so()
    ensures made { ConsumersAreMadeSo }
    ensures again { CommandsAreSaid }
{}

/// A link is dialed by the options, to the host and the port of its address; it is due, and a request on it, as long afterwards as they say.
pub fn links_are_dialed()
    ensures dialed { LinksAreDialed }
    ensures due { LinksAreDue }
    ensures requests { RequestsAreDue }
{}

/// A call fails with the fault that an outcome tells, an end of a link is told and shown as what it is, and a fault may pass just where these say so.
pub fn faults_are_said()
    ensures said { FaultsAreSaid }
    ensures ends { EndsAreSaid }
    ensures shown { EffectsAreSaid }
    ensures pass { FaultsThatPass }
{}
