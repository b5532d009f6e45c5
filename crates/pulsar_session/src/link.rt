//! What a connection keeps, and what it does.

ghost use Rattle.std.specs.Prelude.{◌≡◌, ◌++◌, Some, None, Bool, true, false, IfOk, OnOk, OnErr, option_copied, filter, take, drop, if◌then◌else◌};
ghost use Rattle.std.specs.List.{flat_map};
ghost use Rattle.std.specs.Option.{option_map};
ghost use Rattle.pulsar_frame.specs.Shown.{message_values};
ghost use Rattle.pulsar_frame.specs.Frame.{front};
ghost use Rattle.pulsar_messages.specs.Content.{authentication_values};
ghost use Rattle.pulsar_requests.specs.Waits.{places};
ghost use Rattle.pulsar_session.specs.Answers.{answers};
ghost use Rattle.pulsar_wire.specs.Failures.{fault};
ghost use Rattle.pulsar_session.specs.Kept.{OnAnswer, arrival_of, arrives, contents, setup_of, table};
ghost use Rattle.pulsar_session.specs.Link.{answered, answered_to, asks_for, came, came_by, came_in, challenged, closes, drained, drawn, due, ends, feeds, frame_at, frame_for, fresh, greeting, greets_with, has_room, is_late, is_open, is_over, is_ready, moved_up, named_by, number_for, opens_in, place_of, put_frame, pongs, put_in, queue, reacts, received, responds, settled_by, taken_in, ticked, written};
ghost use Rattle.pulsar_session.specs.Soonest.{due_at};

use crate::frames::{Arrival, Next, awaited_by, command_frame, is, unasked, unready};
use crate::incoming::{First, Incoming};
use crate::messages::text;
use crate::service::copy_auth;
use crate::states::{Asked, Stage};
use pulsar_frame::message::Message;
use pulsar_messages::{Authentication, messages as builders};
use pulsar_requests::requests::{Requests, moment};
use pulsar_wire::awaited::Claim;
use pulsar_wire::bodies;
use pulsar_wire::error::{ConnectionError, IoKind, NoMemory, Reason};
use std::alloc::Global;
use std::collections::VecDeque;
use std::mem::replace;
use url::Url;
use uuid::Uuid;

/// What a connection is made with.
#[derive(Drop)]
pub struct Setup {
    pub id: Uuid,
    pub url: Url,
    pub auth: Option<Authentication>,
    pub proxy: Option<String>,
    pub connection_timeout: u64,
    pub operation_timeout: u64,
    pub outbound: usize,
    pub first_number: u64,
    pub made: u64,
}

/// A frame that stands in the line.
#[derive(Drop)]
pub struct Standing {
    pub frame: Vec<u8>,
    pub claim: Option<Claim>,
}

/// What a connection keeps.
#[derive(Drop)]
pub struct Link {
    pub alloc: Global,
    pub setup: Setup,
    pub stage: Stage,
    pub error: Option<ConnectionError>,
    pub next_number: u64,
    pub unwritten: VecDeque<Vec<u8>>,
    pub line: VecDeque<Standing>,
    pub requests: Requests,
    pub incoming: Incoming,
}

impl Link {
    pub fn new(alloc: Global, setup: Setup) -> Link
        ensures { table result ≡ fresh (setup_of setup) }
    {
        Link {
            alloc,
            stage: Stage::Dialing,
            error: None,
            next_number: setup.first_number,
            unwritten: VecDeque::new(alloc),
            line: VecDeque::new(alloc),
            requests: Requests::new(alloc, setup.operation_timeout, setup.made),
            incoming: Incoming::new(alloc),
            setup,
        }
    }

    fn is_open(&self) -> bool
        ensures { result ≡ is_open self.now.stage }
    {
        match self.stage {
            Stage::Handshaking | Stage::Ready => true,
            Stage::Dialing | Stage::Over => false,
        }
    }

    fn is_ready(&self) -> bool
        ensures { result ≡ is_ready self.now.stage }
    {
        match self.stage {
            Stage::Ready => true,
            Stage::Dialing | Stage::Handshaking | Stage::Over => false,
        }
    }

    fn is_over(&self) -> bool
        ensures { result ≡ is_over self.now.stage }
    {
        match self.stage {
            Stage::Over => true,
            Stage::Dialing | Stage::Handshaking | Stage::Ready => false,
        }
    }

    pub fn has_room(&self) -> bool
        ensures { result ≡ has_room (table self.now) }
    {
        self.unwritten.len() < self.setup.outbound
    }

    pub fn tell(&mut self, now: u64)
        ensures { table self.new ≡ ticked now (table self.old) }
    {
        self.requests.tell(now);
    }

    fn queue(&mut self, frame: Vec<u8>, claim: Option<Claim>) -> Result<(), NoMemory>
        ensures { OnOk result (table self.new ≡ queue frame.items claim (table self.old)) }
    {
        let requests = replace(&mut self.requests, Requests::new(self.alloc, 0, 0));
        self.requests = requests.with_next(claim)?;
        self.unwritten.push_back(frame)?;
        Ok(())
    }

    fn stand(&mut self, frame: Vec<u8>, claim: Option<Claim>) -> Result<(), NoMemory>
        ensures { OnOk result (table self.new ≡ put_in false true frame.items claim (table self.old)) }
    {
        self.line.push_back(Standing { frame, claim })?;
        Ok(())
    }

    /// A frame is asked for, or there is none, since a size did not fit. `waits` says that it may stand in the line.
    pub fn ask(
        &mut self,
        frame: Option<Vec<u8>>,
        claim: Option<Claim>,
        waits: bool,
    ) -> Result<Asked, ConnectionError>
        ensures answer { OnAnswer result (result ≡ place_of (option_map (λ v. v.items) frame) waits (table self.old)) }
        ensures table { OnAnswer result (table self.new ≡ put_frame (option_map (λ v. v.items) frame) waits claim (table self.old)) }
    {
        let room = self.has_room();
        if !room && !waits {
            return Err(ConnectionError::SlowDown);
        }
        let Some(frame) = frame else {
            return Err(ConnectionError::Encoding(Reason::Frame));
        };
        if room {
            let place = self.requests.queued();
            self.queue(frame, claim)?;
            return Ok(Asked::Queued(place));
        }
        let Some(place) = self.requests.queued().checked_add(self.line.len() as u64) else {
            return Err(ConnectionError::NoMemory);
        };
        self.stand(frame, claim)?;
        Ok(Asked::Waiting(place))
    }

    /// The number of what is asked for next, where it may be asked for.
    pub fn draw(&mut self, numbered: bool) -> Result<u64, ConnectionError>
        ensures number { result ≡ number_for numbered (table self.old) }
        ensures drawn { OnOk result (table self.new ≡ drawn numbered (table self.old)) }
        ensures same { OnErr result (table self.new ≡ table self.old) }
    {
        if !self.is_ready() {
            return Err(ConnectionError::Disconnected);
        }
        let number = self.next_number;
        if numbered {
            if number == u64::MAX {
                return Err(ConnectionError::Exhausted);
            }
            self.next_number = number + 1;
        }
        Ok(number)
    }

    /// A frame is asked for whose outcome nobody is told.
    fn put(&mut self, frame: Option<Vec<u8>>, waits: bool) -> Result<(), NoMemory>
        ensures { OnOk result (table self.new ≡ put_frame (option_map (λ v. v.items) frame) waits None (table self.old)) }
    {
        match self.ask(frame, None, waits) {
            Err(ConnectionError::NoMemory) => Err(NoMemory),
            _ => Ok(()),
        }
    }

    /// The connection is open.
    pub fn open(&mut self) -> Result<(), NoMemory>
        ensures { OnOk result (table self.new ≡ opens_in self.old.stage (table self.old)) }
    {
        match self.stage {
            Stage::Dialing => {
                let frame = self.greeting()?;
                self.stage = Stage::Handshaking;
                self.greet(frame)
            }
            Stage::Handshaking | Stage::Ready | Stage::Over => Ok(()),
        }
    }

    /// The first frame that is written.
    fn greeting(&self) -> Result<Option<Vec<u8>>, NoMemory>
        ensures { IfOk result (λ f. option_map (λ v. v.items) f ≡ frame_for (greeting (setup_of self.now.setup))) }
    {
        let auth = copy_auth(&self.setup.auth)?;
        command_frame(
            self.alloc,
            builders::connect(self.alloc, auth, text(&self.setup.proxy)),
        )
    }

    fn greet(&mut self, frame: Option<Vec<u8>>) -> Result<(), NoMemory>
        ensures { OnOk result (table self.new ≡ greets_with (option_map (λ v. v.items) frame) (table self.old)) }
    {
        if let Some(frame) = frame {
            self.queue(frame, None)?;
        }
        Ok(())
    }

    pub fn feed(&mut self, piece: &[u8]) -> Result<(), NoMemory>
        ensures { OnOk result (table self.new ≡ feeds piece.now (table self.old)) }
    {
        if self.is_open() {
            self.incoming.feed(piece)?;
        }
        Ok(())
    }

    /// The next frame.
    pub fn next(&mut self) -> Result<Option<Arrival>, NoMemory>
        ensures came { IfOk result (λ a. arrives a ≡ came (table self.old)) }
        ensures table { OnOk result (table self.new ≡ taken_in self.old.stage (front self.old.incoming) (table self.old)) }
    {
        match self.stage {
            Stage::Handshaking => self.next_of_handshake(),
            Stage::Ready => self.next_of_ready(),
            Stage::Dialing | Stage::Over => Ok(None),
        }
    }

    fn next_of_handshake(&mut self) -> Result<Option<Arrival>, NoMemory>
        ensures came { IfOk result (λ a. arrives a ≡ came_in Stage.Handshaking (front self.old.incoming) (table self.old)) }
        ensures table { OnOk result (table self.new ≡ taken_in Stage.Handshaking (front self.old.incoming) (table self.old)) }
    {
        match self.incoming.first()? {
            First::Short => Ok(None),
            First::Connected => {
                self.stage = Stage::Ready;
                Ok(Some(Arrival::Ready))
            }
            First::Wrong => Ok(Some(Arrival::Bad(ConnectionError::Io(IoKind::Other)))),
        }
    }

    fn next_of_ready(&mut self) -> Result<Option<Arrival>, NoMemory>
        ensures came { IfOk result (λ a. arrives a ≡ came_in Stage.Ready (front self.old.incoming) (table self.old)) }
        ensures table { OnOk result (table self.new ≡ taken_in Stage.Ready (front self.old.incoming) (table self.old)) }
    {
        match self.incoming.next()? {
            Next::Short => Ok(None),
            Next::Refused(reason) => Ok(Some(Arrival::Bad(ConnectionError::Decoding(reason)))),
            Next::Whole(message) => {
                let arrival = self.receive(message)?;
                Ok(Some(arrival))
            }
        }
    }

    /// A frame of a ready connection.
    fn receive(&mut self, message: Box<Message>) -> Result<Arrival, NoMemory>
        ensures came { let m = message_values message.value in
            IfOk result (λ a. arrival_of a ≡ came_by (places (settled_by m (table self.old))) m) }
        ensures table { OnOk result (table self.new ≡ received (message_values message.value) (table self.old)) }
    {
        let places = self.settle(&message)?;
        if places.is_empty() {
            self.react(&message)?;
            return Ok(unasked(message));
        }
        Ok(Arrival::Settled {
            places,
            reply: message,
        })
    }

    /// The requests that a message answers wait no longer.
    fn settle(&mut self, message: &Message) -> Result<Vec<u64>, NoMemory>
        ensures places { IfOk result (λ ps. ps.items ≡ places (settled_by (message_values message.now) (table self.old))) }
        ensures table { OnOk result (table self.new ≡ answered (message_values message.now) (table self.old)) }
    {
        let requests = replace(&mut self.requests, Requests::new(self.alloc, 0, 0));
        let (places, left) = settle_in(requests, message)?;
        self.requests = left;
        Ok(places)
    }

    /// What the connection does by itself at a frame that settles nothing.
    fn react(&mut self, message: &Message) -> Result<(), NoMemory>
        ensures { OnOk result (table self.new ≡ reacts (message_values message.now) (table self.old)) }
    {
        if is(message, bodies::PING) {
            self.pong()
        } else if is(message, bodies::AUTH_CHALLENGE) {
            self.respond()
        } else if let Some(number) = unready(message) {
            self.name(number)
        } else {
            Ok(())
        }
    }

    /// A ping is answered, where there is room.
    fn pong(&mut self) -> Result<(), NoMemory>
        ensures { OnOk result (table self.new ≡ asks_for pongs (table self.old)) }
    {
        let frame = command_frame(self.alloc, builders::pong())?;
        self.put(frame, false)?;
        Ok(())
    }

    /// A challenge is answered, where there is a credential.
    fn respond(&mut self) -> Result<(), NoMemory>
        ensures { OnOk result (table self.new ≡ challenged (table self.old).setup.auth (table self.old)) }
    {
        match copy_auth(&self.setup.auth)? {
            Some(auth) => {
                self.respond_with(auth)?;
                Ok(())
            }
            None => Ok(()),
        }
    }

    fn respond_with(&mut self, auth: Authentication) -> Result<(), NoMemory>
        ensures { OnOk result (table self.new ≡ asks_for (responds (authentication_values auth)) (table self.old)) }
    {
        let frame = command_frame(self.alloc, builders::auth_challenge(auth))?;
        self.put(frame, true)?;
        Ok(())
    }

    /// A producer is not ready yet, whose request of this number waits.
    fn name(&mut self, number: u64) -> Result<(), NoMemory>
        ensures { OnOk result (table self.new ≡ named_by (Some number) (table self.old)) }
    {
        let requests = replace(&mut self.requests, Requests::new(self.alloc, 0, 0));
        self.requests = requests.name(number)?;
        Ok(())
    }

    /// As many frames are written, and the line moves up.
    pub fn drain(&mut self, most: usize) -> Result<Vec<u8>, NoMemory>
        ensures written { IfOk result (λ bytes. bytes.items ≡ flat_map (λ f. f) (written most (table self.old))) }
        ensures table { OnOk result (table self.new ≡ drained most (table self.old)) }
    {
        if !self.is_open() {
            return Ok(Vec::new(self.alloc));
        }
        let bytes = take_frames(self.alloc, &mut self.unwritten, most)?;
        self.move_up()?;
        Ok(bytes)
    }

    #[tactic(auto, using(crate::proofs::Moving::stops, crate::proofs::Moving::steps, crate::proofs::Moving::empty_line))]
    fn move_up(&mut self) -> Result<(), NoMemory>
        ensures { OnOk result (table self.new ≡ moved_up (table self.old).line (table self.old)) }
    {
        'up: while self.has_room() {
            let Some(first) = self.line.pop_front() else {
                return Ok(());
            };
            self.queue(first.frame, first.claim)?;
        }
        Ok(())
    }

    /// The connection ends. The answer has the places of the requests that waited. What it kept for them is let go.
    pub fn close(&mut self, cause: ConnectionError) -> Result<Vec<u64>, NoMemory>
        ensures ends { IfOk result (λ ps. ps.items ≡ ends (table self.old)) }
        ensures table { OnOk result (table self.new ≡ closes (fault cause) (table self.old)) }
    {
        if self.is_over() {
            return Ok(Vec::new(self.alloc));
        }
        let requests = replace(&mut self.requests, Requests::new(self.alloc, 0, 0));
        let (places, left) = requests.end()?;
        self.requests = left;
        self.stage = Stage::Over;
        self.error = Some(cause);
        self.unwritten = VecDeque::new(self.alloc);
        self.line = VecDeque::new(self.alloc);
        self.incoming = Incoming::new(self.alloc);
        Ok(places)
    }

    pub fn due(&self, now: u64) -> bool
        ensures { result ≡ due now (table self.now) }
    {
        match self.stage {
            Stage::Ready => self.requests.any_due(now),
            Stage::Over => false,
            Stage::Dialing | Stage::Handshaking => self.is_late(now),
        }
    }

    pub fn due_at(&self) -> Option<u64>
        ensures { result ≡ due_at (table self.now) }
    {
        match self.stage {
            Stage::Ready => self.requests.due_at(),
            Stage::Over => None,
            Stage::Dialing | Stage::Handshaking => {
                Some(moment(self.setup.made, self.setup.connection_timeout))
            }
        }
    }

    /// The places of those that wait, and would wait no longer if it ended.
    pub fn waiting(&self) -> Result<Vec<u64>, NoMemory>
        ensures { IfOk result (λ ps. ps.items ≡ ends (table self.now)) }
    {
        match self.stage {
            Stage::Over => Ok(Vec::new(self.alloc)),
            Stage::Dialing | Stage::Handshaking | Stage::Ready => self.requests.places(),
        }
    }

    /// It was dialed for too long.
    fn is_late(&self, now: u64) -> bool
        ensures { result ≡ is_late now (table self.now) }
    {
        moment(self.setup.made, self.setup.connection_timeout) <= now
    }

    /// A frame that is queued and not written.
    pub fn frame(&self, place: u64) -> Option<&[u8]>
        ensures { option_copied result ≡ frame_at place (table self.now) }
    {
        let first = self
            .requests
            .queued()
            .saturating_sub(self.unwritten.len() as u64);
        if place < first {
            return None;
        }
        match self.unwritten.get((place - first) as usize) {
            Some(frame) => Some(frame.as_slice()),
            None => None,
        }
    }
}

fn settle_in(requests: Requests, message: &Message) -> Result<(Vec<u64>, Requests), NoMemory>
    ensures places { let m = message_values message.now in
        IfOk result (λ r. r.0.items ≡ places (filter (λ p. answers m p.awaits) requests.waiting)) }
    ensures left { IfOk result (λ r. r.1 ≡ answered_to (message_values message.now) requests) }
{
    let awaited = awaited_by(message);
    let (places, left) = requests.settle(awaited)?;
    Ok((places, left))
}

/// Puts a frame behind bytes.
fn append(bytes: &mut Vec<u8>, frame: Vec<u8>) -> Result<(), NoMemory>
    ensures { OnOk result (bytes.new.items ≡ bytes.old.items ++ frame.items) }
{
    if bytes.is_empty() {
        *bytes = frame;
        return Ok(());
    }
    bytes.extend_from_slice(&frame)?;
    Ok(())
}

/// Takes the first frames, joined.
fn take_frames(
    alloc: Global,
    frames: &mut VecDeque<Vec<u8>>,
    most: usize,
) -> Result<Vec<u8>, NoMemory>
    ensures taken { IfOk result (λ bytes. bytes.items ≡ flat_map (λ b. b) (take most (contents frames.old.items))) }
    ensures left { OnOk result (contents frames.new.items ≡ drop most (contents frames.old.items)) }
{
    let mut bytes = Vec::new(alloc);
    let mut more = most;
    while more > 0 {
        let Some(frame) = frames.pop_front() else {
            return Ok(bytes);
        };
        append(&mut bytes, frame)?;
        more -= 1;
    }
    Ok(bytes)
}
