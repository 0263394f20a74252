ghost use Rattle.std.specs.Prelude.{◌≤◌, length, IfSome};
ghost use Rattle.vr_base.specs.Outside.{TakesPart};

use std::alloc::Global;
use std::io::{Error, ErrorKind, Read, Result as IoResult, Write};
use std::net::{Ipv4Addr, Shutdown, TcpListener, TcpStream};
use std::sync::Arc;
use std::thread;
use std::time::Duration;
use vr_base::{Failed, Link, Listener, Sink, Source};

/// For how many seconds a peer may send nothing, or take nothing.
const PATIENCE: u64 = 30;

/// For how many milliseconds to wait where the system has no room for one more connection.
const PAUSE: u64 = 10;

/// For how many milliseconds a peer may be silent while what it still sends is passed over.
const FAREWELL: u64 = 100;

/// How many pieces of 4 KiB of it are passed over: twice as much as a body may have.
const MOST_PASSED: u32 = 8192;

/// The numbers of the system's errors for want of room: no memory, too many open files of all
/// programs or of this one, no buffers.
const WANTS_OF_ROOM: [i32; 4] = [12, 23, 24, 105];

/// How far a connection has come.
#[derive(Drop)]
enum State {
    /// Its peer has not come yet.
    Waiting(Arc<TcpListener, Global>),
    Open(TcpStream),
    /// Its peer came, and was gone at once.
    Gone,
    /// The listener is broken, and no peer can come any more.
    Broken,
}

/// Whether it was the peer or the way to it that failed, and not the listener.
fn is_of_the_peer(e: &Error) -> bool {
    matches!(
        e.kind(),
        ErrorKind::ConnectionAborted
            | ErrorKind::Interrupted
            | ErrorKind::NetworkDown
            | ErrorKind::NetworkUnreachable
            | ErrorKind::HostUnreachable
    )
}

fn is_want_of_room(e: &Error) -> bool {
    match e.raw_os_error() {
        Some(number) => WANTS_OF_ROOM.contains(&number),
        None => false,
    }
}

/// Lets a stream send each write at once, and a read give up a peer that is silent. A write waits
/// for a second, since after that it answers what it took until then: only one that took nothing
/// shows that the peer is silent.
fn prepare(stream: TcpStream) -> IoResult<TcpStream> {
    stream.set_nodelay(true)?;
    stream.set_read_timeout(Some(Duration::from_secs(PATIENCE)))?;
    stream.set_write_timeout(Some(Duration::from_secs(1)))?;
    Ok(stream)
}

/// Passes over what a peer still sends to a stream that has ended on this side, and then closes it.
/// The system resets a stream that is closed with bytes unread, and a peer that is still sending
/// would not come to read what it was answered.
fn take_leave(mut stream: TcpStream) {
    let mut passed = [0; 4096];
    if stream
        .set_read_timeout(Some(Duration::from_millis(FAREWELL)))
        .is_err()
    {
        return;
    }
    for _ in 0..MOST_PASSED {
        match stream.read(&mut passed) {
            Ok(0) | Err(_) => return,
            Ok(_) => {}
        }
    }
}

/// Waits for the next peer of a listener.
fn wait_for_peer(rt: &HostRuntime, listener: &TcpListener) -> IoResult<TcpStream> {
    let mut answer = listener.accept();
    for _ in 0..u64::MAX {
        match &answer {
            Err(e) if is_of_the_peer(e) => {}
            Err(e) if is_want_of_room(e) => thread::sleep(rt, Duration::from_millis(PAUSE)),
            _ => break,
        }
        answer = listener.accept();
    }
    Ok(answer?.0)
}

/// What becomes of a connection that has waited for its peer.
fn open(rt: &HostRuntime, listener: &TcpListener) -> State {
    match wait_for_peer(rt, listener) {
        Ok(stream) => match prepare(stream) {
            Ok(stream) => State::Open(stream),
            Err(_) => State::Gone,
        },
        Err(_) => State::Broken,
    }
}

/// How many bytes came, or that the read failed. A read that a signal cut off is made again.
fn read_some(stream: &mut TcpStream, into: &mut [u8]) -> Option<usize>
    ensures { IfSome result (λ count. count ≤ length into.new) }
{
    for _ in 0..u64::MAX {
        match stream.read(into) {
            Ok(count) => return Some(count),
            Err(e) if e.kind() == ErrorKind::Interrupted => {}
            Err(_) => return None,
        }
    }
    None
}

/// How many bytes were taken, at least one where there are any, or that the write failed. A write
/// that took nothing within its second, or that a signal cut off, is made again.
fn write_some(stream: &mut TcpStream, piece: &[u8]) -> Option<usize>
    ensures { IfSome result (λ count. TakesPart count (length piece.now)) }
{
    for _ in 0..PATIENCE {
        match stream.write(piece) {
            Ok(0) if !piece.is_empty() => return None,
            Ok(count) => return Some(count),
            Err(e) if matches!(e.kind(), ErrorKind::Interrupted | ErrorKind::WouldBlock) => {}
            Err(_) => return None,
        }
    }
    None
}

impl State {
    /// The stream, ended on this side, where there is one.
    fn into_ended(self) -> Option<TcpStream> {
        match self {
            State::Open(stream) => match stream.shutdown(Shutdown::Write) {
                Ok(()) => Some(stream),
                Err(_) => None,
            },
            State::Waiting(listener) => {
                drop(listener);
                None
            }
            State::Gone | State::Broken => None,
        }
    }

    fn read(&mut self, into: &mut [u8]) -> Option<usize>
        ensures { IfSome result (λ count. count ≤ length into.new) }
    {
        match self {
            State::Open(stream) => read_some(stream, into),
            _ => None,
        }
    }

    fn write(&mut self, piece: &[u8]) -> Option<usize>
        ensures { IfSome result (λ count. TakesPart count (length piece.now)) }
    {
        match self {
            State::Open(stream) => write_some(stream, piece),
            _ => None,
        }
    }
}

/// A connection over TCP. It doesn't tell what was read or written.
///
/// It waits for its peer when it is first used, so that its door is free meanwhile. From then on a
/// peer that sends nothing, or takes nothing, for 30 seconds is a fault.
#[derive(Drop)]
pub struct TcpLink {
    rt: HostRuntime,
    state: State,
    /// A stream that was given back, from whose peer leave is taken first.
    ended: Option<TcpStream>,
    peer_ended: bool,
    faults: u64,
}

impl TcpLink {
    ghost use Rattle.std.specs.Prelude.{◌≡◌};
    ghost use Rattle.vr_base.specs.Causes.{Rose};

    /// Waits for the peer, where it has not come yet.
    fn wait(&mut self)
        ensures { self.new.faults ≡ self.old.faults }
    {
        if let Some(stream) = self.ended.take() {
            take_leave(stream);
        }
        if let State::Waiting(listener) = &self.state {
            self.state = open(&self.rt, listener);
        }
    }

    fn fault(&mut self) -> Failed
        ensures later { self.old.faults ≤ self.new.faults }
        ensures rose { Rose self.old.faults self.new.faults }
    {
        self.faults = self.faults.saturating_add(1);
        Failed
    }
}

impl Source for TcpLink {
    ghost use Rattle.std.specs.Prelude.{None};
    ghost use Rattle.vr_base.specs.Outside.{nothing_beside};

    ghost left = { λ _. None };

    ghost faults = { λ link. link.faults };

    ghost beside = { λ _. nothing_beside };

    fn read(&mut self, into: &mut [u8]) -> Result<usize, Failed> {
        self.wait();
        match self.state.read(into) {
            Some(count) => {
                self.peer_ended |= count == 0;
                Ok(count)
            }
            None => Err(self.fault()),
        }
    }
}

impl Sink for TcpLink {
    ghost use Rattle.std.specs.Prelude.{None};
    ghost use Rattle.vr_base.specs.Outside.{nothing_beside};

    ghost written = { λ _. None };

    ghost faults = { λ link. link.faults };

    ghost beside = { λ _. nothing_beside };

    fn write(&mut self, piece: &[u8]) -> Result<usize, Failed> {
        self.wait();
        match self.state.write(piece) {
            Some(count) => Ok(count),
            None => Err(self.fault()),
        }
    }
}

impl Link for TcpLink {
    ghost use Rattle.std.specs.Prelude.{None, refl};

    ghost input = { λ _. None };

    ghost one_count = { λ link. refl };

    ghost beside_source = { λ link. refl };

    ghost beside_sink = { λ link. refl };
}

/// Listens at a port of 127.0.0.1, this machine's address for itself, and hands out the connections
/// that come there. It doesn't tell which were given back.
#[derive(Drop)]
pub struct TcpDoor {
    rt: HostRuntime,
    listener: Option<Arc<TcpListener, Global>>,
    broken: bool,
    /// The last stream that was given back, ended on this side.
    ended: Option<TcpStream>,
    handed_out: u64,
    faults: u64,
}

impl TcpDoor {
    ghost use Rattle.std.specs.Prelude.{◌≡◌, false, is_some};
    ghost use Rattle.vr_base.specs.Causes.{Rose};

    /// A door that doesn't listen yet.
    pub fn new(rt: HostRuntime) -> TcpDoor
        ensures listens { is_some result.listener ≡ false }
        ensures handed_out { result.handed_out ≡ 0 }
        ensures faults { result.faults ≡ 0 }
    {
        TcpDoor {
            rt,
            listener: None,
            broken: false,
            ended: None,
            handed_out: 0,
            faults: 0,
        }
    }

    fn fault(&mut self) -> Failed
        ensures listener { self.new.listener ≡ self.old.listener }
        ensures handed_out { self.new.handed_out ≡ self.old.handed_out }
        ensures later { self.old.faults ≤ self.new.faults }
        ensures rose { Rose self.old.faults self.new.faults }
    {
        self.faults = self.faults.saturating_add(1);
        Failed
    }

    /// A listener at the port, or none where the system or memory refuses.
    fn bind(&self, port: u16) -> Option<Arc<TcpListener, Global>> {
        let listener = TcpListener::bind(&self.rt, (Ipv4Addr::LOCALHOST, port)).ok()?;
        Arc::new(self.rt.alloc(), listener).ok()
    }

    /// A connection that has not come yet, or none where none can come.
    fn next_link(&self, ended: Option<TcpStream>) -> Option<TcpLink> {
        if self.broken {
            return None;
        }
        let listener = self.listener.as_ref()?;
        Some(TcpLink {
            rt: self.rt,
            state: State::Waiting(Arc::try_clone(listener).ok()?),
            ended,
            peer_ended: false,
            faults: 0,
        })
    }
}

impl Listener for TcpDoor {
    ghost use Rattle.std.specs.Prelude.{None, is_some};

    type Conn = TcpLink;

    ghost listens = { λ door. is_some door.listener };

    ghost handed_out = { λ door. door.handed_out };

    ghost ended = { λ _. None };

    ghost faults = { λ door. door.faults };

    fn listen(&mut self, port: u16) -> Result<(), Failed> {
        self.listener = None;
        self.broken = false;
        self.listener = self.bind(port);
        if self.listener.is_none() {
            return Err(self.fault());
        }
        Ok(())
    }

    /// Hands out a connection at once, which waits for its peer when it is first used. Where one
    /// could not because the listener is broken, no more are handed out.
    fn accept(&mut self) -> Result<TcpLink, Failed> {
        if self.handed_out == u64::MAX {
            return Err(self.fault());
        }
        let ended = self.ended.take();
        match self.next_link(ended) {
            Some(link) => {
                self.handed_out += 1;
                Ok(link)
            }
            None => Err(self.fault()),
        }
    }

    /// Ends the connection on this side, and closes it where its peer has ended it too. Of another
    /// the next connection that is used takes leave.
    fn back(&mut self, conn: TcpLink) {
        self.broken |= matches!(conn.state, State::Broken);
        if conn.peer_ended {
            return;
        }
        if let Some(stream) = conn.state.into_ended() {
            self.ended = Some(stream);
        }
    }
}
