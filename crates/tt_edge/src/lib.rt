//! Every byte, connection and beat that a program meets goes through a trait, and each failure that it answers was counted.
//!
//! `Source` gives bytes and `Sink` takes them; `Link` is a connection, `Listener` gives links and takes each back with its
//! end, `Ticker` tells the time. Each is there in memory, for tests (`MemSource`, `MemSink`, `MemLink`, `MemListener`,
//! `MemTicker`), and over the machine (`StdinSource`, `FileSource`, `StdoutSink`, `TcpLink`, `TcpDoor`, `ClockTicker`).
//! `read_all` and `write_all` move whole texts. `Core` is the trait of the machines that take events and tell bytes to
//! connections, `Servable` of those that a server can be run over, and `Record` is the list of events that such a machine
//! keeps. `echo` has a small core for tests.
//!
//! ```text
//!   source -> read_all -> bytes -> events -> Core -> take -> bytes -> write_all -> sink
//!   listener -> link -> bytes -> events ->          -> bytes -> link -> listener
//!   ticker -> beats -> events ->
//! ```
#![tactic(auto)]

mod agenda;
mod clock;
pub mod echo;
mod event;
mod file;
pub mod laws;
mod link;
mod listener;
mod machine;
mod mem_link;
mod mem_listener;
mod mem_sink;
mod mem_source;
mod mem_ticker;
mod plan;
mod record;
mod rhythm;
mod servable;
mod sink;
mod source;
mod standard;
mod tcp;
mod ticker;

pub use clock::ClockTicker;
pub use event::{Body, Door, Event, Peer};
pub use file::FileSource;
pub use link::{Link, LinkGot, LinkWrote};
pub use listener::{Accepted, LinkEnd, Listener, Served};
pub use machine::{Core, CoreErr, Took, drain};
pub use mem_link::{LinkPlan, MemLink};
pub use mem_listener::MemListener;
pub use mem_sink::MemSink;
pub use mem_source::MemSource;
pub use mem_ticker::MemTicker;
pub use record::Record;
pub use servable::Servable;
pub use sink::{Sink, SinkFault, Wrote, write_all};
pub use source::{Got, ReadAllError, Source, read_all};
pub use standard::{StdinSource, StdoutSink};
pub use tcp::{TcpDoor, TcpLink};
pub use ticker::{Beat, Ticker};
