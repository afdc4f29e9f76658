//! The outside of the server, as traits: where requests come from and replies go
//! to, who keeps the rows, what the clock gives. Each trait says, in ghost members,
//! what the thing holds where it tells, and how often it has failed; each call
//! says exactly what it does to the first, and that it fails only where the second rose.
//!
//! Rooms: `source`, `sink`, `files`, `door`, `clock` and `keeper` hold a trait each,
//! and `store` the rows that a keeper keeps. The forms: `memory_source`, `memory_sink`,
//! `memory_files`, `memory_door` and `memory_clock` hold in memory what they give or take,
//! Mem.. with failures at the calls that a `plan` names, Sure.. without; `host_source`,
//! `host_sink`, `host_files`, `host_door` and `host_clock` are the real ones, and `pace` says
//! how slowly a connection of the real door may send. A form may be added; a trait changes for
//! all.
#![tactic(auto)]

mod clock;
mod door;
mod fault;
mod files;
mod host_clock;
mod host_door;
mod host_files;
mod host_sink;
mod host_source;
mod keeper;
mod memory_clock;
mod memory_door;
mod memory_files;
mod memory_keeper;
mod memory_sink;
mod memory_source;
mod pace;
mod plan;
mod row_copy;
mod sink;
mod slots;
mod source;
mod store;
mod sure_keeper;

pub use clock::Clock;
pub use door::Door;
pub use fault::Failed;
pub use files::{FileFault, Files};
pub use host_clock::HostClock;
pub use host_door::TcpDoor;
pub use host_files::DiskFiles;
pub use host_sink::StdSink;
pub use host_source::StdSource;
pub use keeper::{KeepFault, Keeper};
pub use memory_clock::MemClock;
pub use memory_door::{MemDoor, SureDoor};
pub use memory_files::{MemFiles, SureFiles};
pub use memory_keeper::MemKeeper;
pub use memory_sink::{MemSink, SureSink};
pub use memory_source::{MemSource, SureSource};
pub use sink::Sink;
pub use source::Source;
pub use store::{Change, KeptRow, Link};
pub use sure_keeper::SureKeeper;
