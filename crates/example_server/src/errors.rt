// Why the server stops.
use console_session::StepEnd;
use mem_model::{RoomError, StoreStart, ZoneError};
use search_paths::MountError;
use std::alloc::AllocError;
use std::io;
use thiserror::Error;

#[derive(Debug, Drop, Error)]
pub enum ServerError {
    #[error("out of memory")]
    Memory,
    #[error("{0}")]
    Store(StoreStart),
    #[error("{0}")]
    Mount(MountError),
    #[error("map: {0}")]
    Map(RoomError),
    #[error("score: {0}")]
    Score(ZoneError),
    #[error("ended by {0:?}")]
    Ended(StepEnd),
    #[error("write fault")]
    Output,
}

impl From<AllocError> for ServerError {
    fn from(_error: AllocError) -> Self {
        ServerError::Memory
    }
}

impl From<StoreStart> for ServerError {
    fn from(error: StoreStart) -> Self {
        ServerError::Store(error)
    }
}

impl From<MountError> for ServerError {
    fn from(error: MountError) -> Self {
        ServerError::Mount(error)
    }
}

impl From<RoomError> for ServerError {
    fn from(error: RoomError) -> Self {
        ServerError::Map(error)
    }
}

impl From<ZoneError> for ServerError {
    fn from(error: ZoneError) -> Self {
        ServerError::Score(error)
    }
}

impl From<io::Error> for ServerError {
    fn from(_error: io::Error) -> Self {
        ServerError::Output
    }
}
