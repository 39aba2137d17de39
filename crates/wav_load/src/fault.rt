// Why bytes are no sound.
use thiserror::Error;

/// Why a file is refused as a sound: the first of these that holds, in this order.
#[derive(Clone, Copy, Debug, PartialEq, Eq, Error)]
pub enum WavFault {
    /// It has fewer than 12 bytes, or doesn't begin with `RIFF`, four bytes and `WAVE`.
    #[error("not riff")]
    NotRiff,
    /// There is no `fmt ` chunk, or its 16 bytes pass the file's end.
    #[error("no fmt")]
    NoFmt,
    /// The format isn't 1.
    #[error("not pcm")]
    NotPcm,
    /// There isn't one channel.
    #[error("not mono")]
    NotMono,
    /// A sample has neither 8 nor 16 bits.
    #[error("width")]
    Width,
    /// There is no `data` chunk.
    #[error("no data")]
    NoData,
    /// The samples up to the loop's end, or up to its start, are more than there are.
    #[error("bad loop")]
    BadLoop,
    /// There are more than 2 ^ 22 samples.
    #[error("too long")]
    TooLong,
    /// The rate is 0, or isn't 2 ^ k times the speed for a k from -8 to 8.
    #[error("rate {rate}")]
    Rate { rate: u32 },
}
