// What is wrong with a file.
ghost use Rattle.std.specs.Prelude.{◌≡◌};
ghost use Rattle.bzip2_reader.specs.Endings.{is_failure};
ghost use Rattle.bzip2_reader.specs.Files.{cause_of};

/// What is wrong with the bits of a block.
#[derive(Clone, Copy, Debug, PartialEq, Eq, Drop)]
pub enum BlockFault {
    /// The bits end inside the block. In a `Damage` it is an `EarlyEnd`, or the device's failure.
    ShortBlock,
    /// These bits begin neither a block nor the end of a stream.
    NoBlock,
    /// The block has the bit by which versions before 0.9.5 told that they had shuffled its bytes.
    Randomised,
    /// No byte value is in use.
    NoSymbols,
    /// There are fewer than 2 or more than 6 code tables.
    BadTables,
    /// There is no selector, or one names no table.
    BadSelectors,
    /// A code length is not 1 to 20, takes more than 40 steps, or there are more codes of a length than bits allow.
    BadLengths,
    /// Bits that are no code.
    BadCode,
    /// The block has more bytes than the stream's level allows.
    LongBlock,
    /// The first byte's place is outside the block.
    BadOrigin,
    /// The checksum of the bytes is not the one that the block names.
    BadChecksum,
}

/// Why the bytes of a file end where they do.
#[derive(Clone, Copy, Debug, PartialEq, Eq, Drop)]
pub enum Cause {
    /// The device failed.
    Device,
    /// Memory ran out.
    Memory,
    /// The data end inside a stream.
    EarlyEnd,
    /// These bytes begin no stream.
    NoStream,
    /// A block is damaged.
    Block(BlockFault),
    /// The checksum of a stream's blocks is not the one that the stream names.
    StreamChecksum,
}

impl Cause {
    /// Whether reading failed: the data themselves may be whole.
    pub fn is_failure(self) -> bool
        ensures { result ≡ is_failure self }
    {
        matches!(self, Cause::Device | Cause::Memory)
    }
}

/// What is wrong with a file where this is wrong with a block.
pub(crate) fn cause_of(fault: BlockFault) -> Cause
    ensures { result ≡ cause_of fault }
{
    match fault {
        BlockFault::ShortBlock => Cause::EarlyEnd,
        _ => Cause::Block(fault),
    }
}

/// Why the bytes of a file end, and where: at the block, the stream's end or the stream that begins in this byte of
/// the compressed file.
#[derive(Clone, Copy, Debug, PartialEq, Eq, Drop)]
pub struct Damage {
    pub offset: u64,
    pub cause: Cause,
}
