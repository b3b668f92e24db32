//! What is wrong with a packed file, in words.

use bzip2_reader::{BlockFault, Cause};
use gzip_reader::Flaw;

pub(crate) fn words_of_gzip(flaw: Flaw) -> &'static str {
    match flaw {
        Flaw::Device => "it can't be read",
        Flaw::Truncated => "the data ends early",
        Flaw::Trailing => "other data follows the last member",
        Flaw::Magic => "a member doesn't begin as one of gzip does",
        Flaw::Method => "a member has an unknown compression method",
        Flaw::Flags => "a member has unknown flags",
        Flaw::HeaderCheck => "the check of a member's header disagrees",
        Flaw::BlockType => "a block has an unknown type",
        Flaw::StoredLength => "the length of a stored block disagrees with its complement",
        Flaw::Symbols => "a block has more codes than there are symbols",
        Flaw::Repeat => "a code length is repeated where there is none",
        Flaw::CodeLengths => "the code lengths of a block make no code",
        Flaw::NoEndOfBlock => "a block has no code for its end",
        Flaw::Code => "bits are no code",
        Flaw::Distance => "a distance reaches back past the member's start",
        Flaw::Checksum => "a member's checksum disagrees",
        Flaw::Length => "a member's length disagrees",
    }
}

pub(crate) fn words_of_bzip2(cause: Cause) -> &'static str {
    match cause {
        Cause::Device => "it can't be read",
        Cause::Memory => "there is no memory to unpack it",
        Cause::EarlyEnd => "the data ends early",
        Cause::NoStream => "other data follows the last stream",
        Cause::Block(fault) => words_of_block(fault),
        Cause::StreamChecksum => "a stream's checksum disagrees",
    }
}

fn words_of_block(fault: BlockFault) -> &'static str {
    match fault {
        BlockFault::ShortBlock => "the data ends early",
        BlockFault::NoBlock => "neither a block nor a stream's end follows",
        BlockFault::Randomised => "a block is in the form of versions before 0.9.5",
        BlockFault::NoSymbols => "a block has no symbols",
        BlockFault::BadTables => "a block has an impossible number of code tables",
        BlockFault::BadSelectors => "a block selects a code table that it doesn't have",
        BlockFault::BadLengths => "the code lengths of a block make no code",
        BlockFault::BadCode => "bits are no code",
        BlockFault::LongBlock => "a block is longer than its stream allows",
        BlockFault::BadOrigin => "a block's first byte is outside it",
        BlockFault::BadChecksum => "a block's checksum disagrees",
    }
}
