// The checksum of a block's bytes: CRC-32, most significant bit first, eight bytes at a time.
ghost use Rattle.std.specs.Prelude.{◌≡◌, ◌⊎◌, ℕ, ◌+◌, ◌-◌, ◌*◌, ◌^◌, ◌<◌, ◌≤◌, length, bit_xor};
ghost use Rattle.bzip2_reader.specs.Checksums.{IsTable, crc, crc_bits};

use byteorder::{BigEndian, ByteOrder};

/// The polynomial, without its highest term.
const POLYNOMIAL: u32 = 0x04C1_1DB7;

/// Eight tables of 256 entries: entry n of table k is the remainder of the byte n that k more bytes follow.
const TABLES: usize = 2048;

/// The remainders of single bytes, for the checksums of blocks.
#[derive(Drop)]
pub(crate) struct Checksums {
    tables: [u32; 2048],
    ghost rows: { IsTable 2048 tables },
}

impl Checksums {
    /// The register before the first byte.
    pub(crate) const START: u32 = 0xFFFF_FFFF;

    pub(crate) fn new() -> Checksums {
        let mut tables = [0u32; 2048];
        fill(&mut tables);
        Checksums { tables }
    }

    /// The register after this byte.
    #[inline(always)]
    fn step(&self, register: u32, byte: u8) -> u32
        ensures { result ≡ crc_bits 8 (bit_xor register (byte * 2 ^ 24)) }
    {
        after_byte(&self.tables, register ^ (u32::from(byte) << 24))
    }

    /// What four bytes add that this many more bytes follow.
    #[inline(always)]
    fn four(&self, word: u32, more: usize) -> u32
        requires { more ≤ 4 }
        ensures { result ≡ crc_bits (8 * more + 32) word }
    {
        let row = more * 256;
        self.tables[row + 768 + (word >> 24) as usize]
            ^ (self.tables[row + 512 + ((word >> 16) % 256) as usize]
                ^ (self.tables[row + 256 + ((word >> 8) % 256) as usize]
                    ^ self.tables[row + (word % 256) as usize]))
    }

    /// The register after these eight bytes.
    #[inline(always)]
    fn eight(&self, register: u32, bytes: &[u8]) -> u32
        requires { length bytes.now ≡ 8 }
        ensures { result ≡ crc register bytes.now }
    {
        self.four(register ^ BigEndian::read_u32(bytes), 4)
            ^ self.four(BigEndian::read_u32(&bytes[4..]), 0)
    }

    /// The register after these bytes.
    pub(crate) fn update(&self, register: u32, bytes: &[u8]) -> u32
        ensures { result ≡ crc register bytes.now }
    {
        let mut value = register;
        let mut rest = bytes;
        while let Some((word, more)) = rest.split_at_checked(8) {
            value = self.eight(value, word);
            rest = more;
        }
        for byte in rest {
            value = self.step(value, *byte);
        }
        value
    }

    /// The checksum of all bytes, by the register after them.
    pub(crate) fn end(register: u32) -> u32
        ensures { result ≡ 2 ^ 32 - 1 - register }
    {
        !register
    }
}

/// Makes the tables.
fn fill(tables: &mut [u32])
    requires { length tables.old ≡ 2048 }
    ensures { IsTable 2048 tables.new }
{
    for n in 0..256usize {
        tables[n] = remainder((n as u32) << 24);
    }
    for i in 256..TABLES {
        tables[i] = after_byte(tables, tables[i - 256]);
    }
}

/// The register after eight bits, by one look-up.
#[inline(always)]
fn after_byte(tables: &[u32], register: u32) -> u32
    requires size { 256 ≤ length tables.now }
    requires rows { IsTable 256 tables.now }
    ensures { result ≡ crc_bits 8 register }
{
    (register << 8) ^ tables[(register >> 24) as usize]
}

/// The register after eight bits.
fn remainder(register: u32) -> u32
    ensures { result ≡ crc_bits 8 register }
{
    let mut value = register;
    for taken in 0..8u32 {
        value = (value << 1) ^ ((value >> 31) * POLYNOMIAL);
    }
    value
}
