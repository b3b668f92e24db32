//! CRC-32 (RFC 1952, section 8), sixteen bytes at a time.

ghost use Rattle.std.specs.Prelude.{◌≡◌, ◌≤◌, ◌+◌, ◌*◌, ℕ, length, vec_len, bit_xor};
ghost use Rattle.gzip_reader.specs.Crc.{IsTable, crc, crc_bits};

use byteorder::{ByteOrder, LittleEndian};
use std::alloc::{AllocError, Global};

/// The polynomial, its bits in reverse order.
const POLYNOMIAL: u32 = 0xEDB8_8320;

/// The size of sixteen tables of 256 entries.
const TABLES: usize = 4096;

/// Sixteen tables: entry n of table k is the register after the byte n and k zero bytes.
#[derive(Debug, Drop)]
pub(crate) struct CrcTables {
    table: Vec<u32>,
    ghost size: { vec_len table ≡ 4096 },
    ghost rows: { IsTable 4096 table.items },
}

impl CrcTables {
    pub fn new(alloc: Global) -> Result<CrcTables, AllocError> {
        let mut table = vec![in alloc; 0u32; TABLES]?;
        fill(table.as_mut_slice());
        Ok(CrcTables { table })
    }

    /// Returns the register after these bytes.
    pub fn update(&self, register: u32, bytes: &[u8]) -> u32
        ensures { result ≡ crc register bytes.now }
    {
        let mut value = register;
        let mut rest = bytes;
        while let Some((words, more)) = rest.split_at_checked(16) {
            value = self.sixteen(value, words);
            rest = more;
        }
        for byte in rest {
            value = self.step(value, *byte);
        }
        value
    }

    /// Returns the register after these sixteen bytes.
    #[inline(always)]
    fn sixteen(&self, register: u32, bytes: &[u8]) -> u32
        requires { length bytes.now ≡ 16 }
        ensures { result ≡ crc register bytes.now }
    {
        // What waits for the register is looked up last: so the steps overlap.
        let second = self.eight(LittleEndian::read_u64(&bytes[8..]), 0);
        let first = self.eight(LittleEndian::read_u64(&bytes[..8]) ^ register as u64, 2048);
        second ^ first
    }

    /// Returns the register after this word and so many zero bytes more as the tables tell that begin here.
    #[inline(always)]
    fn eight(&self, word: u64, from: usize) -> u32
        requires { from ≤ 2048 }
        ensures { (more : ℕ) → from ≡ 256 * more → result ≡ crc_bits (64 + 8 * more) word }
    {
        let table = self.table.as_slice();
        let a = word / 256;
        let b = a / 256;
        let c = b / 256;
        let d = c / 256;
        let e = d / 256;
        let f = e / 256;
        let g = f / 256;
        table[from + g as usize]
            ^ table[from + 256 + (f % 256) as usize]
            ^ table[from + 512 + (e % 256) as usize]
            ^ table[from + 768 + (d % 256) as usize]
            ^ table[from + 1024 + (c % 256) as usize]
            ^ table[from + 1280 + (b % 256) as usize]
            ^ table[from + 1536 + (a % 256) as usize]
            ^ table[from + 1792 + (word % 256) as usize]
    }

    /// Returns the register after this byte.
    pub fn step(&self, register: u32, byte: u8) -> u32
        ensures { result ≡ crc_bits 8 (bit_xor register byte) }
    {
        let table = self.table.as_slice();
        let mixed = register ^ byte as u32;
        mixed / 256 ^ table[(mixed % 256) as usize]
    }
}

/// Makes the tables.
fn fill(table: &mut [u32])
    requires { length table.old ≡ 4096 }
    ensures { IsTable 4096 table.new }
{
    for n in 0..256usize {
        table[n] = remainder(n as u32);
    }
    for i in 256..TABLES {
        let before = table[i - 256];
        table[i] = before / 256 ^ table[(before % 256) as usize];
    }
}

/// Returns the register after eight bits.
fn remainder(register: u32) -> u32
    ensures { result ≡ crc_bits 8 register }
{
    let mut value = register;
    for taken in 0..8u32 {
        value = value / 2 ^ (value % 2) * POLYNOMIAL;
    }
    value
}
