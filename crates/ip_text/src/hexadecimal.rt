//! The hexadecimal texts of bytes, made once, and the runs of zero groups that `::` stands for.

ghost use Rattle.std.specs.Prelude.{◌≡◌, ℕ, ◌/◌, ◌%◌, ◌<◌, ◌∷◌, [], false, slice_index_or};
ghost use Rattle.std.specs.Fmt.{digit_glyph};
ghost use Rattle.ip_text.specs.declared.hexadecimal.HexText.{HexText};
ghost use Rattle.ip_text.specs.HexTexts.{IsHexText};

use crate::zero_run::ZeroRuns;

/// The text of a byte: in a block that is copied whole, and as two digits.
#[derive(Clone, Copy)]
pub(crate) struct HexText {
    pub(crate) bytes: [u8; 2],
    pub(crate) digits: [u8; 2],
    pub(crate) len: u8,
}

/// The hexadecimal text of each byte, and the run of each eight groups.
#[derive(Drop)]
pub(crate) struct HexTexts {
    texts: [HexText; 256],
    pub(crate) runs: ZeroRuns,
    ghost texts_of_bytes: { (k : ℕ) → k < 256 → (d : HexText) → IsHexText k (slice_index_or texts k d) },
}

/// Returns a hexadecimal digit in lower case.
pub fn hexadecimal_digit(digit: u8) -> u8
    requires { digit < 16 }
    ensures { result ≡ digit_glyph false digit }
{
    if digit < 10 {
        b'0' + digit
    } else {
        b'a' + (digit - 10)
    }
}

/// Returns the text of a byte.
fn hex_text(byte: u8) -> HexText
    ensures { IsHexText byte result }
{
    let high = hexadecimal_digit(byte / 16);
    let low = hexadecimal_digit(byte % 16);
    let digits = [high, low];
    if byte < 16 {
        return HexText {
            bytes: [low, 0],
            digits,
            len: 1,
        };
    }
    HexText {
        bytes: [high, low],
        digits,
        len: 2,
    }
}

impl HexTexts {
    pub(crate) fn new() -> HexTexts {
        let mut texts = [hex_text(0); 256];
        for i in 0..256 {
            texts[i] = hex_text(i as u8);
        }
        HexTexts {
            texts,
            runs: ZeroRuns::new(),
        }
    }

    /// The text of a byte.
    #[inline]
    pub(crate) fn text(&self, byte: u8) -> HexText
        ensures { IsHexText byte result }
    {
        self.texts[byte as usize]
    }
}
