//! The texts of small numbers, made once.

ghost use Rattle.std.specs.Prelude.{◌≡◌, ℕ, ◌<◌, slice_index_or};
ghost use Rattle.ip_text.specs.declared.short.ShortText.{ShortText};
ghost use Rattle.ip_text.specs.Digits.{decimal_glyph, digits_in};
ghost use Rattle.ip_text.specs.DecimalTable.{IsShortText};

use crate::hexadecimal::HexTexts;

/// The text of a number of at most three digits: in a block that is copied whole, and with zeros before it.
#[derive(Clone, Copy)]
pub(crate) struct ShortText {
    pub(crate) bytes: [u8; 4],
    pub(crate) digits: [u8; 3],
    pub(crate) len: u8,
}

/// The decimal text of each number of at most three digits, and the hexadecimal one of each byte.
#[derive(Drop)]
pub struct DecimalTable {
    texts: [ShortText; 1000],
    pub(crate) hexadecimal: HexTexts,
    ghost texts_of_numbers: { (k : ℕ) → k < 1000 → (d : ShortText) → IsShortText k (slice_index_or texts k d) },
}

/// Returns the last three decimal digits of a number.
#[inline]
fn three_digits(number: u32) -> [u8; 3]
    ensures { result ≡ digits_in decimal_glyph 10 3 number }
{
    [
        b'0' + (number / 100 % 10) as u8,
        b'0' + (number / 10 % 10) as u8,
        b'0' + (number % 10) as u8,
    ]
}

/// Returns the text of a number of at most three digits.
fn short_text(number: u32) -> ShortText
    requires { number < 1000 }
    ensures { IsShortText number result }
{
    let digits = three_digits(number);
    let [hundreds, tens, ones] = digits;
    if number < 10 {
        return ShortText {
            bytes: [ones, 0, 0, 0],
            digits,
            len: 1,
        };
    }
    if number < 100 {
        return ShortText {
            bytes: [tens, ones, 0, 0],
            digits,
            len: 2,
        };
    }
    ShortText {
        bytes: [hundreds, tens, ones, 0],
        digits,
        len: 3,
    }
}

impl DecimalTable {
    /// Makes the texts.
    pub fn new() -> DecimalTable {
        let mut texts = [short_text(0); 1000];
        for i in 0..1000 {
            texts[i] = short_text(i as u32);
        }
        DecimalTable {
            texts,
            hexadecimal: HexTexts::new(),
        }
    }

    /// The text of a number.
    #[inline]
    pub(crate) fn text(&self, number: u32) -> ShortText
        requires { number < 1000 }
        ensures { IsShortText number result }
    {
        self.texts[number as usize]
    }
}
