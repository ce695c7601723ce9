// The words of a line, and the numbers that they are.
ghost use Rattle.std.specs.Prelude.{◌≡◌, ◌≤◌, length, IfSome};
ghost use Rattle.std.specs.List.{position_or_len};
ghost use Rattle.run_ends.specs.Reading.{behind_word, code_told, crc_told, first_word, is_word_end, long_told, number_told, short_told};

use numbers::{read_dec, read_hex32};

// The first word of a text, and what stands behind the byte that ends it.
#[tactic(auto, unfolding(crate::specs::Reading::first_word, crate::specs::Reading::behind_word))]
pub(crate) fn cut(text: &[u8]) -> (&[u8], &[u8])
    ensures word { result.0.now ≡ first_word text.now }
    ensures behind { result.1.now ≡ behind_word text.now }
{
    let end = word_end(text);
    if end < text.len() {
        (&text[..end], &text[end + 1..])
    } else {
        (text, &[])
    }
}

// The place of the first space or line end, or the length where there is none.
fn word_end(text: &[u8]) -> usize
    ensures place { result ≡ position_or_len is_word_end text.now }
    ensures inside { result ≤ length text.now }
{
    for (at, byte) in text.iter().enumerate() {
        if *byte == b' ' || *byte == b'\n' {
            return at;
        }
    }
    text.len()
}

// The number that the first word is, up to `most`.
fn read_number(text: &[u8], most: u64) -> Option<u64>
    ensures reading { result ≡ number_told most text.now }
    ensures most { IfSome result (λ number. number ≤ most) }
{
    read_dec(cut(text).0, most)
}

// The number of 64 bits that the first word is.
pub(crate) fn read_long(text: &[u8]) -> Option<u64>
    ensures { result ≡ long_told text.now }
{
    read_number(text, u64::MAX)
}

// The number of 32 bits that the first word is.
pub(crate) fn read_short(text: &[u8]) -> Option<u32>
    ensures { result ≡ short_told text.now }
{
    let number = read_number(text, 4_294_967_295)?;
    Some(number as u32)
}

// The code that the first word is.
pub(crate) fn read_code(text: &[u8]) -> Option<u16>
    ensures { result ≡ code_told text.now }
{
    let code = read_number(text, 65_535)?;
    Some(code as u16)
}

// The CRC that the first word is.
pub(crate) fn read_crc(text: &[u8]) -> Option<u32>
    ensures { result ≡ crc_told text.now }
{
    read_hex32(cut(text).0)
}
