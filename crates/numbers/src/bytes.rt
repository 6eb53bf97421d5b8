// The bytes of a word.
ghost use Rattle.std.specs.Prelude.{◌≡◌, slice_index};
ghost use Rattle.numbers.specs.Bytes.{little_endian};

// Byte number j of a word, the lowest first; 0 past the fourth.
pub fn byte_at(word: u32, j: u32) -> u8
    ensures { result ≡ slice_index (little_endian word) j }
{
    word.to_le_bytes().get(j as usize).copied().unwrap_or(0)
}
