//! Bytes in words, eight to a word.

ghost use Rattle.std.specs.Prelude.{◌≡◌, ◌*◌, ◌<◌, ◌≤◌, length};
ghost use Rattle.std.specs.Int.{from_le_bytes, w64};
ghost use Rattle.hk_snap.specs.Packed.{packed, unpacked, words_for, bytes_in, eight};

// Fewer than eight bytes as a word.
fn last_word(bytes: &[u8]) -> u64
    requires { length bytes.now < 8 }
    ensures { result ≡ from_le_bytes w64 (eight bytes.now) }
{
    let mut eight = [0u8; 8];
    eight[..bytes.len()].copy_from_slice(bytes);
    u64::from_le_bytes(eight)
}

// Fills the words with fewer than eight bytes, and with zeros behind them.
#[tactic(auto, unfolding(crate::specs::Packed::packed))]
fn pack_rest(bytes: &[u8], words: &mut [u64])
    requires { length bytes.now < 8 }
    ensures { words.new ≡ packed (length words.old) bytes.now }
{
    if words.is_empty() {
        return;
    }
    words[0] = last_word(bytes);
    words[1..].fill(0);
}

// Fills the words with the bytes, as far as they have room, and with zeros behind them.
#[tactic(auto, unfolding(crate::specs::Packed::packed))]
pub(crate) fn pack(bytes: &[u8], words: &mut [u64])
    ensures { words.new ≡ packed (length words.old) bytes.now }
{
    let (whole, rest) = bytes.as_chunks::<8>();
    let count = whole.len().min(words.len());
    for k in 0..count {
        words[k] = u64::from_le_bytes(whole[k]);
    }
    pack_rest(rest, &mut words[count..]);
}

// How many words so many bytes take.
pub(crate) fn words_for(len: usize) -> usize
    ensures { result ≡ words_for len }
{
    len.div_ceil(8)
}

// Fills the room with the bytes of the words.
fn unpack(words: &[u64], room: &mut [u8])
    requires { length room.old ≡ 8 * length words.now }
    ensures { room.new ≡ unpacked words.now }
{
    for k in 0..words.len() {
        room[8 * k..8 * k + 8].copy_from_slice(&words[k].to_le_bytes());
    }
}

// So many bytes of those that stand in the words, put into the room.
pub(crate) fn bytes_in<'a>(words: &[u64], len: usize, room: &'a mut [u8]) -> &'a [u8]
    requires words { words_for len ≤ length words.now }
    requires room { 8 * words_for len ≤ length room.old }
    ensures { result.now ≡ bytes_in len words.now }
{
    let count = words_for(len);
    let bytes = &mut room[..8 * count];
    unpack(&words[..count], bytes);
    &bytes[..len]
}
