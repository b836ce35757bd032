//! Draws: words of the cipher's stream for a vehicle, scaled to 0 to 999. `dice.rt` calls it.
//!
//! Source: the cipher is that of RFC 8439, with counter and stream as `rand_chacha` sets them.

ghost use Rattle.std.specs.Prelude.{◌≡◌, ◌*◌, ◌/◌, ◌^◌};
ghost use Rattle.street_base.specs.Prelude.{draw, key_of_seed};

use rand_chacha::ChaCha20Rng;
use rand_core::SeedableRng;
use rand_core::utils::NextWord;
use street_base::CarNo;

/// The draw of a word of the cipher, from 0 to 999: the word, of 32 bits, scaled.
pub(crate) fn scaled(word: u32) -> u16
    ensures { result ≡ word * 1000 / 2 ^ 32 }
{
    (u64::from(word) * 1000 / 4_294_967_296) as u16
}

/// The cipher's generator for a seed. Its key is the seed in eight bytes, the low one first, and 24 bytes of 0.
pub(crate) fn generator(seed: u64) -> ChaCha20Rng
    ensures { result.key ≡ key_of_seed seed }
{
    let mut bytes = [0u8; 32];
    bytes[..8].copy_from_slice(&seed.to_le_bytes());
    ChaCha20Rng::from_seed(bytes)
}

/// The draw, from 0 to 999, of a network's seed at a place of the stream of the vehicle with the number `car`: at `2 * step`
/// the one by which it changes lane or does not, at `2 * step + 1` the one by which it dawdles or does not. `Dice` tells
/// faster whether a draw is below the odds.
pub fn draw(seed: u64, car: CarNo, place: u64) -> u16
    ensures { result ≡ draw seed car place }
{
    let mut rng = generator(seed);
    rng.set_word_pos(u128::from(place));
    rng.set_stream(u64::from(car));
    scaled(rng.next_word())
}
