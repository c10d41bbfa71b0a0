// Runs of ASCII, many bytes or numbers at a time.
ghost use Rattle.std.specs.Prelude.{◌≡◌, true, ◌≤◌, length, map};
ghost use Rattle.text.specs.Sequences.{AreAscii, Passes};

use crate::items::Item;

// The place after the ASCII that a text starts with, item by item after whole eights.
pub fn past_ascii<T: Item>(text: &[T]) -> usize
    ensures { Passes (map T.number text.now) 0 result }
{
    for at in past_eights(text)..text.len() {
        if 0x80 <= text[at].byte() {
            return at;
        }
    }
    text.len()
}

// Not a loop over chunks: blocks are passed in between.
fn past_eights<T: Item>(text: &[T]) -> usize
    ensures { Passes (map T.number text.now) 0 result }
{
    let mut at = 0;
    while let Some(eight) = text[at..].get(..8) {
        if !T::are_ascii(eight) {
            return at;
        }
        at = past_blocks(text, at + 8);
    }
    at
}

// Past what is ASCII after an eight that is, among other text: by blocks where they pay there.
#[inline(always)]
pub fn past_more<T: Item>(text: &[T], from: usize) -> usize
    requires { from ≤ length text.now }
    ensures { Passes (map T.number text.now) from result }
{
    if T::by_blocks() {
        past_blocks(text, from)
    } else {
        from
    }
}

// Blocks of 32 are tried only after eight: most runs of text that is not all ASCII are short. Inlined, since a call there costs as much as
// an eight.
#[inline(always)]
pub fn past_blocks<T: Item>(text: &[T], from: usize) -> usize
    requires { from ≤ length text.now }
    ensures { Passes (map T.number text.now) from result }
{
    let mut at = from;
    for block in text[from..].chunks_exact(32) {
        if !block_ascii(block) {
            return at;
        }
        at += 32;
    }
    at
}

// Without a branch; by `chunks_exact(8)` it would need a loop and a fact of what is left.
fn block_ascii<T: Item>(block: &[T]) -> bool
    requires { length block.now ≡ 32 }
    ensures { result ≡ true → AreAscii (map T.number block.now) }
{
    let lower = T::are_ascii(&block[..8]) & T::are_ascii(&block[8..16]);
    let upper = T::are_ascii(&block[16..24]) & T::are_ascii(&block[24..]);
    lower & upper
}
