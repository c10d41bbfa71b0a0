// Reads and stores of bytes, numbers and little-endian words, for any list and any place: what lies past the end reads
// as 0, and a store past the end is left out. No function requires anything of its caller.
#![tactic(auto)]

ghost use Rattle.std.specs.Prelude.{◌≡◌, ◌+◌, ◌%◌, ◌^◌, ◌<◌, ℕ, bit_or, fold, slice_index, slice_index_or, slice_set};
ghost use Rattle.std.proofs.lemmas.List.Edits.{sets};
ghost use Rattle.rules.specs.Bytes.{word, bytes_of, part, leading_zeros, round_up, padded};

use std::ops::BitOr;

// ---- elements

// A number that lists hold. Past the end of a list it reads as its default, 0, and `|` joins the bits of two.
pub trait Number: Copy + Default + BitOr<Output = Self> {
    ghost zero: { Self };

    ghost or: { Self → Self → Self };

    ghost zero_law: { (x : Self) → Self.is_default x → x ≡ zero };

    ghost can_or: { (a b : Self) → Self.can_bitor a b };

    ghost or_law: { (a b r : Self) → Self.bitor_gives a b r → r ≡ or a b };
}

impl Number for u8 {
    ghost zero = { 0 };

    ghost or = { bit_or };

    ghost zero_law = { λ x e. e };

    ghost can_or = { λ a b. tt };

    ghost or_law = { λ a b r e. e };
}

impl Number for u32 {
    ghost zero = { 0 };

    ghost or = { bit_or };

    ghost zero_law = { λ x e. e };

    ghost can_or = { λ a b. tt };

    ghost or_law = { λ a b r e. e };
}

impl Number for u64 {
    ghost zero = { 0 };

    ghost or = { bit_or };

    ghost zero_law = { λ x e. e };

    ghost can_or = { λ a b. tt };

    ghost or_law = { λ a b r e. e };
}

// The item at a place, and 0 past the end.
pub fn item_at<T: Number>(items: &[T], at: usize) -> T
    ensures { result ≡ slice_index_or items.now at T.zero }
{
    items.get(at).copied().unwrap_or_default()
}

// `set` past the end is the list as it was.
pub fn put_item<T: Copy>(items: &mut [T], at: usize, item: T)
    ensures { items.new ≡ slice_set items.old at item }
{
    if at < items.len() {
        items[at] = item;
    }
}

// All the bits of the items: none of them is above it. There is no branch for each, so that the loop is compiled to vector
// instructions.
pub fn bits_of<T: Number>(items: &[T]) -> T
    ensures { result ≡ fold T.or T.zero items.now }
{
    items.iter().fold(T::default(), |bits, item| bits | *item)
}

// ---- words

// A number that messages hold as little-endian bytes. Each type has its two lines: std has no trait with `from_le_bytes`.
pub trait Word: Copy {
    ghost width: { ℕ };

    ghost number: { Self → ℕ };

    // The word at a place.
    fn load(bytes: &[u8], at: usize) -> Self
        ensures { number result ≡ word bytes.now at width };

    // The bytes of a word, stored from a place on, those that there is room for.
    fn store(out: &mut [u8], at: usize, value: Self)
        ensures { out.new ≡ sets out.old at (bytes_of width (number value)) };
}

#[tactic(auto, using(crate::proofs::Stores::bytes_of_byte))]
impl Word for u8 {
    ghost width = { 1 };

    ghost number = { λ n. n };

    fn load(bytes: &[u8], at: usize) -> u8 {
        u8::from_le_bytes(chunk_at(bytes, at))
    }

    fn store(out: &mut [u8], at: usize, value: u8) {
        put_chunk(out, at, value.to_le_bytes())
    }
}

#[tactic(auto, using(crate::proofs::Stores::stored))]
impl Word for u16 {
    ghost width = { 2 };

    ghost number = { λ n. n };

    fn load(bytes: &[u8], at: usize) -> u16 {
        u16::from_le_bytes(chunk_at(bytes, at))
    }

    fn store(out: &mut [u8], at: usize, value: u16) {
        put_chunk(out, at, value.to_le_bytes())
    }
}

#[tactic(auto, using(crate::proofs::Stores::stored))]
impl Word for u32 {
    ghost width = { 4 };

    ghost number = { λ n. n };

    fn load(bytes: &[u8], at: usize) -> u32 {
        u32::from_le_bytes(chunk_at(bytes, at))
    }

    fn store(out: &mut [u8], at: usize, value: u32) {
        put_chunk(out, at, value.to_le_bytes())
    }
}

#[tactic(auto, using(crate::proofs::Stores::stored))]
impl Word for u64 {
    ghost width = { 8 };

    ghost number = { λ n. n };

    fn load(bytes: &[u8], at: usize) -> u64 {
        u64::from_le_bytes(chunk_at(bytes, at))
    }

    fn store(out: &mut [u8], at: usize, value: u64) {
        put_chunk(out, at, value.to_le_bytes())
    }
}

// N bytes from a place on. Where they lie within the bytes they are one machine load at -O3.
#[inline(always)]
fn chunk_at<const N: usize>(bytes: &[u8], at: usize) -> [u8; N]
    ensures { (i : ℕ) → i < N → slice_index result i ≡ slice_index bytes.now (at + i) }
{
    if let Some(rest) = bytes.get(at..) {
        if let Some(chunk) = rest.first_chunk() {
            return *chunk;
        }
    }
    chunk_past(bytes, at)
}

// The same byte by byte, where the bytes end within it. Kept out of line, since few loads come here.
#[inline(never)]
#[tactic(auto, using(crate::proofs::Loads::filled_more))]
fn chunk_past<const N: usize>(bytes: &[u8], at: usize) -> [u8; N]
    ensures { (i : ℕ) → i < N → slice_index result i ≡ slice_index bytes.now (at + i) }
{
    let mut chunk = [0; N];
    let Some(rest) = bytes.get(at..) else {
        return chunk;
    };
    for i in 0..N {
        chunk[i] = item_at(rest, i);
    }
    chunk
}

// Stores a chunk from a place on. Where there is room for all of it, it is one machine store at -O3. Else the loop goes over the
// whole chunk, whose length is known, so that it is unrolled and needs no copy of the chunk in memory.
#[tactic(auto, using(crate::proofs::Stores::sets_past, crate::proofs::Stores::sets_placed, crate::proofs::Stores::sets_more, crate::proofs::Stores::sets_more_past))]
fn put_chunk<const N: usize>(out: &mut [u8], at: usize, chunk: [u8; N])
    ensures { out.new ≡ sets out.old at chunk.entry }
{
    if out.len() <= at {
        return;
    }
    let room = out.len() - at;
    if N <= room {
        out[at..at + N].copy_from_slice(&chunk);
        return;
    }
    for (i, byte) in chunk.iter().enumerate() {
        if i < room {
            out[at + i] = *byte;
        }
    }
}

// ---- fill and rounding

// How many zero bytes the part of `count` bytes from a place on begins with.
#[tactic(auto, using(crate::proofs::Fill::zeros_past))]
pub fn zeros_from(bytes: &[u8], at: usize, count: usize) -> usize
    ensures { result ≡ leading_zeros (part bytes.now at count) }
{
    let Some(rest) = bytes.get(at..) else {
        return 0;
    };
    rest.iter()
        .take(count)
        .take_while(|byte| **byte == 0)
        .count()
}

// The next multiple of an alignment; of the alignment 0, only 0 is a multiple.
#[tactic(auto, using(crate::proofs::Padding::next_multiple), unfolding(rules::specs::Bytes::round_up))]
pub fn round_up(n: u32, alignment: u32) -> u64
    ensures { result ≡ round_up n alignment }
{
    if alignment == 0 {
        return 0;
    }
    (n as u64).next_multiple_of(alignment as u64)
}

// The length of an object with its fill. For the last seven numbers that would be 2^64, which wraps to 0.
#[tactic(auto, unfolding(rules::specs::Bytes::padded, rules::specs::Bytes::round_up))]
pub fn padded(n: usize) -> usize
    ensures { result ≡ padded n % 2 ^ 64 }
{
    n.wrapping_add(7) / 8 * 8
}
