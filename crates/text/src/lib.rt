// Text: is a part of a message UTF-8, by RFC 3629's byte ranges, and where is it not (13; the writer's 26). Each byte is judged by
// its class (W-202).
#![tactic(auto)]

ghost use Rattle.std.specs.Prelude.{◌≡◌, ◌≤◌, length, map};
ghost use Rattle.rules.specs.Bytes.{part};
ghost use Rattle.rules.specs.Text.{utf8, is_utf8};
ghost use Rattle.rules.specs.Answers.{text_answer, numbers_of, nothing};
ghost use Rattle.text.specs.Answers.{text_of, text_numbers};
ghost use Rattle.text.specs.Sequences.{text_from};

use crate::ascii::past_ascii;
use crate::items::Item;
use crate::sequences::{find_broken, past_sequences};

mod ascii;
mod items;
mod sequences;
mod states;
mod tables;

// Are the `count` bytes of a message from a place on UTF-8? What would lie past the message's end is no part of it.
pub fn is_utf8(bytes: &[u8], at: usize, count: usize) -> bool
    ensures { result ≡ is_utf8 (part bytes.now at count) }
{
    judge_part(bytes, at, count).is_ok()
}

// The same with the place of the first sequence that is not allowed, counted from where the part starts.
pub fn judge_part(bytes: &[u8], at: usize, count: usize) -> Result<(), usize>
    ensures answer { text_of result ≡ utf8 (part bytes.now at count) }
    ensures numbers { text_numbers result ≡ numbers_of 0 nothing (text_answer (part bytes.now at count)) }
{
    judge(part_of(bytes, at, count))
}

fn part_of(bytes: &[u8], at: usize, count: usize) -> &[u8]
    ensures { result.now ≡ part bytes.now at count }
{
    let rest = bytes.get(at..).unwrap_or(&[]);
    rest.get(..count).unwrap_or(rest)
}

// UTF8-octets; or where the first sequence starts that is not allowed.
pub fn judge(text: &[u8]) -> Result<(), usize>
    ensures answer { text_of result ≡ utf8 text.now }
    ensures numbers { text_numbers result ≡ numbers_of 0 nothing (text_answer text.now) }
{
    judge_items(text)
}

// Are numbers UTF-8, each of them a byte? The writer judges text so, before it has written any.
pub fn are_utf8(numbers: &[u64]) -> bool
    ensures { result ≡ is_utf8 numbers.now }
{
    judge_items(numbers).is_ok()
}

// Text that is ASCII alone asks for no table.
fn judge_items<T: Item>(text: &[T]) -> Result<(), usize>
    ensures { text_of result ≡ utf8 (map T.number text.now) }
{
    let at = past_ascii(text);
    if at == text.len() {
        return Ok(());
    }
    judge_from(text, at)
}

// Where a sequence starts that is not allowed is looked for only in text that has one. Kept out of line, so that no registers are saved for
// ASCII alone.
#[inline(never)]
fn judge_from<T: Item>(text: &[T], from: usize) -> Result<(), usize>
    requires { from ≤ length text.now }
    ensures { text_of result ≡ text_from (map T.number text.now) from }
{
    find_broken(text, past_sequences(text, from))
}
