// The listing of a message under the type table of document 01's cases, as lines of text.
#![tactic(auto)]

mod lines;

ghost use Rattle.std.specs.Prelude.{◌≡◌, ◌+◌, ◌*◌, ◌/◌, ◌≤◌, length};
ghost use Rattle.std.proofs.lemmas.List.Edits.{sets};
ghost use Rattle.rules.specs.Refusals.{place_number};
ghost use Rattle.listing.specs.Lines.{largest, Puts};
ghost use Rattle.listing.specs.Listing.{head, counts, body, listing as listing-of};

use lines::{put_line, put_objects, put_values};
use rules::{Fault, Place, Refusal, place_number};

// The type table of document 01's cases.
const ROWS: [u32; 20] = [2, 1, 0, 0, 2, 2, 0, 0, 6, 0, 8, 1, 7, 0, 2, 0, 9, 2, 3, 0];

const MEMBERS: [u32; 10] = [1, 1, 2, 1, 1, 0, 2, 3, 3, 2];

const ROOT: u32 = 4;

// The longest message that is judged.
const LONGEST: usize = 8192;

// The two lines of every listing.
fn put_head(out: &mut [u8], number: u32, place: u64) -> usize
    ensures { Puts out.old 0 (head number place) 55 result out.new }
{
    let next = put_line(out, 0, b"result=", number as u64);
    put_line(out, next, b"place=", place)
}

fn put_refusal(out: &mut [u8], f: Fault) -> usize
    ensures { Puts out.old 0 (head f.number (place_number f.place)) 55 result out.new }
{
    put_head(out, f.number, place_number(f))
}

fn put_counts(out: &mut [u8], at: usize, bytes: usize, objects: usize, values: usize) -> usize
    requires { at + 113 ≤ largest }
    ensures { Puts out.old at (counts bytes objects values) 113 result out.new }
{
    let after_bytes = put_line(out, at, b"bytes=", bytes as u64);
    let after_handles = put_line(out, after_bytes, b"handles=", 0);
    let after_objects = put_line(out, after_handles, b"objects=", objects as u64);
    put_line(out, after_objects, b"values=", values as u64)
}

// The lines of a message that is accepted, after the first two.
fn put_lists(out: &mut [u8], at: usize, bytes: usize, objects: &[u32], values: &[u64]) -> usize
    requires { at + (113 + (23 * length objects.now + 27 * length values.now)) ≤ largest }
    ensures { Puts out.old at (body bytes (record { values = values.now; objects = objects.now })) (113 + (23 * length objects.now + 27 * length values.now)) result out.new }
{
    let after_counts = put_counts(out, at, bytes, objects.len() / 4, values.len());
    let after_objects = put_objects(out, after_counts, objects);
    put_values(out, after_objects, values)
}

// Values and objects of a message together are at most as many numbers as it has bytes, and four: room enough for each.
const NUMBERS: usize = LONGEST + 4;

// The contract gives the length alone, so that no proof goes into a long list.
fn room<T: Copy>(value: T) -> [T; NUMBERS]
    ensures { 8196 ≡ length result }
{
    [value; NUMBERS]
}

// The listing of a message, whole, at the start of the output, what there is room for; past it the output keeps what it
// held. Answers how many bytes the listing has.
pub fn listing(message: &[u8], out: &mut [u8]) -> usize
    ensures count { result ≡ length (listing-of message.now) }
    ensures text { out.new ≡ sets out.old 0 (listing-of message.now) }
    ensures room { result ≤ largest }
{
    if LONGEST < message.len() {
        let too_long = Refusal::MessageTooLong.at(Place::Byte(0));
        return put_refusal(out, too_long);
    }
    let mut values = room(0u64);
    let mut objects = room(0u32);
    let read = reader::read(
        &ROWS,
        &MEMBERS,
        &[],
        ROOT,
        message,
        0,
        &mut values,
        &mut objects,
    );
    match read {
        Err(f) => put_refusal(out, f),
        Ok(lengths) => {
            let next = put_head(out, 0, 0);
            put_lists(
                out,
                next,
                message.len(),
                &objects[..lengths.objects],
                &values[..lengths.values],
            )
        }
    }
}
