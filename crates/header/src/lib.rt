// The transactional header: document 01's section "The header", and W-203 for epitaphs.
#![tactic(auto)]

ghost use Rattle.std.specs.Prelude.{◌≡◌, ◌≤◌, length};
ghost use Rattle.std.proofs.lemmas.List.Edits.{sets};
ghost use Rattle.rules.specs.declared.Place.TheVariants.{Byte, Amount};
ghost use Rattle.rules.specs.Refusals.{fault, accepted, lent_after};
ghost use Rattle.rules.specs.Bytes.{word, signed32};
ghost use Rattle.rules.specs.Answers.{answer_of, result_numbers, numbers_of, counted};
ghost use Rattle.rules.specs.Header as Rules;
ghost use Rattle.header.specs.Meaning.{header_of, header_answer, received_fields, status_of, byte_count, body_start, one, epitaph_written};

use rules::{Fault, Place, Refusal};
use words::Word;

// The ordinal of an epitaph, all ones.
const EPITAPH: u64 = u64::MAX;

// Transaction number, three flag bytes that are never judged, ordinal. The magic byte is always 1.
#[derive(Clone, Copy)]
pub struct Header {
    pub transaction: u32,
    pub flags: [u8; 3],
    pub ordinal: u64,
}

// What a message begins with. The status is an epitaph's; of every other message it is 0.
#[derive(Clone, Copy)]
pub struct Received {
    pub header: Header,
    pub status: i32,
}

// 24 at 8, an ordinal of 0; 25 at 0, an epitaph with a transaction number.
fn judge_ordinal(header: Header) -> Result<(), Fault>
    ensures { answer_of result ≡ Rules.require_ordinal (header_of header) (accepted tt) }
{
    if header.ordinal == 0 {
        return Err(Refusal::OrdinalZero.at(Place::Byte(8)));
    }
    if header.ordinal == EPITAPH && header.transaction != 0 {
        return Err(Refusal::EpitaphTransaction.at(Place::Byte(0)));
    }
    Ok(())
}

// The header that stands in a message's first 16 bytes.
fn header_in(message: &[u8]) -> Header
    requires { 16 ≤ length message.now }
    ensures { header_of result ≡ Rules.header_of message.now }
{
    Header {
        transaction: u32::load(message, 0),
        flags: [message[4], message[5], message[6]],
        ordinal: u64::load(message, 8),
    }
}

// The status in an epitaph's body: 6 at 16, under 24 bytes; 7 at the first of bytes 20 to 23 that is not zero; 20 at 24, more bytes.
#[inline(always)]
#[tactic(auto, using(words::proofs::Fill::zeros_at_most))]
fn read_status(message: &[u8]) -> Result<i32, Fault>
    ensures { answer_of result ≡ Rules.require_status message.now (accepted (signed32 (word message.now 16 4))) }
{
    if message.len() < 24 {
        return Err(Refusal::ObjectDoesNotFit.at(Place::Byte(16)));
    }
    let zeros = words::zeros_from(message, 20, 4);
    if zeros != 4 {
        return Err(Refusal::FillNotZero.at(Place::Byte(20 + zeros)));
    }
    if message.len() != 24 {
        return Err(Refusal::BytesLeft.at(Place::Byte(24)));
    }
    Ok(u32::load(message, 16).cast_signed())
}

// 3 at 0, over 65,536 bytes; 6 at 0, under 16; 23 at 7, another magic byte than 1; 24; 25; of an epitaph, the tests of its body.
#[tactic(auto, unfolding(rules::specs::Header::read_header, rules::specs::Header::status))]
pub fn read_header(message: &[u8]) -> Result<Received, Fault>
    ensures answer { header_answer (answer_of result) ≡ Rules.read_header message.now }
    ensures numbers { result_numbers 5 received_fields result ≡ numbers_of 5 Rules.fields (Rules.read_header message.now) }
    ensures status { status_of result ≡ Rules.status message.now }
{
    if 65536 < message.len() {
        return Err(Refusal::MessageTooLong.at(Place::Byte(0)));
    }
    if message.len() < 16 {
        return Err(Refusal::ObjectDoesNotFit.at(Place::Byte(0)));
    }
    if message[7] != 1 {
        return Err(Refusal::MagicWrong.at(Place::Byte(7)));
    }
    let header = header_in(message);
    judge_ordinal(header)?;
    if header.ordinal != EPITAPH {
        return Ok(Received { header, status: 0 });
    }
    let status = read_status(message)?;
    Ok(Received { header, status })
}

// The message's own bytes from byte 16 on, an epitaph's 8 too; where the header is refused, its empty start.
#[tactic(auto, unfolding(rules::specs::Header::body, rules::specs::Header::read_header))]
pub fn body(message: &[u8]) -> &[u8]
    ensures bytes { result.now ≡ Rules.body message.now }
    ensures start { result.ref_ptr ≡ body_start (Rules.read_header message.now) message.entry.ref_ptr }
{
    match read_header(message) {
        Ok(_) => &message[16..],
        Err(_) => &message[..0],
    }
}

// The 16 bytes of a header, at the start of the output.
#[tactic(auto, unfolding(rules::specs::Bytes::bytes_of))]
fn store_header(header: Header, out: &mut [u8])
    ensures { out.new ≡ sets out.old 0 (Rules.header_bytes (header_of header)) }
{
    u32::store(out, 0, header.transaction);
    u8::store(out, 4, header.flags[0]);
    u8::store(out, 5, header.flags[1]);
    u8::store(out, 6, header.flags[2]);
    u8::store(out, 7, 1);
    u64::store(out, 8, header.ordinal);
}

// 24; 25; 22 with the place 16, under 16 bytes of room. A refusal changes nothing, and nothing changes past the header.
#[tactic(auto, unfolding(rules::specs::Header::write_header, rules::specs::Bytes::bytes_of))]
pub fn write_header(header: Header, out: &mut [u8]) -> Result<usize, Fault>
    ensures answer { answer_of result ≡ byte_count (Rules.write_header (header_of header) (length out.old)) }
    ensures output { out.new ≡ lent_after (Rules.write_header (header_of header) (length out.old)) out.old }
    ensures numbers { result_numbers 1 one result ≡ numbers_of 1 counted (Rules.write_header (header_of header) (length out.old)) }
{
    judge_ordinal(header)?;
    if out.len() < 16 {
        return Err(Refusal::RoomTooSmall.at(Place::Amount(16)));
    }
    store_header(header, out);
    Ok(16)
}

// A whole epitaph, 24 bytes. 22 with the place 24, under 24 bytes of room, changes nothing, and nothing changes past the epitaph.
#[tactic(auto, unfolding(rules::specs::Header::write_epitaph, rules::specs::Bytes::bytes_of, rules::specs::Bytes::zeros))]
pub fn write_epitaph(flags: [u8; 3], status: i32, out: &mut [u8]) -> Result<usize, Fault>
    ensures answer { answer_of result ≡ byte_count (epitaph_written flags status (length out.old)) }
    ensures output { out.new ≡ lent_after (epitaph_written flags status (length out.old)) out.old }
    ensures numbers { result_numbers 1 one result ≡ numbers_of 1 counted (epitaph_written flags status (length out.old)) }
{
    if out.len() < 24 {
        return Err(Refusal::RoomTooSmall.at(Place::Amount(24)));
    }
    let header = Header {
        transaction: 0,
        flags,
        ordinal: EPITAPH,
    };
    store_header(header, out);
    u32::store(out, 16, status.cast_unsigned());
    u32::store(out, 20, 0);
    Ok(24)
}
