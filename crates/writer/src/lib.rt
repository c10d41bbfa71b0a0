// The writer: document 01, "Object list and value list".
#![tactic(auto)]

mod pass;

ghost use Rattle.std.specs.Prelude.{◌≡◌, length};
ghost use Rattle.rules.specs.TypeTable.{type_table};
ghost use Rattle.rules.specs.Answers as Rules;
ghost use Rattle.rules.specs.Answers.{output_after, numbers_of, sized, answer_of, result_numbers};
ghost use Rattle.writer.specs.Answers.{sizes_of, told};

use layout::laid::Laid;
use pass::{measure, pass};
use rules::{Fault, Place, Refusal};

// How many bytes and handles a message has.
#[derive(Clone, Copy, PartialEq, Eq)]
pub struct Sizes {
    pub bytes: usize,
    pub handles: usize,
}

// The message of a value list. The pass that stores comes after the one that judges and measures, so that a refusal changes
// nothing; nothing changes past the message.
pub fn write(
    rows: &[u32],
    members: &[u32],
    entries: &[u64],
    root: u32,
    values: &[u64],
    out: &mut [u8],
) -> Result<Sizes, Fault>
    ensures answer { answer_of result ≡ sizes_of (Rules.write (type_table rows.now members.now entries.now) root values.now (length out.old)) }
    ensures output { out.new ≡ output_after (Rules.write (type_table rows.now members.now entries.now) root values.now (length out.old)) out.old }
    ensures numbers { result_numbers 2 told result ≡ numbers_of 2 sized (Rules.write (type_table rows.now members.now entries.now) root values.now (length out.old)) }
{
    let mut sizes = [0u32; 256];
    let mut alignments = [0u32; 256];
    let needed = measure(
        rows,
        members,
        entries,
        &mut sizes,
        &mut alignments,
        root,
        values,
    )?;
    if out.len() < needed.bytes {
        return Err(Refusal::RoomTooSmall.at(Place::Amount(needed.bytes)));
    }
    let lent = needed.bytes;
    let laid = Laid {
        rows,
        members,
        entries,
        sizes: &sizes,
        alignments: &alignments,
    };
    pass(&laid, root, values, &mut out[..lent])
}
