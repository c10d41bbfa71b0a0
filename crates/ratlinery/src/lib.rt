// Ratlinery for C, C++ and Rust: include/ratlinery.h says what each function does. Each returns the number of the refusal, 0
// when accepted, and stores the place and its results into `answer`, as far as that has room.
#![tactic(auto, using(crate::proofs::Telling::answer_told))]

ghost use Rattle.std.specs.Prelude.{◌≡◌, ◌∷◌, length};
ghost use Rattle.std.proofs.lemmas.List.Edits.{sets};
ghost use Rattle.rules.specs.Refusals.{number, lent_after};
ghost use Rattle.rules.specs.TypeTable.{type_table};
ghost use Rattle.rules.specs.Answers as Rules;
ghost use Rattle.rules.specs.Answers.{nothing, laid, counted, both_counted, sized, answer_of};
ghost use Rattle.rules.specs.Header as Headers;
ghost use Rattle.walk_leaves.specs.Doing as Doing;
ghost use Rattle.reader.specs.Answers.{one, both, values_in, objects_in};
ghost use Rattle.header.specs.Meaning.{header_of};
ghost use Rattle.writer.specs.Answers as Writer;
ghost use Rattle.ratlinery.specs.Face.{told, header, headed, pattern64};

use header::{Header, Received};
use reader::Lengths;
use rules::{Fault, Layout, Place, Refusal};
use writer::Sizes;

// The place, then the results, as far as there is room.
fn store(place: u64, results: &[u64], answer: &mut [u64])
    ensures { answer.new ≡ sets answer.old 0 (place ∷ results.now) }
{
    words::put_item(answer, 0, place);
    for (i, result) in results.iter().enumerate() {
        words::put_item(answer, i + 1, *result);
    }
}

// What is told of an outcome: the number is returned; the place and the results are stored, as far as there is room. On a
// refusal the results are 0.
fn told<const N: usize>(outcome: Result<[u64; N], Fault>, answer: &mut [u64]) -> u32
    ensures number { result ≡ number (answer_of outcome.entry) }
    ensures answer { answer.new ≡ sets answer.old 0 (told N (λ results. results) (answer_of outcome.entry)) }
{
    match outcome {
        Ok(results) => {
            store(0, &results, answer);
            0
        }
        Err(f) => {
            store(rules::place_number(f), &[0; N], answer);
            f.number
        }
    }
}

// ---- the results that are told

fn laid(l: Layout) -> [u64; 2]
    ensures { result ≡ laid l }
{
    [l.size as u64, l.alignment as u64]
}

fn counted(count: usize) -> [u64; 1]
    ensures { result ≡ one count }
{
    [count as u64]
}

fn both_counted(lengths: Lengths) -> [u64; 2]
    ensures { result ≡ both lengths }
{
    [lengths.values as u64, lengths.objects as u64]
}

fn sized(sizes: Sizes) -> [u64; 2]
    ensures { result ≡ Writer.told sizes }
{
    [sizes.bytes as u64, sizes.handles as u64]
}

// A signed number as the pattern of 64 bits that C is told.
fn extended(number: i32) -> u64
    ensures { result ≡ pattern64 number }
{
    i64::from(number).cast_unsigned()
}

// ---- the functions for C

#[unsafe(no_mangle)]
pub extern "C" fn ratlinery_layout(
    rows: &[u32],
    members: &[u32],
    entries: &[u64],
    row: u32,
    answer: &mut [u64],
) -> u32
    ensures number { result ≡ number (Rules.layout_answer (type_table rows.now members.now entries.now) row) }
    ensures answer { answer.new ≡ sets answer.old 0 (told 2 laid (Rules.layout_answer (type_table rows.now members.now entries.now) row)) }
{
    told(
        layout::layout_of(rows, members, entries, row).map(laid),
        answer,
    )
}

#[unsafe(no_mangle)]
pub extern "C" fn ratlinery_check(
    rows: &[u32],
    members: &[u32],
    entries: &[u64],
    root: u32,
    message: &[u8],
    handles: u64,
    answer: &mut [u64],
) -> u32
    ensures number { result ≡ number (Rules.check (Doing.message (type_table rows.now members.now entries.now) message.now handles) root) }
    ensures answer { answer.new ≡ sets answer.old 0 (told 0 nothing (Rules.check (Doing.message (type_table rows.now members.now entries.now) message.now handles) root)) }
{
    told(
        reader::check(rows, members, entries, root, message, handles).map(|()| []),
        answer,
    )
}

#[unsafe(no_mangle)]
pub extern "C" fn ratlinery_read(
    rows: &[u32],
    members: &[u32],
    entries: &[u64],
    root: u32,
    message: &[u8],
    handles: u64,
    values: &mut [u64],
    objects: &mut [u32],
    answer: &mut [u64],
) -> u32
    ensures number { result ≡ number (Rules.read (Doing.message (type_table rows.now members.now entries.now) message.now handles) root (length values.old) (length objects.old)) }
    ensures values { values.new ≡ lent_after (values_in (Rules.read (Doing.message (type_table rows.now members.now entries.now) message.now handles) root (length values.old) (length objects.old))) values.old }
    ensures objects { objects.new ≡ lent_after (objects_in (Rules.read (Doing.message (type_table rows.now members.now entries.now) message.now handles) root (length values.old) (length objects.old))) objects.old }
    ensures answer { answer.new ≡ sets answer.old 0 (told 2 both_counted (Rules.read (Doing.message (type_table rows.now members.now entries.now) message.now handles) root (length values.old) (length objects.old))) }
{
    told(
        reader::read(
            rows, members, entries, root, message, handles, values, objects,
        )
        .map(both_counted),
        answer,
    )
}

#[unsafe(no_mangle)]
pub extern "C" fn ratlinery_read_values(
    rows: &[u32],
    members: &[u32],
    entries: &[u64],
    root: u32,
    message: &[u8],
    handles: u64,
    values: &mut [u64],
    answer: &mut [u64],
) -> u32
    ensures number { result ≡ number (Rules.read_values (Doing.message (type_table rows.now members.now entries.now) message.now handles) root (length values.old)) }
    ensures values { values.new ≡ lent_after (Rules.read_values (Doing.message (type_table rows.now members.now entries.now) message.now handles) root (length values.old)) values.old }
    ensures answer { answer.new ≡ sets answer.old 0 (told 1 counted (Rules.read_values (Doing.message (type_table rows.now members.now entries.now) message.now handles) root (length values.old))) }
{
    told(
        reader::read_values(rows, members, entries, root, message, handles, values).map(counted),
        answer,
    )
}

#[unsafe(no_mangle)]
pub extern "C" fn ratlinery_read_objects(
    rows: &[u32],
    members: &[u32],
    entries: &[u64],
    root: u32,
    message: &[u8],
    handles: u64,
    objects: &mut [u32],
    answer: &mut [u64],
) -> u32
    ensures number { result ≡ number (Rules.read_objects (Doing.message (type_table rows.now members.now entries.now) message.now handles) root (length objects.old)) }
    ensures objects { objects.new ≡ lent_after (Rules.read_objects (Doing.message (type_table rows.now members.now entries.now) message.now handles) root (length objects.old)) objects.old }
    ensures answer { answer.new ≡ sets answer.old 0 (told 1 counted (Rules.read_objects (Doing.message (type_table rows.now members.now entries.now) message.now handles) root (length objects.old))) }
{
    told(
        reader::read_objects(rows, members, entries, root, message, handles, objects).map(counted),
        answer,
    )
}

#[unsafe(no_mangle)]
pub extern "C" fn ratlinery_write(
    rows: &[u32],
    members: &[u32],
    entries: &[u64],
    root: u32,
    values: &[u64],
    out: &mut [u8],
    answer: &mut [u64],
) -> u32
    ensures number { result ≡ number (Rules.write (type_table rows.now members.now entries.now) root values.now (length out.old)) }
    ensures out { out.new ≡ Rules.output_after (Rules.write (type_table rows.now members.now entries.now) root values.now (length out.old)) out.old }
    ensures answer { answer.new ≡ sets answer.old 0 (told 2 sized (Rules.write (type_table rows.now members.now entries.now) root values.now (length out.old))) }
{
    told(
        writer::write(rows, members, entries, root, values, out).map(sized),
        answer,
    )
}

#[tactic(auto, using(crate::proofs::Telling::header_told))]
#[unsafe(no_mangle)]
pub extern "C" fn ratlinery_header_read(message: &[u8], answer: &mut [u64]) -> u32
    ensures number { result ≡ number (Headers.read_header message.now) }
    ensures answer { answer.new ≡ sets answer.old 0 (told 6 (headed (length message.now) (Headers.status message.now)) (Headers.read_header message.now)) }
{
    let headed = |r: Received|
        ensures { result ≡ headed (length message.entry.now) r.status (header_of r.header) }
    {
        let [flag0, flag1, flag2] = r.header.flags;
        [
            r.header.transaction as u64,
            flag0 as u64 + flag1 as u64 * 256 + flag2 as u64 * 65536,
            r.header.ordinal,
            16,
            message.len().saturating_sub(16) as u64,
            extended(r.status),
        ]
    };
    told(header::read_header(message).map(headed), answer)
}

#[unsafe(no_mangle)]
pub extern "C" fn ratlinery_header_write(
    transaction: u32,
    flag0: u8,
    flag1: u8,
    flag2: u8,
    ordinal: u64,
    out: &mut [u8],
    answer: &mut [u64],
) -> u32
    ensures number { result ≡ number (Headers.write_header (header transaction flag0 flag1 flag2 ordinal) (length out.old)) }
    ensures out { out.new ≡ lent_after (Headers.write_header (header transaction flag0 flag1 flag2 ordinal) (length out.old)) out.old }
    ensures answer { answer.new ≡ sets answer.old 0 (told 1 counted (Headers.write_header (header transaction flag0 flag1 flag2 ordinal) (length out.old))) }
{
    let h = Header {
        transaction,
        flags: [flag0, flag1, flag2],
        ordinal,
    };
    told(header::write_header(h, out).map(counted), answer)
}

#[unsafe(no_mangle)]
pub extern "C" fn ratlinery_epitaph_write(
    flag0: u8,
    flag1: u8,
    flag2: u8,
    status: i32,
    out: &mut [u8],
    answer: &mut [u64],
) -> u32
    ensures number { result ≡ number (Headers.write_epitaph flag0 flag1 flag2 status (length out.old)) }
    ensures out { out.new ≡ lent_after (Headers.write_epitaph flag0 flag1 flag2 status (length out.old)) out.old }
    ensures answer { answer.new ≡ sets answer.old 0 (told 1 counted (Headers.write_epitaph flag0 flag1 flag2 status (length out.old))) }
{
    told(
        header::write_epitaph([flag0, flag1, flag2], status, out).map(counted),
        answer,
    )
}

#[unsafe(no_mangle)]
pub extern "C" fn ratlinery_utf8(text: &[u8], answer: &mut [u64]) -> u32
    ensures number { result ≡ number (Rules.text_answer text.now) }
    ensures answer { answer.new ≡ sets answer.old 0 (told 0 nothing (Rules.text_answer text.now)) }
{
    let judged = text::judge(text).map_err(|start| Refusal::TextNotUtf8.at(Place::Byte(start)));
    told(judged.map(|()| []), answer)
}
