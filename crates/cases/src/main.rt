// Runs the cases of the number stream on standard input, and writes for each operation how many passed and how many
// failed. A case is a line: its operation's number, the inputs, and the answer that it must give. vectors/make.py makes
// the stream from the vector files, and finds the vector that a line was made from.
#![tactic(auto)]

ghost use Rattle.std.specs.Prelude.{◌≤◌};

use rules::{Fault, Layout};
use std::{fmt, io};
use stream::{Narrow, same, split_list};
use words::item_at;

// Room for the bytes of a message.
const MESSAGE_ROOM: usize = 4096;

// More than a type table's list may hold, so that lists that are too long can be handed on as they are.
const LIST_ROOM: usize = 4096;

// More than a header or the message of any case that is written.
const OUTPUT_ROOM: usize = 2048;

// More than the value list or the object list of any case.
const NUMBERS_ROOM: usize = 256;

const FAILURES_SHOWN: usize = 8;

fn main(rt: HostRuntime) -> io::Result<()> {
    let mut text: [u8; stream::TEXT_ROOM] = stream::room(0);
    let count = console::read_full(&mut rt.stdin(), &mut text)?;
    if count == stream::TEXT_ROOM {
        return report_too_long(&rt);
    }
    run(&rt, &text[..count])
}

#[inline(never)]
fn report_too_long(rt: &impl Print) -> io::Result<()> {
    println!(rt; "the stream is too long")
}

fn run(rt: &impl Print, text: &[u8]) -> io::Result<()> {
    let mut numbers = [0u64; stream::LINE_ROOM];
    let mut tallies = [Tally::default(); OPERATIONS.len()];
    let mut failures: usize = 0;
    let mut line: usize = 0;
    let mut rest = text;
    // Not `for`: where a line ends is known when it is read.
    while !rest.is_empty() {
        let read = stream::read_line(rest, &mut numbers);
        rest = read.rest;
        line += 1;
        let case = stream::first(&numbers, read.count);
        let operation = Operation::from(item_at(case, 0));
        let passed = operation.passes(stream::rest(case, 1));
        tallies[operation as usize].count(passed);
        if passed {
            continue;
        }
        // The first failures are named by their line in the stream.
        if failures < FAILURES_SHOWN {
            report_failure(rt, operation, line)?;
        }
        failures += 1;
    }
    report(rt, &tallies)
}

// How many cases of an operation passed, and how many failed.
#[derive(Clone, Copy, Default)]
struct Tally {
    passed: u64,
    failed: u64,
}

impl Tally {
    fn count(&mut self, passed: bool) {
        if passed {
            self.passed = self.passed.saturating_add(1);
        } else {
            self.failed = self.failed.saturating_add(1);
        }
    }
}

#[inline(never)]
fn report_failure(rt: &impl Print, operation: Operation, line: usize) -> io::Result<()> {
    println!(rt; "{operation}: line {line} failed")
}

#[inline(never)]
fn report(rt: &impl Print, tallies: &[Tally; OPERATIONS.len()]) -> io::Result<()> {
    for (operation, tally) in OPERATIONS.iter().zip(tallies) {
        println!(rt;
            "{operation}: {} passed, {} failed",
            tally.passed, tally.failed
        )?;
    }
    Ok(())
}

// ---- operations: for each a variant, a line in the list and in the three functions after it, a function of its own, and a
// line in vectors/make.py

#[derive(Clone, Copy)]
enum Operation {
    Unknown,
    Utf8,
    Sound,
    Layout,
    HeaderRead,
    HeaderWrite,
    Check,
    Read,
    Write,
    EpitaphWrite,
}

const OPERATIONS: [Operation; 10] = [
    Operation::Unknown,
    Operation::Utf8,
    Operation::Sound,
    Operation::Layout,
    Operation::HeaderRead,
    Operation::HeaderWrite,
    Operation::Check,
    Operation::Read,
    Operation::Write,
    Operation::EpitaphWrite,
];

impl From<u64> for Operation {
    fn from(number: u64) -> Operation {
        match number {
            1 => Operation::Utf8,
            2 => Operation::Sound,
            3 => Operation::Layout,
            4 => Operation::HeaderRead,
            5 => Operation::HeaderWrite,
            6 => Operation::Check,
            7 => Operation::Read,
            8 => Operation::Write,
            9 => Operation::EpitaphWrite,
            _ => Operation::Unknown,
        }
    }
}

impl fmt::Display for Operation {
    fn fmt<W: fmt::Write>(&self, f: &mut fmt::Formatter<W>) -> fmt::Result {
        f.write_str(match self {
            Operation::Unknown => "no operation",
            Operation::Utf8 => "utf8",
            Operation::Sound => "sound",
            Operation::Layout => "layout",
            Operation::HeaderRead => "header_read",
            Operation::HeaderWrite => "header_write",
            Operation::Check => "check",
            Operation::Read => "read",
            Operation::Write => "write",
            Operation::EpitaphWrite => "epitaph_write",
        })
    }
}

impl Operation {
    // A case is handed on without its operation's number.
    fn passes(self, case: &[u64]) -> bool {
        match self {
            Operation::Unknown => false,
            Operation::Utf8 => utf8(case),
            Operation::Sound => sound(case),
            Operation::Layout => layout_of(case),
            Operation::HeaderRead => header_read(case),
            Operation::HeaderWrite => header_write(case),
            Operation::Check => check(case),
            Operation::Read => read(case),
            Operation::Write => write(case),
            Operation::EpitaphWrite => epitaph_write(case),
        }
    }
}

// ---- what a case says of an answer. Functions with room of their own, here and for the operations, are calls of their own, so that only one
// of these rooms lies on the stack at a time.

// Number and place of a refusal; both are 0 where nothing is refused.
fn number_and_place<T>(answer: &Result<T, Fault>) -> [u64; 2] {
    match answer {
        Ok(_) => [0, 0],
        Err(f) => [u64::from(f.number), rules::place_number(*f)],
    }
}

// A room as a case names it, and not more than there is.
fn room_of(room: u64, most: usize) -> usize
    ensures { result ≤ most }
{
    room.min(most as u64) as usize
}

// Whether a list that was lent full of ones holds just these numbers, and ones after them. Those are most of it, and are looked at without
// a branch for each.
fn holds<T: Copy + Into<u64>>(list: &[T], ones: T, given: &[u64]) -> bool {
    given.len() <= list.len()
        && list[..given.len()]
            .iter()
            .zip(given)
            .all(|(held, number)| (*held).into() == *number)
        && list[given.len()..].iter().fold(
            true,
            |right, held| right & ((*held).into() == ones.into()),
        )
}

// The same of an object list.
fn holds_objects(objects: &[u32; NUMBERS_ROOM], given: &[u64]) -> bool {
    given.len() <= objects.len()
        && objects[..given.len()]
            .iter()
            .zip(given)
            .all(|(held, number)| widened(*held) == *number)
        && objects[given.len()..]
            .iter()
            .fold(true, |right, held| right & (*held == u32::MAX))
}

// A number of an object list, as wide as the numbers of a case: all ones stay all ones.
fn widened(object: u32) -> u64 {
    if object == u32::MAX {
        u64::MAX
    } else {
        u64::from(object)
    }
}

// The message, the place and the count; number and place.
#[inline(never)]
fn utf8(case: &[u64]) -> bool {
    let mut message = [0u8; MESSAGE_ROOM];
    let (numbers, rest) = split_list(case);
    let count = stream::put_narrow(numbers, &mut message);
    let bytes = &message[..count];
    let at = item_at(rest, 0) as usize;
    let length = item_at(rest, 1) as usize;
    let answer = stream::rest(rest, 2);
    match text::judge_part(bytes, at, length) {
        Ok(()) => same(answer, &[0, 0]) && text::is_utf8(bytes, at, length),
        Err(start) => same(answer, &[13, start as u64]) && !text::is_utf8(bytes, at, length),
    }
}

// The row list, the member list and the entries; number and place.
#[inline(never)]
fn sound(case: &[u64]) -> bool {
    let mut rows = [0u32; LIST_ROOM];
    let mut members = [0u32; LIST_ROOM];
    let table = stream::put_table(case, &mut rows, &mut members);
    let mut sizes = [0u32; 256];
    let mut alignments = [0u32; 256];
    let verdict = layout::prepare(
        &rows[..table.rows],
        &members[..table.members],
        table.entries,
        &mut sizes,
        &mut alignments,
    );
    same(table.rest, &number_and_place(&verdict))
}

// The three lists of a type table and the row; number, place, size and alignment.
#[inline(never)]
fn layout_of(case: &[u64]) -> bool {
    let mut rows = [0u32; LIST_ROOM];
    let mut members = [0u32; LIST_ROOM];
    let table = stream::put_table(case, &mut rows, &mut members);
    let row = u32::narrow(item_at(table.rest, 0));
    let answer = layout::layout_of(
        &rows[..table.rows],
        &members[..table.members],
        table.entries,
        row,
    );
    let [number, place] = number_and_place(&answer);
    let layout = answer.unwrap_or(Layout {
        size: 0,
        alignment: 0,
    });
    same(
        stream::rest(table.rest, 1),
        &[number, place, layout.size as u64, layout.alignment as u64],
    )
}

// A type table, and a message under it.
#[derive(Clone, Copy)]
struct Request<'a> {
    rows: &'a [u32],
    members: &'a [u32],
    entries: &'a [u64],
    root: u32,
    message: &'a [u8],
    handles: u64,
}

// Room for a type table and for a message.
#[derive(Drop)]
struct Rooms {
    rows: [u32; LIST_ROOM],
    members: [u32; LIST_ROOM],
    message: [u8; MESSAGE_ROOM],
}

impl Rooms {
    fn new() -> Rooms {
        Rooms {
            rows: [0; LIST_ROOM],
            members: [0; LIST_ROOM],
            message: [0; MESSAGE_ROOM],
        }
    }

    // The three lists of a type table, the root, the message and the handle count; and the numbers after them.
    fn request<'a>(&'a mut self, case: &'a [u64]) -> (Request<'a>, &'a [u64]) {
        let Rooms {
            rows,
            members,
            message,
        } = self;
        let table = stream::put_table(case, rows, members);
        let root = u32::narrow(item_at(table.rest, 0));
        let (numbers, rest) = split_list(stream::rest(table.rest, 1));
        let count = stream::put_narrow(numbers, message);
        let handles = item_at(rest, 0);
        let after = stream::rest(rest, 1);
        let request = Request {
            rows: &rows[..table.rows],
            members: &members[..table.members],
            entries: table.entries,
            root,
            message: &message[..count],
            handles,
        };
        (request, after)
    }
}

// A request; number and place.
#[inline(never)]
fn check(case: &[u64]) -> bool {
    let mut rooms = Rooms::new();
    let (r, answer) = rooms.request(case);
    let verdict = reader::check(r.rows, r.members, r.entries, r.root, r.message, r.handles);
    same(answer, &number_and_place(&verdict))
}

// A request, then the rooms of the value list and of the object list; number, place, and both lists.
#[inline(never)]
fn read(case: &[u64]) -> bool {
    let mut rooms = Rooms::new();
    let (r, rest) = rooms.request(case);
    let (values, after_values) = split_list(stream::rest(rest, 4));
    let (objects, _) = split_list(after_values);
    let lists = Lists {
        values_room: item_at(rest, 0),
        objects_room: item_at(rest, 1),
        answer: stream::first(stream::rest(rest, 2), 2),
        values,
        objects,
    };
    read_both(r, lists) && read_each(r, lists)
}

// What a case says of the lists of a message. They are lent full of ones: past what was given, and on a refusal everywhere,
// those must still be there.
#[derive(Clone, Copy)]
struct Lists<'a> {
    values_room: u64,
    objects_room: u64,
    answer: &'a [u64],
    values: &'a [u64],
    objects: &'a [u64],
}

// Both lists at once.
#[inline(never)]
fn read_both(r: Request<'_>, lists: Lists<'_>) -> bool {
    let values_room = room_of(lists.values_room, NUMBERS_ROOM);
    let objects_room = room_of(lists.objects_room, NUMBERS_ROOM);
    let mut values = [u64::MAX; NUMBERS_ROOM];
    let mut objects = [u32::MAX; NUMBERS_ROOM];
    let read = reader::read(
        r.rows,
        r.members,
        r.entries,
        r.root,
        r.message,
        r.handles,
        &mut values[..values_room],
        &mut objects[..objects_room],
    );
    let counted = match &read {
        Ok(n) => n.values == lists.values.len() && n.objects == lists.objects.len(),
        Err(_) => true,
    };
    counted
        && same(lists.answer, &number_and_place(&read))
        && holds(&values, u64::MAX, lists.values)
        && holds_objects(&objects, lists.objects)
}

// Each list by itself. A case of 22 does not tell how one list alone would do.
#[inline(never)]
fn read_each(r: Request<'_>, lists: Lists<'_>) -> bool {
    if item_at(lists.answer, 0) == 22 {
        return true;
    }
    let values_room = room_of(lists.values_room, NUMBERS_ROOM);
    let objects_room = room_of(lists.objects_room, NUMBERS_ROOM);
    let mut values = [u64::MAX; NUMBERS_ROOM];
    let mut objects = [u32::MAX; NUMBERS_ROOM];
    let of_values = reader::read_values(
        r.rows,
        r.members,
        r.entries,
        r.root,
        r.message,
        r.handles,
        &mut values[..values_room],
    );
    let of_objects = reader::read_objects(
        r.rows,
        r.members,
        r.entries,
        r.root,
        r.message,
        r.handles,
        &mut objects[..objects_room],
    );
    gives(of_values, lists.answer, lists.values.len())
        && gives(of_objects, lists.answer, lists.objects.len())
        && holds(&values, u64::MAX, lists.values)
        && holds_objects(&objects, lists.objects)
}

// Whether a count, or a refusal, is the answer.
fn gives(count: Result<usize, Fault>, answer: &[u64], expected: usize) -> bool {
    same(answer, &number_and_place(&count)) && count.unwrap_or(expected) == expected
}

// The message; number, place, transaction number, three flags, ordinal, where the body starts and ends, and the status, as a
// pattern of 32 bits.
#[inline(never)]
fn header_read(case: &[u64]) -> bool {
    let mut message = [0u8; MESSAGE_ROOM];
    let (numbers, answer) = split_list(case);
    let count = stream::put_narrow(numbers, &mut message);
    let bytes = &message[..count];
    let length = header::body(bytes).len() as u64;
    match header::read_header(bytes) {
        Ok(header::Received { header: h, status }) => same(
            answer,
            &[
                0,
                0,
                u64::from(h.transaction),
                u64::from(h.flags[0]),
                u64::from(h.flags[1]),
                u64::from(h.flags[2]),
                h.ordinal,
                16,
                16 + length,
                u64::from(status.cast_unsigned()),
            ],
        ),
        Err(f) => same(
            answer,
            &[
                u64::from(f.number),
                rules::place_number(f),
                0,
                0,
                0,
                0,
                0,
                0,
                length,
                0,
            ],
        ),
    }
}

// Transaction number, three flags, ordinal and room; number, place, and the bytes that were written. The output is lent
// full of ones: past what was written, and on a refusal everywhere, they must still be there.
#[inline(never)]
fn header_write(case: &[u64]) -> bool {
    let h = header::Header {
        transaction: u32::narrow(item_at(case, 0)),
        flags: [
            u8::narrow(item_at(case, 1)),
            u8::narrow(item_at(case, 2)),
            u8::narrow(item_at(case, 3)),
        ],
        ordinal: item_at(case, 4),
    };
    let room = room_of(item_at(case, 5), OUTPUT_ROOM);
    let mut output = [255u8; OUTPUT_ROOM];
    let written = header::write_header(h, &mut output[..room]);
    wrote(stream::rest(case, 6), written, &output)
}

// Three flags, the status and the room; number, place, and the bytes that were written, as for a header.
#[inline(never)]
fn epitaph_write(case: &[u64]) -> bool {
    let room = room_of(item_at(case, 4), OUTPUT_ROOM);
    let mut output = [255u8; OUTPUT_ROOM];
    let written = header::write_epitaph(
        [
            u8::narrow(item_at(case, 0)),
            u8::narrow(item_at(case, 1)),
            u8::narrow(item_at(case, 2)),
        ],
        u32::narrow(item_at(case, 3)).cast_signed(),
        &mut output[..room],
    );
    wrote(stream::rest(case, 5), written, &output)
}

// Number, place and bytes: of a refusal there are none.
fn wrote(answer: &[u64], written: Result<usize, Fault>, output: &[u8]) -> bool {
    let (bytes, _) = split_list(stream::rest(answer, 2));
    same(stream::first(answer, 2), &number_and_place(&written))
        && bytes.len() == written.unwrap_or(0)
        && holds(output, u8::MAX, bytes)
}

// The three lists of a type table, the root, the value list and the room; number, place, byte and handle counts, and the bytes
// that were written, as for a header.
#[inline(never)]
fn write(case: &[u64]) -> bool {
    let mut rows = [0u32; LIST_ROOM];
    let mut members = [0u32; LIST_ROOM];
    let table = stream::put_table(case, &mut rows, &mut members);
    let root = u32::narrow(item_at(table.rest, 0));
    let (values, rest) = split_list(stream::rest(table.rest, 1));
    let room = room_of(item_at(rest, 0), OUTPUT_ROOM);
    let mut output = [255u8; OUTPUT_ROOM];
    let written = writer::write(
        &rows[..table.rows],
        &members[..table.members],
        table.entries,
        root,
        values,
        &mut output[..room],
    );
    let [number, place] = number_and_place(&written);
    let sizes = written.unwrap_or(writer::Sizes {
        bytes: 0,
        handles: 0,
    });
    let (bytes, _) = split_list(stream::rest(rest, 5));
    same(
        stream::first(stream::rest(rest, 1), 4),
        &[number, place, sizes.bytes as u64, sizes.handles as u64],
    ) && bytes.len() == sizes.bytes
        && holds(&output, u8::MAX, bytes)
}
