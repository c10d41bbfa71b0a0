// Sends each message of the number stream on standard input there and back: it is checked and read, and what was read is
// written and compared. A refused one is reported, with its line, its number and its place; at the end stand the counts. A
// line is a message: row list, member list, entries, root, bytes and handle count. vectors/make.py makes the stream from the vector files.
#![tactic(auto)]

use demands::Trip;
use rules::Fault;
use std::io;
use stream::{Narrow, split_list};
use words::item_at;

// Room for the lists of a type table, and for a message and its values.
const LIST_ROOM: usize = 4096;

const MESSAGE_ROOM: usize = 4096;

// How many messages came back the same, how many came back as another, and how many were refused.
#[derive(Clone, Copy, Default)]
struct Counts {
    same: usize,
    different: usize,
    refused: usize,
}

fn main(rt: HostRuntime) -> io::Result<()> {
    let mut text: [u8; stream::TEXT_ROOM] = stream::room(0);
    let count = console::read_full(&mut rt.stdin(), &mut text)?;
    if count == stream::TEXT_ROOM {
        return println!(rt; "the stream is too long");
    }
    run(&rt, &text[..count])
}

fn run(rt: &impl Print, text: &[u8]) -> io::Result<()> {
    let mut numbers = [0u64; stream::LINE_ROOM];
    let mut counts = Counts::default();
    let mut line: usize = 0;
    let mut rest = text;
    // Not `for`: where a line ends is known when it is read.
    while !rest.is_empty() {
        let read = stream::read_line(rest, &mut numbers);
        rest = read.rest;
        line += 1;
        match there_and_back(stream::first(&numbers, read.count)) {
            Ok(Trip::Same) => counts.same += 1,
            Ok(Trip::Different) => counts.different += 1,
            Err(f) => {
                let place = rules::place_number(f);
                println!(rt; "line {line}: refused with {} at {place}", f.number)?;
                counts.refused += 1;
            }
        }
    }
    println!(rt;
        "same: {}\ndifferent: {}\nrefused: {}",
        counts.same, counts.different, counts.refused
    )
}

fn there_and_back(numbers: &[u64]) -> Result<Trip, Fault> {
    let mut rows = [0u32; LIST_ROOM];
    let mut members = [0u32; LIST_ROOM];
    let table = stream::put_table(numbers, &mut rows, &mut members);
    let root = u32::narrow(item_at(table.rest, 0));
    let (bytes, rest) = split_list(stream::rest(table.rest, 1));
    let mut message = [0u8; MESSAGE_ROOM];
    let count = stream::put_narrow(bytes, &mut message);
    let mut values = [0u64; MESSAGE_ROOM];
    let mut out = [255u8; MESSAGE_ROOM];
    demands::round_trip(
        &rows[..table.rows],
        &members[..table.members],
        table.entries,
        root,
        &message[..count],
        item_at(rest, 0),
        &mut values,
        &mut out,
    )
}
