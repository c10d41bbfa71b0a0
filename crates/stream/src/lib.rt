// The number stream: a case is a line of decimal numbers. Every byte that is no digit ends a number, and a line feed ends
// the line too. In a case a list stands as its length and then its numbers.
#![tactic(auto)]

ghost use Rattle.std.specs.Prelude.{◌≡◌, ℕ, ◌+◌, ◌-◌, ◌*◌, ◌%◌, ◌<◌, ◌≤◌, length, take, drop, replicate};
ghost use Rattle.stream.specs.Numbers.{with_digit, LineRead, list_at, after_list, start_at, byte_of, word_of, Narrows, third_place, TablePut, same_numbers};

// Room for a stream, and for the numbers of a line of it.
pub const TEXT_ROOM: usize = 655360;

pub const LINE_ROOM: usize = 16384;

// A list of one value, to be lent.
pub fn room<T: Copy, const N: usize>(value: T) -> [T; N]
    ensures filled { result ≡ replicate N value }
    ensures long { N ≡ length result }
{
    [value; N]
}

// How many numbers stand in a line, and the text after it.
#[derive(Clone, Copy)]
pub struct Line<'a> {
    pub count: usize,
    pub rest: &'a [u8],
}

// Puts the numbers of the first line into a lent list, those that it has room for, and counts them all.
pub fn read_line<'a>(text: &'a [u8], numbers: &mut [u64]) -> Line<'a>
    ensures read { LineRead text.now numbers.old result.count result.rest.now numbers.new }
    ensures shorter { 0 < length text.now → length result.rest.now < length text.now }
    ensures start { result.rest.ref_ptr ≡ (text.entry.ref_ptr.0, length text.now - length result.rest.now + text.entry.ref_ptr.1) }
{
    let mut value: u64 = 0;
    let mut count: usize = 0;
    for (at, byte) in text.iter().enumerate() {
        if byte.is_ascii_digit() {
            value = with_digit(value, *byte);
            continue;
        }
        words::put_item(numbers, count, value);
        count += 1;
        value = 0;
        if *byte == b'\n' {
            return Line {
                count,
                rest: &text[at + 1..],
            };
        }
    }
    Line {
        count,
        rest: &text[text.len()..],
    }
}

// Not `parse`: a number over the largest is the largest.
fn with_digit(value: u64, digit: u8) -> u64
    requires { (48 ≤ digit) × (digit ≤ 57) }
    ensures { result ≡ with_digit value digit }
{
    value
        .saturating_mul(10)
        .saturating_add(u64::from(digit - b'0'))
}

// The numbers from a place on; past the end, the list's empty start. (`get` does not tell where a part starts.)
pub fn rest(numbers: &[u64], at: usize) -> &[u64]
    ensures numbers { result.now ≡ drop at numbers.now }
    ensures start { result.ref_ptr ≡ start_at numbers.now at numbers.entry.ref_ptr }
{
    if at <= numbers.len() {
        &numbers[at..]
    } else {
        &numbers[..0]
    }
}

// So many numbers from the first on.
pub fn first(numbers: &[u64], count: usize) -> &[u64]
    ensures numbers { result.now ≡ take count numbers.now }
    ensures start { result.ref_ptr ≡ numbers.entry.ref_ptr }
{
    &numbers[..count.min(numbers.len())]
}

// The list whose length stands first in a case, and the numbers after it.
pub fn split_list(case: &[u64]) -> (&[u64], &[u64])
    ensures list { result.0.now ≡ list_at case.now 0 }
    ensures list_start { result.0.ref_ptr ≡ start_at case.now 1 case.entry.ref_ptr }
    ensures rest { result.1.now ≡ after_list case.now 0 }
    ensures rest_start { result.1.ref_ptr ≡ start_at case.now (1 + length result.0.now) case.entry.ref_ptr }
{
    if case.is_empty() {
        return (case, case);
    }
    let list = first(&case[1..], case[0] as usize);
    (list, &case[1 + list.len()..])
}

// What the numbers of a case are put into: bytes, or words as those of a type table are.
pub trait Narrow: Copy {
    ghost narrowed: { ℕ → Self };

    fn narrow(number: u64) -> Self
        ensures { result ≡ narrowed number };
}

impl Narrow for u8 {
    ghost narrowed = { byte_of };

    fn narrow(number: u64) -> u8 {
        (number % 256) as u8
    }
}

impl Narrow for u32 {
    ghost narrowed = { word_of };

    fn narrow(number: u64) -> u32 {
        (number % 4294967296) as u32
    }
}

// Puts numbers into a lent list of a narrower type, those that it has room for, and says how many.
pub fn put_narrow<T: Narrow>(numbers: &[u64], lent: &mut [T]) -> usize
    ensures { Narrows T.narrowed numbers.now lent.old result lent.new }
{
    let count = numbers.len().min(lent.len());
    for (at, number) in numbers[..count].iter().enumerate() {
        lent[at] = T::narrow(*number);
    }
    count
}

// How many numbers of a row list and of a member list were put into lent lists, the entries, which need no list of their own,
// the numbers after all three, and the place where these start: past the end of the case where a list's length is missing.
#[derive(Clone, Copy)]
pub struct Table<'a> {
    pub rows: usize,
    pub members: usize,
    pub entries: &'a [u64],
    pub rest: &'a [u64],
    pub next: usize,
}

// Puts the row list and the member list that stand first into lent lists.
pub fn put_table<'a>(numbers: &'a [u64], rows: &mut [u32], members: &mut [u32]) -> Table<'a>
    ensures put { TablePut numbers.now rows.old members.old result.rows result.members result.entries.now result.rest.now result.next rows.new members.new }
    ensures entries { third_place numbers.now < length numbers.now → result.entries.ref_ptr ≡ (numbers.entry.ref_ptr.0, (third_place numbers.now + 1) * 8 + numbers.entry.ref_ptr.1) }
    ensures rest { third_place numbers.now < length numbers.now → result.rest.ref_ptr ≡ (numbers.entry.ref_ptr.0, (third_place numbers.now + (1 + length result.entries.now)) * 8 + numbers.entry.ref_ptr.1) }
{
    let (row_list, after_rows) = split_list(numbers);
    let (member_list, after_members) = split_list(after_rows);
    let (entries, rest) = split_list(after_members);
    Table {
        rows: put_narrow(row_list, rows),
        members: put_narrow(member_list, members),
        entries,
        rest,
        next: 3 + row_list.len() + member_list.len() + entries.len(),
    }
}

// Are two lists of numbers equal? That is `==`, promised by `same_numbers`, as programs cite it.
pub fn same(left: &[u64], right: &[u64]) -> bool
    ensures { result ≡ same_numbers left.now right.now }
{
    left == right
}
