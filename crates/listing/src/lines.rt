// Text put into a lent output from a place on. What there is no room for is left out; each function answers the place
// after its text all the same. That a place is at most `largest` keeps the sums from wrapping. `write!` does not serve: its
// contract says nothing where it fails, nor that it does not fail, and here every byte is promised.
ghost use Rattle.std.specs.Prelude.{[], ◌∷◌, ◌+◌, ◌*◌, ◌≤◌, length, get_or};
ghost use Rattle.listing.specs.Lines.{decimal, labelled, line, object_at, object_lines, value=, value_lines, largest, Puts};

use words::Word;

fn put_byte(out: &mut [u8], at: usize, byte: u8) -> usize
    requires { at ≤ largest }
    ensures { Puts out.old at (byte ∷ []) 1 result out.new }
{
    u8::store(out, at, byte);
    at + 1
}

fn put_bytes(out: &mut [u8], at: usize, text: &[u8]) -> usize
    requires { at + length text.now ≤ largest }
    ensures { Puts out.old at text.now (length text.now) result out.new }
{
    let mut next = at;
    for byte in text {
        next = put_byte(out, next, *byte);
    }
    next
}

// Written out: what `fmt` writes has no contract. The digits of the quotient by ten come before the last digit. A number of 64 bits has at most twenty.
fn put_number(out: &mut [u8], at: usize, n: u64) -> usize
    requires { at + 20 ≤ largest }
    ensures { Puts out.old at (decimal n) 20 result out.new }
{
    if n < 10 {
        return put_byte(out, at, 48 + n as u8);
    }
    let next = put_number(out, at, n / 10);
    put_byte(out, next, 48 + (n % 10) as u8)
}

fn put_labelled(out: &mut [u8], at: usize, label: &[u8], n: u64) -> usize
    requires { at + (length label.now + 20) ≤ largest }
    ensures { Puts out.old at (labelled label.now n) (length label.now + 20) result out.new }
{
    let next = put_bytes(out, at, label);
    put_number(out, next, n)
}

pub(crate) fn put_line(out: &mut [u8], at: usize, label: &[u8], n: u64) -> usize
    requires { at + (length label.now + 20 + 1) ≤ largest }
    ensures { Puts out.old at (line label.now n) (length label.now + 20 + 1) result out.new }
{
    let next = put_labelled(out, at, label, n);
    put_byte(out, next, b'\n')
}

// The object whose kind, row, offset and length these are.
fn put_object(out: &mut [u8], at: usize, object: &[u32; 4]) -> usize
    requires { at + 91 ≤ largest }
    ensures { Puts out.old at (object_at object.now 0) 91 result out.new }
{
    let [kind, row, offset, size] = *object;
    let after_kind = put_labelled(out, at, b"object=", u64::from(kind));
    let after_row = put_labelled(out, after_kind, b",", u64::from(row));
    let after_offset = put_labelled(out, after_row, b",", u64::from(offset));
    let after_size = put_labelled(out, after_offset, b",", u64::from(size));
    put_byte(out, after_size, b'\n')
}

// 91 bytes for four numbers are less than 23 for each.
pub(crate) fn put_objects(out: &mut [u8], at: usize, objects: &[u32]) -> usize
    requires { at + 23 * length objects.now ≤ largest }
    ensures { Puts out.old at (object_lines objects.now) (23 * length objects.now) result out.new }
{
    let mut next = at;
    let (whole, _) = objects.as_chunks();
    for object in whole {
        next = put_object(out, next, object);
    }
    next
}

pub(crate) fn put_values(out: &mut [u8], at: usize, values: &[u64]) -> usize
    requires { at + 27 * length values.now ≤ largest }
    ensures { Puts out.old at (value_lines values.now) (27 * length values.now) result out.new }
{
    let mut next = at;
    for value in values {
        next = put_line(out, next, b"value=", *value);
    }
    next
}
