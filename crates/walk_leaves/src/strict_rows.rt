// Strict enums and strict bits (W-206).
ghost use Rattle.std.specs.Prelude.{◌*◌, length};
ghost use Rattle.rules.specs.Decode.{elements};
ghost use Rattle.rules.specs.TypeTable.{a_in};
ghost use Rattle.strict.specs.Strict.{StrictRow};
ghost use Rattle.walk_leaves.specs.Doing.{Ask};
ghost use Rattle.walk_leaves.specs.Parts.{strict_at};
ghost use Rattle.walk_leaves.specs.Planning.{DidAsked};

use crate::cursor::{Cursor, gave, refused};
use crate::scalars::number_of;
use rules::{Fault, Refusal};

// Values of a strict enum or of strict bits, one after the other: 29, at the first that its entries don't allow.
pub fn strict_values(
    rows: &[u32],
    entries: &[u64],
    bytes: &[u8],
    values: &mut [u64],
    row: usize,
    count: usize,
    at: usize,
    c: Cursor,
) -> Result<Cursor, Fault>
    requires { StrictRow rows.now entries.now row × Ask (length bytes.now) 64 (count * a_in rows.now row) at c }
    ensures { DidAsked bytes.now values.old values.new (count * a_in rows.now row) at c result
        (λ m. elements (a_in rows.now row) (λ i. strict_at rows.now entries.now row m) 0 count) }
{
    let kind = table::kind_at(rows, row);
    let width = table::a_at(rows, row);
    let first = table::b_at(rows, row) as usize;
    let named = table::c_at(rows, row) as usize;
    let mut d = c;
    let mut place = at;
    for _ in 0..count {
        let x = number_of(bytes, width, place);
        if !strict::allows(entries, kind, first, named, x) {
            return refused(Refusal::StrictValueUnknown, place);
        }
        d = gave(values, x, d);
        place += width as usize;
    }
    Ok(d)
}
