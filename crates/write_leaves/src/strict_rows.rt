// Strict enums and strict bits (W-206).
ghost use Rattle.std.specs.Prelude.{◌*◌};
ghost use Rattle.rules.specs.Encode.{elements};
ghost use Rattle.rules.specs.TypeTable.{a_in};
ghost use Rattle.strict.specs.Strict.{StrictRow};
ghost use Rattle.write_leaves.specs.Putting.{Ask};
ghost use Rattle.write_leaves.specs.InLine.{strict_as};
ghost use Rattle.write_leaves.specs.Planning.{PutAsked};

use crate::cursor::{Cursor, number_at, refused, took};
use crate::scalars::{largest, put_number};
use rules::{Fault, Refusal};

// Values of a strict enum or of strict bits, one after the other: 26, at the first that its entries don't allow.
pub fn strict_values(
    rows: &[u32],
    entries: &[u64],
    values: &[u64],
    out: &mut [u8],
    row: usize,
    count: usize,
    at: usize,
    c: Cursor,
) -> Result<Cursor, Fault>
    requires { StrictRow rows.now entries.now row × Ask values.now (count * a_in rows.now row) at 0 c }
    ensures { PutAsked values.now out.old out.new (count * a_in rows.now row) at c result
        (elements (λ i. strict_as rows.now entries.now row) 0 count) }
{
    let kind = table::kind_at(rows, row);
    let width = table::a_at(rows, row);
    let first = table::b_at(rows, row) as usize;
    let named = table::c_at(rows, row) as usize;
    let most = largest(width);
    let mut d = c;
    let mut place = at;
    for _ in 0..count {
        let index = d.index;
        let v = number_at(values, index)?;
        let fits = (v <= most) & strict::allows(entries, kind, first, named, v);
        if !fits {
            return refused(Refusal::NotAValue, index);
        }
        put_number(out, width, place, v);
        d = took(d);
        place += width as usize;
    }
    Ok(d)
}
