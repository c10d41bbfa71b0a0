// Size and alignment of a row by recursion on its element or its members, the row number falling, down to the rows whose
// sizes and alignments are kept.
ghost use Rattle.std.specs.Prelude.{◌≡◌, get_or};
ghost use Rattle.rules.specs.TypeTable.{type_table, kind_at};
ghost use Rattle.rules.specs.Sizes.{layout, layout_of};
ghost use Rattle.layout.specs.Kept.{Layable};

use crate::sizes::{array_layout, close, fixed_layout, layout, place};
use rules::Layout;

// What is kept of a row.
pub(crate) fn kept_at(sizes: &[u32; 256], alignments: &[u32; 256], row: u32) -> Layout
    ensures { result ≡ layout (get_or sizes.now row 0) (get_or alignments.now row 0) }
{
    let at = row as usize;
    layout(
        words::item_at(sizes, at) as usize,
        words::item_at(alignments, at) as usize,
    )
}

// An element's or a member's row: below `kept` it is looked up, so that the row that names it takes one step a member.
#[cycle(inner_layout_row_layout_struct_layout)]
fn inner_layout(
    rows: &[u32],
    members: &[u32],
    entries: &[u64],
    sizes: &[u32; 256],
    alignments: &[u32; 256],
    kept: u32,
    row: u32,
) -> Layout
    requires { Layable (type_table rows.now members.now entries.now) kept row sizes.now alignments.now }
    ensures { result ≡ layout_of (type_table rows.now members.now entries.now) row }
{
    if row < kept {
        return kept_at(sizes, alignments, row);
    }
    row_layout(rows, members, entries, sizes, alignments, kept, row)
}

#[cycle(inner_layout_row_layout_struct_layout)]
pub(crate) fn row_layout(
    rows: &[u32],
    members: &[u32],
    entries: &[u64],
    sizes: &[u32; 256],
    alignments: &[u32; 256],
    kept: u32,
    row: u32,
) -> Layout
    requires { Layable (type_table rows.now members.now entries.now) kept row sizes.now alignments.now }
    ensures { result ≡ layout_of (type_table rows.now members.now entries.now) row }
{
    let kind = table::kind_at(rows, row as usize);
    let a = table::a_at(rows, row as usize);
    match kind {
        4 => array_layout(
            inner_layout(rows, members, entries, sizes, alignments, kept, a),
            table::b_at(rows, row as usize),
        ),
        7 => struct_layout(rows, members, entries, sizes, alignments, kept, row),
        _ => fixed_layout(kind, a),
    }
}

#[cycle(inner_layout_row_layout_struct_layout)]
fn struct_layout(
    rows: &[u32],
    members: &[u32],
    entries: &[u64],
    sizes: &[u32; 256],
    alignments: &[u32; 256],
    kept: u32,
    row: u32,
) -> Layout
    requires layable { Layable (type_table rows.now members.now entries.now) kept row sizes.now alignments.now }
    requires row_value { kind_at (type_table rows.now members.now entries.now) row ≡ 7 }
    ensures { result ≡ layout_of (type_table rows.now members.now entries.now) row }
{
    let first = table::a_at(rows, row as usize);
    let count = table::b_at(rows, row as usize);
    if count == 0 {
        return layout(1, 1);
    }
    let mut so_far = layout(0, 1);
    for member in first..first + count {
        let inner = table::row_of(members, member as usize);
        so_far = place(
            so_far,
            inner_layout(rows, members, entries, sizes, alignments, kept, inner),
        );
    }
    close(so_far)
}
