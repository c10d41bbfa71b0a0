// The numbers of a type table by name: a row's kind, a, b and c, a member's ordinal and row. What a list does not have is 0, so
// any row and any member may be asked for.
#![tactic(auto)]

ghost use Rattle.std.specs.Prelude.{◌≡◌, ◌+◌, ◌*◌, slice_index};
ghost use Rattle.rules.specs.TypeTable.{kind_in, a_in, b_in, c_in, ordinal_in, row_in};

// A row is four numbers, and a member two. A column is asked for by its name, so each has a function.
const ROW: usize = 4;

const MEMBER: usize = 2;

pub fn kind_at(rows: &[u32], row: usize) -> u32
    ensures { result ≡ kind_in rows.now row }
{
    cell::<ROW>(rows, row, 0)
}

pub fn a_at(rows: &[u32], row: usize) -> u32
    ensures { result ≡ a_in rows.now row }
{
    cell::<ROW>(rows, row, 1)
}

pub fn b_at(rows: &[u32], row: usize) -> u32
    ensures { result ≡ b_in rows.now row }
{
    cell::<ROW>(rows, row, 2)
}

pub fn c_at(rows: &[u32], row: usize) -> u32
    ensures { result ≡ c_in rows.now row }
{
    cell::<ROW>(rows, row, 3)
}

pub fn ordinal_at(members: &[u32], member: usize) -> u32
    ensures { result ≡ ordinal_in members.now member }
{
    cell::<MEMBER>(members, member, 0)
}

pub fn row_of(members: &[u32], member: usize) -> u32
    ensures { result ≡ row_in members.now member }
{
    cell::<MEMBER>(members, member, 1)
}

// A number of a group of SIZE. A place that could not be counted saturates past any list; of a row that was read from 32 bits
// the compiler knows that its place does not.
fn cell<const SIZE: usize>(list: &[u32], group: usize, number: usize) -> u32
    ensures { result ≡ slice_index list.now (group * SIZE + number) }
{
    let at = group.saturating_mul(SIZE).saturating_add(number);
    list.get(at).copied().unwrap_or(0)
}
