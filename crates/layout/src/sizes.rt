// Layouts made of other layouts: document 01, "Sizes".
ghost use Rattle.std.specs.Prelude.{◌≡◌, ℕ, ◌+◌, ◌*◌, ◌≤◌, max};
ghost use Rattle.rules.specs.declared.Layout.{Layout};
ghost use Rattle.rules.specs.Bytes.{round_up};
ghost use Rattle.rules.specs.TypeTable.{TypeTable, eight_byte_envelopes, type_as};
ghost use Rattle.rules.specs.Sizes.{layout, layout_as};
ghost use Rattle.layout.specs.Running.{Alignment, placed, closed};

use rules::Layout;

// The next multiple, at or after n, of an alignment that types have. Those are powers of two, so nothing divides, and a type
// table can't make it slow by the order of its members.
#[tactic(auto, using(crate::proofs::Bounds::masked))]
fn round_up(n: usize, alignment: usize) -> usize
    requires { Alignment alignment × (n ≤ 4294967296) }
    ensures { result ≡ round_up n alignment }
{
    (n + (alignment - 1)) & !(alignment - 1)
}

// A size and an alignment.
pub(crate) fn layout(size: usize, alignment: usize) -> Layout
    ensures { result ≡ layout size alignment }
{
    Layout { size, alignment }
}

// "Each member at the next multiple of its alignment": a struct so far, with its end for its size, and its next member.
#[tactic(auto, using(crate::proofs::Bounds::alignment_bounds, crate::proofs::Structs::round_most))]
pub(crate) fn place(before: Layout, member: Layout) -> Layout
    requires { Alignment member.alignment × (member.size ≤ 65528) × (before.size ≤ 67108864) }
    ensures { result ≡ placed before member }
{
    layout(
        round_up(before.size, member.alignment) + member.size,
        before.alignment.max(member.alignment),
    )
}

// "Size rounded up to" the largest alignment of the members.
pub(crate) fn close(before: Layout) -> Layout
    requires { Alignment before.alignment × (before.size ≤ 67108864) }
    ensures { result ≡ closed before }
{
    layout(round_up(before.size, before.alignment), before.alignment)
}

// "Array: count times element size, element's alignment."
pub(crate) fn array_layout(element: Layout, count: u32) -> Layout
    requires { element.size ≤ 65528 }
    ensures { result ≡ layout (count * element.size) element.alignment }
{
    layout((count as usize) * element.size, element.alignment)
}

// Every kind but arrays and structs: its layout is the same under every type table with 8-byte envelopes, whatever the other
// rows and numbers are.
#[tactic(auto, unfolding(rules::specs::Sizes::layout_as, rules::specs::TypeTable::envelope_size))]
pub(crate) fn fixed_layout(kind: u32, a: u32) -> Layout
    requires { (kind ≡ 4 → ⊥) × (kind ≡ 7 → ⊥) }
    ensures { (t : TypeTable) → t.edition ≡ eight_byte_envelopes → (inner : ℕ → Layout) (b c : ℕ) →
        result ≡ layout_as t inner (type_as kind a b c) }
{
    match kind {
        1 => layout(1, 1),
        2 | 11 | 12 => layout(a as usize, a as usize),
        3 => layout(4, 4),
        5 | 6 | 9 | 10 => layout(16, 8),
        8 => layout(8, 8),
        _ => layout(0, 1),
    }
}
