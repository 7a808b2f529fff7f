// Lists that are copied into and moved down in place, as rows are (specs/Rows). These functions ask that there is room:
// they write for other crates.
#![tactic(auto)]

ghost use Rattle.std.specs.Prelude.{◌≡◌, ◌+◌, ◌≤◌, length, take, drop};
ghost use Rattle.limits.specs.List.{over};

// Copies a row into the list, from `at` on.
pub fn copy<T: Copy>(list: &mut [T], at: usize, row: &[T])
    requires { at + length row.now ≤ length list.old }
    ensures { list.new ≡ over list.old at row.now }
{
    list[at..at + row.len()].copy_from_slice(row);
}

// Moves n elements down, from `from` to `at`.
pub fn move_down<T: Copy>(list: &mut [T], at: usize, from: usize, n: usize)
    requires { (at ≤ from) × (from + n ≤ length list.old) }
    ensures { list.new ≡ over list.old at (take n (drop from list.old)) }
{
    list.copy_within(from..from + n, at);
}
