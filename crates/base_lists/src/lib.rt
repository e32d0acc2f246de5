// Lists that are copied.
#![tactic(auto)]

ghost use Rattle.std.specs.Prelude.{◌≡◌, reverse, ◌+◌, ◌≤◌, length};
ghost use Rattle.base_lists.specs.Written.{Wrote};

// The entries from a place on become those of another list.
pub fn copy<T: Copy>(from: &[T], list: &mut [T], at: usize)
    requires { at + length from.now ≤ length list.old }
    ensures { Wrote list.old list.new at (at + length from.now) from.now }
{
    list[at..at + from.len()].copy_from_slice(from);
}

// The first entries become those of another list, the last one first.
pub fn copy_reversed<T: Copy>(from: &[T], list: &mut [T])
    requires { length from.now ≤ length list.old }
    ensures { Wrote list.old list.new 0 (length from.now) (reverse from.now) }
{
    let front = &mut list[..from.len()];
    front.copy_from_slice(from);
    front.reverse();
}
