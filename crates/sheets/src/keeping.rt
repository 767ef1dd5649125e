//! Elements that stay, in the lent slice. What is public here serves the crates above: hence the `requires`.
ghost use Rattle.std.specs.Prelude.{◌≡◌, ◌≤◌, Bool, length, take, filter};
ghost use Rattle.sheets.specs.Edits.{laid};
ghost use Rattle.sheets.specs.Tests.{Tests};

/// Keeps those of the first `count` that pass the test: they come to the front in their order, and the rest keeps its content. How many are kept.
pub fn keep_those<T: Copy, F: Fn(&T) -> bool>(items: &mut [T], count: usize, test: F) -> usize
    requires can { F.IsAlwaysCallable test }
    requires within { count ≤ length items.old }
    ensures few { result ≤ count }
    ensures count { (p : T → Bool) → Tests F.Fn test p → result ≡ length (filter p (take count items.old)) }
    ensures items { (p : T → Bool) → Tests F.Fn test p → items.new ≡ laid (filter p (take count items.old)) items.old }
{
    // The slice is read ahead of where it is written, so the loop goes by index.
    let mut kept = 0;
    for i in 0..count {
        let item = items[i];
        if test(&item) {
            items[kept] = item;
            kept += 1;
        }
    }
    kept
}
