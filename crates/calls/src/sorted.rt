// Lists at the front of an array.
ghost use Rattle.std.specs.Prelude.{◌≡◌, ◌<◌, ◌≤◌, length};
ghost use Rattle.calls.specs.Found.{widened};

// Puts an item in at a place among the first n. Those from there on move up by one.
pub(crate) fn put_in<T: Copy>(items: &mut [T], n: usize, at: usize, item: T)
    requires { (at ≤ n) × (n < length items.old) }
    ensures { items.new ≡ widened items.old n at item }
{
    items.copy_within(at..n, at + 1);
    items[at] = item;
}
