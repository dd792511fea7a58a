// Lists read and written at any index: past the end another value is read, and nothing is written there.
ghost use Rattle.std.specs.Prelude.{◌≡◌, get_or, set};

// What stands at an index, or the value for past the end.
#[inline]
pub fn at<T: Copy>(xs: &[T], i: usize, past: T) -> T
    ensures { result ≡ get_or xs.now i past }
{
    if i < xs.len() {
        return xs[i];
    }
    past
}

// Puts a value at an index; past the end it is dropped.
#[inline]
pub fn put<T: Drop>(xs: &mut [T], i: usize, x: T)
    ensures { xs.new ≡ set xs.old i x }
{
    if i < xs.len() {
        xs[i] = x;
    }
}
