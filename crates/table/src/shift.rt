// A row that moves on: the front goes, and copies of a value come in behind.
ghost use Rattle.std.specs.Prelude.{◌≡◌, ◌≤◌, ◌++◌, length, drop, replicate};

pub(crate) fn shift_in<T: Copy>(xs: &mut [T], k: usize, value: T)
    requires within { k ≤ length xs.old }
    requires clones { T.is_infallible value }
    requires same { (y : T) → T.is_clone value y → y ≡ value }
    ensures { xs.new ≡ drop k xs.old ++ replicate k value }
{
    xs.rotate_left(k);
    let start = xs.len() - k;
    xs[start..].fill(value);
}
