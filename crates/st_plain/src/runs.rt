ghost use Rattle.std.specs.Prelude.{◌≡◌, ◌≤◌, ◌+◌, length, take, drop, replicate};

/// Writes v over n cells of a list, from `at` on.
pub fn fill_run<T: Copy>(list: &mut [T], at: usize, n: usize, v: T)
    requires { at + n ≤ length list.old }
    ensures before { take at list.new ≡ take at list.old }
    ensures run { take n (drop at list.new) ≡ replicate n v }
{
    for i in at..at + n {
        list[i] = v;
    }
}

/// Copies a run to a list, from `at` on.
pub fn copy_run<T: Copy>(list: &mut [T], at: usize, run: &[T])
    requires { at + length run.now ≤ length list.old }
    ensures before { take at list.new ≡ take at list.old }
    ensures run { take (length run.now) (drop at list.new) ≡ run.now }
{
    list[at..at + run.len()].copy_from_slice(run);
}
