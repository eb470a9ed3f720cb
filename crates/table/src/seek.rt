ghost use Rattle.std.specs.Prelude.{◌≡◌, ◌<◌, ◌≤◌, length, Bool, position, IfSome};
ghost use Rattle.table.specs.Slots.{around, nearest};

/// The first item that passes a test.
fn first<T, F: Fn(&T) -> bool>(items: &[T], test: &F) -> Option<usize>
    requires { F.IsAlwaysCallable test.now }
    ensures within { IfSome result (λ d. d < length items.now) }
    ensures first { (p : T → Bool) → ((x : _) (b : Bool) → F.post test.now x b → b ≡ p x.now) → result ≡ position p items.now }
{
    items.iter().position(|x| test(x))
}

/// The nearest place from `start` on, going round, that passes a test.
pub(crate) fn nearest<T, F: Fn(&T) -> bool>(items: &[T], start: usize, test: &F) -> Option<usize>
    requires within { start ≤ length items.now }
    requires callable { F.IsAlwaysCallable test.now }
    ensures { (p : T → Bool) → ((x : _) (b : Bool) → F.post test.now x b → b ≡ p x.now) → result ≡ nearest p items.now start }
{
    // That the sum below fits its type is known where the length is read.
    let _n = items.len();
    let (front, back) = items.split_at(start);
    match first(back, test) {
        Some(d) => Some(start + d),
        None => first(front, test),
    }
}

/// The place after `at`, going round `n` places.
pub(crate) fn next(at: usize, n: usize) -> usize
    requires { at < n }
    ensures is { result ≡ around n at 1 }
    ensures below { result < n }
{
    if at + 1 < n { at + 1 } else { 0 }
}

/// The place before `at`, going round `n` places.
pub(crate) fn prev(at: usize, n: usize) -> usize
    requires { at < n }
    ensures { result < n }
{
    if at == 0 { n - 1 } else { at - 1 }
}
