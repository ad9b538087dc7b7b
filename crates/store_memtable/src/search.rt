// Finding a place by halves.
ghost use Rattle.std.specs.Prelude.{◌≡◌, ℕ, Bool, ltb, ◌≤◌, ◌<◌};

// Of the places below `n`, how many the test holds at, where it holds at each of the first ones and at none behind them.
pub fn partition_point<F: Fn(usize) -> bool>(n: usize, before: F) -> usize
    requires callable { (i : ℕ) → i < n → F.pre before i }
    ensures bound { result ≤ n }
    ensures point { (place : ℕ) → place ≤ n → ((i : ℕ) (holds : Bool) → i < n → F.post before i holds → holds ≡ ltb i place) → result ≡ place }
{
    let mut low = 0;
    let mut high = n;
    while low < high {
        let mid = low + (high - low) / 2;
        if before(mid) {
            low = mid + 1;
        } else {
            high = mid;
        }
    }
    low
}
