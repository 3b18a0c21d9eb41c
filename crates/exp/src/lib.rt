// Document 01's exponential, on every f64.
#![tactic(auto)]

ghost use Rattle.std.specs.Prelude.{◌≡◌, ◌-◌};
ghost use Rattle.exp.specs.Exp.{series, exp_of};

// s of `exp` after the steps 10, 9, .., k.
// Kept: document 01 asks for it: 'First write this as a recursion over k.'
fn exp_series(y: f64, k: u32) -> f64
    ensures { result ≡ series y (11 - k) }
{
    if k > 10 {
        1.0
    } else {
        1.0 + (y * exp_series(y, k + 1)) / f64::from(k)
    }
}

// Document 01's exponential.
pub fn exp(t: f64) -> f64
    ensures { result ≡ exp_of t }
{
    let mut s = exp_series(t / 1024.0, 1);
    for _ in 0u32..10 {
        s = s * s;
    }
    s
}
