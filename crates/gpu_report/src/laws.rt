//! Laws of the definitions that contracts cite, computed on samples. The functions are lemmas: they do nothing at run
//! time.

ghost use Rattle.std.specs.Prelude.{◌≡◌, [], ◌∷◌};
ghost use Rattle.gpu_report.specs.Free.{largest, scattered};

/// The share of free bytes in ranges shorter than half of the longest one: with no range, with one range, with one
/// below half, with one exactly half, and rounded down to thousandths.
pub fn scattered_of_samples()
    ensures nothing { scattered [] ≡ 0 }
    ensures one { scattered (64 ∷ []) ≡ 0 }
    ensures below_half { scattered (100 ∷ 40 ∷ 60 ∷ []) ≡ 200 }
    ensures half { scattered (50 ∷ 100 ∷ []) ≡ 0 }
    ensures cut { scattered (8 ∷ 128 ∷ 8 ∷ []) ≡ 111 }
    ensures longest { largest (8 ∷ 128 ∷ 8 ∷ []) ≡ 128 }
{}
