//! Laws of the readings and the texts alone: functions without a body, whose contracts are the laws.
ghost use Rattle.std.specs.Prelude.{◌≡◌, ℕ, ◌^◌, ◌<◌, List, ◌++◌, Some, decimal};
ghost use Rattle.text_parts.specs.Lists.{joined};
ghost use Rattle.text_parts.specs.Readers.{NoDigit, after, number_at, short_at, joined_at};

/// What is read off the front is its own text, and its text is read again where nothing that could belong to it
/// follows: literals, numbers, and lists of numbers.
pub fn part_laws()
    ensures literal { (literal bytes rest : List ℕ) → after literal bytes ≡ Some rest → bytes ≡ literal ++ rest }
    ensures literal_again { (literal rest : List ℕ) → after literal (literal ++ rest) ≡ Some rest }
    ensures number { (bytes rest : List ℕ) → (n : ℕ) → number_at bytes ≡ Some (n, rest) → (bytes ≡ decimal n ++ rest) × (n < 2 ^ 64) }
    ensures number_again { (n : ℕ) → (rest : List ℕ) → n < 2 ^ 64 → NoDigit rest → number_at (decimal n ++ rest) ≡ Some (n, rest) }
    ensures short { (bytes rest : List ℕ) → (n : ℕ) → short_at bytes ≡ Some (n, rest) → bytes ≡ decimal n ++ rest }
    ensures short_again { (n : ℕ) → (rest : List ℕ) → n < 2 ^ 16 → NoDigit rest → short_at (decimal n ++ rest) ≡ Some (n, rest) }
    ensures numbers { (more : ℕ) → (bytes ns rest : List ℕ) → joined_at number_at more bytes ≡ Some (ns, rest) → bytes ≡ joined decimal ns ++ rest }
{}
