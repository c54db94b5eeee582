// The covariance of the inertial step, A·C·Aᵀ + B·N·Bᵀ, of which A, B and N are mostly zeros: what meets a zero is left out. A zero times a finite number is a
// zero and adds nothing, bit for bit, to a sum that starts from +0; and what is not finite stays so. proofs/Agrees.antt has the law.
#![tactic(auto)]

ghost use Rattle.std.specs.Prelude.{◌≡◌, ℕ, ◌+◌, ◌*◌, ◌<◌, ◌≤◌, List, get_or, ltb, replicate, Float};
ghost use Rattle.std.specs.Float.{nan};
ghost use Rattle.number.specs.Float.{◌⊕◌, ◌⊗◌, ◌when◌else◌};
ghost use Rattle.number.specs.Constants.{zero as +0};
ghost use Rattle.number.specs.Tabulated.{tabulated};
ghost use Rattle.mat9.specs.Matrix.{entry, matrix};
ghost use Rattle.lean9.specs.Inside.Lean.{kept_in_noise, kept_in_step, kept_sum, lean_carried, noise_times_diagonal, step_times, term, three_from, times_noise_transposed, times_step_transposed};

// w plus column k of m times x, row by row. A counted loop: in a function over a size, the closure of `array::from_fn` would have to state this contract once
// more. Rows and columns stay numbers with a bound: a type of those below 9 would be made anew at each k + 1 and c − 3.
fn plus_column<const N: usize>(w: [f64; 9], m: &[f64; N], k: usize, x: f64) -> [f64; 9]
    requires { 9 * (k + 1) ≤ N }
    ensures { result ≡ tabulated 9 (λ r. get_or w r nan ⊕ entry 9 m.now r k ⊗ x) }
{
    let mut out = w;
    for r in 0..9 {
        out[r] = w[r] + m[r + k * 9] * x;
    }
    out
}

// w plus column k of m times what row c of a has there: a term of m · aᵀ more.
fn plus_term<const N: usize>(
    w: [f64; 9],
    m: &[f64; N],
    a: &[f64; N],
    c: usize,
    k: usize,
) -> [f64; 9]
    requires { (c < 9) × (9 * (k + 1) ≤ N) }
    ensures { result ≡ tabulated 9 (λ r. get_or w r nan ⊕ term m.now a.now r c k) }
{
    plus_column(w, m, k, a[c + k * 9])
}

// Three terms from k on: a sum from 0, from the left, in each row.
fn three_terms<const N: usize>(m: &[f64; N], a: &[f64; N], c: usize, k: usize) -> [f64; 9]
    requires { (c < 9) × (9 * (k + 3) ≤ N) }
    ensures { result ≡ tabulated 9 (λ r. three_from k (term m.now a.now r c)) }
{
    let one = plus_term([0.0; 9], m, a, c, k);
    let two = plus_term(one, m, a, c, k + 1);
    plus_term(two, m, a, c, k + 2)
}

// Nine rows by their columns. By columns, since a closure for each entry was tried three ways and made an inertial step slower by 2 to 9 hundredths; put in place by
// counted loops, since no part of an array whose size is a parameter can be lent.
fn of_columns<const COLUMNS: usize, const N: usize, F: Fn(usize) -> [f64; 9]>(column: F) -> [f64; N]
    requires size { N ≡ 9 * COLUMNS }
    requires callable { (c : ℕ) → c < COLUMNS → F.pre column c }
    ensures { (f : ℕ → ℕ → Float) → ((c : ℕ) (w : List Float) → c < COLUMNS → F.post column c w → w ≡ tabulated 9 (λ r. f r c)) → result ≡ matrix 9 COLUMNS f }
{
    let mut out = [0.0; N];
    for c in 0..COLUMNS {
        let w = column(c);
        for r in 0..9 {
            out[r + c * 9] = w[r];
        }
    }
    out
}

// Column c of m · aᵀ.
fn step_transposed_column(m: &[f64; 81], a: &[f64; 81], c: usize) -> [f64; 9]
    requires { c < 9 }
    ensures { result ≡ tabulated 9 (λ r. kept_sum 9 (kept_in_step c) (term m.now a.now r c)) }
{
    let w = three_terms(m, a, c, 0);
    if c < 3 {
        return w;
    }
    if c < 6 {
        return plus_term(w, m, a, c, c);
    }
    let k = c - 3;
    plus_term(plus_term(w, m, a, c, k), m, a, c, c)
}

// m · aᵀ. Each closure states its contract, here and in the products below, since none is inferred for one that answers an array.
fn times_step_transposed(m: &[f64; 81], a: &[f64; 81]) -> [f64; 81]
    ensures { result ≡ times_step_transposed m.now a.now }
{
    of_columns::<9, 81, _>(
        |c|
            requires { c < 9 }
            ensures { result ≡ tabulated 9 (λ r. kept_sum 9 (kept_in_step c) (term m.entry.now a.entry.now r c)) }
        { step_transposed_column(m, a, c) },
    )
}

// The first of the three columns that row c of b keeps: a number and no branch, so that each column is summed by the same code.
fn first_kept(c: usize) -> usize
    ensures { (result ≡ (0 when ltb c 3 else 3)) × (result ≤ 3) }
{
    if c < 3 { 0 } else { 3 }
}

// Column c of t · bᵀ.
fn noise_transposed_column(t: &[f64; 54], b: &[f64; 54], c: usize) -> [f64; 9]
    requires { c < 9 }
    ensures { result ≡ tabulated 9 (λ r. kept_sum 6 (kept_in_noise c) (term t.now b.now r c)) }
{
    three_terms(t, b, c, first_kept(c))
}

// t · bᵀ.
fn times_noise_transposed(t: &[f64; 54], b: &[f64; 54]) -> [f64; 81]
    ensures { result ≡ times_noise_transposed t.now b.now }
{
    of_columns::<9, 81, _>(
        |c|
            requires { c < 9 }
            ensures { result ≡ tabulated 9 (λ r. kept_sum 6 (kept_in_noise c) (term t.entry.now b.entry.now r c)) }
        { noise_transposed_column(t, b, c) },
    )
}

// b · n: of each column of n what is kept is its own place, on the diagonal.
fn noise_times_diagonal(b: &[f64; 54], n: &[f64; 36]) -> [f64; 54]
    ensures { result ≡ noise_times_diagonal b.now n.now }
{
    of_columns::<6, 54, _>(
        |c|
            requires { c < 6 }
            ensures { result ≡ tabulated 9 (λ r. get_or (replicate 9 +0) r nan ⊕ entry 9 b.entry.now r c ⊗ entry 6 n.entry.now c c) }
        { plus_column([0.0; 9], b, c, n[c + c * 6]) },
    )
}

// Row r of a times column c of m, at k.
fn term_of(a: &[f64; 81], m: &[f64; 81], r: usize, c: usize, k: usize) -> f64
    requires { (r < 9) × (k < 9) × (c < 9) }
    ensures { result ≡ entry 9 a.now r k ⊗ entry 9 m.now k c }
{
    a[r + k * 9] * m[k + c * 9]
}

// Row r of a times column c of m: the first three columns of a, then what stands three rows below its diagonal and on it.
fn step_row(a: &[f64; 81], m: &[f64; 81], r: usize, c: usize) -> f64
    requires { (r < 9) × (c < 9) }
    ensures { result ≡ kept_sum 9 (kept_in_step r) (λ k. entry 9 a.now r k ⊗ entry 9 m.now k c) }
{
    let s = 0.0 + term_of(a, m, r, c, 0) + term_of(a, m, r, c, 1) + term_of(a, m, r, c, 2);
    if r < 3 {
        return s;
    }
    let own = term_of(a, m, r, c, r);
    if r < 6 {
        return s + own;
    }
    s + term_of(a, m, r, c, r - 3) + own
}

// Column c of a · m.
fn step_column(a: &[f64; 81], m: &[f64; 81], c: usize) -> [f64; 9]
    requires { c < 9 }
    ensures { result ≡ tabulated 9 (λ r. kept_sum 9 (kept_in_step r) (λ k. entry 9 a.now r k ⊗ entry 9 m.now k c)) }
{
    std::array::from_fn(
        |r|
            requires { (r < 9) × (c < 9) }
        { step_row(a, m, r, c) },
    )
}

// a · m.
fn step_times(a: &[f64; 81], m: &[f64; 81]) -> [f64; 81]
    ensures { result ≡ step_times a.now m.now }
{
    of_columns::<9, 81, _>(
        |c|
            requires { c < 9 }
            ensures { result ≡ tabulated 9 (λ r. kept_sum 9 (kept_in_step r) (λ k. entry 9 a.entry.now r k ⊗ entry 9 m.entry.now k c)) }
        { step_column(a, m, c) },
    )
}

// A·C·Aᵀ + B·N·Bᵀ.
#[tactic(auto, unfolding(crate::specs::Inside::Lean::lean_carried))]
pub fn carried(a: &[f64; 81], c: &[f64; 81], b: &[f64; 54], n: &[f64; 36]) -> [f64; 81]
    ensures { result ≡ lean_carried a.now c.now b.now n.now }
{
    let ac = step_times(a, c);
    let aca = times_step_transposed(&ac, a);
    let bn = noise_times_diagonal(b, n);
    let bnb = times_noise_transposed(&bn, b);
    mat9::mat9_add(&aca, &bnb)
}
