// One entry of a table: 0 is read past its end, and nothing is stored there; and whether many entries are 0.
ghost use Rattle.std.specs.Prelude.{◌≡◌, ◌+◌, ◌≤◌, Bool, eqb, length, set, slice_index_or};
ghost use Rattle.tables.specs.Rule.{is, each, test};

// What stands in a table: a number of one width. 0 names nothing.
pub trait Entry: Copy {
    ghost zero: { Self };

    ghost is_zero: { Self → Bool };

    fn zero() -> Self
        ensures { result ≡ zero };

    fn is_zero(self) -> bool
        ensures { result ≡ is_zero self };
}

impl Entry for u8 {
    ghost zero = { 0 };

    ghost is_zero = { λ x. eqb x 0 };

    fn zero() -> u8 {
        0
    }

    fn is_zero(self) -> bool {
        self == 0 // of 8 bits
    }
}

impl Entry for u16 {
    ghost zero = { 0 };

    ghost is_zero = { λ x. eqb x 0 };

    fn zero() -> u16 {
        0
    }

    fn is_zero(self) -> bool {
        self == 0 // of 16 bits
    }
}

impl Entry for u32 {
    ghost zero = { 0 };

    ghost is_zero = { λ x. eqb x 0 };

    fn zero() -> u32 {
        0
    }

    fn is_zero(self) -> bool {
        self == 0 // of 32 bits
    }
}

impl Entry for u64 {
    ghost zero = { 0 };

    ghost is_zero = { λ x. eqb x 0 };

    fn zero() -> u64 {
        0
    }

    fn is_zero(self) -> bool {
        self == 0 // of 64 bits
    }
}

pub fn at<T: Entry>(s: &[T], i: usize) -> T
    ensures { result ≡ slice_index_or s.now i T.zero }
{
    if i < s.len() { s[i] } else { T::zero() }
}

pub fn put<T: Copy>(s: &mut [T], i: usize, v: T)
    ensures { s.new ≡ set s.old i v }
{
    if i < s.len() {
        s[i] = v;
    }
}

// Whether n entries from `from` up name nothing: all are looked at, so that many are compared at once.
pub fn all_zeros<T: Entry>(s: &[T], from: usize, n: usize) -> bool
    requires { from + n ≤ length s.now }
    ensures { result ≡ test (each n (λ k. is (T.is_zero (slice_index_or s.now (from + k) T.zero)))) }
{
    let mut ok = true;
    for x in &s[from..from + n] {
        ok &= x.is_zero();
    }
    ok
}
