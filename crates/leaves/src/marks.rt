// Marks, one bit a number in words of 32: the free map, and what question 2 marks on its way.
ghost use Rattle.std.specs.Prelude.{◌≡◌, ◌-◌, ◌/◌, ◌%◌, ◌^◌, ◌<◌, eqb, length, set};
ghost use Rattle.tables.specs.Base.{at};
ghost use Rattle.tables.specs.Marks.{bit_of, mark};

// Whether a number is marked.
pub fn is_marked(marks: &[u32], r: usize) -> bool
    requires { r / 32 < length marks.now }
    ensures { result ≡ eqb (bit_of marks.now r) 1 }
{
    (marks[r / 32] >> (r % 32)) % 2 == 1
}

// The number's mark goes on.
pub fn set_mark(marks: &mut [u32], r: usize)
    requires { (r / 32 < length marks.old) × (bit_of marks.old r ≡ 0) }
    ensures { marks.new ≡ mark marks.old r }
{
    marks[r / 32] = marks[r / 32] + (1 << (r % 32));
}

// The number's mark goes off.
pub fn clear_mark(marks: &mut [u32], r: usize)
    requires { (r / 32 < length marks.old) × (bit_of marks.old r ≡ 1) }
    ensures { marks.new ≡ set marks.old (r / 32) (at marks.old (r / 32) - 2 ^ (r % 32)) }
{
    marks[r / 32] = marks[r / 32] - (1 << (r % 32));
}
