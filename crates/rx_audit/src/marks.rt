//! Lists of marks and of counts, by number.

ghost use Rattle.std.specs.Prelude.{◌≡◌, ℕ, ◌+◌, ◌<◌, ◌^◌, false, if◌then◌else◌, slice_index_or};
ghost use Rattle.rx_audit.specs.Tables.{marks_with, counts_with, counts_less};

/// Whether the mark of number `n` is set.
pub fn is_marked(marks: &[bool], n: u64) -> bool
    ensures { result ≡ slice_index_or marks.now n false }
{
    let n = n as usize;
    n < marks.len() && marks[n]
}

/// Sets the mark of the number, if there is one and the list has it.
pub fn mark(marks: &mut [bool], key: Option<u64>)
    ensures { marks.new ≡ marks_with marks.old key }
{
    if let Some(n) = key {
        let n = n as usize;
        if n < marks.len() {
            marks[n] = true;
        }
    }
}

/// Makes the count of the number one more, if there is a number and the list has it.
pub fn count(counts: &mut [u32], key: Option<u64>)
    requires { (n : ℕ) → slice_index_or counts.old n 0 + 1 < 2 ^ 32 }
    ensures { counts.new ≡ counts_with counts.old key }
{
    if let Some(n) = key {
        let n = n as usize;
        if n < counts.len() {
            counts[n] += 1;
        }
    }
}

/// Makes the count of the number one less, if there is a number and the list has it and it is not 0.
pub fn count_less(counts: &mut [u32], key: Option<u64>)
    ensures { counts.new ≡ counts_less counts.old key }
{
    if let Some(n) = key {
        let n = n as usize;
        if n < counts.len() {
            counts[n] = counts[n].saturating_sub(1);
        }
    }
}

/// One, where that is so, and none else.
pub fn one_if(so: bool) -> usize
    ensures { result ≡ if so then 1 else 0 }
{
    if so { 1 } else { 0 }
}
