//! Which numbers are shown where only so many may be.

ghost use Rattle.std.specs.Prelude.{◌≡◌, ◌+◌, ◌≤◌, IfOk, ◌&&◌, nat_lt, if◌then◌else◌, length};
ghost use Rattle.rx_picture.specs.Choice.{bit, count_below, leads, follows, is_chosen, marked, AreMarksByTest};

use std::alloc::{AllocError, Global};

/// Whether the mark of the number is set.
pub fn is_marked(marks: &[bool], n: usize) -> bool
    ensures { result ≡ marked marks.now n }
{
    n < marks.len() && marks[n]
}

/// One, where that is so, and none else.
pub fn one_if(so: bool) -> usize
    ensures value { result ≡ bit so }
    ensures few { result ≤ 1 }
{
    if so { 1 } else { 0 }
}

/// Whether the number leads.
fn leads(first: &[bool], among: &[bool], n: usize) -> bool
    ensures { result ≡ leads (marked first.now) (marked among.now) n }
{
    is_marked(among, n) && is_marked(first, n)
}

/// Whether the number comes behind those that lead.
fn follows(first: &[bool], among: &[bool], n: usize) -> bool
    ensures { result ≡ follows (marked first.now) (marked among.now) n }
{
    is_marked(among, n) && !is_marked(first, n)
}

/// How many are marked.
pub fn count_marks(marks: &[bool]) -> usize
    ensures { result ≡ count_below (marked marks.now) (length marks.now) }
{
    let mut count = 0;
    for n in 0..marks.len() {
        count += one_if(is_marked(marks, n));
    }
    count
}

/// How many lead.
fn count_leads(first: &[bool], among: &[bool]) -> usize
    ensures { result ≡ count_below (leads (marked first.now) (marked among.now)) (length among.now) }
{
    let mut count = 0;
    for n in 0..among.len() {
        count += one_if(leads(first, among, n));
    }
    count
}

/// Whether there is room for one before which so many come: `before`, if it is one that leads, else
/// all that lead and `others`.
fn has_room(first: bool, before: usize, leading: usize, others: usize, limit: usize) -> bool
    ensures { result ≡ nat_lt (if first then before else leading + others) limit }
{
    if first {
        return before < limit;
    }
    leading < limit && others < limit - leading
}

/// Whether the number is shown, before which so many lead and so many others come.
fn shows(
    first: &[bool],
    among: &[bool],
    n: usize,
    before: usize,
    leading: usize,
    others: usize,
    limit: usize,
) -> bool
    ensures { result ≡ (marked among.now n && nat_lt (if marked first.now n then before else leading + others) limit) }
{
    is_marked(among, n) && has_room(is_marked(first, n), before, leading, others, limit)
}

/// Marks the numbers that are shown: of those that are marked in `among` first those that are also
/// marked in `first`, by rising number, then the others by rising number, so many in all.
pub fn choose(
    alloc: Global,
    first: &[bool],
    among: &[bool],
    limit: usize,
) -> Result<Vec<bool>, AllocError>
    ensures chosen { IfOk result (λ v. AreMarksByTest v.items (length among.now)
        (is_chosen (marked first.now) (marked among.now) limit (length among.now))) }
    ensures few { count_below (is_chosen (marked first.now) (marked among.now) limit (length among.now))
        (length among.now) ≤ limit }
{
    let leading = count_leads(first, among);
    let mut chosen = Vec::new(alloc);
    let mut before = 0;
    let mut others = 0;
    for n in 0..among.len() {
        let mark = shows(first, among, n, before, leading, others, limit);
        chosen.push(mark)?;
        before += one_if(leads(first, among, n));
        others += one_if(follows(first, among, n));
    }
    Ok(chosen)
}
