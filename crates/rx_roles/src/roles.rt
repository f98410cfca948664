//! Roles by the number of their node.

ghost use Rattle.std.specs.Prelude.{ℕ, ◌≡◌, ◌≢◌, ◌+◌, ◌-◌, ◌<◌, ◌≤◌, [], ◌∷◌, ◌++◌, OnOk, IfSome, IfNone, option_map, length, vec_capacity, vec_len, None, if◌then◌else◌};
ghost use Rattle.rx_roles.specs.Roles.{role_of, without, AreBelow};
ghost use Rattle.rx_roles.specs.RolesByNumber.{role_said, row_at, roles_in, IsRising, IsKept, Keeps};

use rx_lanes::LaneName;
use std::alloc::{AllocError, Global};
use std::marker::Model;

/// What a node or a resource has to end with one last effect.
#[derive(Clone, Copy)]
pub struct Role {
    /// The number of the node or of the resource.
    pub number: u64,
    /// The face's word.
    pub word: u64,
    /// Where its effects go.
    pub lane: LaneName,
}

// A role without its number, under which it is kept.
#[derive(Clone, Copy)]
pub(crate) struct Said {
    pub(crate) word: u64,
    pub(crate) lane: LaneName,
}

// A number, and its role; none where it was taken.
#[derive(Clone, Copy)]
pub(crate) struct Row {
    pub(crate) number: u64,
    pub(crate) said: Option<Said>,
}

/// The roles of one sort, in the order of their numbers. What is looked up is sought from the newest on, in steps
/// that double: the newest are asked for most.
///
/// Contracts see them as a list in the order of their numbers.
#[derive(Drop)]
pub struct Roles {
    // Their numbers rise.
    rows: Vec<Row>,
    // How many of the rows have a role.
    live: usize,
}

impl Model for Roles {
    ghost use Rattle.rx_roles.specs.Roles.{Table};
    ghost use Rattle.rx_roles.specs.RolesByNumber.{table_of, IsKept};

    ghost Value = { Table };

    ghost view = { table_of };

    ghost invariant = { λ s. IsKept s.rows.items s.live };
}

// What is kept under a number, with the number.
#[inline(always)]
fn role_said(number: u64, said: Option<Said>) -> Option<Role>
    ensures { result ≡ option_map (role_said number) said }
{
    match said {
        Some(said) => Some(Role {
            number,
            word: said.word,
            lane: said.lane,
        }),
        None => None,
    }
}

// The place of the row of a number, which is not the last row's.
#[inline(never)]
fn place_of(rows: &Vec<Row>, number: u64) -> Option<usize>
    requires { IsRising rows.now.items }
    ensures some { IfSome result (λ i. (i < length rows.now.items) × ((row_at rows.now.items i).number ≡ number)) }
    ensures none { IfNone result ((i : ℕ) → i < length rows.now.items → (row_at rows.now.items i).number ≢ number) }
{
    let mut low = 0;
    let mut high = rows.len();
    let mut step = 1;
    while low < high {
        let middle = if step < high - low {
            high - step
        } else {
            low + (high - low) / 2
        };
        let here = rows[middle].number;
        if here == number {
            return Some(middle);
        }
        if here < number {
            low = middle + 1;
            step = usize::MAX;
        } else {
            high = middle;
            step = step.saturating_mul(2);
        }
    }
    None
}

// The index of the row of this number. One look tells of the newest row, and of numbers that are newer.
#[inline(always)]
fn find(rows: &Vec<Row>, number: u64) -> Option<usize>
    requires { IsRising rows.now.items }
    ensures some { IfSome result (λ i. (i < length rows.now.items) × ((row_at rows.now.items i).number ≡ number)) }
    ensures none { IfNone result ((i : ℕ) → i < length rows.now.items → (row_at rows.now.items i).number ≢ number) }
{
    let many = rows.len();
    if many == 0 {
        return None;
    }
    let newest = rows[many - 1].number;
    if newest < number {
        return None;
    }
    if newest == number {
        return Some(many - 1);
    }
    place_of(rows, number)
}

// The last row goes, where its role was taken.
#[inline(always)]
fn drop_taken(rows: &mut Vec<Row>)
    requires { IsRising rows.old.items }
    ensures same { roles_in rows.new.items ≡ roles_in rows.old.items }
    ensures rising { IsRising rows.new.items }
{
    let many = rows.len();
    if many > 0 && rows[many - 1].said.is_none() {
        rows.truncate(many - 1);
    }
}

// The last rows go, whose numbers are not below this one, where no role has such a number.
#[cold]
#[inline(never)]
fn cut_above(rows: &mut Vec<Row>, number: u64)
    requires rising { IsRising rows.old.items }
    requires below { AreBelow (roles_in rows.old.items) number }
    ensures same { roles_in rows.new.items ≡ roles_in rows.old.items }
    ensures rising { IsRising rows.new.items }
    ensures below { (i : ℕ) → i < length rows.new.items → (row_at rows.new.items i).number < number }
    ensures capacity { vec_capacity rows.new ≡ vec_capacity rows.old }
    ensures shorter { length rows.new.items ≤ length rows.old.items }
{
    let mut many = rows.len();
    while many > 0 && rows[many - 1].number >= number {
        many -= 1;
    }
    rows.truncate(many);
}

// Drops the empty rows at the end that are not below this number. One look tells where all are below.
#[inline(always)]
fn drop_above(rows: &mut Vec<Row>, number: u64)
    requires rising { IsRising rows.old.items }
    requires below { AreBelow (roles_in rows.old.items) number }
    ensures same { roles_in rows.new.items ≡ roles_in rows.old.items }
    ensures rising { IsRising rows.new.items }
    ensures below { (i : ℕ) → i < length rows.new.items → (row_at rows.new.items i).number < number }
    ensures capacity { vec_capacity rows.new ≡ vec_capacity rows.old }
    ensures shorter { length rows.new.items ≤ length rows.old.items }
{
    let many = rows.len();
    if many == 0 {
        return;
    }
    if rows[many - 1].number < number {
        return;
    }
    cut_above(rows, number);
}

// The row at a place is the next that is left, behind so many, where it has a role. How many are left then.
#[inline(always)]
fn keep_row(rows: &mut Vec<Row>, at: usize, kept: usize) -> usize
    requires within { at < length rows.old.items }
    requires before { kept ≤ at }
    ensures { Keeps rows.old.items rows.new.items at kept result }
{
    let row = rows[at];
    if row.said.is_none() {
        return kept;
    }
    rows[kept] = row;
    kept + 1
}

// Only the rows that have a role are left.
#[cold]
#[inline(never)]
fn squeeze(rows: &mut Vec<Row>)
    requires { IsRising rows.old.items }
    ensures same { roles_in rows.new.items ≡ roles_in rows.old.items }
    ensures rising { IsRising rows.new.items }
{
    let mut kept = 0;
    for at in 0..rows.len() {
        kept = keep_row(rows, at, kept);
    }
    rows.truncate(kept);
}

// The role of the row at a place is taken, where so many rows have one. How many have one then.
#[inline(always)]
fn take_at(rows: &mut Vec<Row>, place: usize, live: usize) -> usize
    requires within { place < length rows.old.items }
    requires kept { IsKept rows.old.items live }
    ensures same { roles_in rows.new.items ≡ without (roles_in rows.old.items) (row_at rows.old.items place).number }
    ensures kept { IsKept rows.new.items result }
{
    let row = rows[place];
    rows[place] = Row {
        number: row.number,
        said: None,
    };
    if row.said.is_none() {
        return live;
    }
    live - 1
}

// Room for so many more, or for a quarter of them where that is more and there is memory for it.
fn lengthen(rows: &mut Vec<Row>, many: usize) -> Result<(), AllocError>
    ensures ok { OnOk result (many ≤ vec_capacity rows.new - vec_len rows.new) }
    ensures same { rows.new.items ≡ rows.old.items }
{
    let quarter = rows.len() / 4;
    if many < quarter && rows.reserve_exact(quarter).is_ok() {
        return Ok(());
    }
    rows.reserve_exact(many)
}

impl Roles {
    /// No role. It takes no memory.
    pub fn new(alloc: Global) -> Roles
        ensures { result.list ≡ [] }
    {
        Roles {
            rows: Vec::new(alloc),
            live: 0,
        }
    }

    /// How many there are.
    #[inline(always)]
    pub fn len(&self) -> usize
        ensures { result ≡ length self.now.list }
    {
        self.live
    }

    /// Gets room for so many more.
    #[inline(always)]
    pub fn reserve(&mut self, many: usize) -> Result<(), AllocError>
        ensures ok { OnOk result (many ≤ self.new.room) }
        ensures list { self.new.list ≡ self.old.list }
    {
        if many <= self.rows.capacity() - self.rows.len() {
            return Ok(());
        }
        self.make_room(many)
    }

    // Gets room where there is too little.
    #[cold]
    #[inline(never)]
    fn make_room(&mut self, many: usize) -> Result<(), AllocError>
        ensures ok { OnOk result (many ≤ self.new.room) }
        ensures list { self.new.list ≡ self.old.list }
    {
        if self.live <= self.rows.len() / 2 {
            squeeze(&mut self.rows);
        }
        lengthen(&mut self.rows, many)
    }

    /// Adds a role, whose number lies above all others. It takes no memory.
    #[inline(always)]
    pub fn put(&mut self, role: Role)
        requires room { 0 < self.old.room }
        requires below { AreBelow self.old.list role.number }
        ensures list { self.new.list ≡ self.old.list ++ role ∷ [] }
        ensures room { self.old.room ≤ self.new.room + 1 }
    {
        drop_above(&mut self.rows, role.number);
        self.rows.push_reserved(Row {
            number: role.number,
            said: Some(Said {
                word: role.word,
                lane: role.lane,
            }),
        });
        self.live += 1;
    }

    /// Adds a role last, where there is one to add.
    #[inline(always)]
    pub fn put_if(&mut self, is: bool, role: Role)
        requires room { 0 < self.old.room }
        requires below { AreBelow self.old.list role.number }
        ensures { self.new.list ≡ self.old.list ++ (if is then role ∷ [] else []) }
    {
        if is {
            self.put(role);
        }
    }

    /// The role of this number.
    #[inline(always)]
    pub fn get(&self, number: u64) -> Option<Role>
        ensures { result ≡ role_of self.now.list number }
    {
        let place = find(&self.rows, number)?;
        role_said(number, self.rows[place].said)
    }

    /// Takes the role of this number away. It takes no memory.
    #[inline(always)]
    pub fn take(&mut self, number: u64) -> Option<Role>
        ensures value { result ≡ role_of self.old.list number }
        ensures list { self.new.list ≡ without self.old.list number }
    {
        let place = find(&self.rows, number)?;
        let said = self.rows[place].said;
        self.live = take_at(&mut self.rows, place, self.live);
        drop_taken(&mut self.rows);
        drop_taken(&mut self.rows);
        role_said(number, said)
    }
}
