//! What is due to whom.

ghost use Rattle.std.specs.Prelude.{◌≡◌, ◌<◌, ◌≤◌, ◌+◌, ◌^◌, ℕ, [], true, false, length, Some, None};
ghost use Rattle.std.specs.Prelude.{OnOk, IsOk, IfOk, IfSome, is_none, slice_index_or, vec_capacity};
ghost use Rattle.rx_slots.specs.Lists.{list_at, head_of, is_in};
ghost use Rattle.rx_turns.specs.Rows.{is_of, own_line, row_on, HaveOneRowEach, KeepsRows, HasLine, Grows, TellsAlike, AreListed};
ghost use Rattle.rx_turns.specs.Rows.{IsToldOf, is_by, is_of_lane, begun_by, with_begun, is_deeper, is_before, nearer, is_fresh, AreSettled, settled_behind, AreNoDeeper, IsTheLine, IsOn};
ghost use Rattle.rx_turns.specs.Telling.{handed_told, no_step};
ghost use Rattle.rx_turns.specs.Agendas.{IsAgenda};

use rx_cellar::{Answer, Effect};
use rx_slots::Rings;
use std::alloc::{AllocError, Global};
use std::cmp::min;

/// Whose turn it is.
#[derive(Clone, Copy)]
pub struct Turn {
    /// A word for a stack of calls, which no other stack has.
    pub by: u64,
    /// How many of its calls are under way: 1 for the outermost.
    pub depth: u64,
}

/// What a turn was handed.
#[derive(Clone, Copy)]
pub struct Task {
    /// What is to be done.
    pub effect: Effect,
    /// Its number: from 1 on, and no other effect has it, but where 2^64 - 1 were given.
    pub ticket: u64,
    pub(crate) word: u64,
    pub(crate) is_begun: bool,
}

/// Whose a line is, and what its turn was handed of the lane that it serves.
#[derive(Clone, Copy)]
pub(crate) struct Row {
    pub(crate) turn: Option<Turn>,
    pub(crate) in_hand: Option<Task>,
}

/// A turn, and the line that it has; behind all rows where it has none.
#[derive(Clone, Copy)]
pub(crate) struct OnLine {
    pub(crate) turn: Turn,
    pub(crate) line: usize,
}

/// What is due to whom.
#[derive(Drop)]
pub(crate) struct Agenda {
    pub(crate) rows: Vec<Row>,
    pub(crate) lists: Rings,
    // How many lists there are: one for each row, and for each that was taken off.
    pub(crate) lines: usize,
    // Before this line nothing is in hand that is not begun.
    settled: usize,
    // No row is of a turn deeper than this.
    deepest: u64,
    pub(crate) words: Vec<u64>,
    ghost tied: { IsAgenda rows.items lists lines settled deepest words.items },
}

// Whether a row is a turn's.
#[inline(always)]
fn is_of(turn: Turn, row: &Row) -> bool
    ensures { result ≡ is_of turn row.now }
{
    match &row.turn {
        Some(found) => turn.by == found.by && turn.depth == found.depth,
        None => false,
    }
}

// What is in hand on a line; past the last one nothing is.
#[inline(always)]
fn hand_on(rows: &[Row], line: usize) -> Option<Task>
    ensures { result ≡ (row_on rows.now line).in_hand }
{
    match rows.get(line) {
        Some(row) => row.in_hand,
        None => None,
    }
}

// The lane of what is in hand on a line, where that is begun.
#[inline(always)]
fn told_on(rows: &[Row], line: usize) -> Option<u64>
    ensures { IsToldOf (row_on rows.now line).in_hand result }
{
    match rows.get(line) {
        Some(row) => match &row.in_hand {
            Some(handed) => {
                if handed.is_begun {
                    Some(handed.word)
                } else {
                    None
                }
            }
            None => None,
        },
        None => None,
    }
}

// Whether nothing is in hand on a line.
#[inline(always)]
fn is_empty_on(rows: &[Row], line: usize) -> bool
    ensures { result ≡ is_none (row_on rows.now line).in_hand }
{
    match rows.get(line) {
        Some(row) => row.in_hand.is_none(),
        None => true,
    }
}

// The line of a turn; behind all rows where it has none. Who calls has mostly one of the last.
#[inline(always)]
fn own_line(rows: &[Row], turn: Turn) -> usize
    requires { HaveOneRowEach rows.now }
    ensures line { result ≡ own_line turn rows.now }
    ensures within { result ≤ length rows.now }
{
    let mut line = rows.len();
    while line > 0 {
        let last = line - 1;
        if is_of(turn, &rows[last]) {
            return last;
        }
        line = last;
    }
    rows.len()
}

// A line on which nothing is due and nothing is served; behind all where there is none.
fn blank_line(rows: &[Row], lists: &Rings) -> usize
    ensures within { result ≤ length rows.now }
    ensures nothing_due { result < length rows.now → list_at lists.now result ≡ [] }
    ensures nothing_served { result < length rows.now → (row_on rows.now result).in_hand ≡ None }
{
    for line in 0..rows.len() {
        if rows[line].in_hand.is_none() && lists.first(line).is_none() {
            return line;
        }
    }
    rows.len()
}

// Gives a line that is blank to a turn that has none.
fn give_line(rows: &mut Vec<Row>, lists: &Rings, turn: Turn, line: usize)
    requires within { line < length rows.old.items }
    requires listed { AreListed rows.old.items lists.now }
    requires apart { HaveOneRowEach rows.old.items }
    requires none { own_line turn rows.old.items ≡ length rows.old.items }
    requires nothing_due { list_at lists.now line ≡ [] }
    requires nothing_served { (row_on rows.old.items line).in_hand ≡ None }
    ensures line { own_line turn rows.new.items ≡ line }
    ensures kept { KeepsRows rows.old.items rows.new.items lists.now }
    ensures depths { (n : _) → turn.depth ≤ n → AreNoDeeper n rows.old.items → AreNoDeeper n rows.new.items }
{
    rows[line] = Row {
        turn: Some(turn),
        in_hand: None,
    };
}

// One line more, which is blank.
fn add_line(rows: &mut Vec<Row>, lists: &mut Rings, lines: &mut usize)
    requires row { length rows.old.items < vec_capacity rows.old }
    requires list { 0 < lists.old.room }
    requires counted { lines.old ≡ length lists.old.lists }
    requires listed { AreListed rows.old.items lists.old }
    requires apart { HaveOneRowEach rows.old.items }
    ensures grows { Grows rows.old.items rows.new.items lists.old lists.new }
    ensures many { length rows.new.items ≡ length rows.old.items + 1 }
    ensures counted { lines.new ≡ length lists.new.lists }
{
    rows.push_reserved(Row {
        turn: None,
        in_hand: None,
    });
    if *lines < rows.len() {
        lists.add();
        *lines += 1;
    }
}

// A turn that has no line gets one, of those that are there if it can be.
#[cold]
#[inline(never)]
fn make_line(
    rows: &mut Vec<Row>,
    lists: &mut Rings,
    lines: &mut usize,
    turn: Turn,
) -> Result<usize, AllocError>
    requires counted { lines.old ≡ length lists.old.lists }
    requires listed { AreListed rows.old.items lists.old }
    requires apart { HaveOneRowEach rows.old.items }
    requires none { own_line turn rows.old.items ≡ length rows.old.items }
    ensures ok { IfOk result (λ line. IsOn (record { turn = turn; line = line }) rows.new.items) }
    ensures told { TellsAlike rows.old.items rows.new.items lists.old lists.new }
    ensures counted { lines.new ≡ length lists.new.lists }
    ensures depths { (n : _) → turn.depth ≤ n → AreNoDeeper n rows.old.items → AreNoDeeper n rows.new.items }
{
    let line = blank_line(rows, lists);
    if line < rows.len() {
        give_line(rows, lists, turn, line);
        return Ok(line);
    }
    rows.reserve(1)?;
    lists.reserve(1)?;
    add_line(rows, lists, lines);
    give_line(rows, lists, turn, line);
    Ok(line)
}

// The greater of two depths.
fn greater(one: u64, other: u64) -> u64
    ensures one { one ≤ result }
    ensures other { other ≤ result }
{
    if one < other { other } else { one }
}

// A turn has a line then: which.
#[inline(always)]
fn admit(
    rows: &mut Vec<Row>,
    lists: &mut Rings,
    lines: &mut usize,
    deepest: &mut u64,
    turn: Turn,
) -> Result<usize, AllocError>
    requires counted { lines.old ≡ length lists.old.lists }
    requires listed { AreListed rows.old.items lists.old }
    requires apart { HaveOneRowEach rows.old.items }
    requires depths { AreNoDeeper deepest.old rows.old.items }
    ensures ok { IfOk result (λ line. IsOn (record { turn = turn; line = line }) rows.new.items) }
    ensures told { TellsAlike rows.old.items rows.new.items lists.old lists.new }
    ensures had { HasLine turn rows.old.items → IsOk result }
    ensures counted { lines.new ≡ length lists.new.lists }
    ensures depths { AreNoDeeper deepest.new rows.new.items }
{
    let line = own_line(rows, turn);
    if line < rows.len() {
        return Ok(line);
    }
    *deepest = greater(*deepest, turn.depth);
    make_line(rows, lists, lines, turn)
}

// Whether something is due on a line.
#[inline(always)]
fn is_due_on(lists: &Rings, line: usize) -> bool
    ensures { result ≡ false → list_at lists.now line ≡ [] }
{
    lists.first(line).is_some()
}

// Whether something is due or served on a line.
#[inline(always)]
fn is_busy(rows: &[Row], lists: &Rings, line: usize) -> bool
    requires { line < length rows.now }
    ensures due { result ≡ false → list_at lists.now line ≡ [] }
    ensures served { result ≡ false → (row_on rows.now line).in_hand ≡ None }
{
    if rows[line].in_hand.is_some() {
        return true;
    }
    lists.first(line).is_some()
}

// Takes off the last lines on which nothing is due and nothing is served, but for one, and two in all, which calls from within
// an effect have again and again.
#[inline(always)]
fn trim(rows: &mut Vec<Row>, lists: &Rings)
    requires listed { AreListed rows.old.items lists.now }
    requires apart { HaveOneRowEach rows.old.items }
    ensures told { TellsAlike rows.old.items rows.new.items lists.now lists.now }
    ensures depths { (n : _) → AreNoDeeper n rows.old.items → AreNoDeeper n rows.new.items }
{
    while rows.len() > 2 {
        let last = rows.len() - 1;
        if is_busy(rows, lists, last) {
            return;
        }
        if is_busy(rows, lists, last - 1) {
            return;
        }
        let _row = rows.pop();
    }
}

// Lets there be a word at each place below this one; past the last there is none but 0.
fn lengthen(words: &mut Vec<u64>, places: usize) -> Result<(), AllocError>
    ensures same { (p : _) → slice_index_or words.new.items p 0 ≡ slice_index_or words.old.items p 0 }
    ensures ok { OnOk result (places ≤ length words.new.items) }
    ensures longer { length words.old.items ≤ length words.new.items }
    ensures had { places ≤ length words.old.items → IsOk result }
{
    if places <= words.len() {
        return Ok(());
    }
    words.resize(places, 0)
}

// Whether a row is one of this stack's.
#[inline(always)]
fn is_by(by: u64, turn: Option<Turn>) -> bool
    ensures { result ≡ is_by by turn }
{
    match turn {
        Some(turn) => turn.by == by,
        None => false,
    }
}

// Whether what is in hand is of the lane of this word.
fn is_of_lane(word: u64, in_hand: &Option<Task>) -> bool
    ensures { result ≡ is_of_lane word in_hand.now }
{
    match in_hand {
        Some(handed) => handed.word == word,
        None => false,
    }
}

// What was handed under this ticket is begun.
#[inline(always)]
fn begin(in_hand: &mut Option<Task>, ticket: u64)
    ensures { in_hand.new ≡ begun_by ticket in_hand.old }
{
    match in_hand {
        Some(handed) => {
            if handed.ticket == ticket {
                handed.is_begun = true;
            }
        }
        None => {}
    }
}

// What is in hand in a row of this stack, with what was begun noted.
#[inline(always)]
fn begin_by(by: u64, ticket: u64, row: &mut Row)
    ensures { row.new ≡ with_begun by ticket row.old }
{
    if is_by(by, row.turn) {
        begin(&mut row.in_hand, ticket);
    }
}

// Whether what is in hand in a row is not begun.
#[inline(always)]
fn is_fresh(row: &Row) -> bool
    ensures { result ≡ is_fresh row.now }
{
    match &row.in_hand {
        Some(handed) => !handed.is_begun,
        None => false,
    }
}

// Behind a line where all before it were settled, and it was looked at.
#[inline(always)]
fn settle(settled: usize, line: usize, row: &Row) -> usize
    requires { line < 2 ^ 63 }
    ensures { result ≡ settled_behind settled line row.now }
{
    if settled == line && !is_fresh(row) {
        line + 1
    } else {
        settled
    }
}

// Notes what a stack began in all its rows: those before a line have nothing to note. Answers before which line then.
#[inline(always)]
fn mark(rows: &mut Vec<Row>, by: u64, ticket: u64, settled: usize) -> usize
    requires { AreSettled settled rows.old.items }
    ensures each { (k : _) → row_on rows.new.items k ≡ with_begun by ticket (row_on rows.old.items k) }
    ensures many { length rows.new.items ≡ length rows.old.items }
    ensures settled { AreSettled result rows.new.items }
{
    let mut behind = settled;
    for line in settled..rows.len() {
        begin_by(by, ticket, &mut rows[line]);
        behind = settle(behind, line, &rows[line]);
    }
    behind
}

// Whether a turn is less deep than the one that was found, if there is one.
#[inline(always)]
fn is_before(turn: Turn, found: Option<Turn>) -> bool
    ensures { result ≡ is_before turn found }
{
    match found {
        Some(found) => turn.depth < found.depth,
        None => true,
    }
}

// The nearer of a turn that was found, and of a row's, if that is deeper on the same stack.
#[inline(always)]
fn nearer(turn: Turn, found: Option<Turn>, other: Option<Turn>) -> Option<Turn>
    ensures { result ≡ nearer turn found other }
{
    let Some(one) = other else {
        return found;
    };
    if one.by == turn.by && turn.depth < one.depth && is_before(one, found) {
        Some(one)
    } else {
        found
    }
}

// The next deeper turn of the same stack that has a line; at once where none is deeper.
#[inline(always)]
fn next_deeper(rows: &[Row], deepest: u64, turn: Turn) -> Option<Turn>
    requires { AreNoDeeper deepest rows.now }
    ensures deeper { IfSome result (λ u. is_deeper turn u ≡ true) }
    ensures between { (u : Turn) → is_deeper turn u ≡ true → is_before u result ≡ true →
        own_line u rows.now ≡ length rows.now }
{
    let mut found = None;
    if deepest <= turn.depth {
        return found;
    }
    for line in 0..rows.len() {
        found = nearer(turn, found, rows[line].turn);
    }
    found
}

// Writes that nothing is to be done now.
#[inline(always)]
fn tell_none(answer: &mut Answer)
    ensures { answer.new ≡ handed_told None false answer.old }
{
    answer.handed = 0;
    answer.own = 0;
    answer.spare = 0;
}

/// Nothing was done, and nothing is to be done: all counts are 0, and the rest stays as it is.
pub fn clear_step(answer: &mut Answer)
    ensures { answer.new ≡ no_step answer.old }
{
    answer.clear();
    tell_none(answer);
}

// Writes what is to be done now, if something is.
#[inline(always)]
fn tell_hand(hand: &Option<Task>, is_own: bool, answer: &mut Answer)
    ensures { answer.new ≡ handed_told hand.now is_own answer.old }
{
    match hand {
        Some(task) => {
            answer.handed = 1;
            answer.own = if is_own { 1 } else { 0 };
            answer.ticket = task.ticket;
            answer.spare = 0;
            answer.effect = task.effect;
        }
        None => tell_none(answer),
    }
}

impl Agenda {
    ghost use Rattle.rx_turns.specs.Agendas.{due_to, in_hand, hand_at, lane_word, has_nothing, HasNothing, LaneHasRoom};
    ghost use Rattle.rx_turns.specs.Agendas.{LosesNothing, Claims, IsDueNoMore, IsEmptied, Holds, NotesBegun};
    ghost use Rattle.rx_turns.specs.Seen.{seen};
    ghost use Rattle.rx_turns.specs.Agendas.{IsDueOnce, IsServing};
    ghost use Rattle.rx_turns.specs.declared.agenda.Turn.{Turn};

    /// Nothing is due, which takes no memory.
    pub(crate) fn new(alloc: Global) -> Self
        ensures rows { result.rows.items ≡ [] }
        ensures lists { result.lists.lists ≡ [] }
        ensures places { result.lists.members ≡ 0 }
        ensures words { result.words.items ≡ [] }
    {
        Agenda {
            rows: Vec::new(alloc),
            lists: Rings::new(alloc),
            lines: 0,
            settled: 0,
            deepest: 0,
            words: Vec::new(alloc),
        }
    }

    /// No lane is due to two turns.
    pub(crate) fn promise(&self)
        ensures { IsDueOnce (seen self.now) }
    {
        self.lists.promise();
    }

    /// The line of a turn; behind all where it has none.
    #[inline(always)]
    pub(crate) fn line_of(&self, turn: Turn) -> usize
        ensures { result ≡ own_line turn self.now.rows.items }
    {
        own_line(&self.rows, turn)
    }

    /// The same of a turn that had this line a moment before.
    #[inline(always)]
    pub(crate) fn line_at(&self, turn: Turn, line: usize) -> usize
        ensures { result ≡ own_line turn self.now.rows.items }
    {
        if line >= self.rows.len() {
            return own_line(&self.rows, turn);
        }
        if is_of(turn, &self.rows[line]) {
            return line;
        }
        own_line(&self.rows, turn)
    }

    /// A turn has a line then: which.
    #[inline(always)]
    pub(crate) fn admit(&mut self, turn: Turn) -> Result<usize, AllocError>
        ensures ok { IfOk result (λ line. IsOn (record { turn = turn; line = line }) self.new.rows.items) }
        ensures kept { LosesNothing (seen self.old) (seen self.new) }
        ensures places { self.new.lists.members ≡ self.old.lists.members }
        ensures had { HasLine turn self.old.rows.items → IsOk result }
    {
        admit(
            &mut self.rows,
            &mut self.lists,
            &mut self.lines,
            &mut self.deepest,
            turn,
        )
    }

    /// Lets lanes of all places below this one be due.
    pub(crate) fn widen(&mut self, places: usize) -> Result<(), AllocError>
        ensures ok { OnOk result (places ≤ self.new.lists.members) }
        ensures kept { LosesNothing (seen self.old) (seen self.new) }
        ensures rows { self.new.rows ≡ self.old.rows }
        ensures had { places ≤ self.old.lists.members → IsOk result }
    {
        lengthen(&mut self.words, places)?;
        self.lists.admit(places)
    }

    /// How many lines there are.
    pub(crate) fn turns(&self) -> usize {
        self.rows.len()
    }

    /// The first lane that is due to a turn.
    #[inline(always)]
    pub(crate) fn first(&self, on: OnLine) -> Option<usize>
        requires { IsTheLine on self.now.rows.items }
        ensures first { result ≡ head_of (due_to (seen self.now) on.turn) }
        ensures place { IfSome result (λ place. place < self.now.lists.members) }
        ensures line { IfSome result (λ _. IsOn on self.now.rows.items) }
    {
        self.lists.promise();
        self.lists.first(on.line)
    }

    /// The word under which the lane of a place is due.
    #[inline(always)]
    pub(crate) fn word(&self, place: usize) -> u64
        ensures { result ≡ lane_word (seen self.now) place }
    {
        self.words.get(place).copied().unwrap_or(0)
    }

    /// What a turn has in hand.
    #[inline(always)]
    pub(crate) fn served(&self, on: OnLine) -> Option<Task>
        requires { IsTheLine on self.now.rows.items }
        ensures hand { result ≡ in_hand (seen self.now) on.turn }
        ensures line { IfSome result (λ _. IsOn on self.now.rows.items) }
    {
        hand_on(&self.rows, on.line)
    }

    /// The lane of what a turn has in hand, where that is begun.
    #[inline(always)]
    pub(crate) fn told(&self, on: OnLine) -> Option<u64>
        requires { IsTheLine on self.now.rows.items }
        ensures told { IsToldOf (in_hand (seen self.now) on.turn) result }
        ensures line { IfSome result (λ _. IsOn on self.now.rows.items) }
    {
        told_on(&self.rows, on.line)
    }

    /// Whether nothing is in hand of a turn.
    #[inline(always)]
    pub(crate) fn is_empty(&self, on: OnLine) -> bool
        requires { IsTheLine on self.now.rows.items }
        ensures { result ≡ is_none (in_hand (seen self.now) on.turn) }
    {
        is_empty_on(&self.rows, on.line)
    }

    /// Whether a turn has nothing.
    #[inline(always)]
    pub(crate) fn is_free(&self, on: OnLine) -> bool
        requires { IsTheLine on self.now.rows.items }
        ensures { result ≡ has_nothing (seen self.now) on.turn }
    {
        self.is_empty(on) && self.first(on).is_none()
    }

    /// Writes what is in hand on the line that was found, if one was, as what is to be done now.
    #[inline(always)]
    pub(crate) fn tell(&self, found: Option<usize>, is_own: bool, answer: &mut Answer)
        ensures { answer.new ≡ handed_told (hand_at (seen self.now) found) is_own answer.old }
    {
        match found {
            Some(line) => match self.rows.get(line) {
                Some(row) => tell_hand(&row.in_hand, is_own, answer),
                None => tell_none(answer),
            },
            None => tell_none(answer),
        }
    }

    /// The next deeper turn of the same stack that may have something.
    #[inline(always)]
    pub(crate) fn next_deeper(&self, turn: Turn) -> Option<Turn>
        ensures deeper { IfSome result (λ u. is_deeper turn u ≡ true) }
        ensures between { (u : Turn) → is_deeper turn u ≡ true → is_before u result ≡ true →
            HasNothing (seen self.now) u }
    {
        next_deeper(&self.rows, self.deepest, turn)
    }

    // Puts a lane behind all that are due to a turn, and off every other list.
    fn join(&mut self, on: OnLine, place: usize, word: u64)
        requires line { IsOn on self.old.rows.items }
        requires place { place < self.old.lists.members }
        ensures { Claims on.turn place word (seen self.old) (seen self.new) }
    {
        self.lists.leave(place);
        self.lists.join(on.line, place);
        self.words[place] = word;
    }

    /// Makes a lane due to a turn, behind all that is, and to no other. False where there is no memory for that: then it
    /// is due to whom it was.
    pub(crate) fn claim(&mut self, turn: Turn, place: usize, word: u64) -> bool
        requires place { place < 2 ^ 29 }
        ensures claims { result ≡ true → Claims turn place word (seen self.old) (seen self.new) }
        ensures kept { result ≡ false → LosesNothing (seen self.old) (seen self.new) }
        ensures room { LaneHasRoom (seen self.old) turn place → result ≡ true }
    {
        let Ok(line) = self.admit(turn) else {
            return false;
        };
        if self.widen(place + 1).is_err() {
            return false;
        }
        self.join(OnLine { turn, line }, place, word);
        true
    }

    /// A turn that has a line has this in hand, which is not begun.
    #[inline(always)]
    pub(crate) fn hold(&mut self, on: OnLine, hand: Task)
        requires { IsOn on self.old.rows.items }
        ensures holds { Holds on.turn (Some hand) (seen self.old) (seen self.new) }
        ensures line { IsOn on self.new.rows.items }
    {
        self.rows[on.line].in_hand = Some(hand);
        self.settled = min(self.settled, on.line);
    }

    /// A turn that has a line has nothing in hand.
    #[inline(always)]
    pub(crate) fn drop_hand(&mut self, on: OnLine)
        requires { IsOn on self.old.rows.items }
        ensures holds { Holds on.turn None (seen self.old) (seen self.new) }
        ensures line { IsOn on self.new.rows.items }
    {
        self.rows[on.line].in_hand = None;
    }

    /// Whether the lane of a place is due to anybody.
    pub(crate) fn is_due(&self, place: usize) -> bool
        ensures stands { result ≡ true → (e : ℕ) × (is_in place (list_at (seen self.now).lists e) ≡ true) }
        ensures free { result ≡ false → (e : ℕ) → is_in place (list_at (seen self.now).lists e) ≡ false }
    {
        !self.lists.is_free(place)
    }

    /// Whether something is due to anybody.
    #[inline(always)]
    pub(crate) fn has_due(&self) -> bool
        ensures { result ≡ false → (e : ℕ) → list_at (seen self.now).lists e ≡ [] }
    {
        for line in 0..self.rows.len() {
            if is_due_on(&self.lists, line) {
                return true;
            }
        }
        false
    }

    /// Whether a stack serves the lane of a word.
    pub(crate) fn is_serving(&self, by: u64, word: u64) -> bool
        ensures serves { result ≡ true → IsServing (seen self.now) by word }
        ensures none { result ≡ false → IsServing (seen self.now) by word → ⊥ }
    {
        for line in 0..self.rows.len() {
            if is_by(by, self.rows[line].turn) && is_of_lane(word, &self.rows[line].in_hand) {
                return true;
            }
        }
        false
    }

    /// Makes a lane due to nobody.
    pub(crate) fn forget(&mut self, place: usize)
        requires place { place < self.old.lists.members }
        ensures gone { IsDueNoMore place (seen self.old) (seen self.new) }
        ensures rows { self.new.rows ≡ self.old.rows }
    {
        self.lists.leave(place);
    }

    /// Makes nothing due to a turn.
    pub(crate) fn empty(&mut self, on: OnLine)
        requires { IsTheLine on self.old.rows.items }
        ensures { IsEmptied on.turn (seen self.old) (seen self.new) }
    {
        while let Some(place) = self.first(on) {
            self.promise();
            self.forget(place);
        }
    }

    /// What a stack of calls was handed under this ticket is begun. Turns that have nothing any more lose their lines, so
    /// that a call costs by how many turns have something now, and not by how many ever had.
    #[inline(always)]
    pub(crate) fn mark(&mut self, by: u64, ticket: u64)
        ensures { NotesBegun by ticket (seen self.old) (seen self.new) }
    {
        trim(&mut self.rows, &self.lists);
        self.settled = mark(&mut self.rows, by, ticket, self.settled);
    }
}
