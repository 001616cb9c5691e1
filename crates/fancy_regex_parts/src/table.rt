//! The states of parts, which of them are marked, and what it costs to try them.

ghost use Rattle.std.specs.Prelude.{◌≡◌, ◌+◌, ◌-◌, ◌*◌, ◌^◌, ◌<◌, ◌≤◌, ◌↔◌, ◌⊎◌, ℕ, true, false, Some, length, min, replicate, slice_index_or, IfOk, IfSome, IsSome};
ghost use Rattle.fancy_regex_parts.specs.Tables.{AreClosed, AreStill, steps_back as steps_back_is, may_write as may_write_is, leads_to_write as leads_to_write_is};
ghost use Rattle.fancy_regex_states.specs.First.{state_at};
ghost use Rattle.fancy_regex_states.specs.Attempts.{NamesBelow};

use fancy_regex_states::State;
use std::alloc::{AllocError, Global};

/// States of parts with their marks. A state is marked where two states lead to it, or where it leads to a later one, as the head of a
/// loop does. What is found out of a marked state at a place is kept; the states between the marked ones are trees.
#[derive(Drop)]
pub struct PartTable {
    /// The states of all parts. Those of a part that is asked by another one come before the other's.
    pub(crate) states: Vec<State>,
    /// For each state its mark, if it has one.
    pub(crate) marks: Vec<Option<usize>>,
    /// For each mark the state that has it.
    pub(crate) heads: Vec<usize>,
    /// For each state how many looks it takes to try it, where those at the marked states after it are not counted.
    pub(crate) costs: Vec<usize>,
    /// No marked state costs more.
    pub(crate) most: usize,
    /// For each state over how many characters a search that begins there steps back at most, seen from its place.
    pub(crate) reaches: Vec<usize>,
    /// For each state whether a way from it may write a slot.
    pub(crate) writes: Vec<bool>,
}

impl PartTable {
    ghost use Rattle.fancy_regex_states.specs.First.{state_at};
    ghost use Rattle.fancy_regex_parts.specs.Tables.{AreStill, IsStill, IsTable, IsRightAt, mark_of, cost_of, due as due_is, owed as owed_is, lowest_of, needed_reach_of, reach_of, table_weight};

    /// The table of these states; `None` exactly where a state leads to one that is not there. Those to which two lead and the heads of
    /// loops are marked, or all where these do not do; no clause says which. The error is want of memory.
    pub fn new(alloc: Global, states: Vec<State>) -> Result<Option<PartTable>, AllocError>
        ensures made { IfOk result (λ made. IfSome made (λ table. IsTable table × (table.states.items ≡ states.items))) }
        ensures exact { IfOk result (λ made. IsSome made ↔ AreClosed states.items) }
    {
        let marked = marked_states(alloc, &states)?;
        let table = PartTable::with_marks(alloc, states, &marked)?;
        if table.is_right() {
            return Ok(Some(table));
        }
        if !are_closed(&table.states) {
            return Ok(None);
        }
        let table = PartTable::all_marked(alloc, table.states)?;
        Ok(Some(table))
    }

    /// The table of these states with marks on those that are to be marked, and costs that may not be right. The error is want of memory.
    fn with_marks(
        alloc: Global,
        states: Vec<State>,
        marked: &[bool],
    ) -> Result<PartTable, AllocError>
        ensures states { IfOk result (λ table. table.states.items ≡ states.items) }
        ensures still { IfOk result (λ table. IsStill table) }
    {
        let (marks, heads) = numbered(alloc, marked)?;
        let writes = writing_states(alloc, &states)?;
        let costs = copies(alloc, states.len(), 0)?;
        let reaches = copies(alloc, states.len(), 0)?;
        let mut table = PartTable {
            states,
            marks,
            heads,
            costs,
            most: 0,
            reaches,
            writes,
        };
        table.set_costs(false);
        table.set_costs(true);
        table.set_reaches();
        Ok(table)
    }

    /// The table of these states with a mark on each: to try one costs one look. Where one steps back, each search steps back to the
    /// text's start. The error is want of memory.
    fn all_marked(alloc: Global, states: Vec<State>) -> Result<PartTable, AllocError>
        requires { AreClosed states.items }
        ensures { IfOk result (λ table. IsTable table × (table.states.items ≡ states.items)) }
    {
        let mut marks = Vec::new(alloc);
        let mut heads: Vec<usize> = Vec::new(alloc);
        for q in 0..states.len() {
            marks.push(Some(q))?;
            heads.push(q)?;
        }
        let costs = copies(alloc, states.len(), 1)?;
        let reach = farthest_reach(&states);
        let reaches = copies(alloc, states.len(), reach)?;
        Ok(PartTable {
            states,
            marks,
            heads,
            costs,
            most: 1,
            reaches,
            writes: Vec::new(alloc),
        })
    }

    /// The parts' weight, what all marked states cost, at most the last `usize`: over all questions of one memory, a search in them looks
    /// at each place so often at most, but for a small number of looks for each question.
    pub fn weight(&self) -> usize
        ensures { result ≡ min (table_weight self.now) (2 ^ 64 - 1) }
    {
        let mut weight: usize = 0;
        for mark in 0..self.heads.len() {
            let cost = self.cost(self.heads[mark]);
            weight = weight.saturating_add(cost);
        }
        weight
    }

    /// The mark of this state.
    #[inline(always)]
    pub(crate) fn mark(&self, state: usize) -> Option<usize>
        ensures { result ≡ mark_of self.now state }
    {
        match self.marks.get(state) {
            Some(mark) => *mark,
            None => None,
        }
    }

    /// Whether a way from this state may write a slot.
    #[inline(always)]
    pub(crate) fn may_write(&self, state: usize) -> bool
        ensures { result ≡ may_write_is self.now.writes.items state }
    {
        may_write(&self.writes, state)
    }

    /// What it costs to try this state.
    fn cost(&self, state: usize) -> usize
        ensures { result ≡ cost_of self.now state }
    {
        match self.costs.get(state) {
            Some(cost) => *cost,
            None => 0,
        }
    }

    /// What is due for a state that another one leads to.
    fn due(&self, state: usize) -> usize
        ensures { result ≡ due_is self.now state }
    {
        match self.mark(state) {
            Some(_) => 0,
            None => self.cost(state),
        }
    }

    /// What is due for the states that this one leads to.
    fn owed(&self, state: State) -> usize
        ensures { result ≡ min (owed_is self.now state) (2 ^ 64 - 1) }
    {
        match state {
            State::Read { next, .. }
            | State::Look { next, .. }
            | State::Back { next }
            | State::Enter { next, .. }
            | State::Leave { next, .. } => self.due(next),
            State::Split { first, second } => { self.due(first).saturating_add(self.due(second)) }
            State::Ask { part, next, .. } => self.due(part).saturating_add(self.due(next)),
            State::Atomic { part, same, moved } => self
                .due(part)
                .saturating_add(self.due(same).max(self.due(moved))),
            State::Match => 0,
        }
    }

    /// Over how many characters a search that begins at this state steps back at most; the last `usize` where that has no bound.
    pub(crate) fn reach(&self, state: usize) -> usize
        ensures { result ≡ reach_of self.now state }
    {
        match self.reaches.get(state) {
            Some(reach) => *reach,
            None => 0,
        }
    }

    /// The least byte offset that a search is asked about that begins at this state at the byte offset `at`: a character has four bytes
    /// at most.
    pub fn lowest(&self, state: usize, at: usize) -> usize
        ensures { result ≡ lowest_of self.now state at }
    {
        at.saturating_sub(self.reach(state).saturating_mul(4))
    }

    /// What the reach of this state has to be at least, by those of the states that it leads to.
    fn needed_reach(&self, state: State) -> usize
        ensures { result ≡ needed_reach_of self.now state }
    {
        match state {
            State::Read { next, .. }
            | State::Look { next, .. }
            | State::Enter { next, .. }
            | State::Leave { next, .. } => self.reach(next),
            State::Back { next } => self.reach(next).saturating_add(1),
            State::Split { first, second } => self.reach(first).max(self.reach(second)),
            State::Ask { part, next, .. } => self.reach(part).max(self.reach(next)),
            State::Atomic { part, same, moved } => {
                let after = self.reach(same).max(self.reach(moved));
                self.reach(part).max(after)
            }
            State::Match => 0,
        }
    }

    /// Raises each reach to what it has to be by those of the states that it leads to; whether that changed any.
    fn raise_reaches(&mut self) -> bool
        ensures { self.new.states ≡ self.old.states }
    {
        let mut changed = false;
        for q in 0..self.states.len() {
            let needed = self.needed_reach(self.states[q]);
            if q < self.reaches.len() && self.reaches[q] < needed {
                self.reaches[q] = needed;
                changed = true;
            }
        }
        changed
    }

    /// Sets the reaches, which are 0 so far, if a state steps back: as many passes as loops are nested, and two more. Where states step
    /// back in a circle they stay too low.
    fn set_reaches(&mut self)
        ensures states { self.new.states ≡ self.old.states }
        ensures still { AreStill self.old.states.items → self.new.reaches ≡ self.old.reaches }
    {
        if !step_back(&self.states) {
            return;
        }
        'passes: for _pass in 0..self.states.len() {
            if !self.raise_reaches() {
                return;
            }
        }
    }

    /// Sets the costs of the states that are marked, or of those that are not.
    fn set_costs(&mut self, marked: bool)
        ensures states { self.new.states ≡ self.old.states }
        ensures reaches { self.new.reaches ≡ self.old.reaches }
    {
        for q in 0..self.states.len() {
            if self.mark(q).is_some() == marked && q < self.costs.len() {
                let cost = self.owed(self.states[q]).saturating_add(1);
                self.costs[q] = cost;
                if marked && cost > self.most {
                    self.most = cost;
                }
            }
        }
    }

    /// Whether the state of this number is right.
    fn is_right_at(&self, q: usize) -> bool
        requires { q < length self.now.states.items }
        ensures { result ≡ true → IsRightAt self.now q }
    {
        let state = self.states[q];
        let cost = self.cost(q);
        if !names_below(state, self.states.len()) {
            return false;
        }
        if !self.has_mark(q, cost) {
            return false;
        }
        if cost > self.states.len() {
            return false;
        }
        if self.reach(q) < self.needed_reach(state) {
            return false;
        }
        if !self.is_right_of_writes(q, state) {
            return false;
        }
        self.owed(state) < cost
    }

    /// Whether the mark of this state, if it has one, is its own, and its cost is not too high.
    fn has_mark(&self, q: usize, cost: usize) -> bool
        requires { cost ≡ cost_of self.now q }
        ensures { result ≡ true → (mark : ℕ) → mark_of self.now q ≡ Some mark
            → (mark < length self.now.heads.items) × (slice_index_or self.now.heads.items mark 0 ≡ q)
            × (cost_of self.now q ≤ self.now.most) }
    {
        match self.mark(q) {
            None => true,
            Some(mark) => mark < self.heads.len() && self.heads[mark] == q && cost <= self.most,
        }
    }

    /// Whether it is right of this state, the one of the number `q`, that no way from it writes a slot, if the table says so.
    fn is_right_of_writes(&self, q: usize, state: State) -> bool
        ensures { result ≡ true → may_write_is self.now.writes.items q ≡ false → leads_to_write_is self.now.writes.items state ≡ false }
    {
        self.may_write(q) || !leads_to_write(&self.writes, state)
    }

    /// Whether all states are right, and neither the parts weigh more than there are states, nor one marked state costs more.
    fn is_right(&self) -> bool
        requires { IsStill self.now }
        ensures { result ≡ true → IsTable self.now }
    {
        for q in 0..self.states.len() {
            if !self.is_right_at(q) {
                return false;
            }
        }
        if self.most > self.states.len() {
            return false;
        }
        self.weight() <= self.states.len()
    }
}

/// Whether each state that this one names is below `count`.
fn names_below(state: State, count: usize) -> bool
    ensures names { result ≡ true → NamesBelow count state }
    ensures other { result ≡ false → NamesBelow count state → ⊥ }
{
    match state {
        State::Read { next, .. }
        | State::Look { next, .. }
        | State::Back { next }
        | State::Enter { next, .. }
        | State::Leave { next, .. } => next < count,
        State::Split { first, second } => first < count && second < count,
        State::Ask { part, next, .. } => part < count && next < count,
        State::Atomic { part, same, moved } => part < count && same < count && moved < count,
        State::Match => true,
    }
}

/// Whether each of these states leads to states that are there.
fn are_closed(states: &[State]) -> bool
    ensures closed { result ≡ true → AreClosed states.now }
    ensures other { result ≡ false → AreClosed states.now → ⊥ }
{
    for q in 0..states.len() {
        if !leads_inside(states, q) {
            return false;
        }
    }
    true
}

/// Whether the state of this number leads to states that are there.
fn leads_inside(states: &[State], q: usize) -> bool
    requires { q < length states.now }
    ensures inside { result ≡ true → NamesBelow (length states.now) (state_at states.now q) }
    ensures other { result ≡ false → NamesBelow (length states.now) (state_at states.now q) → ⊥ }
{
    let state = states[q];
    names_below(state, states.len())
}

/// Whether one of these states steps back over a character.
fn step_back(states: &[State]) -> bool
    ensures still { result ≡ false → AreStill states.now }
    ensures other { result ≡ true → AreStill states.now → ⊥ }
{
    for q in 0..states.len() {
        if steps_back(states, q) {
            return true;
        }
    }
    false
}

/// A reach that is enough for each of these states: 0 where none steps back, else the last `usize`.
fn farthest_reach(states: &[State]) -> usize
    ensures far { (result ≡ 2 ^ 64 - 1) ⊎ (AreStill states.now × (result ≡ 0)) }
    ensures still { AreStill states.now → result ≡ 0 }
{
    if step_back(states) { usize::MAX } else { 0 }
}

/// Whether the state of this number steps back over a character.
fn steps_back(states: &[State], q: usize) -> bool
    requires { q < length states.now }
    ensures { result ≡ steps_back_is (state_at states.now q) }
{
    match states[q] {
        State::Back { .. } => true,
        _ => false,
    }
}

/// Whether a way from this state may write a slot, by this list.
#[inline(always)]
fn may_write(writes: &[bool], state: usize) -> bool
    ensures { result ≡ may_write_is writes.now state }
{
    match writes.get(state) {
        Some(writes) => *writes,
        None => true,
    }
}

/// Whether this state writes a slot, or a way from one that it leads to may. A part that must have no way writes none.
fn leads_to_write(writes: &[bool], state: State) -> bool
    ensures { result ≡ leads_to_write_is writes.now state }
{
    match state {
        State::Enter { .. } | State::Leave { .. } => true,
        State::Read { next, .. }
        | State::Look { next, .. }
        | State::Back { next }
        | State::Ask {
            negated: true,
            next,
            ..
        } => may_write(writes, next),
        State::Split { first, second } => may_write(writes, first) || may_write(writes, second),
        State::Ask { part, next, .. } => may_write(writes, part) || may_write(writes, next),
        State::Atomic { part, same, moved } => {
            may_write(writes, part) || may_write(writes, same) || may_write(writes, moved)
        }
        State::Match => false,
    }
}

/// For each state whether a way from it may write a slot. The error is want of memory.
fn writing_states(alloc: Global, states: &[State]) -> Result<Vec<bool>, AllocError> {
    let mut writes = Vec::new(alloc);
    writes.resize(states.len(), false)?;
    // A state may lead to a later one, so what is noted of one may be news for an earlier one.
    for _ in 0..states.len() {
        if !note_writes(&mut writes, states) {
            return Ok(writes);
        }
    }
    Ok(writes)
}

/// Notes each state from which a way may write a slot, as far as that is noted of those that it leads to; whether one is new.
fn note_writes(writes: &mut [bool], states: &[State]) -> bool {
    let mut found = false;
    for q in 0..states.len() {
        if q < writes.len() && !writes[q] && leads_to_write(writes, states[q]) {
            writes[q] = true;
            found = true;
        }
    }
    found
}

/// For each state whether it is to be marked. The error is want of memory.
fn marked_states(alloc: Global, states: &[State]) -> Result<Vec<bool>, AllocError> {
    let mut marked = Vec::new(alloc);
    marked.resize(states.len(), false)?;
    let mut entered = Vec::new(alloc);
    entered.resize(states.len(), false)?;
    for q in 0..states.len() {
        note_edges(&mut marked, &mut entered, q, states[q]);
    }
    Ok(marked)
}

/// Notes where the state of this number leads. Behind an atomic group one of its two states is tried, so one of them counts where
/// they are the same.
fn note_edges(marked: &mut [bool], entered: &mut [bool], from: usize, state: State) {
    match state {
        State::Read { next, .. }
        | State::Look { next, .. }
        | State::Back { next }
        | State::Enter { next, .. }
        | State::Leave { next, .. } => note_edge(marked, entered, from, next),
        State::Split { first, second } => {
            note_edge(marked, entered, from, first);
            note_edge(marked, entered, from, second);
        }
        State::Ask { part, next, .. } => {
            note_edge(marked, entered, from, part);
            note_edge(marked, entered, from, next);
        }
        State::Atomic { part, same, moved } => {
            note_edge(marked, entered, from, part);
            note_edge(marked, entered, from, same);
            if moved != same {
                note_edge(marked, entered, from, moved);
            }
        }
        State::Match => {}
    }
}

/// Notes that the state `from` leads to this one: a state that leads to a later one is marked, and one that was led to before.
fn note_edge(marked: &mut [bool], entered: &mut [bool], from: usize, to: usize) {
    if from < marked.len() && from <= to {
        marked[from] = true;
    }
    if to < marked.len() && to < entered.len() {
        if entered[to] {
            marked[to] = true;
        }
        entered[to] = true;
    }
}

/// The same number for each of so many states. The error is want of memory.
fn copies(alloc: Global, count: usize, value: usize) -> Result<Vec<usize>, AllocError>
    ensures { IfOk result (λ numbers. numbers.items ≡ replicate count value) }
{
    let mut numbers = Vec::new(alloc);
    numbers.resize(count, value)?;
    Ok(numbers)
}

/// The marks of states, and the state of each mark, where these are to be marked. The error is want of memory.
fn numbered(
    alloc: Global,
    marked: &[bool],
) -> Result<(Vec<Option<usize>>, Vec<usize>), AllocError> {
    let mut marks = Vec::new(alloc);
    let mut heads: Vec<usize> = Vec::new(alloc);
    for q in 0..marked.len() {
        if marked[q] {
            marks.push(Some(heads.len()))?;
            heads.push(q)?;
        } else {
            marks.push(None)?;
        }
    }
    Ok((marks, heads))
}
