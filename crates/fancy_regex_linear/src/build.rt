//! Translation of an easy syntax tree to nodes and class matchers.

ghost use Rattle.std.specs.Prelude.{◌≡◌, ◌+◌, ◌&&◌, ◌||◌, true, false, ◌++◌, ◌∷◌, [], ℕ, Bool, List, None, length, map, not, All, OnOk, IfOk, IfErr, IfSome, chars, string_bytes, slice_index, if◌then◌else◌};
ghost use Rattle.fancy_regex_tree.specs.Tree.{Tree, tree_of, repeat};
ghost use Rattle.fancy_regex_meaning.specs.Groups.{group_count, row_group_count};
ghost use Rattle.fancy_regex_class.specs.Classes.{folded};
ghost use Rattle.fancy_regex_linear.specs.Re.{shape, shapes, cats};
ghost use Rattle.fancy_regex_linear.specs.Re as re;
ghost use Rattle.fancy_regex_states.specs.declared.atom.Leaf.TheVariants as leaf;
ghost use Rattle.fancy_regex_linear.specs.Program.{IsSound, never_empty};
ghost use Rattle.fancy_regex_linear.specs.Plain.{test_of as test_of_assertion, ends_by_crlf as has_crlf_end, last_newline as newline_before_end, newline_re, read_each, served, text_end_re, IsPlain, ArePlain, IsRegular, AreRegular, IsOneChar, has_no_iteration, unless, look_test, joined, is_negated_look, is_look_behind, around, each_around, char_leaf, char_classes, classes, row_classes, re_of, row_of, branches_of};
ghost use Rattle.fancy_regex_linear.specs.Translation.{all_trees, AddsMatchers, IsWritable, AreWritable, callee_shape, called_in, is_made};
ghost use Rattle.fancy_regex_info.specs.AnalysisRelations.{AreCallSizes, mark_at};
ghost use Rattle.fancy_regex_linear.specs.CallMarks.{IsCalleeOf, MakesLevel, WritesCalls};
ghost use Rattle.fancy_regex_linear.specs.CalledClasses.{IsReached, IsBodyCause};
ghost use Rattle.fancy_regex_info.specs.Views.{body_tree, pattern_in};
ghost use Rattle.fancy_regex_linear.specs.Refusals.{IsRead, IsClassCause};
ghost use Rattle.fancy_regex_info.specs.declared.error.CompileError.TheVariants as errors;
ghost use Rattle.fancy_regex_class.specs.Matchers.{IsMatcherOf};

use crate::callee::Callee;
use crate::calls::{called_by_depth, greatest_nesting, is_set};
use crate::copy::copied;
use crate::node::{Node, Quantifier};
use fancy_regex_class::{CharClassMatcher, ClassError, fold};
use fancy_regex_info::{CompileError, Size, group_call_sizes, groups_of, size_in};
use fancy_regex_states::{Leaf, Test};
use fancy_regex_tree::{Assertion, BacktrackingControlVerb, Expr, LookAround};
use std::alloc::{AllocError, Global};

/// The state of the translation. For a tree that is not easy the result has no meaning.
#[derive(Drop)]
pub struct Translator {
    /// Where the nodes are allocated.
    pub alloc: Global,
    /// Whether classes and case folding follow Unicode.
    pub unicode: bool,
    /// The number of the next capture group.
    pub next_group: usize,
    /// The matchers of the classes, in order.
    pub matchers: Vec<CharClassMatcher>,
    /// The sizes of calls, by the numbers of their groups.
    pub sizes: Vec<Size>,
    /// What a call of each group becomes, by the group's number, where it is known.
    pub called: Vec<Option<Callee>>,
}

/// A translated expression.
#[derive(Drop)]
pub struct Translated {
    /// Its node.
    pub node: Node,
    /// Whether each match of it consumes a character.
    pub moves: bool,
}

impl Translated {
    /// An expression that may match the empty string.
    fn still(node: Node) -> Translated
        ensures { (result.node ≡ node) × (result.moves ≡ false) }
    {
        Translated { node, moves: false }
    }

    /// What matches the empty string alone.
    fn empty() -> Translated
        ensures shape { shape result.node ≡ re.nothing }
        ensures moves { result.moves ≡ never_empty (shape result.node) }
        ensures sound { IsSound (shape result.node) }
    {
        Translated {
            node: Node::Empty,
            moves: false,
        }
    }

    /// An expression that always consumes a character.
    fn moving(node: Node) -> Translated
        ensures { (result.node ≡ node) × (result.moves ≡ true) }
    {
        Translated { node, moves: true }
    }
}

/// The test of an assertion, or `None` if the linear engine does not support it.
fn test_of(assertion: Assertion) -> Option<Test>
    ensures { result ≡ test_of_assertion assertion }
{
    match assertion {
        Assertion::StartText => Some(Test::StartText),
        Assertion::EndText => Some(Test::EndText),
        Assertion::StartLine { crlf } => Some(Test::StartLine { crlf }),
        Assertion::EndLine { crlf } => Some(Test::EndLine { crlf }),
        Assertion::WordBoundary => Some(Test::WordBoundary),
        Assertion::NotWordBoundary => Some(Test::NotWordBoundary),
        Assertion::LeftWordBoundary => Some(Test::LeftWordBoundary),
        Assertion::RightWordBoundary => Some(Test::RightWordBoundary),
        Assertion::LeftWordHalfBoundary => Some(Test::LeftWordHalfBoundary),
        Assertion::RightWordHalfBoundary => Some(Test::RightWordHalfBoundary),
        Assertion::StartLineOniguruma { crlf } => Some(Test::StartLineOniguruma { crlf }),
        Assertion::EndTextIgnoreTrailingNewlines { .. } => None,
    }
}

/// Whether `\r\n` too is a newline before the end of the text, for `\Z`.
fn ends_by_crlf(assertion: Assertion) -> bool
    ensures { result ≡ has_crlf_end assertion }
{
    match assertion {
        Assertion::EndTextIgnoreTrailingNewlines { crlf } => crlf,
        Assertion::StartText
        | Assertion::EndText
        | Assertion::StartLine { .. }
        | Assertion::EndLine { .. }
        | Assertion::WordBoundary
        | Assertion::NotWordBoundary
        | Assertion::LeftWordBoundary
        | Assertion::RightWordBoundary
        | Assertion::LeftWordHalfBoundary
        | Assertion::RightWordHalfBoundary
        | Assertion::StartLineOniguruma { .. } => false,
    }
}

/// The node of an assertion. The error is want of memory.
fn assertion_node(alloc: Global, assertion: Assertion) -> Result<Node, AllocError>
    ensures shape { IfOk result (λ node. shape node ≡ served assertion (test_of_assertion assertion)) }
    ensures still { IfOk result (λ node. never_empty (shape node) ≡ false) }
    ensures sound { IfOk result (λ node. IsSound (shape node)) }
{
    match test_of(assertion) {
        Some(test) => Ok(Node::Look(test)),
        None => text_end(alloc, ends_by_crlf(assertion)),
    }
}

/// The node of `\Z`. The error is want of memory.
fn text_end(alloc: Global, crlf: bool) -> Result<Node, AllocError>
    ensures shape { IfOk result (λ node. shape node ≡ text_end_re crlf) }
    ensures still { IfOk result (λ node. never_empty (shape node) ≡ false) }
    ensures sound { IfOk result (λ node. IsSound (shape node)) }
{
    let newline = last_newline(alloc, crlf)?;
    let body = boxed(alloc, newline)?;
    let mut parts = Vec::new(alloc);
    add(
        &mut parts,
        Node::Repeat {
            body,
            quantifier: Quantifier {
                lo: 0,
                hi: usize::MAX,
                greedy: true,
                moves: true,
            },
        },
    )?;
    add(&mut parts, Node::Look(Test::EndLine { crlf: false }))?;
    add(&mut parts, Node::Look(Test::LookAheadNeg(Leaf::Char('\n'))))?;
    let row = boxed(alloc, Node::Concat(parts))?;
    Ok(Node::Ask {
        negated: false,
        back: 0,
        body: row,
    })
}

/// The node of a newline before the end of the text. The error is want of memory.
fn last_newline(alloc: Global, crlf: bool) -> Result<Node, AllocError>
    ensures { IfOk result (λ node. shape node ≡ newline_before_end crlf) }
{
    let newline = Node::Read(Leaf::Char('\n'));
    if !crlf {
        return Ok(newline);
    }
    let pair = row_of_two(
        alloc,
        Node::Read(Leaf::Char('\r')),
        Node::Read(Leaf::Char('\n')),
    )?;
    let mut branches = Vec::new(alloc);
    add(&mut branches, newline)?;
    add(&mut branches, pair)?;
    Ok(Node::Alt(branches))
}

/// The node of `\R`: `\r\n`, or else one character that breaks a line. The error is want of memory.
fn line_break(alloc: Global, unicode: bool) -> Result<Node, AllocError>
    ensures shape { IfOk result (λ node. shape node ≡ newline_re unicode) }
    ensures moves { IfOk result (λ node. never_empty (shape node) ≡ true) }
    ensures sound { IfOk result (λ node. IsSound (shape node)) }
{
    let pair = row_of_two(
        alloc,
        Node::Read(Leaf::Char('\r')),
        Node::Read(Leaf::Char('\n')),
    )?;
    let alone = row_of_two(
        alloc,
        Node::Read(Leaf::Char('\r')),
        Node::Look(Test::LookAheadNeg(Leaf::Char('\n'))),
    )?;
    let mut branches = Vec::new(alloc);
    add(&mut branches, pair)?;
    add(&mut branches, alone)?;
    add_three(&mut branches, '\n', '\u{b}', '\u{c}')?;
    add_wide(&mut branches, unicode)?;
    Ok(Node::Alt(branches))
}

/// Appends the characters beyond ASCII that break a line, where they do. The error is want of memory.
fn add_wide(branches: &mut Vec<Node>, unicode: bool) -> Result<(), AllocError>
    ensures { OnOk result (shapes branches.new.items
        ≡ shapes branches.old.items ++ read_each (if unicode then 0x85 ∷ 0x2028 ∷ 0x2029 ∷ [] else [])) }
{
    if !unicode {
        return Ok(());
    }
    add_three(branches, '\u{85}', '\u{2028}', '\u{2029}')
}

/// Appends the nodes of three characters. The error is want of memory.
fn add_three(
    branches: &mut Vec<Node>,
    first: char,
    second: char,
    third: char,
) -> Result<(), AllocError>
    ensures { OnOk result (shapes branches.new.items
        ≡ shapes branches.old.items ++ read_each (first ∷ second ∷ third ∷ [])) }
{
    add(branches, Node::Read(Leaf::Char(first)))?;
    add(branches, Node::Read(Leaf::Char(second)))?;
    add(branches, Node::Read(Leaf::Char(third)))?;
    Ok(())
}

/// The node of `\K`: group 0 over the empty string, so that its opening slot holds where the match begins. The error is want of memory.
fn start_mark(alloc: Global) -> Result<Node, AllocError>
    ensures shape { IfOk result (λ node. shape node ≡ re.group 0 re.nothing) }
    ensures still { IfOk result (λ node. never_empty (shape node) ≡ false) }
    ensures sound { IfOk result (λ node. IsSound (shape node)) }
{
    let body = boxed(alloc, Node::Empty)?;
    Ok(Node::Group { number: 0, body })
}

/// Two nodes, one after the other. The error is want of memory.
fn row_of_two(alloc: Global, first: Node, second: Node) -> Result<Node, AllocError>
    ensures { IfOk result (λ node. shape node ≡ cats (shape first ∷ shape second ∷ [])) }
{
    let mut parts = Vec::new(alloc);
    add(&mut parts, first)?;
    add(&mut parts, second)?;
    Ok(Node::Concat(parts))
}

/// The test of a look-around for a character of this leaf.
fn look_node(look: LookAround, leaf: Option<Leaf>) -> Node
    ensures still { never_empty (shape result) ≡ false }
    ensures sound { IsSound (shape result) }
    ensures shape { IfSome leaf (λ l. shape result ≡ re.test (look_test look l)) }
{
    let Some(leaf) = leaf else {
        return Node::Empty;
    };
    Node::Look(match look {
        LookAround::LookAhead => Test::LookAhead(leaf),
        LookAround::LookAheadNeg => Test::LookAheadNeg(leaf),
        LookAround::LookBehind => Test::LookBehind(leaf),
        LookAround::LookBehindNeg => Test::LookBehindNeg(leaf),
    })
}

/// Whether the look-around is negated.
fn is_negated(look: LookAround) -> bool
    ensures { result ≡ is_negated_look look }
{
    match look {
        LookAround::LookAhead | LookAround::LookBehind => false,
        LookAround::LookAheadNeg | LookAround::LookBehindNeg => true,
    }
}

/// Whether the look-around is a look-behind.
fn is_behind(look: LookAround) -> bool
    ensures { result ≡ is_look_behind look }
{
    match look {
        LookAround::LookAhead | LookAround::LookAheadNeg => false,
        LookAround::LookBehind | LookAround::LookBehindNeg => true,
    }
}

/// All of these nodes in a row where `negated`, else one of them.
fn joined_node(negated: bool, parts: Vec<Node>) -> Node
    ensures { shape result ≡ joined negated (shapes parts.items) }
{
    if negated {
        Node::Concat(parts)
    } else {
        Node::Alt(parts)
    }
}

/// Appends a value. The error is want of memory.
fn add<T: Drop>(values: &mut Vec<T>, value: T) -> Result<(), AllocError>
    ensures { OnOk result (values.new.items ≡ values.old.items ++ value ∷ []) }
{
    values.push(value)?;
    Ok(())
}

/// The node in a box. The error is want of memory.
fn boxed(alloc: Global, node: Node) -> Result<Box<Node>, AllocError>
    ensures { IfOk result (λ b. b.value ≡ node) }
{
    Ok(Box::new(alloc, node)?)
}

/// The matcher of a class. The error is `InnerError` with the text of a class that `regex` refuses, or `Memory`.
fn matcher(
    alloc: Global,
    class: &str,
    casei: bool,
    unicode: bool,
) -> Result<CharClassMatcher, CompileError>
    ensures members { IfOk result (λ m. IsMatcherOf m unicode (chars class.now) casei) }
    ensures read { IfOk result (λ _. IsRead unicode (chars class.now, casei)) }
    ensures refused { IfErr result (IsClassCause unicode ((chars class.now, casei) ∷ [])) }
{
    match CharClassMatcher::new(alloc, class, casei, unicode) {
        Ok(matcher) => Ok(matcher),
        Err(ClassError::InnerError(shown)) => Err(CompileError::InnerError(shown)),
        Err(ClassError::Memory) => Err(CompileError::Memory),
    }
}

impl Translator {
    /// The state before the first tree. With an explicit group 0 the groups count from 0, else from 1.
    pub fn new(alloc: Global, unicode: bool, explicit_capture_group_0: bool) -> Translator
        ensures unicode { result.unicode ≡ unicode }
        ensures first { result.next_group ≡ (if explicit_capture_group_0 then 0 else 1) }
        ensures matchers { result.matchers.items ≡ [] }
        ensures tables { (result.sizes.items ≡ []) × (result.called.items ≡ []) }
    {
        Translator {
            alloc,
            unicode,
            next_group: if explicit_capture_group_0 { 0 } else { 1 },
            matchers: Vec::new(alloc),
            sizes: Vec::new(alloc),
            called: Vec::new(alloc),
        }
    }

    /// Translates the bodies of the groups that are called from the tree, as deep as calls may nest, so that calls in it can be
    /// translated. `bodies` are those of the groups of the tree; with `explicit` group 0 is the first of them, else the whole tree. The
    /// groups are counted from where they were counted before. The error is that of a class.
    pub fn write_calls(
        &mut self,
        expr: &Expr,
        bodies: &[&Expr],
        explicit: bool,
    ) -> Result<(), CompileError>
        requires { map body_tree bodies.now ≡ (pattern_in explicit (tree_of expr.now)).groups }
        ensures unicode { self.new.unicode ≡ self.old.unicode }
        ensures groups { IfOk result (λ _. self.new.next_group ≡ self.old.next_group) }
        ensures sizes { IfOk result (λ _. AreCallSizes (map body_tree bodies.now) self.new.sizes.items) }
        ensures calls { IfOk result (λ _. self.old.matchers.items ≡ [] → self.old.called.items ≡ []
            → WritesCalls (map body_tree bodies.now) (tree_of expr.now) self.old.unicode self.new) }
        ensures refused { IfErr result (IsBodyCause self.old.unicode (map body_tree bodies.now)
            (IsReached (map body_tree bodies.now) (tree_of expr.now))) }
    {
        let first = self.next_group;
        let sizes = group_call_sizes(self.alloc, expr, explicit)?;
        self.sizes = sizes;
        let tables = called_by_depth(self.alloc, expr, bodies)?;
        let nesting = greatest_nesting(bodies.len());
        for depth in 0..nesting {
            let next = self.bodies_called(bodies, &tables[nesting - 1 - depth])?;
            self.called = next;
        }
        self.next_group = first;
        Ok(())
    }

    /// What calls of the marked groups become, where their own calls become what is known now. The error is that of a class.
    fn bodies_called(
        &mut self,
        bodies: &[&Expr],
        marks: &[bool],
    ) -> Result<Vec<Option<Callee>>, CompileError>
        ensures unicode { self.new.unicode ≡ self.old.unicode }
        ensures tables { (self.new.sizes ≡ self.old.sizes) × (self.new.called ≡ self.old.called) }
        ensures level { IfOk result (λ next. MakesLevel (map body_tree bodies.now) marks.now self.old self.new next.items
            (length bodies.now)) }
        ensures refused { IfErr result (IsBodyCause self.old.unicode (map body_tree bodies.now) (λ j. mark_at marks.now j ≡ true)) }
    {
        let known = are_known(self.alloc, &self.called)?;
        let mut next = Vec::new(self.alloc);
        for group in 0..bodies.len() {
            let is_called = is_set(marks, group);
            let made = self.callee_if(is_called, bodies[group], &known, group)?;
            add(&mut next, made)?;
        }
        Ok(next)
    }

    /// What a call of a group becomes that has this body and number, if it is called and each call in its body is known. The error is that
    /// of a class.
    fn callee_if(
        &mut self,
        is_called: bool,
        body: &Expr,
        known: &[bool],
        group: usize,
    ) -> Result<Option<Callee>, CompileError>
        ensures unicode { self.new.unicode ≡ self.old.unicode }
        ensures tables { (self.new.sizes ≡ self.old.sizes) × (self.new.called ≡ self.old.called) }
        ensures made { IfOk result (IsCalleeOf known.now is_called (tree_of body.now) group self.old self.new) }
        ensures called { IfErr result (λ _. is_called ≡ true) }
        ensures refused { IfErr result (IsClassCause self.old.unicode (classes (tree_of body.now))) }
    {
        if !is_called {
            return Ok(None);
        }
        if !is_regular(body, false, known) {
            return Ok(None);
        }
        let made = self.callee(body, group)?;
        Ok(Some(made))
    }

    /// What a call of a group becomes that has this body and number. The error is that of a class.
    fn callee(&mut self, body: &Expr, group: usize) -> Result<Callee, CompileError>
        ensures unicode { self.new.unicode ≡ self.old.unicode }
        ensures tables { (self.new.sizes ≡ self.old.sizes) × (self.new.called ≡ self.old.called) }
        ensures matchers { IfOk result (λ _. AddsMatchers self.old self.new (classes (tree_of body.now))) }
        ensures refused { IfErr result (IsClassCause self.old.unicode (classes (tree_of body.now))) }
        ensures shape { IfOk result (λ callee. IsWritable (tree_of body.now) → (groups : List Tree)
            → AreCallSizes groups self.old.sizes.items → shape callee.node
            ≡ re_of self.old.unicode groups (called_in self.old.called.items) (group + 1) (length self.old.matchers.items)
            (tree_of body.now)) }
    {
        self.next_group = group.checked_add(1).ok_or(CompileError::Memory)?;
        let Translated { node, moves } = self.translated(body)?;
        Ok(Callee { node, moves })
    }

    /// What a call of the group becomes: the pattern of its body, without its own pair. Nothing where it is not known. The error is want of
    /// memory.
    fn call(&self, group: usize) -> Result<Translated, AllocError>
        ensures shape { IfOk result (λ translated. shape translated.node ≡ called_in self.now.called.items group) }
        ensures moves { IfOk result (λ translated. translated.moves ≡ never_empty (shape translated.node)) }
        ensures sound { IfOk result (λ translated. IsSound (shape translated.node)) }
    {
        match self.called.get(group) {
            Some(known) => call_of(self.alloc, known),
            None => Ok(Translated::empty()),
        }
    }

    /// Translates an expression; its groups and classes are numbered after those so far. What is not easy is left out. The
    /// error is `InnerError` with the text of a class that `regex` refuses, or `Memory`.
    #[cycle(build)]
    #[tactic(auto, unfolding(crate::specs::Plain::re_of, crate::specs::Plain::classes, fancy_regex_meaning::specs::Groups::group_count))]
    pub fn translated(&mut self, expr: &Expr) -> Result<Translated, CompileError>
        ensures unicode { self.new.unicode ≡ self.old.unicode }
        ensures tables { (self.new.sizes ≡ self.old.sizes) × (self.new.called ≡ self.old.called) }
        ensures groups { IfOk result (λ _. IsWritable (tree_of expr.now)
            → self.new.next_group ≡ self.old.next_group + group_count (tree_of expr.now)) }
        ensures matchers { IfOk result (λ _. AddsMatchers self.old self.new (classes (tree_of expr.now))) }
        ensures moves { IfOk result (λ translated. translated.moves ≡ never_empty (shape translated.node)) }
        ensures sound { IfOk result (λ translated. IsSound (shape translated.node)) }
        ensures refused { IfErr result (IsClassCause self.old.unicode (classes (tree_of expr.now))) }
        ensures shape { IfOk result (λ translated. IsWritable (tree_of expr.now) → (groups : List Tree)
            → AreCallSizes groups self.old.sizes.items → shape translated.node
            ≡ re_of self.old.unicode groups (called_in self.old.called.items) self.old.next_group (length self.old.matchers.items)
            (tree_of expr.now)) }
    {
        match expr {
            Expr::Any { newline, crlf } => Ok(Translated::moving(Node::Read(Leaf::Any {
                newline: *newline,
                crlf: *crlf,
            }))),
            Expr::Literal { val, casei } => Ok(Translated::moving(Node::Read(self.literal(
                val, *casei,
            )))),
            Expr::Delegate { inner, casei } => self.class(inner, *casei),
            Expr::GeneralNewline { unicode } => {
                let node = line_break(self.alloc, *unicode)?;
                Ok(Translated::moving(node))
            }
            Expr::Assertion(assertion) => {
                let node = assertion_node(self.alloc, *assertion)?;
                Ok(Translated::still(node))
            }
            Expr::Concat(children) => self.row(children),
            Expr::Alt(children) => self.branches(children),
            Expr::Group(child) => self.group(child),
            Expr::Repeat {
                child,
                lo,
                hi,
                greedy,
            } => self.repeat(child, *lo, *hi, *greedy),
            Expr::LookAround(child, look) => self.look_around(child, *look),
            Expr::AtomicGroup(child) => self.atomic(child),
            Expr::Conditional {
                condition,
                true_branch,
                false_branch,
            } => {
                let asked = self.translated(condition)?;
                let first = self.translated(true_branch)?;
                let second = self.translated(false_branch)?;
                let made = conditional_of(self.alloc, asked, first, second)?;
                Ok(made)
            }
            Expr::DefineGroup { definitions } => {
                self.skip_groups(definitions)?;
                Ok(Translated::still(Node::Empty))
            }
            Expr::BacktrackingControlVerb(_) => Ok(Translated::still(Node::Look(Test::Never))),
            Expr::KeepOut => {
                let node = start_mark(self.alloc)?;
                Ok(Translated::still(node))
            }
            Expr::ContinueFromPreviousMatchEnd => {
                Ok(Translated::still(Node::Look(Test::Continue)))
            }
            Expr::SubroutineCall(group) => {
                let made = self.call(*group)?;
                Ok(made)
            }
            _ => Ok(Translated::still(Node::Empty)),
        }
    }

    /// Translates a look-around: to a test, if it is for one character, else to a part. The error is that of a class.
    #[cycle(build)]
    fn look_around(&mut self, child: &Expr, look: LookAround) -> Result<Translated, CompileError>
        ensures unicode { self.new.unicode ≡ self.old.unicode }
        ensures tables { (self.new.sizes ≡ self.old.sizes) × (self.new.called ≡ self.old.called) }
        ensures groups { IfOk result (λ _. IsWritable (tree_of child.now)
            → self.new.next_group ≡ self.old.next_group + group_count (tree_of child.now)) }
        ensures matchers { IfOk result (λ _. AddsMatchers self.old self.new (classes (tree_of child.now))) }
        ensures moves { IfOk result (λ translated. translated.moves ≡ false) }
        ensures still { IfOk result (λ translated. never_empty (shape translated.node) ≡ false) }
        ensures sound { IfOk result (λ translated. IsSound (shape translated.node)) }
        ensures refused { IfErr result (IsClassCause self.old.unicode (classes (tree_of child.now))) }
        ensures shape { IfOk result (λ translated. IsWritable (tree_of child.now) → (groups : List Tree)
            → AreCallSizes groups self.old.sizes.items → shape translated.node ≡ around self.old.unicode groups
            (called_in self.old.called.items) self.old.next_group (length self.old.matchers.items) look
            (re_of self.old.unicode groups (called_in self.old.called.items) self.old.next_group (length self.old.matchers.items)
            (tree_of child.now)) (tree_of child.now)) }
    {
        if is_one_char(child) {
            let leaf = self.leaf(child)?;
            return Ok(Translated::still(look_node(look, leaf)));
        }
        let negated = is_negated(look);
        if !is_behind(look) {
            return self.asking(child, negated, 0);
        }
        let size = size_in(child, &self.sizes);
        if size.always {
            return self.asking(child, negated, size.least);
        }
        match child {
            Expr::Alt(children) => self.behind_branches(children, look),
            _ => self.asking(child, negated, size.least),
        }
    }

    /// Translates a look-around to a part that is asked so many characters before. The error is that of a class.
    #[cycle(build)]
    fn asking(
        &mut self,
        child: &Expr,
        negated: bool,
        back: usize,
    ) -> Result<Translated, CompileError>
        ensures unicode { self.new.unicode ≡ self.old.unicode }
        ensures tables { (self.new.sizes ≡ self.old.sizes) × (self.new.called ≡ self.old.called) }
        ensures groups { IfOk result (λ _. IsWritable (tree_of child.now)
            → self.new.next_group ≡ self.old.next_group + group_count (tree_of child.now)) }
        ensures matchers { IfOk result (λ _. AddsMatchers self.old self.new (classes (tree_of child.now))) }
        ensures moves { IfOk result (λ translated. translated.moves ≡ false) }
        ensures still { IfOk result (λ translated. never_empty (shape translated.node) ≡ false) }
        ensures sound { IfOk result (λ translated. IsSound (shape translated.node)) }
        ensures refused { IfErr result (IsClassCause self.old.unicode (classes (tree_of child.now))) }
        ensures shape { IfOk result (λ translated. IsWritable (tree_of child.now) → (groups : List Tree)
            → AreCallSizes groups self.old.sizes.items → shape translated.node
            ≡ re.ask negated back (re_of self.old.unicode groups (called_in self.old.called.items) self.old.next_group
            (length self.old.matchers.items) (tree_of child.now))) }
    {
        let translated = self.translated(child)?;
        Ok(Translated {
            node: Node::Ask {
                negated,
                back,
                body: boxed(self.alloc, translated.node)?,
            },
            moves: false,
        })
    }

    /// Translates the branches of a look-behind, each to a look-behind of its own: one of them has to have a way or, where it is negated,
    /// none. The error is that of a class.
    #[cycle(build)]
    fn behind_branches(
        &mut self,
        children: &[Expr],
        look: LookAround,
    ) -> Result<Translated, CompileError>
        ensures unicode { self.new.unicode ≡ self.old.unicode }
        ensures tables { (self.new.sizes ≡ self.old.sizes) × (self.new.called ≡ self.old.called) }
        ensures groups { IfOk result (λ _. AreWritable (all_trees children.now)
            → self.new.next_group ≡ self.old.next_group + row_group_count (all_trees children.now)) }
        ensures matchers { IfOk result (λ _. AddsMatchers self.old self.new (row_classes (all_trees children.now))) }
        ensures moves { IfOk result (λ translated. translated.moves ≡ false) }
        ensures still { IfOk result (λ translated. never_empty (shape translated.node) ≡ false) }
        ensures sound { IfOk result (λ translated. IsSound (shape translated.node)) }
        ensures refused { IfErr result (IsClassCause self.old.unicode (row_classes (all_trees children.now))) }
        ensures shape { IfOk result (λ translated. AreWritable (all_trees children.now) → (groups : List Tree)
            → AreCallSizes groups self.old.sizes.items → shape translated.node
            ≡ joined (is_negated_look look) (each_around self.old.unicode groups
            (called_in self.old.called.items) self.old.next_group (length self.old.matchers.items) look
            (all_trees children.now))) }
    {
        let mut parts = Vec::new(self.alloc);
        for i in 0..children.len() {
            let part = self.look_around(&children[i], look)?;
            add(&mut parts, part.node)?;
        }
        Ok(Translated::still(joined_node(is_negated(look), parts)))
    }

    /// Translates an atomic group. The error is that of a class.
    #[cycle(build)]
    fn atomic(&mut self, child: &Expr) -> Result<Translated, CompileError>
        ensures unicode { self.new.unicode ≡ self.old.unicode }
        ensures tables { (self.new.sizes ≡ self.old.sizes) × (self.new.called ≡ self.old.called) }
        ensures groups { IfOk result (λ _. IsWritable (tree_of child.now)
            → self.new.next_group ≡ self.old.next_group + group_count (tree_of child.now)) }
        ensures matchers { IfOk result (λ _. AddsMatchers self.old self.new (classes (tree_of child.now))) }
        ensures moves { IfOk result (λ translated. translated.moves ≡ never_empty (shape translated.node)) }
        ensures sound { IfOk result (λ translated. IsSound (shape translated.node)) }
        ensures refused { IfErr result (IsClassCause self.old.unicode (classes (tree_of child.now))) }
        ensures shape { IfOk result (λ translated. IsWritable (tree_of child.now) → (groups : List Tree)
            → AreCallSizes groups self.old.sizes.items → shape translated.node
            ≡ re.atomic (re_of self.old.unicode groups (called_in self.old.called.items) self.old.next_group
            (length self.old.matchers.items) (tree_of child.now))) }
    {
        let translated = self.translated(child)?;
        Ok(Translated {
            node: Node::Atomic(boxed(self.alloc, translated.node)?),
            moves: translated.moves,
        })
    }

    /// The test of an expression that reads one character, if it is one; the matcher of a class is added. The error is that of a
    /// class.
    fn leaf(&mut self, expr: &Expr) -> Result<Option<Leaf>, CompileError>
        ensures unicode { self.new.unicode ≡ self.old.unicode }
        ensures tables { (self.new.sizes ≡ self.old.sizes) × (self.new.called ≡ self.old.called) }
        ensures groups { self.new.next_group ≡ self.old.next_group }
        ensures matchers { IfOk result (λ _. AddsMatchers self.old self.new (char_classes (tree_of expr.now))) }
        ensures refused { IfErr result (IsClassCause self.old.unicode (char_classes (tree_of expr.now))) }
        ensures leaf { IfOk result (λ leaf. leaf
            ≡ char_leaf self.old.unicode (length self.old.matchers.items) (tree_of expr.now)) }
    {
        match expr {
            Expr::Any { newline, crlf } => Ok(Some(Leaf::Any {
                newline: *newline,
                crlf: *crlf,
            })),
            Expr::Literal { val, casei } => Ok(Some(self.literal(val, *casei))),
            Expr::Delegate { inner, casei } => {
                let leaf = self.class_leaf(inner, *casei)?;
                Ok(Some(leaf))
            }
            _ => Ok(None),
        }
    }

    /// The character test of a literal.
    fn literal(&self, val: &str, casei: bool) -> Leaf
        ensures { result ≡ (if casei then leaf.Folded (folded self.now.unicode (slice_index (chars val.now) 0))
            else leaf.Char (slice_index (chars val.now) 0)) }
    {
        let c = match val.chars().next() {
            Some(c) => c,
            None => '\0',
        };
        if casei {
            Leaf::Folded(fold(c, self.unicode))
        } else {
            Leaf::Char(c)
        }
    }

    /// Translates a character class, and adds its matcher.
    fn class(&mut self, class: &str, casei: bool) -> Result<Translated, CompileError>
        ensures unicode { self.new.unicode ≡ self.old.unicode }
        ensures tables { (self.new.sizes ≡ self.old.sizes) × (self.new.called ≡ self.old.called) }
        ensures groups { self.new.next_group ≡ self.old.next_group }
        ensures matchers { IfOk result (λ _. AddsMatchers self.old self.new ((chars class.now, casei) ∷ [])) }
        ensures moves { IfOk result (λ translated. translated.moves ≡ true) }
        ensures refused { IfErr result (IsClassCause self.old.unicode ((chars class.now, casei) ∷ [])) }
        ensures node { IfOk result (λ translated. shape translated.node ≡ re.read (leaf.Class (length self.old.matchers.items))) }
    {
        let leaf = self.class_leaf(class, casei)?;
        Ok(Translated::moving(Node::Read(leaf)))
    }

    /// The character test of a class, whose matcher is added.
    fn class_leaf(&mut self, class: &str, casei: bool) -> Result<Leaf, CompileError>
        ensures unicode { self.new.unicode ≡ self.old.unicode }
        ensures tables { (self.new.sizes ≡ self.old.sizes) × (self.new.called ≡ self.old.called) }
        ensures groups { self.new.next_group ≡ self.old.next_group }
        ensures matchers { IfOk result (λ _. AddsMatchers self.old self.new ((chars class.now, casei) ∷ [])) }
        ensures refused { IfErr result (IsClassCause self.old.unicode ((chars class.now, casei) ∷ [])) }
        ensures leaf { IfOk result (λ found. found ≡ leaf.Class (length self.old.matchers.items)) }
    {
        let number = self.matchers.len();
        let matcher = matcher(self.alloc, class, casei, self.unicode)?;
        add(&mut self.matchers, matcher)?;
        Ok(Leaf::Class(number))
    }

    /// Translates a concatenation: it always consumes a character if one of its children does.
    #[cycle(build)]
    fn row(&mut self, children: &[Expr]) -> Result<Translated, CompileError>
        ensures unicode { self.new.unicode ≡ self.old.unicode }
        ensures tables { (self.new.sizes ≡ self.old.sizes) × (self.new.called ≡ self.old.called) }
        ensures groups { IfOk result (λ _. AreWritable (all_trees children.now)
            → self.new.next_group ≡ self.old.next_group + row_group_count (all_trees children.now)) }
        ensures matchers { IfOk result (λ _. AddsMatchers self.old self.new (row_classes (all_trees children.now))) }
        ensures moves { IfOk result (λ translated. translated.moves ≡ never_empty (shape translated.node)) }
        ensures sound { IfOk result (λ translated. IsSound (shape translated.node)) }
        ensures refused { IfErr result (IsClassCause self.old.unicode (row_classes (all_trees children.now))) }
        ensures shape { IfOk result (λ translated. AreWritable (all_trees children.now) → (groups : List Tree)
            → AreCallSizes groups self.old.sizes.items → shape translated.node
            ≡ row_of self.old.unicode groups (called_in self.old.called.items) self.old.next_group
            (length self.old.matchers.items) (all_trees children.now)) }
    {
        let mut parts = Vec::new(self.alloc);
        let mut moves = false;
        for i in 0..children.len() {
            let translated = self.translated(&children[i])?;
            moves = moves || translated.moves;
            add(&mut parts, translated.node)?;
        }
        Ok(Translated {
            node: Node::Concat(parts),
            moves,
        })
    }

    /// Translates an alternation: it always consumes a character if each of its branches does.
    #[cycle(build)]
    fn branches(&mut self, children: &[Expr]) -> Result<Translated, CompileError>
        ensures unicode { self.new.unicode ≡ self.old.unicode }
        ensures tables { (self.new.sizes ≡ self.old.sizes) × (self.new.called ≡ self.old.called) }
        ensures groups { IfOk result (λ _. AreWritable (all_trees children.now)
            → self.new.next_group ≡ self.old.next_group + row_group_count (all_trees children.now)) }
        ensures matchers { IfOk result (λ _. AddsMatchers self.old self.new (row_classes (all_trees children.now))) }
        ensures moves { IfOk result (λ translated. translated.moves ≡ never_empty (shape translated.node)) }
        ensures sound { IfOk result (λ translated. IsSound (shape translated.node)) }
        ensures refused { IfErr result (IsClassCause self.old.unicode (row_classes (all_trees children.now))) }
        ensures shape { IfOk result (λ translated. AreWritable (all_trees children.now) → (groups : List Tree)
            → AreCallSizes groups self.old.sizes.items → shape translated.node
            ≡ branches_of self.old.unicode groups (called_in self.old.called.items) self.old.next_group
            (length self.old.matchers.items) (all_trees children.now)) }
    {
        let mut parts = Vec::new(self.alloc);
        let mut moves = true;
        for i in 0..children.len() {
            let translated = self.translated(&children[i])?;
            moves = moves && translated.moves;
            add(&mut parts, translated.node)?;
        }
        let some = !parts.is_empty();
        Ok(Translated {
            node: Node::Alt(parts),
            moves: moves && some,
        })
    }

    /// Translates a capture group, which has the next number.
    #[cycle(build)]
    fn group(&mut self, child: &Expr) -> Result<Translated, CompileError>
        ensures unicode { self.new.unicode ≡ self.old.unicode }
        ensures tables { (self.new.sizes ≡ self.old.sizes) × (self.new.called ≡ self.old.called) }
        ensures groups { IfOk result (λ _. IsWritable (tree_of child.now)
            → self.new.next_group ≡ self.old.next_group + (group_count (tree_of child.now) + 1)) }
        ensures matchers { IfOk result (λ _. AddsMatchers self.old self.new (classes (tree_of child.now))) }
        ensures moves { IfOk result (λ translated. translated.moves ≡ never_empty (shape translated.node)) }
        ensures sound { IfOk result (λ translated. IsSound (shape translated.node)) }
        ensures refused { IfErr result (IsClassCause self.old.unicode (classes (tree_of child.now))) }
        ensures shape { IfOk result (λ translated. IsWritable (tree_of child.now) → (groups : List Tree)
            → AreCallSizes groups self.old.sizes.items → shape translated.node
            ≡ re.group self.old.next_group
            (re_of self.old.unicode groups (called_in self.old.called.items) (self.old.next_group + 1)
            (length self.old.matchers.items) (tree_of child.now))) }
    {
        let number = self.next_group;
        self.next_group = number.checked_add(1).ok_or(CompileError::Memory)?;
        let translated = self.translated(child)?;
        Ok(Translated {
            node: Node::Group {
                number,
                body: boxed(self.alloc, translated.node)?,
            },
            moves: translated.moves,
        })
    }

    /// Translates a quantifier. A body that is repeated zero times is left out, but its groups are counted.
    #[cycle(build)]
    fn repeat(
        &mut self,
        child: &Expr,
        lo: usize,
        hi: usize,
        greedy: bool,
    ) -> Result<Translated, CompileError>
        ensures unicode { self.new.unicode ≡ self.old.unicode }
        ensures tables { (self.new.sizes ≡ self.old.sizes) × (self.new.called ≡ self.old.called) }
        ensures groups { IfOk result (λ _. IsWritable (repeat (tree_of child.now) lo hi greedy)
            → self.new.next_group ≡ self.old.next_group + group_count (tree_of child.now)) }
        ensures matchers { IfOk result (λ _. AddsMatchers self.old self.new
            (if has_no_iteration lo hi then [] else classes (tree_of child.now))) }
        ensures sound { IfOk result (λ translated. IsSound (shape translated.node)) }
        ensures moves { IfOk result (λ translated. translated.moves ≡ never_empty (shape translated.node)) }
        ensures refused { IfErr result (IsClassCause self.old.unicode
            (if has_no_iteration lo hi then [] else classes (tree_of child.now))) }
        ensures shape { IfOk result (λ translated. IsWritable (repeat (tree_of child.now) lo hi greedy) → (groups : List Tree)
            → AreCallSizes groups self.old.sizes.items → shape translated.node
            ≡ unless (has_no_iteration lo hi) (re.repeat lo hi greedy (never_empty
            (re_of self.old.unicode groups (called_in self.old.called.items) self.old.next_group (length self.old.matchers.items)
            (tree_of child.now)))
            (re_of self.old.unicode groups (called_in self.old.called.items) self.old.next_group (length self.old.matchers.items)
            (tree_of child.now)))) }
    {
        if is_never_repeated(lo, hi) {
            self.skip_groups(child)?;
            return Ok(Translated::still(Node::Empty));
        }
        let translated = self.translated(child)?;
        Ok(Translated {
            node: Node::Repeat {
                body: boxed(self.alloc, translated.node)?,
                quantifier: Quantifier {
                    lo,
                    hi,
                    greedy,
                    moves: translated.moves,
                },
            },
            moves: lo > 0 && translated.moves,
        })
    }

    /// Counts the groups of an expression that is left out.
    fn skip_groups(&mut self, child: &Expr) -> Result<(), CompileError>
        ensures unicode { self.new.unicode ≡ self.old.unicode }
        ensures tables { (self.new.sizes ≡ self.old.sizes) × (self.new.called ≡ self.old.called) }
        ensures matchers { self.new.matchers ≡ self.old.matchers }
        ensures groups { IfOk result (λ _. self.new.next_group ≡ self.old.next_group + group_count (tree_of child.now)) }
        ensures refused { IfErr result (λ error. error ≡ errors.Memory) }
    {
        let skipped = groups_in(self.alloc, child)?;
        self.next_group = self
            .next_group
            .checked_add(skipped)
            .ok_or(CompileError::Memory)?;
        Ok(())
    }
}

/// What a call becomes: a copy of what is known, or nothing. The error is want of memory.
fn call_of(alloc: Global, known: &Option<Callee>) -> Result<Translated, AllocError>
    ensures shape { IfOk result (λ translated. shape translated.node ≡ callee_shape known.now) }
    ensures moves { IfOk result (λ translated. translated.moves ≡ never_empty (shape translated.node)) }
    ensures sound { IfOk result (λ translated. IsSound (shape translated.node)) }
{
    match known {
        Some(made) => {
            let node = copied(alloc, &made.node)?;
            Ok(Translated {
                node,
                moves: made.moves,
            })
        }
        None => Ok(Translated::empty()),
    }
}

/// For each group whether it is known what a call of it becomes. The error is want of memory.
fn are_known(alloc: Global, called: &[Option<Callee>]) -> Result<Vec<bool>, AllocError>
    ensures { IfOk result (λ known. (j : ℕ) → mark_at known.items j ≡ is_made called.now j) }
{
    let mut known = Vec::new(alloc);
    for i in 0..called.len() {
        let made = called[i].is_some();
        known.push(made)?;
    }
    Ok(known)
}

/// Whether a conditional always consumes a character, where its condition and its branches do or do not.
fn conditional_moves(condition: bool, first: bool, second: bool) -> bool
    ensures { result ≡ ((condition || first) && second) }
{
    (condition || first) && second
}

/// A conditional of these. The error is want of memory.
fn conditional_of(
    alloc: Global,
    condition: Translated,
    first: Translated,
    second: Translated,
) -> Result<Translated, AllocError>
    ensures shape { IfOk result (λ made. shape made.node
        ≡ re.conditional (shape condition.node) (shape first.node) (shape second.node)) }
    ensures moves { IfOk result (λ made. made.moves ≡ ((condition.moves || first.moves) && second.moves)) }
{
    let moves = conditional_moves(condition.moves, first.moves, second.moves);
    let one = boxed(alloc, condition.node)?;
    let two = boxed(alloc, first.node)?;
    let three = boxed(alloc, second.node)?;
    Ok(Translated {
        node: Node::Conditional {
            condition: one,
            true_branch: two,
            false_branch: three,
        },
        moves,
    })
}

/// Whether a quantifier with these counts repeats its body zero times.
pub fn is_never_repeated(lo: usize, hi: usize) -> bool
    ensures { result ≡ has_no_iteration lo hi }
{
    lo == 0 && hi == 0
}

/// Whether the linear engine supports the tree.
#[cycle(supports)]
pub fn is_supported(expr: &Expr) -> bool
    ensures { result ≡ true → IsPlain (tree_of expr.now) }
{
    match expr {
        Expr::Empty | Expr::Any { .. } | Expr::Literal { .. } | Expr::Delegate { .. } => true,
        Expr::Assertion(assertion) => test_of(*assertion).is_some(),
        Expr::Concat(children) => are_supported(children),
        Expr::Alt(children) => !children.is_empty() && are_supported(children),
        Expr::Group(child) => is_supported(child),
        Expr::Repeat { child, .. } => is_supported(child),
        Expr::LookAround(child, _) => is_one_char(child),
        _ => false,
    }
}

/// Whether the linear engine supports all these trees.
#[cycle(supports)]
fn are_supported(children: &[Expr]) -> bool
    ensures { result ≡ true → ArePlain (all_trees children.now) }
{
    for i in 0..children.len() {
        if !is_supported(&children[i]) {
            return false;
        }
    }
    true
}

/// Whether the tree becomes a pattern with parts, where the calls of the marked groups do, and where `\K` may reset the start or not.
#[cycle(regular)]
pub fn is_regular(expr: &Expr, resets: bool, calls: &[bool]) -> bool
    ensures regular { result ≡ true → IsRegular resets (λ j. mark_at calls.now j ≡ true) (tree_of expr.now) }
    ensures other { result ≡ false → IsRegular resets (λ j. mark_at calls.now j ≡ true) (tree_of expr.now) → ⊥ }
{
    match expr {
        Expr::Empty | Expr::Any { .. } | Expr::Literal { .. } | Expr::Delegate { .. } => true,
        Expr::Assertion(_) | Expr::GeneralNewline { .. } | Expr::ContinueFromPreviousMatchEnd =>
            true,
        Expr::Concat(children) => are_regular(children, resets, calls),
        Expr::Alt(children) => !children.is_empty() && are_regular(children, resets, calls),
        Expr::BacktrackingControlVerb(BacktrackingControlVerb::Fail) => true,
        Expr::KeepOut => resets,
        Expr::Group(child) | Expr::AtomicGroup(child) => is_regular(child, resets, calls),
        Expr::Conditional {
            condition,
            true_branch,
            false_branch,
        } => {
            let first = is_regular(condition, resets, calls);
            let yes = is_regular(true_branch, resets, calls);
            let no = is_regular(false_branch, resets, calls);
            are_all(first, yes, no)
        }
        Expr::DefineGroup { .. } => true,
        Expr::Repeat { child, lo, hi, .. } => is_never_repeated(*lo, *hi)
            || is_regular(child, resets, calls),
        Expr::LookAround(child, _) => is_regular(child, false, calls),
        Expr::SubroutineCall(group) => is_set(calls, *group),
        _ => false,
    }
}

/// Whether all three are so.
fn are_all(first: bool, second: bool, third: bool) -> bool
    ensures { result ≡ (first && second && third) }
{
    first && second && third
}

/// Whether all these trees become patterns with parts.
#[cycle(regular)]
fn are_regular(children: &[Expr], resets: bool, calls: &[bool]) -> bool
    ensures regular { result ≡ true → AreRegular resets (λ j. mark_at calls.now j ≡ true) (all_trees children.now) }
    ensures other { result ≡ false → AreRegular resets (λ j. mark_at calls.now j ≡ true) (all_trees children.now) → ⊥ }
{
    for i in 0..children.len() {
        if !is_regular(&children[i], resets, calls) {
            return false;
        }
    }
    true
}

/// Whether the tree reads one character.
fn is_one_char(expr: &Expr) -> bool
    ensures one { result ≡ true → IsOneChar (tree_of expr.now) }
    ensures more { result ≡ false → IsOneChar (tree_of expr.now) → ⊥ }
    ensures none { result ≡ false → (unicode : Bool) (k : ℕ) → char_leaf unicode k (tree_of expr.now) ≡ None }
{
    match expr {
        Expr::Any { .. } | Expr::Literal { .. } | Expr::Delegate { .. } => true,
        _ => false,
    }
}

/// The number of capture groups in a tree. The error is want of memory.
fn groups_in(alloc: Global, expr: &Expr) -> Result<usize, AllocError>
    ensures { IfOk result (λ n. n ≡ group_count (tree_of expr.now)) }
{
    let groups = groups_of(alloc, expr, true)?;
    Ok(groups.len())
}
