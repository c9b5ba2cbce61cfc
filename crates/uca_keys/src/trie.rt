ghost use Rattle.std.specs.Prelude.{◌≡◌, ℕ, ◌+◌, ◌-◌, ◌<◌, ◌≤◌, ◌^◌, ◌++◌, ◌∷◌, [], length, take, drop, get_or, option_copied, IfOk, IfSome, IfNone, IsTrue, OnOk, true, false};
ghost use Rattle.std.specs.FinMap.{find};
ghost use Rattle.uca_model.specs.Table.{key_cmp};
ghost use Rattle.uca_keys.specs.Fronts.{begins_entry};
ghost use Rattle.uca_keys.specs.Links.{AreEnds, AreKids, AreLinked, LeadsTo, depth_below, kids_from, kids_of, span_len};
ghost use Rattle.uca_keys.specs.Nodes.{first_depth, AreFull, AreNext};
ghost use Rattle.uca_keys.specs.Paths.{entries_of, path_at, TrieState};

use crate::cursor::Cursor;
use crate::entries::Entries;
use crate::node::Node;
use crate::nodes::numbered;
use std::alloc::{AllocError, Global};
use std::marker::Model;
use uca_weights::Element;

/// The number of a node. The root, which no code point leads to, has the number 0.
#[derive(Clone, Copy)]
pub struct NodeNumber {
    pub(crate) number: u32,
}

/// A node, and the code point that leads to it.
#[derive(Clone, Copy)]
pub(crate) struct Child {
    pub(crate) point: char,
    pub(crate) node: NodeNumber,
}

/// Keys with their elements, ready for look-ups. The children of a node are adjacent, in the order of their code points.
#[derive(Drop)]
pub struct Trie {
    pub(crate) nodes: Vec<Node>,
    pub(crate) elements: Vec<Element>,
    // Those of the last node come first, and those of the root last.
    pub(crate) children: Vec<Child>,
    // Where the children of each node begin, in the same order, and where those of the root end.
    pub(crate) starts: Vec<u32>,
    // Among the children of the root, of which there are many, where those begin whose code points are in each block of `BLOCK`, or
    // after it. Only the time of a search depends on it.
    pub(crate) blocks: Vec<u32>,
}

/// How many code points a block has.
const BLOCK: usize = 128;

impl Model for Trie {
    ghost Value = { TrieState };

    ghost view = { λ t. record { nodes = t.nodes.items; elements = t.elements.items } };

    ghost invariant = { λ t. AreNext t.elements.items [] t.nodes.items × AreFull t.nodes.items × AreLinked t.nodes.items t.children.items t.starts.items };
}

/// Appends the nodes from a place on that this many code points lead to, up to the first with fewer. Returns the place of that
/// one. `ends` says, from the last node back to the first of these, where the nodes end that begin as it does.
fn push_children(
    children: &mut Vec<Child>,
    nodes: &[Node],
    ends: &[u32],
    first: usize,
    depth: usize,
) -> Result<usize, AllocError>
    requires few { length nodes.now < 2 ^ 32 }
    requires top { first_depth (drop first nodes.now) ≤ depth }
    requires ends { AreEnds nodes.now ends.now }
    requires all { length ends.now + first ≡ length nodes.now }
    ensures children { OnOk result (children.new.items ≡ children.old.items ++ kids_from depth (first + 1) (drop first nodes.now)) }
    ensures end { IfOk result (λ at. at ≡ first + span_len depth (drop first nodes.now)) }
{
    let mut at = first;
    while at < nodes.len() {
        let node = nodes[at];
        if (node.depth as usize) < depth {
            return Ok(at);
        }
        children.push(Child {
            point: node.point,
            node: NodeNumber {
                number: at as u32 + 1,
            },
        })?;
        at = ends[nodes.len() - 1 - at] as usize;
    }
    Ok(at)
}

/// How many code points come before those of the children of a number.
#[tactic(auto, using(crate::proofs::LinkLemmas::depth_after))]
fn depth_below(nodes: &[Node], number: usize) -> usize
    requires { number ≤ length nodes.now }
    ensures { result ≡ depth_below 0 nodes.now number }
{
    if number == 0 {
        0
    } else {
        nodes[number - 1].depth as usize + 1
    }
}

/// The children of all nodes, and where those of each begin.
pub(crate) fn links(alloc: Global, nodes: &[Node]) -> Result<(Vec<Child>, Vec<u32>), AllocError>
    requires { (number : ℕ) → first_depth (drop number nodes.now) ≤ depth_below 0 nodes.now number }
    ensures { IfOk result (λ made. AreLinked nodes.now made.0.items made.1.items) }
{
    let _few = numbered(nodes.len())?;
    let mut children = Vec::with_capacity(alloc, nodes.len())?;
    let mut starts = Vec::with_capacity(alloc, nodes.len() + 2)?;
    let mut ends: Vec<u32> = Vec::with_capacity(alloc, nodes.len())?;
    // The last node has no children.
    starts.push(0)?;
    starts.push(0)?;
    let mut end = nodes.len();
    let mut number = nodes.len();
    while number > 0 {
        ends.push(end as u32)?;
        number -= 1;
        let depth = depth_below(nodes, number);
        end = push_children(&mut children, nodes, &ends, number, depth)?;
        starts.push(numbered(children.len())?)?;
    }
    Ok((children, starts))
}

/// The children of a number among those of all.
fn listed<'t>(nodes: &[Node], children: &'t [Child], starts: &[u32], number: usize) -> &'t [Child]
    requires linked { AreLinked nodes.now children.now starts.now }
    requires within { number ≤ length nodes.now }
    ensures { result.now ≡ kids_of nodes.now number }
{
    let at = nodes.len() - number;
    &children[starts[at] as usize..starts[at + 1] as usize]
}

/// The place from `near` on of the first child whose code point is not below another, or some place past the last child.
fn first_from(children: &[Child], point: char, near: usize) -> usize {
    for at in near..children.len() {
        if children[at].point >= point {
            return at;
        }
    }
    near.max(children.len())
}

/// For each block of code points up to that of the last child, where the children begin that are in it or after it.
fn block_starts(alloc: Global, children: &[Child]) -> Result<Vec<u32>, AllocError> {
    let mut starts = Vec::new(alloc);
    for at in 0..children.len() {
        let block = children[at].point as usize / BLOCK;
        if starts.len() <= block {
            starts.resize(block + 1, numbered(at)?)?;
        }
    }
    Ok(starts)
}

/// Where a code point is among children, if one has it and their code points have no gap before it.
#[inline(always)]
fn place_if_dense(children: &[Child], point: char) -> usize {
    match children.first() {
        Some(first) => (point as usize).wrapping_sub(first.point as usize),
        None => usize::MAX,
    }
}

/// Where a code point is among children, if one has it.
fn place_of(children: &[Child], point: char) -> usize {
    let at = place_if_dense(children, point);
    if at < children.len() && children[at].point == point {
        return at;
    }
    children
        .binary_search_by_key(&point, |child| child.point)
        .unwrap_or_else(|at| at)
}

/// The node that no code point leads to.
pub const ROOT: NodeNumber = NodeNumber { number: 0 };

impl Trie {
    /// How many nodes there are.
    pub fn len(&self) -> usize
        ensures { result ≡ length self.now.nodes }
    {
        self.nodes.len()
    }

    /// The entries by key order: by code points, a proper prefix first.
    #[tactic(auto, using(crate::proofs::FindLemmas::fewer_entries))]
    pub fn entries(&self) -> Entries<'_>
        ensures value { result ≡ entries_of self.now }
        ensures few { length (entries_of self.now) < 2 ^ 64 }
    {
        let _count = self.nodes.len();
        Entries::new(self.nodes.as_slice(), self.elements.as_slice())
    }

    /// A walk along the entries, before the first one.
    pub fn cursor(&self) -> Cursor<'_>
        ensures { result.coming ≡ entries_of self.now }
    {
        Cursor::new(self.nodes.as_slice(), self.elements.as_slice())
    }

    /// The children of a node.
    fn children_of(&self, node: NodeNumber) -> &[Child]
        requires { node.number ≤ length self.now.nodes }
        ensures { AreKids self.now node.number result.now }
    {
        let number = node.number as usize;
        listed(&self.nodes, &self.children, &self.starts, number)
    }

    /// Makes what searches among the children of the root begin with.
    pub(crate) fn prepare(&mut self, alloc: Global) -> Result<(), AllocError>
        ensures { OnOk result (self.new ≡ self.old) }
    {
        self.blocks = block_starts(alloc, self.children_of(ROOT))?;
        Ok(())
    }

    // Where a code point is among the children of the root, if one of them has it.
    fn place_below_root(&self, point: char) -> Option<usize> {
        let block = point as usize / BLOCK;
        let start = *self.blocks.get(block)? as usize;
        let children = self.children_of(ROOT);
        let end = match self.blocks.get(block + 1) {
            Some(end) => *end as usize,
            None => children.len(),
        };
        let of_block = children.get(start..end)?;
        Some(start.saturating_add(place_of(of_block, point)))
    }

    // The same as [`Trie::child`], which looks at one place before it searches among all children.
    #[tactic(auto, using(crate::proofs::FindLemmas::leads_at))]
    #[inline(always)]
    fn child_at(&self, node: NodeNumber, point: char, at: usize) -> Option<NodeNumber>
        requires { node.number ≤ length self.now.nodes }
        ensures { LeadsTo self.now node.number point result }
    {
        let children = self.children_of(node);
        if at < children.len() && children[at].point == point {
            return Some(children[at].node);
        }
        self.search(node, point)
    }

    /// The node that a code point leads to from another node. `None`: no key goes on with it.
    pub fn child(&self, node: NodeNumber, point: char) -> Option<NodeNumber>
        requires { node.number ≤ length self.now.nodes }
        ensures within { IfSome result (λ child. child.number ≤ length self.now.nodes) }
        ensures path { IfSome result (λ child. path_at self.now child.number ≡ path_at self.now node.number ++ point ∷ []) }
        ensures some { IfSome result (λ child. begins_entry (entries_of self.now) (path_at self.now node.number ++ point ∷ []) ≡ true) }
        ensures none { IfNone result (begins_entry (entries_of self.now) (path_at self.now node.number ++ point ∷ []) ≡ false) }
    {
        let at = if node.number == 0 {
            self.place_below_root(point).unwrap_or(usize::MAX)
        } else {
            place_if_dense(self.children_of(node), point)
        };
        self.child_at(node, point, at)
    }

    // The same as [`Trie::child`], by a search among all children.
    fn search(&self, node: NodeNumber, point: char) -> Option<NodeNumber>
        requires { node.number ≤ length self.now.nodes }
        ensures { LeadsTo self.now node.number point result }
    {
        let children = self.children_of(node);
        match children.binary_search_by_key(&point, |child| child.point) {
            Ok(at) => Some(children[at].node),
            Err(_) => None,
        }
    }

    /// Whether no code point leads on from a node.
    pub fn is_leaf(&self, node: NodeNumber) -> bool
        requires { node.number ≤ length self.now.nodes }
        ensures { IsTrue result → (point : ℕ) → begins_entry (entries_of self.now) (path_at self.now node.number ++ point ∷ []) ≡ false }
    {
        self.children_of(node).is_empty()
    }

    /// The same as [`Trie::child`]. Where it is called for one node and code points that ascend, with the same `near`, it goes
    /// along the children of the node and needs no search.
    pub fn child_near(&self, node: NodeNumber, point: char, near: &mut usize) -> Option<NodeNumber>
        requires { node.number ≤ length self.now.nodes }
        ensures within { IfSome result (λ child. child.number ≤ length self.now.nodes) }
        ensures path { IfSome result (λ child. path_at self.now child.number ≡ path_at self.now node.number ++ point ∷ []) }
        ensures some { IfSome result (λ child. begins_entry (entries_of self.now) (path_at self.now node.number ++ point ∷ []) ≡ true) }
        ensures none { IfNone result (begins_entry (entries_of self.now) (path_at self.now node.number ++ point ∷ []) ≡ false) }
    {
        *near = first_from(self.children_of(node), point, *near);
        self.child_at(node, point, *near)
    }

    /// The elements of the key that leads to a node. `None`: it is no key.
    #[tactic(auto, using(crate::proofs::FindLemmas::find_root, crate::proofs::FindLemmas::node_is))]
    pub fn elements(&self, node: NodeNumber) -> Option<&[Element]>
        requires { node.number ≤ length self.now.nodes }
        ensures { option_copied result ≡ find key_cmp (path_at self.now node.number) (entries_of self.now) }
    {
        let nodes = self.nodes.as_slice();
        if node.number == 0 {
            return None;
        }
        let node = nodes[node.number as usize - 1];
        if node.count == 0 {
            return None;
        }
        let start = node.start as usize;
        Some(&self.elements[start..start + node.count as usize])
    }

    /// The elements of a key. `None`: it is no key.
    #[tactic(auto, using(std::proofs::lemmas::List::take_more, crate::proofs::FindLemmas::find_without, crate::proofs::ChildLemmas::taken_front))]
    pub fn get(&self, key: &[char]) -> Option<&[Element]>
        ensures { option_copied result ≡ find key_cmp key.now (entries_of self.now) }
    {
        let mut node = ROOT;
        for c in key {
            node = self.child(node, *c)?;
        }
        self.elements(node)
    }

    /// The elements of a key of one code point. `None`: it is no key. `near` is as for [`Trie::child_near`].
    #[tactic(auto, using(crate::proofs::FindLemmas::find_without, crate::proofs::ChildLemmas::taken_front))]
    pub fn get_near(&self, point: char, near: &mut usize) -> Option<&[Element]>
        ensures { option_copied result ≡ find key_cmp (point ∷ []) (entries_of self.now) }
    {
        let node = self.child_near(ROOT, point, near)?;
        self.elements(node)
    }
}
