ghost use Rattle.std.specs.Prelude.{◌≡◌, ℕ, ◌+◌, ◌-◌, ◌<◌, ◌≤◌, ◌++◌, ◌∷◌, [], length, take, drop, get_or, vec_len, vec_capacity, IfOk, IfSome, OnOk, OnErr, List};
ghost use Rattle.arrayvec.specs.ArrayVec.{array_vec_len};
ghost use Rattle.uca_weights.specs.declared.limits.TheConstants.{MAX_KEY, MAX_ELEMENTS};
ghost use Rattle.uca_keys.specs.Nodes.{nodes_of, AreFull, AreNext, entries_after, last_path};
ghost use Rattle.uca_weights.specs.declared.element.Element.{Element};
ghost use Rattle.uca_keys.specs.Coded.{coded_entries};
ghost use Rattle.uca_keys.specs.Fronts.{last_key};
ghost use Rattle.std.specs.declared.cmp.Ordering.TheVariants.{Less};
ghost use Rattle.uca_model.specs.Table.{key_cmp};
ghost use Rattle.uca_keys.specs.Paths.{entries_of};

use crate::entries::Entries;
use crate::node::Node;
use crate::trie::{Trie, links};
use arrayvec::ArrayVec;
use std::alloc::{AllocError, Global};
use std::marker::Model;
use uca_weights::{Element, MAX_KEY};

/// Keys in their order, with their elements. A key that comes after all others is appended.
#[derive(Drop)]
pub struct Nodes {
    pub(crate) nodes: Vec<Node>,
    pub(crate) elements: Vec<Element>,
    last: ArrayVec<char, MAX_KEY>,
}

impl Model for Nodes {
    ghost Value = { List (List ℕ × List Element) };

    ghost coded = { coded_entries };

    ghost view = { λ n. entries_after n.elements.items [] n.nodes.items };

    ghost invariant = { λ n. AreNext n.elements.items [] n.nodes.items × AreFull n.nodes.items × (n.last.items ≡ last_path [] n.nodes.items)
        × (n.last.items ≡ last_key (entries_after n.elements.items [] n.nodes.items)) };
}

/// The length of the longest common prefix of two keys.
fn common_len(a: &[char], b: &[char]) -> usize
    ensures in_a { result ≤ length a.now }
    ensures in_b { result ≤ length b.now }
    ensures same { take result a.now ≡ take result b.now }
    ensures differ { (d : ℕ) → result < length a.now → result < length b.now → get_or a.now result d ≡ get_or b.now result d → ⊥ }
{
    let mut at = 0;
    while at < a.len() && at < b.len() && a[at] == b[at] {
        at += 1;
    }
    at
}

/// The number in 32 bits. A larger one counts as refused memory: nodes in such numbers would take 48 gigabytes.
pub(crate) fn numbered(n: usize) -> Result<u32, AllocError>
    ensures { IfOk result (λ m. m ≡ n) }
{
    u32::try_from(n).map_err(|_| AllocError)
}

/// Appends the nodes of a key from a place on, for which there is capacity. Its elements are those of the last one.
fn push_nodes(nodes: &mut Vec<Node>, key: &[char], from: usize, start: u32, count: u8)
    requires few { length key.now ≤ MAX_KEY }
    requires from { from ≤ length key.now }
    requires room { vec_len nodes.old + (length key.now - from) ≤ vec_capacity nodes.old }
    ensures { nodes.new.items ≡ nodes.old.items ++ nodes_of (drop from key.now) from start count }
{
    for depth in from..key.len() {
        let _fits = nodes.push(Node {
            point: key[depth],
            start,
            count: if depth + 1 == key.len() { count } else { 0 },
            depth: depth as u8,
        });
    }
}

/// Appends elements for which there is capacity. Most keys have one, which needs no copy of a slice.
fn push_reserved(all: &mut Vec<Element>, elements: &[Element])
    requires { vec_len all.old + length elements.now ≤ vec_capacity all.old }
    ensures { all.new.items ≡ all.old.items ++ elements.now }
{
    if let [element] = elements {
        let _fits = all.push(*element);
        return;
    }
    let _fits = all.extend_from_slice(elements);
}

/// Appends code points for which there is capacity.
fn append(key: &mut ArrayVec<char, MAX_KEY>, rest: &[char])
    requires { array_vec_len key.old + length rest.now ≤ MAX_KEY }
    ensures { key.new.items ≡ key.old.items ++ rest.now }
{
    let _fits = key.try_extend_from_slice(rest);
}

impl Nodes {
    /// No keys.
    pub fn new(alloc: Global) -> Nodes
        ensures { result ≡ [] }
    {
        Nodes {
            nodes: Vec::new(alloc),
            elements: Vec::new(alloc),
            last: ArrayVec::new(),
        }
    }

    /// No keys, with capacity for this many nodes and elements.
    pub fn with_capacity(alloc: Global, nodes: usize, elements: usize) -> Result<Nodes, AllocError>
        ensures { IfOk result (λ n. n ≡ []) }
    {
        Ok(Nodes {
            nodes: Vec::with_capacity(alloc, nodes)?,
            elements: Vec::with_capacity(alloc, elements)?,
            last: ArrayVec::new(),
        })
    }

    /// The last key. It is empty where there is no key.
    pub fn last(&self) -> &[char]
        ensures { result.now ≡ last_key self.now }
    {
        self.last.as_slice()
    }

    /// Appends a key and its elements. Where memory is refused, the keys stay as they are.
    pub fn push(&mut self, key: &[char], elements: &[Element]) -> Result<(), AllocError>
        requires few { length key.now ≤ MAX_KEY }
        requires after { key_cmp (last_key self.old) key.now ≡ Less }
        requires some_elements { 0 < length elements.now }
        requires few_elements { length elements.now ≤ MAX_ELEMENTS }
        ensures ok { OnOk result (self.new ≡ self.old ++ (key.now, elements.now) ∷ []) }
        ensures err { OnErr result (self.new ≡ self.old) }
    {
        let from = common_len(self.last.as_slice(), key);
        let start = numbered(self.elements.len())?;
        self.elements.reserve(elements.len())?;
        self.nodes.reserve(key.len() - from)?;
        push_nodes(&mut self.nodes, key, from, start, elements.len() as u8);
        push_reserved(&mut self.elements, elements);
        self.last.truncate(from);
        append(&mut self.last, &key[from..]);
        Ok(())
    }

    /// The entries by key order: by code points, a proper prefix first.
    pub fn entries(&self) -> Entries<'_>
        ensures { result ≡ self.now }
    {
        Entries::new(self.nodes.as_slice(), self.elements.as_slice())
    }

    /// Makes these keys ready for look-ups.
    #[tactic(auto, using(crate::proofs::LinkLemmas::depth_within))]
    pub fn finish(self, alloc: Global) -> Result<Trie, AllocError>
        ensures { IfOk result (λ t. entries_of t ≡ self) }
    {
        let (children, starts) = links(alloc, self.nodes.as_slice())?;
        let mut trie = Trie {
            nodes: self.nodes,
            elements: self.elements,
            children,
            starts,
            blocks: Vec::new(alloc),
        };
        trie.prepare(alloc)?;
        Ok(trie)
    }
}
