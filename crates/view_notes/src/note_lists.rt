//! The notes of a view while they are made.

ghost use Rattle.std.specs.Prelude.{◌≡◌, ◌+◌, ◌++◌, ◌∷◌, [], All, IfOk, IsTrue, OnOk, filter, length, map};
ghost use Rattle.std.specs.List.{flat_map};
ghost use Rattle.expanded_tree.specs.Tree.{addresses_of, key_of};
ghost use Rattle.cut_core.specs.Cut.{own_contents};
ghost use Rattle.cut_core.specs.Noted.{IsNoteValid, measured_at};
ghost use Rattle.cut_core.specs.Wants.{key_list, ranks_of};
ghost use Rattle.view_notes.specs.Names.{names_of};
ghost use Rattle.view_notes.specs.Visited.{first_note, role_where, visited_names};

use crate::names::NameList;
use crate::note::{Note, Role};
use cut_core::{Holdings, Visit, facts_noted};
use error_test::View;
use expanded_tree::{Node, TileTree};
use std::alloc::{AllocError, Global};
use tile_types::{Key, Refine, TileFacts};

/// What is noted of the nodes that a walk has visited, node by node.
#[derive(Drop)]
pub struct NoteLists {
    pub notes: Vec<Note>,
    pub names: NameList,
    pub ranks: Vec<TileFacts>,
    /// The keys that the pending ones wait for.
    pub keys: Vec<Key>,
}

/// What a visited node is to its view.
fn role_of<T: TileTree>(tree: &T, visit: &Visit) -> Role
    requires { IsTrue ((T.standing tree.now).is_valid visit.now.node) }
    ensures { result ≡ role_where visit.now.wants
        ((T.standing tree.now).node_tree visit.now.node) }
{
    if tree.pending(visit.node).is_some() {
        return Role::Pending;
    }
    if !visit.wants {
        return Role::Leaf;
    }
    match tree.facts(visit.node).refine {
        Refine::Add => Role::Adding,
        Refine::Replace => Role::Replacing,
    }
}

/// How many contents of a node aren't absent, and how many of those are resident.
#[derive(Clone, Copy)]
struct OwnCount {
    own: u32,
    resident: u32,
}

/// Counts a node's own contents.
fn count_own<T: TileTree, H: Holdings>(tree: &T, holdings: &H, node: Node) -> OwnCount
    requires { IsTrue ((T.standing tree.now).is_valid node) }
    ensures own { let t = (T.standing tree.now).node_tree node in
        result.own ≡ length (own_contents (H.holdings holdings.now) t) }
    ensures resident { let t = (T.standing tree.now).node_tree node in
        let h = H.holdings holdings.now in
        result.resident ≡ length (filter h.resident (own_contents h t)) }
{
    let mut own = 0;
    let mut resident = 0;
    for i in 0..tree.content_count(node) {
        let address = tree.content(node, i);
        if !holdings.absent(address) {
            own += 1;
            if holdings.resident(address) {
                resident += 1;
            }
        }
    }
    OwnCount { own, resident }
}

/// The note of a visited node, as if it and its children were ready.
fn first_note<T: TileTree, H: Holdings>(tree: &T, holdings: &H, visit: &Visit) -> Note
    requires { IsTrue ((T.standing tree.now).is_valid visit.now.node) }
    ensures { result ≡ first_note (T.standing tree.now) (H.holdings holdings.now) visit.now }
{
    let count = count_own(tree, holdings, visit.node);
    Note {
        parent: visit.parent,
        own: count.own,
        resident: count.resident,
        unready: 0,
        role: role_of(tree, visit),
        ready: true,
    }
}

/// Adds the key that a node waits for, if it does.
fn push_key<T: TileTree>(
    alloc: Global,
    tree: &T,
    node: Node,
    keys: &mut Vec<Key>,
) -> Result<(), AllocError>
    requires { IsTrue ((T.standing tree.now).is_valid node) }
    ensures { let t = (T.standing tree.now).node_tree node in
        OnOk result (keys.new.items ≡ keys.old.items ++ key_list (key_of t)) }
{
    if let Some(key) = tree.pending(node) {
        keys.push(key.copy(alloc)?)?;
    }
    Ok(())
}

impl NoteLists {
    /// Nothing yet.
    fn new(alloc: Global) -> NoteLists
        ensures notes { result.notes.items ≡ [] }
        ensures names { result.names.numbers ≡ [] }
        ensures ranks { result.ranks.items ≡ [] }
        ensures keys { result.keys.items ≡ [] }
    {
        NoteLists {
            notes: Vec::new(alloc),
            names: NameList::new(alloc),
            ranks: Vec::new(alloc),
            keys: Vec::new(alloc),
        }
    }

    /// Adds a visited node.
    fn push<T: TileTree, H: Holdings>(
        &mut self,
        alloc: Global,
        tree: &T,
        holdings: &H,
        view: &View,
        visit: &Visit,
    ) -> Result<(), AllocError>
        requires { IsNoteValid (T.standing tree.now) visit.now }
        ensures notes { OnOk result (self.new.notes.items ≡ self.old.notes.items
            ++ first_note (T.standing tree.now) (H.holdings holdings.now) visit.now ∷ []) }
        ensures names { OnOk result (names_of self.new.names ≡ names_of self.old.names
            ++ addresses_of ((T.standing tree.now).node_tree visit.now.node) ∷ []) }
        ensures ranks { OnOk result (self.new.ranks.items ≡ self.old.ranks.items
            ++ ranks_of (measured_at (T.standing tree.now) view.now visit.now) ∷ []) }
        ensures keys { OnOk result (self.new.keys.items ≡ self.old.keys.items
            ++ key_list (key_of ((T.standing tree.now).node_tree visit.now.node))) }
    {
        self.notes.push(first_note(tree, holdings, visit))?;
        self.names.push_node(alloc, tree, visit.node)?;
        self.ranks.push(facts_noted(tree, view, visit))?;
        push_key(alloc, tree, visit.node, &mut self.keys)
    }

    /// What is noted of visited nodes, as if each were ready.
    pub fn from_visits<T: TileTree, H: Holdings>(
        alloc: Global,
        tree: &T,
        holdings: &H,
        view: &View,
        visits: &[Visit],
    ) -> Result<NoteLists, AllocError>
        requires { All (λ v. IsNoteValid (T.standing tree.now) v) visits.now }
        ensures notes { IfOk result (λ lists. lists.notes.items
            ≡ map (first_note (T.standing tree.now) (H.holdings holdings.now)) visits.now) }
        ensures names { IfOk result (λ lists. names_of lists.names
            ≡ visited_names (T.standing tree.now) visits.now) }
        ensures ranks { let s = T.standing tree.now in
            IfOk result (λ lists. lists.ranks.items
            ≡ map (λ v. ranks_of (measured_at s view.now v)) visits.now) }
        ensures keys { let s = T.standing tree.now in
            IfOk result (λ lists. lists.keys.items
            ≡ flat_map (λ v. key_list (key_of (s.node_tree v.node))) visits.now) }
    {
        let mut lists = NoteLists::new(alloc);
        for visit in visits {
            lists.push(alloc, tree, holdings, view, visit)?;
        }
        Ok(lists)
    }
}
