//! The names of nodes.

ghost use Rattle.std.specs.Prelude.{◌≡◌, ◌++◌, ◌<◌, IfOk, IfSome, MatchBool, OnOk, codes, decimal, length, string_bytes};
ghost use Rattle.expanded_tree.specs.Tree.{name_of};
ghost use Rattle.tree_expansion.specs.Expansion.{child_name, place_name, place_numbers};
ghost use Rattle.tree_nodes.specs.TreeIn.{tree_in};
ghost use Rattle.tree_nodes.specs.Names.{IsNumbered, StartsName};
ghost use Rattle.tree_nodes.specs.Places.{IsPlaceAt};
ghost use Rattle.tree_nodes.specs.Nodes.{IsSoundList, node_trees};
ghost use Rattle.tree_nodes.specs.Growth.{CanTake, handed_name};

use crate::node::{Handed, NodeSource};
use crate::node_list::NodeList;
use crate::place_name::{PLACE_BYTES, place_at};
use crate::tables::Tables;
use doc_store::DocStore;
use implicit_walk::Place;
use itoa::Buffer;
use std::alloc::{AllocError, Global};
use tile_types::Text;

/// How many levels a name has room for before its path has to grow.
const COMMON_DEPTH: usize = 64;

/// How many bytes a name has room for before it has to grow.
const COMMON_LENGTH: usize = 64;

/// What ends the name of a child whose number has one digit, as most have.
fn common_end(number: u32) -> Option<&'static str>
    ensures { IfSome result (λ end. end.now ≡ codes "/" ++ decimal number) }
{
    match number {
        0 => Some("/0"),
        1 => Some("/1"),
        2 => Some("/2"),
        3 => Some("/3"),
        4 => Some("/4"),
        5 => Some("/5"),
        6 => Some("/6"),
        7 => Some("/7"),
        8 => Some("/8"),
        9 => Some("/9"),
        _ => None,
    }
}

/// Makes of a name that of its child of this number, whatever it is.
#[inline(never)]
fn push_any_number(name: &mut String, number: u32) -> Result<(), AllocError>
    ensures { OnOk result (string_bytes name.new ≡ child_name (string_bytes name.old) number) }
{
    let mut digits = Buffer::new();
    name.push_str("/")?;
    name.push_str(digits.format(number))?;
    Ok(())
}

/// Makes of a name that of its child of this number.
#[inline(always)]
fn push_number(name: &mut String, number: u32) -> Result<(), AllocError>
    ensures { OnOk result (string_bytes name.new ≡ child_name (string_bytes name.old) number) }
{
    if let Some(end) = common_end(number) {
        name.push_str(end)?;
        return Ok(());
    }
    push_any_number(name, number)
}

/// Makes of the name of an implicit root that of a tile below it.
fn push_place(name: &mut String, octree: bool, at: Place) -> Result<(), AllocError>
    ensures { OnOk result (string_bytes name.new ≡ string_bytes name.old
        ++ codes "!" ++ decimal at.level ++ place_numbers octree at) }
{
    let mut bytes = [0; PLACE_BYTES];
    let start = place_at(&mut bytes, octree, at);
    // What was written are marks and digits.
    name.push_str(unsafe { str::from_utf8_unchecked(&bytes[start..]) })?;
    Ok(())
}

/// The name of a node below an implicit root, in place of what the string held.
fn write_place(
    name: &mut String,
    store: &DocStore,
    tables: &Tables,
    number: u32,
) -> Result<(), AllocError>
    requires { IsPlaceAt store.now tables.now number }
    ensures { OnOk result ((p : IsPlaceAt store.now tables.now number)
        → string_bytes name.new ≡ place_name p.has.top p.entry.at) }
{
    let entry = tables.places[number as usize];
    name.clear();
    name.push_str(tables.tops[entry.top as usize].name.as_str())?;
    if entry.at.level == 0 {
        return Ok(());
    }
    let octree = tables.root(store, entry.top).part().octree();
    push_place(name, octree, entry.at)?;
    Ok(())
}

/// The name of a node below an implicit root. A short one takes no memory.
fn name_of_place(
    alloc: Global,
    store: &DocStore,
    tables: &Tables,
    number: u32,
) -> Result<Text, AllocError>
    requires { IsPlaceAt store.now tables.now number }
    ensures { IfOk result (λ name. (p : IsPlaceAt store.now tables.now number)
        → name ≡ place_name p.has.top p.entry.at) }
{
    let entry = tables.places[number as usize];
    let top = &tables.tops[entry.top as usize];
    if entry.at.level == 0 {
        return top.name.copy(alloc);
    }
    let octree = tables.root(store, entry.top).part().octree();
    let mut bytes = [0; PLACE_BYTES];
    let start = place_at(&mut bytes, octree, entry.at);
    // What was written are marks and digits.
    let behind = unsafe { str::from_utf8_unchecked(&bytes[start..]) };
    top.name.followed_by(alloc, behind)
}

/// Whether the name of the node at a place is that of its parent with a number behind it.
fn climbs(list: &NodeList, place: u64) -> bool
    requires { place < length list.now.nodes.items }
    ensures { MatchBool result (IsNumbered list.now place) (StartsName list.now place) }
{
    if place == 0 {
        return false;
    }
    match list.nodes[place as usize].source {
        NodeSource::Implicit { .. } => false,
        _ => true,
    }
}

/// The name of a node that isn't named by its parent, in place of what the string held.
fn write_start(
    name: &mut String,
    store: &DocStore,
    list: &NodeList,
    place: u64,
) -> Result<(), AllocError>
    requires sound { IsSoundList store.now list.now }
    requires within { place < length list.now.nodes.items }
    requires starts { StartsName list.now place }
    ensures { OnOk result
        (string_bytes name.new ≡ name_of (tree_in (node_trees store.now list.now) place)) }
{
    if let NodeSource::Implicit { place } = list.nodes[place as usize].source {
        write_place(name, store, &list.tables, place)?;
        return Ok(());
    }
    name.clear();
    name.push_str("r")?;
    Ok(())
}

/// Writes the name of the node at a place in place of what the string held: the numbers on the way
/// up, as far as they name it, from there on.
pub fn write_name_over(
    alloc: Global,
    store: &DocStore,
    list: &NodeList,
    place: u64,
    name: &mut String,
) -> Result<(), AllocError>
    requires sound { IsSoundList store.now list.now }
    requires within { place < length list.now.nodes.items }
    ensures { OnOk result
        (string_bytes name.new ≡ name_of (tree_in (node_trees store.now list.now) place)) }
{
    // Where no number names it, as in an implicit tileset, there is no way up to keep.
    if !climbs(list, place) {
        return write_start(name, store, list, place);
    }
    let mut path = Vec::with_capacity(alloc, COMMON_DEPTH)?;
    let mut at = place;
    while climbs(list, at) {
        let node = list.nodes[at as usize];
        path.push(node.number)?;
        at = u64::from(node.parent);
    }
    write_start(name, store, list, at)?;
    while let Some(number) = path.pop() {
        push_number(name, number)?;
    }
    Ok(())
}

/// The name of the node at a place, in a string of its own.
fn write_whole(
    alloc: Global,
    store: &DocStore,
    list: &NodeList,
    place: u64,
) -> Result<String, AllocError>
    requires sound { IsSoundList store.now list.now }
    requires within { place < length list.now.nodes.items }
    ensures { IfOk result (λ name.
        string_bytes name ≡ name_of (tree_in (node_trees store.now list.now) place)) }
{
    let mut name = String::with_capacity(alloc, COMMON_LENGTH)?;
    write_name_over(alloc, store, list, place, &mut name)?;
    Ok(name)
}

/// The name of the node at a place.
pub fn write_name(
    alloc: Global,
    store: &DocStore,
    list: &NodeList,
    place: u64,
) -> Result<Text, AllocError>
    requires sound { IsSoundList store.now list.now }
    requires within { place < length list.now.nodes.items }
    ensures { IfOk result (λ name.
        name ≡ name_of (tree_in (node_trees store.now list.now) place)) }
{
    if let NodeSource::Implicit { place } = list.nodes[place as usize].source {
        return name_of_place(alloc, store, &list.tables, place);
    }
    Ok(Text::from(write_whole(alloc, store, list, place)?))
}

/// The name of the next node, to which this is handed.
pub(crate) fn name_below(
    alloc: Global,
    store: &DocStore,
    list: &NodeList,
    handed: Handed,
) -> Result<Text, AllocError>
    requires sound { IsSoundList store.now list.now }
    requires handed { CanTake list.now handed }
    ensures { IfOk result (λ name. name ≡ handed_name store.now list.now handed) }
{
    if list.nodes.len() == 0 {
        return Text::new(alloc, "r");
    }
    let mut name = write_whole(alloc, store, list, u64::from(handed.parent))?;
    push_number(&mut name, handed.number)?;
    Ok(Text::from(name))
}
