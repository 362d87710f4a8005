//! The measures that are assigned, in their order.
ghost use Rattle.std.specs.Prelude.{◌≡◌, ◌++◌, ◌<◌, [], true, false, length, map, reverse, IfOk, OnOk};
ghost use Rattle.std.specs.List.{All, find, list_any};
ghost use Rattle.std.specs.List.Sorted.{IsStrictlySortedBy};
ghost use Rattle.mq_ir.specs.Partitions.{placed};
ghost use Rattle.mq_ir.specs.Shape.{assigns, cmp_assignment};
ghost use Rattle.mq_auto_shape.specs.Walk.{AreBefore, AreUnassigned, IsNotBefore, Searched, assigned_by, cmp_measure, placed_all};

use mq_values::{Items, Key, Memory};
use std::alloc::Global;
use std::cmp::Ordering;
use std::marker::Model;

/// Measures of cells, each once with the number of its rule, by cell and measure. Contracts see them as the list of these.
#[derive(Drop)]
pub struct NodeList {
    nodes: Vec<(Key, u32, u32)>,
}

impl Model for NodeList {
    ghost use Rattle.std.specs.Prelude.{List};
    ghost use Rattle.std.specs.List.Sorted.{IsStrictlySortedBy};
    ghost use Rattle.mq_ir.specs.Shape.{Assignment};
    ghost use Rattle.mq_auto_shape.specs.Walk.{cmp_measure};

    ghost Value = { List Assignment };

    ghost view = { λ list. list.nodes.items };

    ghost invariant = { λ list. IsStrictlySortedBy cmp_measure list.nodes.items };
}

impl NodeList {
    /// No measures. It takes no memory.
    pub fn new(alloc: Global) -> NodeList
        ensures { result ≡ [] }
    {
        NodeList {
            nodes: Vec::new(alloc),
        }
    }

    /// Whether measure `m` of the cell at `key` is among them.
    pub fn has(&self, key: &Key, m: u32) -> bool
        ensures { result ≡ list_any (assigns m key.now) self.now }
    {
        search(&self.nodes, key, m).is_ok()
    }

    /// These with measure `m` of the cells at these keys too, none of which is there yet, by the rule of this number.
    pub fn with_all(
        self,
        alloc: Global,
        m: u32,
        number: u32,
        keys: Items<Key>,
    ) -> Result<NodeList, Memory>
        requires { AreUnassigned m self keys }
        ensures { IfOk result (λ it. it ≡ placed_all cmp_assignment (map (assigned_by m number) keys) self) }
    {
        let NodeList { nodes } = self;
        let nodes = with_keys(alloc, nodes, m, number, keys.into_vec())?;
        Ok(NodeList { nodes })
    }

    /// The measures as a list. It takes no memory.
    pub fn into_items(self) -> Items<(Key, u32, u32)>
        ensures list { result ≡ self }
        ensures own { All (λ a. find (assigns a.1 a.0) self ≡ Some a) self }
    {
        let NodeList { nodes } = self;
        Items::from_vec(nodes)
    }
}

// Nodes with measure `m` of the cells at these keys too: a single one is put at its place.
fn with_keys(
    alloc: Global,
    nodes: Vec<(Key, u32, u32)>,
    m: u32,
    number: u32,
    keys: Vec<Key>,
) -> Result<Vec<(Key, u32, u32)>, Memory>
    requires strict { IsStrictlySortedBy cmp_measure nodes.items }
    requires unassigned { AreUnassigned m nodes.items keys.items }
    ensures all { IfOk result (λ it. it.items ≡ placed_all cmp_assignment (map (assigned_by m number) keys.items) nodes.items) }
    ensures strict { IfOk result (λ it. IsStrictlySortedBy cmp_measure it.items) }
{
    match keys.as_slice() {
        [key] => with_one(nodes, m, number, key),
        _ => merged(alloc, nodes, m, number, keys),
    }
}

// Nodes with measure `m` of one more cell.
fn with_one(
    nodes: Vec<(Key, u32, u32)>,
    m: u32,
    number: u32,
    key: &Key,
) -> Result<Vec<(Key, u32, u32)>, Memory>
    requires strict { IsStrictlySortedBy cmp_measure nodes.items }
    requires lacking { list_any (assigns m key.now) nodes.items ≡ false }
    ensures all { IfOk result (λ it. it.items ≡ placed cmp_assignment (key.now, m, number) nodes.items) }
    ensures strict { IfOk result (λ it. IsStrictlySortedBy cmp_measure it.items) }
{
    let mut nodes = nodes;
    match search(&nodes, key, m) {
        Ok(_) => unreachable!(),
        Err(at) => {
            nodes.insert(at, (key.copy()?, m, number))?;
            Ok(nodes)
        }
    }
}

// The place at which measure `m` of the cell at `key` stands, or else the one at which it would.
fn search(nodes: &[(Key, u32, u32)], key: &Key, m: u32) -> Result<usize, usize>
    requires { IsStrictlySortedBy cmp_measure nodes.now }
    ensures { Searched key.now m nodes.now result }
{
    nodes.binary_search_by(|a| a.0.cmp(key).then(a.1.cmp(&m)))
}

// Nodes with measure `m` of the cells at these keys too, from the last to the first. Where these ascend, each node is passed once.
fn merged(
    alloc: Global,
    nodes: Vec<(Key, u32, u32)>,
    m: u32,
    number: u32,
    keys: Vec<Key>,
) -> Result<Vec<(Key, u32, u32)>, Memory>
    requires strict { IsStrictlySortedBy cmp_measure nodes.items }
    requires unassigned { AreUnassigned m nodes.items keys.items }
    ensures all { IfOk result (λ it. it.items ≡ placed_all cmp_assignment (map (assigned_by m number) keys.items) nodes.items) }
    ensures strict { IfOk result (λ it. IsStrictlySortedBy cmp_measure it.items) }
{
    let mut before = nodes;
    let mut behind = Vec::with_capacity(alloc, keys.len())?;
    let mut keys = keys;
    'placing: while let Some(key) = keys.pop() {
        place(&mut before, &mut behind, (key, m, number))?;
    }
    behind.reverse();
    before.append(&mut behind)?;
    Ok(before)
}

// Puts a node that is not there at its place between the two lists, of which the second is turned round.
fn place(
    before: &mut Vec<(Key, u32, u32)>,
    behind: &mut Vec<(Key, u32, u32)>,
    node: (Key, u32, u32),
) -> Result<(), Memory>
    requires strict { IsStrictlySortedBy cmp_measure (before.old.items ++ reverse behind.old.items) }
    requires lacking { list_any (assigns node.1 node.0) (before.old.items ++ reverse behind.old.items) ≡ false }
    ensures { OnOk result (before.new.items ++ reverse behind.new.items
        ≡ placed cmp_assignment node (before.old.items ++ reverse behind.old.items)) }
{
    'back: while step_back(before, behind, &node)? {}
    'forth: while step_forth(before, behind, &node)? {}
    behind.push(node)?;
    Ok(())
}

// One step of those that are not before a node from the one list to the other; false where there is none.
fn step_back(
    before: &mut Vec<(Key, u32, u32)>,
    behind: &mut Vec<(Key, u32, u32)>,
    node: &(Key, u32, u32),
) -> Result<bool, Memory>
    requires { IsStrictlySortedBy cmp_measure (before.old.items ++ reverse behind.old.items) }
    ensures line { OnOk result (before.new.items ++ reverse behind.new.items ≡ before.old.items ++ reverse behind.old.items) }
    ensures moved { IfOk result (λ moved. moved ≡ true → length before.new.items < length before.old.items) }
    ensures parted { IfOk result (λ moved. moved ≡ false → AreBefore node.now before.new.items) }
{
    let Some(last) = before.pop() else {
        return Ok(false);
    };
    if cmp_nodes(&last, node).is_lt() {
        before.push(last)?;
        return Ok(false);
    }
    behind.push(last)?;
    Ok(true)
}

// One step of those that are before a node from the other list to the one; false where there is none.
fn step_forth(
    before: &mut Vec<(Key, u32, u32)>,
    behind: &mut Vec<(Key, u32, u32)>,
    node: &(Key, u32, u32),
) -> Result<bool, Memory>
    requires { AreBefore node.now before.old.items }
    ensures line { OnOk result (before.new.items ++ reverse behind.new.items ≡ before.old.items ++ reverse behind.old.items) }
    ensures moved { IfOk result (λ moved. moved ≡ true → length behind.new.items < length behind.old.items) }
    ensures before { OnOk result (AreBefore node.now before.new.items) }
    ensures parted { IfOk result (λ moved. moved ≡ false → IsNotBefore node.now (reverse behind.new.items)) }
{
    let Some(next) = behind.pop() else {
        return Ok(false);
    };
    if cmp_nodes(&next, node).is_lt() {
        before.push(next)?;
        return Ok(true);
    }
    behind.push(next)?;
    Ok(false)
}

// Which of two measures comes first.
fn cmp_nodes(a: &(Key, u32, u32), b: &(Key, u32, u32)) -> Ordering
    ensures { result ≡ cmp_measure a.now b.now }
{
    a.0.cmp(&b.0).then(a.1.cmp(&b.1))
}
