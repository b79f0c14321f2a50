// Groups of nodes that no edge leaves. Groups are joined and never split. So if edges are removed, a group may be
// larger than it need be.
ghost use Rattle.std.specs.Prelude.{◌≡◌, ◌+◌, ◌<◌, ◌≤◌, ◌∷◌, [], cond, length, slice_get, slice_set, true, Some, IfOk, IfSome, vec_capacity, All, sum_by};
ghost use Rattle.deprecation_graph.specs.Groups.{AreNodesGrouped, HasMembers, Recounts, IsNext, IsHead, member_count, IsGroupOf, AreGroupsOf, AreSmall, KeepsGroups, PutsUnder, Joins};

use crate::few::add;
use crate::limits::MOST_ENDS;
use std::alloc::{AllocError, Global};

// The most steps on the way to the head of a group, in a function that can't shorten this way.
const MOST_STEPS: u32 = 256;

/// What is stored of a node's group. The head of a group is its lowest node, and names the group.
#[derive(Clone, Copy)]
pub(crate) enum GroupMember {
    /// The node is the head of its group. The group has this number of active nodes.
    Head(u32),
    /// The node is in the group of this lower node.
    Under(u32),
}

/// The head of a node's group; `None` if the way to it has more than `MOST_STEPS` steps.
pub(crate) fn find_group(groups: &[GroupMember], node: u32) -> Option<u32>
    requires grouped { AreNodesGrouped groups.now }
    requires node { node < length groups.now }
    ensures head { IfSome result (IsHead groups.now) }
    ensures name { IfSome result (IsGroupOf groups.now node) }
{
    let mut at = node;
    for _ in 0..MOST_STEPS {
        match groups[at as usize] {
            GroupMember::Under(lower) => at = lower,
            GroupMember::Head(_) => return Some(at),
        }
    }
    None
}

// A lower node of the same group; the node itself if it is the head.
fn next_of(groups: &[GroupMember], node: u32) -> u32
    requires grouped { AreNodesGrouped groups.now }
    requires node { node < length groups.now }
    ensures { IsNext groups.now node result }
{
    match groups[node as usize] {
        GroupMember::Under(lower) => lower,
        GroupMember::Head(_) => node,
    }
}

// The head of a node's group. The way to the head is halved, so that it is found faster next time.
fn shorten(groups: &mut Vec<GroupMember>, node: u32) -> u32
    requires grouped { AreNodesGrouped groups.old.items }
    requires node { node < length groups.old.items }
    ensures head { IsHead groups.new.items result }
    ensures name { IsGroupOf groups.old.items node result }
    ensures kept { KeepsGroups groups.old.items groups.new.items }
    ensures capacity { vec_capacity groups.new ≡ vec_capacity groups.old }
{
    let mut at = node;
    while let GroupMember::Under(lower) = groups[at as usize] {
        let further = next_of(groups, lower);
        groups[at as usize] = GroupMember::Under(further);
        at = further;
    }
    at
}

// The number of active nodes in the group of this head.
fn count_of(groups: &[GroupMember], name: u32) -> u32
    requires { IsHead groups.now name }
    ensures { slice_get groups.now name ≡ Some (GroupMember.Head result) }
{
    match groups[name as usize] {
        GroupMember::Head(count) => count,
        GroupMember::Under(_) => unreachable!(),
    }
}

// Joins two groups. The lower head is the head of the joined group.
fn put_under(groups: &mut Vec<GroupMember>, gone: u32, stays: u32)
    requires grouped { AreNodesGrouped groups.old.items }
    requires gone { IsHead groups.old.items gone }
    requires stays { IsHead groups.old.items stays }
    requires lower { stays < gone }
    ensures puts { PutsUnder groups.old.items groups.new.items gone stays }
    ensures capacity { vec_capacity groups.new ≡ vec_capacity groups.old }
{
    let count = count_of(groups, gone) + count_of(groups, stays);
    groups[stays as usize] = GroupMember::Head(count);
    groups[gone as usize] = GroupMember::Under(stays);
}

// Joins the groups of two nodes.
fn join(groups: &mut Vec<GroupMember>, node: u32, other: u32)
    requires grouped { AreNodesGrouped groups.old.items }
    requires node { node < length groups.old.items }
    requires other { other < length groups.old.items }
    ensures joins { Joins groups.old.items groups.new.items node (other ∷ []) }
    ensures capacity { vec_capacity groups.new ≡ vec_capacity groups.old }
{
    let name = shorten(groups, node);
    let other_name = shorten(groups, other);
    if other_name < name {
        put_under(groups, name, other_name);
    } else if name < other_name {
        put_under(groups, other_name, name);
    }
}

/// Joins the group of a node and the groups of other nodes.
pub(crate) fn join_all(groups: &mut Vec<GroupMember>, node: u32, others: &[u32])
    requires grouped { AreNodesGrouped groups.old.items }
    requires node { node < length groups.old.items }
    requires others { All (λ other. other < length groups.old.items) others.now }
    ensures joins { Joins groups.old.items groups.new.items node others.now }
    ensures capacity { vec_capacity groups.new ≡ vec_capacity groups.old }
{
    for other in others {
        join(groups, node, *other);
    }
}

/// Counts the node in its group as active, or as inactive.
pub(crate) fn recount(groups: &mut Vec<GroupMember>, active: &[bool], node: u32, is_active: bool)
    requires grouped { AreNodesGrouped groups.old.items }
    requires members { HasMembers groups.old.items active.now }
    requires node { node < length groups.old.items }
    ensures recounts { Recounts groups.old.items groups.new.items active.now (slice_set active.now node is_active) }
    ensures capacity { vec_capacity groups.new ≡ vec_capacity groups.old }
{
    let name = shorten(groups, node);
    let count = count_of(groups, name);
    let count = recounted(count, active[node as usize], is_active);
    groups[name as usize] = GroupMember::Head(count);
}

// A count after one thing changes. `was` says whether the thing was counted before, `is` whether it is counted after.
fn recounted(count: u32, was: bool, is: bool) -> u32
    requires room { count < 4294967295 }
    requires counted { was ≡ true → 1 ≤ count }
    ensures { result + cond was 1 0 ≡ count + cond is 1 0 }
{
    match (was, is) {
        (true, false) => count - 1,
        (false, true) => count + 1,
        _ => count,
    }
}

// The heads of the groups of a node and of other nodes, without repetitions; `None` if the way to a head is long.
fn find_groups(
    alloc: Global,
    groups: &[GroupMember],
    node: u32,
    others: &[u32],
) -> Result<Option<Vec<u32>>, AllocError>
    requires grouped { AreNodesGrouped groups.now }
    requires node { node < length groups.now }
    requires others { All (λ other. other < length groups.now) others.now }
    ensures heads { IfOk result (λ found. IfSome found (λ names. All (IsHead groups.now) names.items)) }
    ensures names { IfOk result (λ found. IfSome found (λ names. AreGroupsOf groups.now node others.now names.items)) }
{
    let mut names = Vec::new(alloc);
    let Some(name) = find_group(groups, node) else {
        return Ok(None);
    };
    names.push(name)?;
    for other in others {
        let Some(name) = find_group(groups, *other) else {
            return Ok(None);
        };
        add(&mut names, name)?;
    }
    Ok(Some(names))
}

// Whether groups have fewer active nodes together than the most ends that a node may have.
fn have_few(groups: &[GroupMember], names: &[u32]) -> bool
    requires { All (IsHead groups.now) names.now }
    ensures { result ≡ true → sum_by (member_count groups.now) names.now < MOST_ENDS }
{
    let mut total: usize = 0;
    for name in names {
        total += count_of(groups, *name) as usize;
        if total >= MOST_ENDS {
            return false;
        }
    }
    true
}

/// True only if the groups of a node and of other nodes have fewer than `MOST_ENDS` active nodes together. The result
/// is also false if more than `MOST_STEPS` steps lead from a node to the head of its group.
pub(crate) fn are_small(
    alloc: Global,
    groups: &[GroupMember],
    node: u32,
    others: &[u32],
) -> Result<bool, AllocError>
    requires grouped { AreNodesGrouped groups.now }
    requires node { node < length groups.now }
    requires others { All (λ other. other < length groups.now) others.now }
    ensures { IfOk result (λ small. small ≡ true → AreSmall groups.now node others.now) }
{
    let Some(names) = find_groups(alloc, groups, node, others)? else {
        return Ok(false);
    };
    Ok(have_few(groups, &names))
}
