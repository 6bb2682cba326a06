//! The occurrences of nodes in a graph in which each node is expanded once.
ghost use Rattle.std.specs.Prelude.{◌≡◌, ◌≢◌, ◌∷◌, [], ◌≤◌, ◌<◌, ◌^◌, ℕ, true, false, length, slice_set, IfOk, OnOk};
ghost use Rattle.ptree.specs.Graph.{weights_of, edges_of, neighbors_of};
ghost use Rattle.ptree.specs.GraphLinks.{newest_from};
ghost use Rattle.ptree.specs.Growing.{is_seen, grown_from, all_flags, flags_of, place_of, leaf_size, AppendsPlaces};
ghost use Rattle.ptree.specs.Occurrence.{IsExpandedOnce, LeavesUnrepeated, ExpandsFirst, HasOneTree, HasSize, occurrence_count, tree_places, is_repeated_size, size_below, occurrence_tree};

use super::{Graph, NodeIndex};
use std::alloc::AllocError;

/// The place of an occurrence of a node, where a graph is drawn with each node expanded once.
#[derive(Debug, Clone, Copy)]
pub struct Place {
    /// The node.
    pub node: NodeIndex,

    /// How many occurrences this one and those below it are. 0 says that it is repeated: the node's
    /// neighbours are below an earlier occurrence of it, and nothing is below this one.
    pub size: usize,
}

impl Place {
    // An occurrence with nothing below it.
    #[inline(always)]
    pub(super) fn leaf(node: NodeIndex, repeated: bool) -> Place
        ensures { result ≡ place_of node.0 (leaf_size repeated) }
    {
        Place {
            node,
            size: if repeated { 0 } else { 1 },
        }
    }

    /// Whether the node's neighbours are below an earlier occurrence of it.
    #[inline(always)]
    pub fn is_repeated(&self) -> bool
        ensures { result ≡ is_repeated_size self.now.size }
    {
        self.size == 0
    }

    /// How many occurrences are below this one.
    #[inline(always)]
    pub fn below(&self) -> usize
        ensures { result ≡ size_below self.now.size }
    {
        self.size.saturating_sub(1)
    }
}

/// A graph as a tree in which each node is expanded once: its occurrences, in the order of drawing.
///
/// The first occurrence is the root. Below an occurrence are those right after it, as many as
/// [`Place::below`] says: those of the node's neighbours, newest edge first, each followed by what
/// is below it. Nothing is below an occurrence at the depth.
#[derive(Debug, Drop)]
pub struct Occurrences {
    /// The places of the occurrences.
    pub places: Vec<Place>,
}

/// The older name of [`Occurrences`].
pub type Occurrence = Occurrences;

impl<N> Graph<N> {
    /// Returns the graph as a tree in which each node is expanded once, from a start node down to a
    /// depth.
    ///
    /// A node is expanded at its first occurrence above the depth, in the order of drawing. Its
    /// later ones are repeated, unless it has no neighbours. So a cycle ends at the first repeated
    /// node, and there is one occurrence more than there are edges from nodes that are expanded. A
    /// start that is no node's number gives an occurrence of that number alone.
    ///
    /// Time and memory grow with the occurrences, which take 16 bytes each, beside a flag for each
    /// node up to the last one that is expanded. The stack grows with the levels of the tree, and a
    /// finite depth bounds it.
    ///
    /// # Errors
    ///
    /// Memory ran out.
    pub fn expanded_once(&self, start: NodeIndex, depth: u32) -> Result<Occurrences, AllocError>
        ensures tree { IfOk result (λ o.
            IsExpandedOnce (neighbors_of (edges_of self.now)) start.0 depth (occurrence_tree o)) }
        ensures one_tree { HasOneTree (neighbors_of (edges_of self.now)) start.0 depth }
        // They are the tree's occurrences in order, each with the number of itself and those below.
        ensures places { IfOk result (λ o. o.places.items ≡ tree_places (occurrence_tree o)) }
        ensures count { IfOk result (λ o.
            length o.places.items ≡ occurrence_count (occurrence_tree o)) }
        // There is one for each edge from a node that is expanded, and one more.
        ensures size { IfOk result (λ o. HasSize (edges_of self.now) (occurrence_tree o)) }
        ensures first { IfOk result (λ o.
            ExpandsFirst (neighbors_of (edges_of self.now)) depth (occurrence_tree o)) }
        ensures leaf { IfOk result (λ o.
            LeavesUnrepeated (neighbors_of (edges_of self.now)) (occurrence_tree o)) }
    {
        let alloc = *self.nodes.allocator();
        let mut seen = Vec::new(alloc);
        let mut places = Vec::new(alloc);
        self.push_places(start, depth, &mut seen, &mut places)?;
        Ok(Occurrences { places })
    }

    // Appends an occurrence of a node and those below it, down to so many levels, where the nodes
    // that are seen are expanded already.
    #[cycle(push)]
    #[inline(always)]
    fn push_places(
        &self,
        node: NodeIndex,
        levels: u32,
        seen: &mut Vec<bool>,
        places: &mut Vec<Place>,
    ) -> Result<(), AllocError>
        requires { length seen.old.items ≤ length (weights_of self.now) }
        ensures places { OnOk result (AppendsPlaces places.old.items places.new.items
            ((grown_from self.now levels seen.old.items node.0).occurrence ∷ [])) }
        ensures seen { OnOk result (flags_of self.now seen.new.items
            ≡ (grown_from self.now levels seen.old.items node.0).seen) }
        ensures length { OnOk result (length seen.new.items ≤ length (weights_of self.now)) }
    {
        let repeated = is_flagged(seen, node.0);
        if repeated || levels == 0 {
            places.push(Place::leaf(node, repeated))?;
            return Ok(());
        }
        let newest = self.newest(node);
        if newest == 0 {
            places.push(Place::leaf(node, false))?;
            return Ok(());
        }
        self.push_expanded(node, newest, levels, seen, places)
    }

    // Does what `push_places` does, for a node that is expanded here: the newest edge from it is
    // given. It is a function of its own, so that one with nothing below it costs no call.
    #[cycle(push)]
    #[inline(never)]
    fn push_expanded(
        &self,
        node: NodeIndex,
        newest: usize,
        levels: u32,
        seen: &mut Vec<bool>,
        places: &mut Vec<Place>,
    ) -> Result<(), AllocError>
        requires length { length seen.old.items ≤ length (weights_of self.now) }
        requires node { node.0 < length (weights_of self.now) }
        requires newest { newest ≡ newest_from (edges_of self.now) node.0 }
        requires some { newest ≢ 0 }
        requires levels { levels ≢ 0 }
        requires unseen { is_seen seen.old.items node.0 ≡ false }
        ensures places { OnOk result (AppendsPlaces places.old.items places.new.items
            ((grown_from self.now levels seen.old.items node.0).occurrence ∷ [])) }
        ensures seen { OnOk result (flags_of self.now seen.new.items
            ≡ (grown_from self.now levels seen.old.items node.0).seen) }
        ensures length { OnOk result (length seen.new.items ≤ length (weights_of self.now)) }
    {
        let index = places.len();
        places.push(Place::leaf(node, false))?;
        set_flag(seen, node.0)?;
        let mut number = newest;
        while number > 0 {
            let edge = &self.edges[number - 1];
            self.push_places(NodeIndex(edge.target), levels - 1, seen, places)?;
            number = edge.next;
        }
        let size = places.len() - index;
        places[index] = Place { node, size };
        Ok(())
    }
}

// Whether a node is flagged; a number that is no node's is not.
#[inline(always)]
pub(super) fn is_flagged(seen: &[bool], node: usize) -> bool
    ensures { result ≡ is_seen seen.now node }
{
    seen.get(node).copied().unwrap_or(false)
}

// Sets a node's flag. Flags that are not there yet are added up to it.
pub(super) fn set_flag(seen: &mut Vec<bool>, node: usize) -> Result<(), AllocError>
    requires { node < 2 ^ 63 }
    ensures flags { OnOk result ((n : ℕ) → node < n → length seen.old.items ≤ n
        → (all_flags n seen.new.items ≡ slice_set (all_flags n seen.old.items) node true)
        × (length seen.new.items ≤ n)) }
{
    if node >= seen.len() {
        seen.resize(node + 1, false)?;
    }
    seen[node] = true;
    Ok(())
}
