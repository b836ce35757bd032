//! The buffers of a node: whether they have room, who comes in, and who is released. A caller that keeps a single node uses it;
//! the tiles of the program do not.
ghost use Rattle.std.specs.Prelude.{◌≡◌, ◌+◌, ◌*◌, ◌<◌, ◌≤◌, length, map, nat_lt, vec_len, vec_capacity};
ghost use Rattle.street_net.specs.Prelude.{in_places};
ghost use Rattle.street_yard.specs.Prelude.{list_at, IsLoose};
ghost use Rattle.street_node.specs.Prelude.{node_at, list_of, taken_in, AreOf, AreIn, HaveShortPlans, Releases};

use crate::release::{Released, release_lanes};
use std::marker::Model;
use street_base::{NodeIx, Step};
use street_net::Network;
use street_yard::{Key, ListId, Yard};

/// The buffers of one node, each a list of a yard: one for each lane that runs to the node, by the position of its link and
/// then by its number. Contracts see the node's position, how many vehicles each buffer holds, and the lists.
#[derive(Drop)]
pub struct Buffers {
    node: NodeIx,
    capacity: usize,
    lists: Vec<ListId>,
}

impl Model for Buffers {
    ghost use Rattle.street_node.specs.Prelude.{Buffers as Seen};

    ghost Value = { Seen };

    ghost use Rattle.std.specs.Prelude.{map};

    ghost view = { λ b. record { node = b.node; capacity = b.capacity; lists = map (λ l. l.0) b.lists.items } };
}

impl Buffers {
    /// The buffers of a node, by its position: `lists` has one for each of the lanes of `Network::in_lanes`, in their order.
    pub fn new(network: &Network, node: NodeIx, lists: Vec<ListId>) -> Buffers
        requires node { node < length network.now.nodes }
        requires lists { length lists.items ≡ length (in_places network.now node) }
        ensures value { result ≡ record { node = node; capacity = (node_at network.now node).capacity; lists = map (λ l. l.0) lists.items } }
        ensures of { AreOf network.now result }
    {
        let capacity = network.spec().nodes.as_slice()[node.position()].capacity;
        Buffers {
            node,
            capacity: capacity as usize,
            lists,
        }
    }

    /// Whether one more vehicle finds room in the buffer of a lane, by its position in `Network::in_lanes`: it holds fewer than
    /// its capacity.
    pub fn has_room(&self, yard: &Yard, lane: usize) -> bool
        requires lane { lane < length self.now.lists }
        requires lists { AreIn yard.now self.now }
        ensures { result ≡ nat_lt (length (list_at yard.now (list_of self.now lane))) self.now.capacity }
    {
        yard.list_len(self.lists[lane]) < self.capacity
    }

    /// Puts a loose vehicle last into the buffer of a lane, by its position in `Network::in_lanes`. The buffer has room. The
    /// vehicle may go on from the step `ready`.
    pub fn take_in(&self, yard: &mut Yard, lane: usize, key: Key, ready: Step)
        requires lane { lane < length self.now.lists }
        requires lists { AreIn yard.old self.now }
        requires loose { IsLoose yard.old key }
        requires room { length (list_at yard.old (list_of self.now lane)) < self.now.capacity }
        ensures { yard.new ≡ taken_in yard.old (list_of self.now lane) key ready }
    {
        yard.push_back(self.lists[lane], key);
        yard.set_step(key, ready);
    }

    /// Goes through the buffers in order. A front that is ready in the step `step` goes, if the lane that its turn leads to has
    /// an open mouth; the mouth closes behind it. Who goes is on no list then, one link further in its plan, at most as fast as
    /// that link allows, and is added to `released` with its turn. The signal is not asked: it counts as a vehicle leaves its
    /// lane. Takes no memory.
    ///
    /// `mouths` has two entries for each link of the network, one a lane, at its `slot`: whether cell 0 is free. `released` has
    /// room for one more vehicle from each buffer.
    pub fn release(
        &self,
        network: &Network,
        yard: &mut Yard,
        step: Step,
        mouths: &mut [bool],
        released: &mut Vec<Released>,
    )
        requires of { AreOf network.now self.now }
        requires lists { AreIn yard.old self.now }
        requires plans { HaveShortPlans yard.old }
        requires mouths { length mouths.old ≡ 2 * length network.now.links }
        requires room { vec_len released.old + length self.now.lists ≤ vec_capacity released.old }
        ensures releases { Releases network.now self.now.node step self.now.lists yard.old yard.new
            mouths.old mouths.new released.old.items released.new.items }
        ensures capacity { vec_capacity released.old ≤ vec_capacity released.new }
    {
        release_lanes(
            network,
            self.node,
            &self.lists,
            yard,
            step,
            mouths,
            released,
        );
    }
}
