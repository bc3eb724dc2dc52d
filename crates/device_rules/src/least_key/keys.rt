//! A list of keys, of which the least is at hand.

ghost use Rattle.std.specs.Prelude.{◌*◌, ◌<◌, ◌^◌, ◌≡◌, ◌≤◌, ◌⊎◌, All, IfOk, length, replicate, slice_index, slice_set};
ghost use Rattle.std.specs.List.{Contains};
ghost use Rattle.device_rules.specs.least_key.Trees.{IsLesser, no_key};

use crate::least_key::key::NO_KEY;
use std::alloc::{AllocError, Global};
use std::marker::Model;

/// A key for each of some places. A key is set in at most as many steps as the number of places has binary digits, only
/// as far as something changes, and the least is there in one.
///
/// It is a tree: the node i has the lesser of the nodes 2i and 2i + 1, and the keys are the leaves.
#[derive(Drop)]
pub struct Keys {
    nodes: Vec<u128>,
    places: usize,
}

impl Model for Keys {
    ghost use Rattle.std.specs.Prelude.{List, ℕ, drop};
    ghost use Rattle.device_rules.specs.least_key.Trees.{IsTree};

    ghost Value = { List ℕ };

    ghost view = { λ keys. drop keys.places keys.nodes.items };

    ghost invariant = { λ keys. IsTree keys.nodes.items keys.places };
}

impl Keys {
    /// So many places, none of which has a key.
    pub fn new(alloc: Global, places: usize) -> Result<Keys, AllocError>
        requires { 2 * places < 2 ^ 64 }
        ensures { IfOk result (λ keys. keys ≡ replicate places no_key) }
    {
        let nodes = vec![in alloc; NO_KEY; 2 * places]?;
        Ok(Keys { nodes, places })
    }

    /// Sets the key of a place.
    pub fn set(&mut self, place: usize, key: u128)
        requires { place < length self.old }
        ensures { self.new ≡ slice_set self.old place key }
    {
        let mut node = place + self.places;
        let nodes = self.nodes.as_mut_slice();
        if nodes[node] == key {
            return;
        }
        nodes[node] = key;
        let mut least = key;
        'up: while node > 1 {
            let above = node / 2;
            // Below this one are the two nodes 2 * above and 2 * above + 1.
            least = lesser(least, nodes[4 * above + 1 - node]);
            if nodes[above] == least {
                return;
            }
            nodes[above] = least;
            node = above;
        }
    }

    /// The key of a place.
    pub fn get(&self, place: usize) -> u128
        requires { place < length self.now }
        ensures { result ≡ slice_index self.now place }
    {
        self.nodes[self.places + place]
    }

    /// The least of all keys.
    pub fn least(&self) -> u128
        ensures least { All (λ key. result ≤ key) self.now }
        ensures is { (result ≡ no_key) ⊎ Contains self.now result }
    {
        if self.places == 0 {
            NO_KEY
        } else {
            self.nodes[1]
        }
    }
}

/// The lesser of two keys.
fn lesser(left: u128, right: u128) -> u128
    ensures { IsLesser left right result }
{
    if right < left { right } else { left }
}
