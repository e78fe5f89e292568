//! Free tiles in lists by classes of lengths, in grains of 256 bytes: below 64 grains a class each, and eight classes
//! to each power of two above.

ghost use Rattle.std.specs.Prelude.{◌≡◌, ◌≢◌, ◌==◌, ◌<◌, ◌≤◌, ℕ, IfSome, None, Some, cond};
ghost use Rattle.std.specs.Int.{bit_at};
ghost use Rattle.slab.specs.Slab.{ContainsKey, slab_len};
ghost use Rattle.gpu_alloc_runs.specs.Classes.{AreMarked, SetsFirst, class_of_bytes, first_in};
ghost use Rattle.gpu_alloc_runs.specs.Filed.{KeepsLasts, Refiles, SetsDown, SetsPlace, SetsUp, down_in, up_in};
ghost use Rattle.gpu_alloc_runs.specs.Links.{KeepsNodes};

use crate::tile::{NONE, Node};
use slab::Slab;
use std::alloc::Allocator;

/// How many classes there are: 64 of one length each, and eight for each power of two from 2^6 to 2^55 grains. A length
/// is below 2^56 grains.
const CLASSES: usize = 464;

/// How many words hold a bit for each class.
const WORDS: usize = 8;

/// The first tile of each class, and a bit for each class that has one.
#[derive(Drop)]
pub(crate) struct Classes {
    first: [usize; CLASSES],
    filled: [u64; WORDS],
}

impl Classes {
    /// No tiles.
    pub(crate) fn new() -> Self
        ensures marked { AreMarked result }
        ensures empty { (class : ℕ) → first_in result class ≡ NONE }
    {
        Classes {
            first: [NONE; CLASSES],
            filled: [0; WORDS],
        }
    }

    /// The first tile of a class, or `NONE`.
    #[inline(always)]
    pub(crate) fn first(&self, class: usize) -> usize
        ensures { result ≡ first_in self.now class }
    {
        match self.first.get(class) {
            Some(&key) => key,
            None => NONE,
        }
    }

    /// The first class from this one on that has a tile, or `NONE`.
    #[inline(always)]
    pub(crate) fn filled_from(&self, class: usize) -> usize
        requires { AreMarked self.now }
        ensures from { class ≤ result }
        ensures least { (c : ℕ) → class ≤ c → c < result → first_in self.now c ≡ NONE }
        ensures filled { result < CLASSES → first_in self.now result ≢ NONE }
    {
        if class >= CLASSES {
            return NONE;
        }
        let word = class / 64;
        let place = lowest_from(self.filled[word], class % 64);
        if place < 64 {
            return word * 64 + place;
        }
        for next in word + 1..WORDS {
            let place = lowest_from(self.filled[next], 0);
            if place < 64 {
                return next * 64 + place;
            }
        }
        NONE
    }

    /// Sets the first tile of a class: `NONE` where the class is now empty.
    #[inline(always)]
    fn set_first(&mut self, class: usize, key: usize)
        requires marked { AreMarked self.old }
        requires class { class < CLASSES }
        ensures marked { AreMarked self.new }
        ensures sets { SetsFirst self.old self.new class key }
    {
        self.first[class] = key;
        let bits = self.filled[class / 64];
        self.filled[class / 64] = with_bit(bits, class % 64, key != NONE);
    }
}

/// The least place of a bit from this one on that is set, or 64.
#[inline(always)]
fn lowest_from(bits: u64, from: usize) -> usize
    requires { from < 64 }
    ensures within { result ≤ 64 }
    ensures from { from ≤ result }
    ensures least { (i : ℕ) → from ≤ i → i < result → bit_at bits i ≡ 0 }
    ensures set { result < 64 → bit_at bits result ≡ 1 }
{
    (bits & (u64::MAX << from)).trailing_zeros() as usize
}

/// The bits with one that is set or cleared.
#[inline(always)]
fn with_bit(bits: u64, place: usize, on: bool) -> u64
    requires { place < 64 }
    ensures written { bit_at result place ≡ cond on 1 0 }
    ensures others { (i : ℕ) → i < 64 → i ≢ place → bit_at result i ≡ bit_at bits i }
{
    let bit = 1u64 << place;
    if on { bits | bit } else { bits & !bit }
}

/// The class of a length. Longer ones are in no lower class.
#[inline(always)]
pub(crate) fn class_of(bytes: u64) -> usize
    ensures class { result ≡ class_of_bytes bytes }
    ensures below { result < CLASSES }
{
    let grains = bytes / 256;
    if grains < 64 {
        return grains as usize;
    }
    let low_bits = 60 - grains.leading_zeros();
    8 * low_bits as usize + 32 + (grains >> low_bits) as usize
}

/// Adds a free tile at the front of the list of a class.
#[inline(always)]
pub(crate) fn file<A: Allocator>(
    nodes: &mut Slab<Node, A>,
    classes: &mut Classes,
    key: usize,
    class: usize,
)
    requires marked { AreMarked classes.old }
    requires there { ContainsKey nodes.old key }
    requires class { class < CLASSES }
    ensures keeps { KeepsNodes nodes.old nodes.new }
    ensures files { Refiles nodes.old classes.old nodes.new classes.new key None (Some class) }
    ensures lasts { KeepsLasts nodes.old classes.old nodes.new key None }
    ensures marked { AreMarked classes.new }
    ensures len { slab_len nodes.new ≡ slab_len nodes.old }
    ensures capacity { (nodes.new).capacity ≡ (nodes.old).capacity }
{
    let first = classes.first(class);
    let last = up_or(nodes, first, key);
    set_up(nodes, first, key);
    set_place(nodes, key, last, first);
    classes.set_first(class, key);
}

/// Adds a free tile at the end of the list of a class.
#[inline(always)]
pub(crate) fn file_last<A: Allocator>(
    nodes: &mut Slab<Node, A>,
    classes: &mut Classes,
    key: usize,
    class: usize,
)
    requires marked { AreMarked classes.old }
    requires there { ContainsKey nodes.old key }
    requires class { class < CLASSES }
    ensures keeps { KeepsNodes nodes.old nodes.new }
    ensures files { Refiles nodes.old classes.old nodes.new classes.new key None (Some class) }
    ensures last { down_in nodes.new key ≡ NONE }
    ensures len { slab_len nodes.new ≡ slab_len nodes.old }
    ensures capacity { (nodes.new).capacity ≡ (nodes.old).capacity }
{
    let first = classes.first(class);
    let last = up_or(nodes, first, key);
    set_up(nodes, first, key);
    set_down(nodes, last, key);
    set_place(nodes, key, last, NONE);
    if first == NONE {
        classes.set_first(class, key);
    }
}

/// Removes a free tile from the list of its class.
#[inline(always)]
pub(crate) fn unfile<A: Allocator>(
    nodes: &mut Slab<Node, A>,
    classes: &mut Classes,
    key: usize,
    class: usize,
)
    requires marked { AreMarked classes.old }
    requires there { ContainsKey nodes.old key }
    requires class { class < CLASSES }
    ensures keeps { KeepsNodes nodes.old nodes.new }
    ensures files { Refiles nodes.old classes.old nodes.new classes.new key (Some class) None }
    ensures lasts { KeepsLasts nodes.old classes.old nodes.new key (Some class) }
    ensures marked { AreMarked classes.new }
    ensures len { slab_len nodes.new ≡ slab_len nodes.old }
    ensures capacity { (nodes.new).capacity ≡ (nodes.old).capacity }
{
    let Node { up, down, .. } = nodes[key];
    let first = classes.first(class);
    set_up(nodes, key_or(down, first), up);
    if first == key {
        classes.set_first(class, down);
    } else {
        set_down(nodes, up, down);
    }
}

/// Removes a free tile from the list of its class, if it is in one.
#[inline(always)]
pub(crate) fn leave<A: Allocator>(
    nodes: &mut Slab<Node, A>,
    classes: &mut Classes,
    key: usize,
    was: Option<usize>,
)
    requires marked { AreMarked classes.old }
    requires there { ContainsKey nodes.old key }
    requires was { IfSome was (λ c. c < CLASSES) }
    ensures keeps { KeepsNodes nodes.old nodes.new }
    ensures files { Refiles nodes.old classes.old nodes.new classes.new key was None }
    ensures lasts { KeepsLasts nodes.old classes.old nodes.new key was }
    ensures marked { AreMarked classes.new }
    ensures len { slab_len nodes.new ≡ slab_len nodes.old }
    ensures capacity { (nodes.new).capacity ≡ (nodes.old).capacity }
{
    match was {
        Some(class) => unfile(nodes, classes, key, class),
        None => (),
    }
}

/// Moves a free tile from the list of one class to that of another, if the two differ. It may be in no list yet.
#[inline(always)]
pub(crate) fn refile<A: Allocator>(
    nodes: &mut Slab<Node, A>,
    classes: &mut Classes,
    key: usize,
    was: Option<usize>,
    class: usize,
)
    requires marked { AreMarked classes.old }
    requires there { ContainsKey nodes.old key }
    requires was { IfSome was (λ c. c < CLASSES) }
    requires class { class < CLASSES }
    ensures keeps { KeepsNodes nodes.old nodes.new }
    ensures files { Refiles nodes.old classes.old nodes.new classes.new key was (Some class) }
    ensures lasts { KeepsLasts nodes.old classes.old nodes.new key was }
    ensures len { slab_len nodes.new ≡ slab_len nodes.old }
    ensures capacity { (nodes.new).capacity ≡ (nodes.old).capacity }
{
    match was {
        Some(same) if same == class => (),
        Some(other) => {
            unfile(nodes, classes, key, other);
            file(nodes, classes, key, class);
        }
        None => file(nodes, classes, key, class),
    }
}

/// The key of the tile above this one, or `otherwise` where there is no such tile.
#[inline(always)]
fn up_or<A: Allocator>(nodes: &Slab<Node, A>, key: usize, otherwise: usize) -> usize
    ensures there { ContainsKey nodes.now key → result ≡ up_in nodes.now key }
    ensures otherwise { (ContainsKey nodes.now key → ⊥) → result ≡ otherwise }
{
    match nodes.get(key) {
        Some(node) => node.up,
        None => otherwise,
    }
}

/// A key, or `otherwise` in place of `NONE`.
#[inline(always)]
fn key_or(key: usize, otherwise: usize) -> usize
    ensures { result ≡ cond (key == NONE) otherwise key }
{
    if key == NONE { otherwise } else { key }
}

/// Writes which tiles are above and below this one in its list.
#[inline(always)]
fn set_place<A: Allocator>(nodes: &mut Slab<Node, A>, key: usize, up: usize, down: usize)
    ensures keeps { KeepsNodes nodes.old nodes.new }
    ensures sets { SetsPlace nodes.old nodes.new key up down }
    ensures len { slab_len nodes.new ≡ slab_len nodes.old }
    ensures capacity { (nodes.new).capacity ≡ (nodes.old).capacity }
{
    if let Some(node) = nodes.get_mut(key) {
        node.up = up;
        node.down = down;
    }
}

/// Sets the tile above this one in its list.
#[inline(always)]
fn set_up<A: Allocator>(nodes: &mut Slab<Node, A>, key: usize, value: usize)
    ensures keeps { KeepsNodes nodes.old nodes.new }
    ensures sets { SetsUp nodes.old nodes.new key value }
    ensures len { slab_len nodes.new ≡ slab_len nodes.old }
    ensures capacity { (nodes.new).capacity ≡ (nodes.old).capacity }
{
    if let Some(node) = nodes.get_mut(key) {
        node.up = value;
    }
}

/// Sets the tile below this one in its list.
#[inline(always)]
fn set_down<A: Allocator>(nodes: &mut Slab<Node, A>, key: usize, value: usize)
    ensures keeps { KeepsNodes nodes.old nodes.new }
    ensures sets { SetsDown nodes.old nodes.new key value }
    ensures len { slab_len nodes.new ≡ slab_len nodes.old }
    ensures capacity { (nodes.new).capacity ≡ (nodes.old).capacity }
{
    if let Some(node) = nodes.get_mut(key) {
        node.down = value;
    }
}
