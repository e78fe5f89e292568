//! A walk over the live blocks, and what is kept with them for their caller.

ghost use Rattle.std.specs.Prelude.{◌≡◌, [], None, IfErr, IfSome, IsSome, OnErr, OnOk};
ghost use Rattle.std.specs.FinMap as map;
ghost use Rattle.gpu_answers.specs.Held.{KeepsNames};
ghost use Rattle.gpu_desk.specs.Calls.{IsUnknown, SetsUser, Told};
ghost use Rattle.gpu_desk.specs.Desk.{tag_of};
ghost use Rattle.gpu_desk.specs.Names.{LosesBut};
ghost use Rattle.gpu_desk.specs.Walk.{IsLast, IsNext, behind};

use super::granting::grant_of;
use super::{Desk, PLACES, place_of};
use crate::wish::Tag;
use crate::{Denial, Fault, Grant};

/// The first place after that of a key. The invalid key 0 is before place 0.
fn behind(after: u64) -> u64
    ensures { result ≡ behind after }
{
    if after == 0 { 0 } else { after % PLACES + 1 }
}

impl Desk {
    /// The tag of a live block.
    #[inline(always)]
    pub(super) fn tag(&self, key: u64) -> Tag
        requires { IsSome (map.get self.now.blocks.live key) }
        ensures { result ≡ tag_of self.now key }
    {
        self.blocks.keeps_places();
        self.tags[place_of(key)]
    }

    /// The live block whose key has the first place after that of `after`, or `None` where no such block is live. The
    /// place of a key is its lower 32 bits, and only that of `after` counts: its block may be live or freed. 0 begins
    /// at the first place.
    ///
    /// A walk begins with 0 and goes on with the key of each grant, until `None`. It meets each block that lives all
    /// along exactly once, whatever calls are made in between
    /// ([`a_walk_meets_each_block_once`](crate::laws::a_walk_meets_each_block_once)).
    pub fn block_after(&self, after: u64) -> Option<Grant>
        ensures told { IfSome result (λ grant. Told self.now grant.key grant) }
        ensures next { IfSome result (λ grant. IsNext self.now after grant.key) }
        ensures last { result ≡ None → IsLast self.now after }
    {
        let key = self.blocks.first_from(behind(after))?;
        match self.blocks.get(key) {
            Some(block) => Some(grant_of(block, key, false, self.tag(key))),
            None => unreachable!(),
        }
    }

    /// Sets the caller's value of a block. Nothing else changes.
    ///
    /// It denies a key that has no live block with `Fault::UnknownName`. Nothing has changed then.
    pub fn set_user(&mut self, key: u64, user: u64) -> Result<(), Denial>
        ensures set { OnOk result (SetsUser self.old key user self.new) }
        ensures denied { IfErr result (IsUnknown self.old key) }
        ensures unchanged { OnErr result (self.new ≡ self.old) }
        ensures names { KeepsNames (self.old.device).held (self.new.device).held }
        ensures lost { LosesBut [] self.old self.new }
    {
        if self.blocks.get(key).is_none() {
            return Err(Denial::Fault(Fault::UnknownName));
        }
        self.blocks.keeps_places();
        let tag = &mut self.tags[place_of(key)];
        tag.user = user;
        Ok(())
    }
}
