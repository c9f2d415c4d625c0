// Who leads: leader sets, owners of numbers and buckets, primaries.
ghost use Rattle.std.specs.Prelude.{◌≡◌, ◌<◌, ◌≤◌};
ghost use Rattle.protocol.specs.Leaders.{member, position, leader_count, owner_position, owns, bucket_position, in_bucket, primary, everyone, within};
ghost use Rattle.protocol.specs.Change.{joined};

use crate::records::View;
use quorum::house::House;

pub(crate) fn is_member(leaders: u64, i: u8) -> bool
    requires { i < 64 }
    ensures { result ≡ member leaders i }
{
    (leaders >> i) % 2 == 1
}

// How many members are below i.
pub(crate) fn members_below(leaders: u64, i: u8) -> u64
    requires { i ≤ 64 }
    ensures { result ≡ position leaders i }
{
    (0..i).filter(|k| is_member(leaders, *k)).count() as u64
}

// Whether all of the set are controllers of a house.
pub(crate) fn is_within(house: &House, leaders: u64) -> bool
    ensures { result ≡ within house.now.n leaders }
{
    leaders >> house.n() == 0
}

pub(crate) fn primary_of(house: &House, epoch: u32) -> u8
    ensures exact { result ≡ primary house.now.n epoch }
    ensures below { result < house.now.n }
{
    (epoch % u32::from(house.n())) as u8
}

// The set of all controllers of a house.
pub fn all_of(house: &House) -> u64
    ensures { result ≡ everyone house.now.n }
{
    (1u64 << house.n()) - 1
}

// The primary of an epoch joins the leaders.
pub fn with_primary(house: &House, leaders: u64, epoch: u32) -> u64
    ensures { result ≡ joined house.now.n leaders epoch }
{
    leaders | (1u64 << primary_of(house, epoch))
}

impl View {
    fn leader_count(&self, house: &House) -> u64
        ensures exact { result ≡ leader_count house.now.n self.now.leaders }
        ensures some { 0 < result }
    {
        members_below(self.leaders, house.n()).max(1)
    }

    fn owner_position(&self, house: &House, s: u64) -> u64
        ensures { result ≡ owner_position house.now.n self.now s }
    {
        s.saturating_sub(self.first) % self.leader_count(house)
    }

    // Whether a controller owns a number.
    pub(crate) fn owns(&self, house: &House, s: u64, i: u8) -> bool
        requires { i < house.now.n }
        ensures { result ≡ owns house.now.n self.now s i }
    {
        is_member(self.leaders, i)
            && members_below(self.leaders, i) == self.owner_position(house, s)
    }

    // Whether a bucket belongs to the owner of a number.
    pub(crate) fn in_bucket(&self, house: &House, s: u64, bucket: u8) -> bool
        ensures { result ≡ in_bucket house.now.n self.now s bucket }
    {
        let turn = u64::from(bucket) + u64::from(self.epoch) + s.saturating_sub(self.first) / 256;
        turn % self.leader_count(house) == self.owner_position(house, s)
    }
}
