//! Limits by name.
ghost use Rattle.std.specs.Prelude.{◌≡◌, ◌<◌, ◌/◌};

/// What the entries of a cache may weigh together, and how many there may be.
#[derive(Clone, Copy, Debug, PartialEq, Eq, Drop)]
pub struct Limits {
    /// What they may weigh together.
    pub weight: usize,
    /// How many there may be.
    pub entries: usize,
}

impl Limits {
    /// A limit on the weight, and no more entries than if each weighed 1: so those that weigh nothing are limited too.
    pub fn of_weight(weight: usize) -> Self
        ensures weight { result.weight ≡ weight }
        ensures entries { result.entries ≡ weight }
    {
        Limits {
            weight,
            entries: weight,
        }
    }

    /// A shard's part of these, of so many shards.
    pub fn part(self, shards: usize) -> Self
        requires { 0 < shards }
        ensures weight { result.weight ≡ self.weight / shards }
        ensures entries { result.entries ≡ self.entries / shards }
    {
        Limits {
            weight: self.weight / shards,
            entries: self.entries / shards,
        }
    }
}
