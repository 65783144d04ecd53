//! The members of a set on one side of the current picture (7.4.8).
ghost use Rattle.std.specs.Prelude.{◌≡◌, ◌<◌, ◌≤◌, ◌++◌, ◌∷◌, [], pos, false, length, IsTrue};
ghost use Rattle.hevc_tables.specs.ShortTermTable.{array_of, deltas, is_i32, last_delta};
ghost use Rattle.hevc_tables.specs.ShortTermTable.{used as used_members};

use hevc_history::History;
use hevc_tables::ShortTermMember;
use std::marker::Model;

/// The members of a set on one side of the current picture, at most 16, nearest first. They are in
/// the arrays that the set has.
///
/// Contracts see it as the list of its members.
#[derive(Drop)]
pub(crate) struct Side {
    count: u8,
    /// The difference of the last member, else 0.
    last: i32,
    /// The differences of the members, and zeros after them.
    differences: [i32; 16],
    /// Which members the current picture may refer to, and none after them.
    used: [bool; 16],
    /// The members, for proofs alone.
    members: History<ShortTermMember>,
}

impl Model for Side {
    ghost use Rattle.std.specs.Prelude.{◌≡◌, ◌≤◌, List, pos, false, length};
    ghost use Rattle.hevc_tables.specs.declared.short_term_member.ShortTermMember.{ShortTermMember};
    ghost use Rattle.hevc_tables.specs.ShortTermTable.{array_of, deltas, last_delta};
    ghost use Rattle.hevc_tables.specs.ShortTermTable.{used as used_members};

    ghost Value = { List ShortTermMember };

    ghost view = { λ s. s.members.items };

    ghost invariant = { λ s. (s.count ≡ length s.members.items)
        × (s.count ≤ 16) × (s.last ≡ last_delta s.members.items)
        × (s.differences ≡ array_of (pos 0) (deltas s.members.items))
        × (s.used ≡ array_of false (used_members s.members.items)) };
}

impl Side {
    /// No member.
    pub(crate) fn new() -> Side
        ensures { result ≡ [] }
    {
        Side {
            count: 0,
            last: 0,
            differences: [0; 16],
            used: [false; 16],
            members: History::new(),
        }
    }

    /// Puts a member after these.
    pub(crate) fn push(&mut self, member: ShortTermMember)
        requires room { length self.old < 16 }
        requires fits { IsTrue (is_i32 member.delta_poc) }
        ensures { self.new ≡ self.old ++ member ∷ [] }
    {
        let place = usize::from(self.count);
        self.last = difference(&member);
        self.differences[place] = self.last;
        self.used[place] = member.used_by_curr_pic;
        self.count += 1;
        self.members = self.members.and(&member);
    }

    /// How many members there are.
    pub(crate) fn count(&self) -> u8
        ensures value { result ≡ length self.now }
        ensures few { result ≤ 16 }
    {
        self.count
    }

    /// The difference of the last member, else 0.
    pub(crate) fn last_difference(&self) -> i32
        ensures { result ≡ last_delta self.now }
    {
        self.last
    }

    /// The differences of the members, and zeros after them.
    pub(crate) fn differences(&self) -> [i32; 16]
        ensures { result ≡ array_of (pos 0) (deltas self.now) }
    {
        self.differences
    }

    /// Which members the current picture may refer to, and none after them.
    pub(crate) fn used(&self) -> [bool; 16]
        ensures { result ≡ array_of false (used_members self.now) }
    {
        self.used
    }
}

/// The difference of a member.
fn difference(member: &ShortTermMember) -> i32
    requires { IsTrue (is_i32 member.now.delta_poc) }
    ensures { result ≡ member.now.delta_poc }
{
    member.delta_poc as i32
}
