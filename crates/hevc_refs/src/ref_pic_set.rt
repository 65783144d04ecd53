//! The reference picture set of a picture.
ghost use Rattle.std.specs.Prelude.{◌≡◌, ◌≤◌, ◌<◌, ◌+◌, ◌++◌, ◌∷◌, [], length, if◌then◌else◌};
ghost use Rattle.arrayvec.specs.ArrayVec.{array_vec_len};

use arrayvec::ArrayVec;

/// Five lists of picture numbers, at most 16 in each, None where there is no such picture (8.3.2).
#[derive(Drop)]
pub struct RefPicSet {
    pub(crate) st_curr_before: ArrayVec<Option<u64>, 16>,
    pub(crate) st_curr_after: ArrayVec<Option<u64>, 16>,
    pub(crate) st_foll: ArrayVec<Option<u64>, 16>,
    pub(crate) lt_curr: ArrayVec<Option<u64>, 16>,
    pub(crate) lt_foll: ArrayVec<Option<u64>, 16>,
}

impl RefPicSet {
    ghost use Rattle.hevc_walk.specs.ReferenceSets.{no_references};
    ghost use Rattle.hevc_refs.specs.Sets.{plain_set};

    /// Five empty lists.
    pub fn new() -> RefPicSet
        ensures { plain_set result ≡ no_references }
    {
        RefPicSet {
            st_curr_before: ArrayVec::new(),
            st_curr_after: ArrayVec::new(),
            st_foll: ArrayVec::new(),
            lt_curr: ArrayVec::new(),
            lt_foll: ArrayVec::new(),
        }
    }

    /// All five lists are emptied.
    pub(crate) fn clear(&mut self)
        ensures { plain_set self.new ≡ no_references }
    {
        self.st_curr_before.clear();
        self.st_curr_after.clear();
        self.st_foll.clear();
        self.lt_curr.clear();
        self.lt_foll.clear();
    }

    /// RefPicSetStCurrBefore: short-term pictures that the picture may refer to, and that precede
    /// it in output order.
    pub fn st_curr_before(&self) -> &[Option<u64>]
        ensures value { result.now ≡ (plain_set self.now).st_curr_before }
        ensures few { length result.now ≤ 16 }
    {
        self.st_curr_before.as_slice()
    }

    /// RefPicSetStCurrAfter: short-term pictures that the picture may refer to, and that follow it
    /// in output order.
    pub fn st_curr_after(&self) -> &[Option<u64>]
        ensures value { result.now ≡ (plain_set self.now).st_curr_after }
        ensures few { length result.now ≤ 16 }
    {
        self.st_curr_after.as_slice()
    }

    /// RefPicSetStFoll: short-term pictures that only later pictures may refer to.
    pub fn st_foll(&self) -> &[Option<u64>]
        ensures value { result.now ≡ (plain_set self.now).st_foll }
        ensures few { length result.now ≤ 16 }
    {
        self.st_foll.as_slice()
    }

    /// RefPicSetLtCurr: long-term pictures that the picture may refer to.
    pub fn lt_curr(&self) -> &[Option<u64>]
        ensures value { result.now ≡ (plain_set self.now).lt_curr }
        ensures few { length result.now ≤ 16 }
    {
        self.lt_curr.as_slice()
    }

    /// RefPicSetLtFoll: long-term pictures that only later pictures may refer to.
    pub fn lt_foll(&self) -> &[Option<u64>]
        ensures value { result.now ≡ (plain_set self.now).lt_foll }
        ensures few { length result.now ≤ 16 }
    {
        self.lt_foll.as_slice()
    }
}

/// A member is pushed where it is wanted.
pub(crate) fn push_if(list: &mut ArrayVec<Option<u64>, 16>, number: Option<u64>, is_wanted: bool)
    requires { array_vec_len list.old < 16 }
    ensures pushed { list.new.items
        ≡ (if is_wanted then list.old.items ++ number ∷ [] else list.old.items) }
    ensures few { array_vec_len list.new ≤ array_vec_len list.old + 1 }
{
    if is_wanted {
        list.push(number);
    }
}
