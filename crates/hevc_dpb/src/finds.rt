//! Which pictures are found in the buffer.
ghost use Rattle.std.specs.Prelude.{◌≡◌};
ghost use Rattle.hevc_walk.specs.ReferenceSets.{first_number};
ghost use Rattle.hevc_dpb.specs.Plain.{plain_entries, plain_entry};
ghost use Rattle.hevc_dpb.specs.Sought.{fits, HasModulus};

use crate::dpb::Dpb;
use crate::entry::DpbEntry;
use arrayvec::ArrayVec;
use hevc_pictures::Reference;

/// What is looked for among the stored pictures. An order count may be any number, and one that
/// isn't a 32-bit number is that of no stored picture.
#[derive(Clone, Copy)]
pub enum Sought {
    /// A reference picture of this order count.
    Count(i128),
    /// A reference picture whose order count is the first number modulo the second.
    CountModulo(i32, i32),
    /// A short-term reference picture of this order count.
    ShortTermCount(i128),
}

impl Sought {
    /// Whether an entry is what is looked for.
    fn fits<T: Copy>(&self, entry: &DpbEntry<T>) -> bool
        requires { HasModulus self.now }
        ensures { result ≡ fits self.now (plain_entry entry.now) }
    {
        let count = entry.picture.pic_order_cnt_val;
        match *self {
            Sought::Count(wanted) => entry.picture.is_ref() && count as i128 == wanted,
            Sought::CountModulo(wanted, modulus) => {
                entry.picture.is_ref() && count.rem_euclid(modulus) == wanted.rem_euclid(modulus)
            }
            Sought::ShortTermCount(wanted) => {
                *entry.picture.reference() == Reference::ShortTerm && count as i128 == wanted
            }
        }
    }
}

/// The number of the first entry that is looked for.
fn first_number_of<T: Copy>(entries: &[DpbEntry<T>], sought: Sought) -> Option<u64>
    requires { HasModulus sought }
    ensures { result ≡ first_number (fits sought) (plain_entries entries.now) }
{
    for entry in entries {
        if sought.fits(entry) {
            return Some(entry.number);
        }
    }
    None
}

impl<T: Copy> Dpb<T> {
    ghost use Rattle.std.specs.Prelude.{ℕ, pos, ◌+ℤ◌, ◌&&◌, map};
    ghost use Rattle.std.specs.Ordering.{int_eq};
    ghost use Rattle.hevc_walk.specs.Buffer.{is_reference};
    ghost use Rattle.hevc_walk.specs.ReferenceSets.{is_short_term, is_congruent};
    ghost use Rattle.hevc_pictures.specs.OrderCounts.{IsMaxPicOrderCntLsb};
    ghost use Rattle.hevc_dpb.specs.Entries.{reference_numbers};
    ghost use Rattle.hevc_dpb.specs.Views.{stored_entries, buffer_of};

    /// The number of the first stored picture that is looked for.
    pub fn find(&self, sought: Sought) -> Option<u64>
        requires { HasModulus sought }
        ensures { result ≡ first_number (fits sought) (buffer_of self.now) }
    {
        first_number_of(self.entries(), sought)
    }

    /// The number of the first stored reference picture of this order count.
    pub fn find_ref_by_poc(&self, poc: i32) -> Option<u64>
        ensures { result
            ≡ first_number (λ e. is_reference e.mark && int_eq e.order_count poc)
            (buffer_of self.now) }
    {
        self.find(Sought::Count(poc as i128))
    }

    /// The number of the first stored reference picture whose order count is this one modulo `mask
    /// + 1`.
    pub fn find_ref_by_poc_masked(&self, poc: i32, mask: i32) -> Option<u64>
        requires { IsMaxPicOrderCntLsb (mask +ℤ pos 1) }
        ensures { (modulus : ℕ) → mask +ℤ pos 1 ≡ pos modulus
            → result ≡ first_number
            (λ e. is_reference e.mark && is_congruent modulus e.order_count poc)
            (buffer_of self.now) }
    {
        self.find(Sought::CountModulo(poc, mask + 1))
    }

    /// The number of the first stored short-term reference picture of this order count.
    pub fn find_short_term_ref_by_poc(&self, poc: i32) -> Option<u64>
        ensures { result
            ≡ first_number (λ e. is_short_term e.mark && int_eq e.order_count poc)
            (buffer_of self.now) }
    {
        self.find(Sought::ShortTermCount(poc as i128))
    }

    /// The numbers of all reference pictures, in stored order.
    pub fn get_all_references(&self) -> ArrayVec<u64, 16>
        ensures { result.items ≡ reference_numbers (stored_entries self.now) }
    {
        let mut numbers = ArrayVec::new();
        for entry in self.entries() {
            if entry.picture.is_ref() {
                numbers.push(entry.number);
            }
        }
        numbers
    }
}
