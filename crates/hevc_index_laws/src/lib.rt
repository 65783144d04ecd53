//! Points of a stream at which decoding can start; and the bytes from such a point on, after the
//! parameter sets before it, which are decoded as the stream is.
#![tactic(auto)]

ghost use Rattle.std.specs.Prelude.{◌≡◌, ℕ, ◌<◌, List, ◌++◌, length, pos, All, AllPairs, Contains, HoldsAt, IfSome, Some, Ok, drop, filter, map, take};
ghost use Rattle.hevc_spec.specs.Units.{NalUnit, units};
ghost use Rattle.hevc_bit_writer.specs.WrittenUnits.{placed};
ghost use Rattle.hevc_walk.specs.Meanings.{Meaning};
ghost use Rattle.hevc_walk.specs.Pictures.{Picture};
ghost use Rattle.hevc_walk.specs.Results.{verdict};
ghost use Rattle.hevc_walk_splice.specs.Splicing.{IsOfSet, IsPoint};
ghost use Rattle.hevc_stream.specs.Kept.{Kept, none_kept};
ghost use Rattle.hevc_stream.specs.Options.{Options};
ghost use Rattle.hevc_stream.specs.Stream.{kept_behind_all, meanings, meanings_behind};
ghost use Rattle.hevc_index_laws.specs.Begun.{BeginsAt};
ghost use Rattle.hevc_index_laws.specs.Points.{point_numbered, points, BeginsPicture};
ghost use Rattle.hevc_index_laws.specs.SplicedUnits.{is_set_unit, sets_before, spliced_bytes, spliced_units, IsNotRefused};

/// What is kept after some units is what is kept after the parameter sets among them: no other unit
/// changes it (7.4.2.4.2), whether it is refused or not.
pub fn sets_alone_are_kept()
    ensures { (options : Options) (kept : Kept) (us : List NalUnit)
        → kept_behind_all options kept (filter is_set_unit us) ≡ kept_behind_all options kept us }
{}

/// From any unit on, units mean after the parameter sets before it what they mean after all units
/// before it. Where none of the units before it is refused, each of these sets gives a format or
/// means nothing.
pub fn spliced_meanings()
    ensures same { (options : Options) (us : List NalUnit) (v : ℕ)
        → meanings_behind options none_kept (spliced_units v us)
        ≡ meanings_behind options none_kept (sets_before v us)
        ++ drop v (meanings_behind options none_kept us) }
    ensures of_sets { (options : Options) (us : List NalUnit) (v : ℕ)
        → All IsNotRefused (take v (meanings_behind options none_kept us))
        → All IsOfSet (meanings_behind options none_kept (sets_before v us)) }
{}

/// In the spliced bytes of a stream that isn't refused exactly the spliced units are found, byte
/// for byte and in order. Cut at a point, they are decoded as the stream is from there on.
pub fn spliced_streams()
    ensures found { (options : Options) (stream : List ℕ) (v m : ℕ)
        → verdict (meanings options stream) ≡ Ok m
        → units (spliced_bytes v stream)
        ≡ placed 0 (map (λ u. u.bytes) (spliced_units v (units stream))) }
    ensures begins { (options : Options) (stream : List ℕ) (p : Picture) (m : ℕ)
        → verdict (meanings options stream) ≡ Ok m
        → IsPoint (meanings options stream) p
        → BeginsAt options p m stream (spliced_bytes p.unit stream) }
{}

/// The points of some units are exactly their IDR and BLA pictures of temporal id 0, in decoding
/// order, with rising numbers and units. Each begins at one of the units.
pub fn points_are_in_order()
    ensures only { (us : List Meaning) → All (IsPoint us) (points us) }
    ensures each { (us : List Meaning) (p : Picture) → IsPoint us p → Contains (points us) p }
    ensures numbers { (us : List Meaning) → AllPairs (λ p q. p.number < q.number) (points us) }
    ensures units { (us : List Meaning) → AllPairs (λ p q. p.unit < q.unit) (points us) }
    ensures within { (us : List Meaning) → All (λ p. p.unit < length us) (points us) }
{}

/// The point that is found by a number is a point of that number, and each point is found by its
/// own: where none is found, no point has that number.
pub fn points_have_numbers()
    ensures has { (us : List Meaning) (number : ℕ) → IfSome (point_numbered number us)
        (λ p. IsPoint us p × (p.number ≡ number)) }
    ensures found { (us : List Meaning) (p : Picture) → IsPoint us p
        → point_numbered p.number us ≡ Some p }
{}

/// What a point's first slice tells of it: its order count is slice_pic_order_cnt_lsb (8.3.1), and
/// its type and temporal id are those in the header of its unit (7.3.1.2).
pub fn points_by_their_slices()
    ensures order_count { (us : List Meaning) (p : Picture) → IsPoint us p
        → p.order_count ≡ pos p.first.pic_order_cnt_lsb }
    ensures header { (options : Options) (stream : List ℕ) (p : Picture)
        → IsPoint (meanings options stream) p
        → HoldsAt (BeginsPicture p) (units stream) p.unit }
{}
