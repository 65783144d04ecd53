//! The parameter sets that are kept (7.4.2.4.2).
ghost use Rattle.std.specs.Prelude.{◌≡◌, ◌-◌, ◌<◌, ◌^◌, ◌↔◌, length, true, IsTrue, IfErr, IfOk};
ghost use Rattle.std.specs.Prelude.{IfSome, IsFalse, IsErrOf, IsSome, OnErr, OnOk, option_map};
ghost use Rattle.std.specs.Prelude.{Some, None, [], if◌then◌else◌};
ghost use Rattle.std.specs.Ordering.{nat_cmp};
ghost use Rattle.std.specs.BTreeMap.{get};
ghost use Rattle.hevc_spec.specs.Payload.{payload, payload_bits};
ghost use Rattle.hevc_records.specs.SliceHeader.{default_slice_header};
ghost use Rattle.hevc_bits.specs.FoundUnit.{bytes_of};
ghost use Rattle.hevc_elements.specs.Kept.{telling_in};
ghost use Rattle.hevc_elements.specs.Telling.{and_told, told};
ghost use Rattle.hevc_tables.specs.SliceHeaderTable.{slice_segment_header};
ghost use Rattle.hevc_bits.specs.NaluType.{nalu_type_number};
ghost use Rattle.hevc_spec.specs.UnitTypes.{is_slice};
ghost use Rattle.hevc_parser.specs.Telling.{told_of_unit};
ghost use Rattle.hevc_elements.specs.Words.{NamesNoSet, ReadsSetUnit};
ghost use Rattle.hevc_tables.specs.VpsTable.{video_parameter_set};
ghost use Rattle.hevc_tables.specs.SpsTable.{sequence_parameter_set};
ghost use Rattle.hevc_tables.specs.PpsTable.{picture_parameter_set};
ghost use Rattle.hevc_stream.specs.Kept.{none_kept, with_video_set, with_sequence_set};
ghost use Rattle.hevc_stream.specs.Kept.{with_picture_set};
ghost use Rattle.hevc_video_set.specs.Vps.{plain_vps};
ghost use Rattle.hevc_sequence_set.specs.Sps.{plain_sps};
ghost use Rattle.hevc_picture_slice.specs.Pps.{plain_pps};
ghost use Rattle.hevc_picture_slice.specs.declared.slice_header.SliceHeader as code_header;
ghost use Rattle.hevc_picture_slice.specs.SliceHeader.{plain_slice_header};
ghost use Rattle.hevc_slice_header.specs.Answers.{ReadsSlice};
ghost use Rattle.hevc_parser.specs.Slices.{active_of, AreActive};
ghost use Rattle.hevc_parser.specs.Answers.{NamesNoPictureSet};
ghost use Rattle.hevc_parser.specs.OwnIds.{HasOwnIds, HasOwnIds-prop, HasNamedSets};
ghost use Rattle.hevc_parser.specs.OwnIds.{HasNamedSets-prop};
ghost use Rattle.hevc_bits.specs.declared.stream_limit.TheConstants.{STREAM_LIMIT};

use hevc_bits::{Nalu, NaluHeader, NaluType};
use hevc_boxed::Boxed;
use hevc_elements::Told;
use hevc_picture_slice::{Pps, Slice, SliceHeader};
use hevc_readers::{ParseError, read_pps, read_sps, read_vps, tell_pps, tell_sps, tell_vps};
use hevc_sequence_set::Sps;
use hevc_sequence_set::comparisons::sps_eq;
use hevc_slice_header::{ActiveSets, read_slice_header, tell_slice_header};
use hevc_video_set::Vps;
use std::alloc::{AllocError, Global};
use std::collections::BTreeMap;

/// The parameter sets that are kept, of each id the latest one (7.4.2.4.2).
///
/// Each is kept under its own id. The sequence parameter set that a kept picture parameter set
/// names is kept; it may be another one than the picture parameter set was read with, which stays
/// as it was read.
#[derive(Drop)]
pub struct Parser {
    alloc: Global,
    video_sets: BTreeMap<u8, Vps>,
    sequence_sets: BTreeMap<u8, Boxed<Sps>>,
    picture_sets: BTreeMap<u8, Pps>,
    ghost video_ids: { HasOwnIds (λ set. set.video_parameter_set_id) video_sets } by { HasOwnIds-prop (λ set. set.video_parameter_set_id) video_sets },
    ghost sequence_ids: { HasOwnIds (λ set. set.seq_parameter_set_id) sequence_sets } by { HasOwnIds-prop (λ set. set.seq_parameter_set_id) sequence_sets },
    ghost picture_ids: { HasOwnIds (λ set. set.pic_parameter_set_id) picture_sets } by { HasOwnIds-prop (λ set. set.pic_parameter_set_id) picture_sets },
    ghost named: { HasNamedSets sequence_sets picture_sets } by { HasNamedSets-prop sequence_sets picture_sets },
}

impl Parser {
    ghost use Rattle.std.specs.Borrow.{sem};
    ghost use Rattle.hevc_parser.specs.Kept.{kept_by, sequence_set_by, TilesCoverKept};
    ghost use Rattle.hevc_parser.specs.Lending.{LeavesParser, Keeps};

    /// No set is kept. Sets take their memory from `alloc`.
    pub fn new(alloc: Global) -> Parser
        ensures { kept_by result ≡ none_kept }
    {
        Parser {
            alloc,
            video_sets: BTreeMap::new(alloc),
            sequence_sets: BTreeMap::new(alloc),
            picture_sets: BTreeMap::new(alloc),
        }
    }

    /// Reads the video parameter set of a unit, of a stream of less than 2^60 bytes, by table 1
    /// (7.3.2.1), and keeps it.
    ///
    /// Errors: those of `read_vps`; what is kept then stays.
    #[tactic(auto, using(hevc_elements::proofs::SetMeaning::set_meanings))]
    pub fn parse_vps(&mut self, nalu: &Nalu<'_, NaluHeader>) -> Result<&Vps, ParseError>
        requires { length nalu.now.stream < STREAM_LIMIT }
        ensures* keeps { sem 𝓛 (LeavesParser self.entry
            (Keeps (λ set. with_video_set (plain_vps set.now)) result self.old)) }
        ensures unit { ReadsSetUnit (λ set. plain_vps set.now) video_parameter_set 32 nalu.now result }
        ensures names_no_set { IfErr result NamesNoSet }
    {
        let set = read_vps(self.alloc, nalu)?;
        self.lend_video_set(set)
    }

    /// Keeps a set, and lends it.
    fn lend_video_set(&mut self, set: Vps) -> Result<&Vps, ParseError>
        ensures* keeps { sem 𝓛 (LeavesParser self.entry
            (Keeps (λ set. with_video_set (plain_vps set.now)) result self.old)) }
        ensures same { IfOk result (λ kept. kept.now ≡ set) }
        ensures refused { IfErr result (λ e. e ≡ ParseError.NoMemory) }
    {
        let id = set.video_parameter_set_id;
        self.keep_video_set(set)?;
        Ok(self.video_sets.get(&id).unwrap())
    }

    // Its frame has whole sets: the stack of its callers stays small without it.
    #[inline(never)]
    fn keep_video_set(&mut self, set: Vps) -> Result<(), AllocError>
        ensures kept { OnOk result
            (kept_by self.new ≡ with_video_set (plain_vps set) (kept_by self.old)) }
        ensures found { OnOk result
            (get nat_cmp self.new.video_sets set.video_parameter_set_id ≡ Some set) }
        ensures stays { OnErr result (kept_by self.new ≡ kept_by self.old) }
    {
        self.video_sets.insert(set.video_parameter_set_id, set)?;
        Ok(())
    }

    /// Reads the sequence parameter set of a unit, of a stream of less than 2^60 bytes, by table 5
    /// (7.3.2.2.1), and keeps it.
    ///
    /// Errors: those of `read_sps`; what is kept then stays.
    #[tactic(auto, using(hevc_elements::proofs::SetMeaning::set_meanings))]
    pub fn parse_sps(&mut self, nalu: &Nalu<'_, NaluHeader>) -> Result<&Sps, ParseError>
        requires { length nalu.now.stream < STREAM_LIMIT }
        ensures* keeps { sem 𝓛 (LeavesParser self.entry
            (Keeps (λ set. with_sequence_set (plain_sps set.now)) result self.old)) }
        ensures unit { ReadsSetUnit (λ set. plain_sps set.now) sequence_parameter_set 33 nalu.now
            result }
        ensures names_no_set { IfErr result NamesNoSet }
    {
        let set = read_sps(self.alloc, nalu)?;
        self.lend_sequence_set(set)
    }

    /// Keeps a set, and lends it.
    fn lend_sequence_set(&mut self, set: Boxed<Sps>) -> Result<&Sps, ParseError>
        ensures* keeps { sem 𝓛 (LeavesParser self.entry
            (Keeps (λ set. with_sequence_set (plain_sps set.now)) result self.old)) }
        ensures same { IfOk result (λ kept. kept.now ≡ set) }
        ensures refused { IfErr result (λ e. e ≡ ParseError.NoMemory) }
    {
        let id = set.get().seq_parameter_set_id;
        self.insert_sequence_set(set)?;
        Ok(self.sequence_sets.get(&id).unwrap().get())
    }

    /// Keeps a sequence parameter set, in the place of an earlier one of its id (7.4.2.4.2), and
    /// tells whether that changed what is kept: whether no set was kept under its id, or one that
    /// differs from it.
    ///
    /// Errors: an allocation fails; what is kept then stays.
    pub fn keep_sequence_set(&mut self, set: Boxed<Sps>) -> Result<bool, AllocError>
        ensures kept { OnOk result
            (kept_by self.new ≡ with_sequence_set (plain_sps set) (kept_by self.old)) }
        ensures changed { IfOk result (λ changed. IsFalse changed
            ↔ (sequence_set_by self.old set.seq_parameter_set_id ≡ Some set)) }
        ensures stays { OnErr result (kept_by self.new ≡ kept_by self.old) }
    {
        let changed = !self.keeps(set.get());
        self.insert_sequence_set(set)?;
        Ok(changed)
    }

    /// Whether this very set is kept.
    fn keeps(&self, set: &Sps) -> bool
        ensures { IsTrue result
            ↔ (sequence_set_by self.now set.now.seq_parameter_set_id ≡ Some set.now) }
    {
        match self.sequence_sets.get(&set.seq_parameter_set_id) {
            Some(kept) => sps_eq(kept.get(), set),
            None => false,
        }
    }

    fn insert_sequence_set(&mut self, set: Boxed<Sps>) -> Result<(), AllocError>
        ensures kept { OnOk result
            (kept_by self.new ≡ with_sequence_set (plain_sps set) (kept_by self.old)) }
        ensures found { OnOk result
            (get nat_cmp self.new.sequence_sets set.seq_parameter_set_id ≡ Some set) }
        ensures stays { OnErr result (kept_by self.new ≡ kept_by self.old) }
    {
        let id = set.get().seq_parameter_set_id;
        self.sequence_sets.insert(id, set)?;
        Ok(())
    }

    /// Reads the picture parameter set of a unit, of a stream of less than 2^60 bytes, by table 11
    /// (7.3.2.3.1), with the sequence parameter sets that are kept, and keeps it.
    ///
    /// Errors: those of `read_pps`, and `NoMemory`; what is kept then stays.
    #[tactic(auto, using(hevc_elements::proofs::SetMeaning::set_meanings))]
    pub fn parse_pps(&mut self, nalu: &Nalu<'_, NaluHeader>) -> Result<&Pps, ParseError>
        requires { length nalu.now.stream < STREAM_LIMIT }
        ensures* keeps { sem 𝓛 (LeavesParser self.entry
            (Keeps (λ set. with_picture_set (plain_pps set.now)) result self.old)) }
        ensures unit { ReadsSetUnit (λ set. plain_pps set.now) (picture_parameter_set
            (nalu.now.header.nuh_temporal_id_plus1 - 1) (kept_by self.old).sequence_sets) 34
            nalu.now result }
        ensures names { IfErr result NamesNoPictureSet }
        // With tiles, the columns and the rows take all blocks of the picture (6.5.1).
        ensures tiles { IfOk result (λ set. TilesCoverKept self.old (plain_pps set.now)) }
    {
        let set = read_pps(self.alloc, nalu, &self.sequence_sets)?;
        self.lend_picture_set(set)
    }

    /// Keeps a set, and lends it.
    fn lend_picture_set(&mut self, set: Pps) -> Result<&Pps, ParseError>
        requires { IsSome ((kept_by self.old).sequence_sets set.seq_parameter_set_id) }
        ensures* keeps { sem 𝓛 (LeavesParser self.entry
            (Keeps (λ set. with_picture_set (plain_pps set.now)) result self.old)) }
        ensures same { IfOk result (λ kept. kept.now ≡ set) }
        ensures refused { IfErr result (λ e. e ≡ ParseError.NoMemory) }
    {
        let id = set.pic_parameter_set_id;
        self.keep_picture_set(set)?;
        Ok(self.picture_sets.get(&id).unwrap())
    }

    // Its frame has whole sets: the stack of its callers stays small without it.
    #[inline(never)]
    fn keep_picture_set(&mut self, set: Pps) -> Result<(), AllocError>
        requires { IsSome ((kept_by self.old).sequence_sets set.seq_parameter_set_id) }
        ensures kept { OnOk result
            (kept_by self.new ≡ with_picture_set (plain_pps set) (kept_by self.old)) }
        ensures found { OnOk result
            (get nat_cmp self.new.picture_sets set.pic_parameter_set_id ≡ Some set) }
        ensures stays { OnErr result (kept_by self.new ≡ kept_by self.old) }
    {
        self.picture_sets.insert(set.pic_parameter_set_id, set)?;
        Ok(())
    }

    /// A slice segment of this unit whose header isn't read yet: that of `SliceHeader::new`.
    pub fn new_slice<'a>(&self, nalu: Nalu<'a, NaluHeader>) -> Slice<'a>
        ensures header { plain_slice_header result.header ≡ default_slice_header }
        ensures unit { result.nalu ≡ nalu.entry }
    {
        Slice::new(SliceHeader::new(self.alloc), nalu)
    }

    /// Reads the header of a slice segment, a new one over a unit of a stream of less than 2^60
    /// bytes, by table 14 (7.3.6.1), with the sets that are kept. What is kept stays. Its entry
    /// points take memory. The answer is the sets that the header makes active.
    ///
    /// Errors: `WrongNaluType` first, where the unit is no slice (types 0 to 9 and 16 to 21);
    /// `OutOfBits` where the payload ends within an element; `OutOfRange` with table and row of the
    /// first element that isn't allowed; after row 3, `MissingPps` where no picture parameter set
    /// of the id that it names is kept; `NoMemory`. The header is again that of `SliceHeader::new`
    /// then.
    pub fn read_slice<'a>(&'a self, slice: &mut Slice<'_>) -> Result<ActiveSets<'a>, ParseError>
        requires short { length slice.old.nalu.stream < STREAM_LIMIT }
        requires new { plain_slice_header slice.old.header ≡ default_slice_header }
        ensures reads { ReadsSlice (active_of (kept_by self.now)) slice.old.nalu result
            slice.new.header }
        ensures sets { IfOk result (λ sets.
            AreActive (kept_by self.now) slice.new.header.pic_parameter_set_id sets) }
        ensures unit { slice.new.nalu ≡ slice.old.nalu }
    {
        let Slice { header, nalu } = slice;
        read_slice_header(
            self.alloc,
            nalu,
            &self.sequence_sets,
            &self.picture_sets,
            header,
        )
    }

    /// Reads the slice segment header of a unit, of a stream of less than 2^60 bytes, as
    /// `read_slice` does, and gives the slice segment.
    ///
    /// Errors: those of `read_slice`.
    pub fn parse_slice_header<'a>(
        &self,
        nalu: Nalu<'a, NaluHeader>,
    ) -> Result<Slice<'a>, ParseError>
        requires { length nalu.stream < STREAM_LIMIT }
        ensures reads { (header : code_header.SliceHeader)
            × IfOk result (λ slice. slice.header ≡ header)
            × ReadsSlice (active_of (kept_by self.now)) nalu.entry result header }
        ensures unit { IfOk result (λ slice. slice.nalu ≡ nalu.entry) }
    {
        let mut slice = self.new_slice(nalu);
        self.read_slice(&mut slice)?;
        Ok(slice)
    }

    /// Tells the elements of a unit, of a stream of less than 2^60 bytes, with the sets that are
    /// kept, after what is in the list and as long as it has room: those of a parameter set or of a
    /// slice segment header, of a refused one up to the element that is refused, and none of
    /// another unit. What is kept stays.
    ///
    /// Errors: reading wants memory that isn't there.
    pub fn tell(
        &self,
        nalu: &Nalu<'_, NaluHeader>,
        list: Vec<Told>,
    ) -> Result<Vec<Told>, AllocError>
        requires { length nalu.now.stream < STREAM_LIMIT }
        ensures { IfOk result (λ told_list. telling_in told_list
            ≡ and_told (told_of_unit (kept_by self.now) nalu.now) (telling_in list)) }
    {
        let header = nalu.header();
        let payload = nalu.payload();
        match header.nalu_type() as u8 {
            32 => tell_vps(self.alloc, payload, list),
            33 => tell_sps(self.alloc, payload, list),
            34 => {
                let temporal_id = header.temporal_id_plus1() - 1;
                Ok(tell_pps(self.alloc, temporal_id, payload, &self.sequence_sets, list))
            }
            _ => self.tell_other(header.nalu_type(), payload, list),
        }
    }

    /// Tells the elements of a unit that has no parameter set.
    fn tell_other(
        &self,
        nalu_type: NaluType,
        payload: &[u8],
        list: Vec<Told>,
    ) -> Result<Vec<Told>, AllocError>
        requires { length payload.now < STREAM_LIMIT }
        ensures { IfOk result (λ told_list. telling_in told_list ≡ and_told
            (if is_slice (nalu_type_number nalu_type) then
            told (slice_segment_header (nalu_type_number nalu_type) payload.now
            (active_of (kept_by self.now))) (payload_bits 0 payload.now) else [])
            (telling_in list)) }
    {
        if !nalu_type.is_slice() {
            return Ok(list);
        }
        tell_slice_header(
            self.alloc,
            nalu_type,
            payload,
            &self.sequence_sets,
            &self.picture_sets,
            list,
        )
    }

    /// The video parameter set of an id, if it is kept.
    pub fn get_vps(&self, vps_id: u8) -> Option<&Vps>
        ensures found { option_map (λ set. plain_vps set.now) result
            ≡ (kept_by self.now).video_sets vps_id }
        ensures own_id { IfSome result (λ set. set.now.video_parameter_set_id ≡ vps_id) }
    {
        self.video_sets.get(&vps_id)
    }

    /// The sequence parameter set of an id, if it is kept.
    pub fn get_sps(&self, sps_id: u8) -> Option<&Sps>
        ensures found { option_map (λ set. plain_sps set.now) result
            ≡ (kept_by self.now).sequence_sets sps_id }
        ensures own_id { IfSome result (λ set. set.now.seq_parameter_set_id ≡ sps_id) }
    {
        let set = self.sequence_sets.get(&sps_id)?;
        Some(set.get())
    }

    /// The picture parameter set of an id, if it is kept. The sequence parameter set that it names
    /// is kept too.
    pub fn get_pps(&self, pps_id: u8) -> Option<&Pps>
        ensures found { option_map (λ set. plain_pps set.now) result
            ≡ (kept_by self.now).picture_sets pps_id }
        ensures own_id { IfSome result (λ set. set.now.pic_parameter_set_id ≡ pps_id) }
        ensures names_kept { IfSome result
            (λ set. IsSome ((kept_by self.now).sequence_sets set.now.seq_parameter_set_id)) }
    {
        self.picture_sets.get(&pps_id)
    }
}
