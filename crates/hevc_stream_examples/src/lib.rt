//! Worked streams, computed from their bytes: what the definitions of `hevc_stream` say of them.
#![tactic(auto)]

ghost use Rattle.std.specs.Prelude.{◌≡◌, pos, true, false, List, [], ◌∷◌, map, filter, is_ok, Some};
ghost use Rattle.std.specs.Prelude.{Ok, Err};
ghost use Rattle.hevc_spec.specs.Payload.{payload_after};
ghost use Rattle.hevc_spec.specs.Units.{units};
ghost use Rattle.hevc_spec.specs.UnitHeader.{nal_unit_type, unit_header};
ghost use Rattle.hevc_spec.specs.UnitTypes.{is_idr, is_bla, is_cra, is_irap, is_radl, is_rasl};
ghost use Rattle.hevc_spec.specs.UnitTypes.{is_slnr, is_slice, is_end};
ghost use Rattle.hevc_records.specs.SpsSizes.{sub_width_c, sub_height_c, leaves_some};
ghost use Rattle.hevc_records.specs.SpsSizes.{wp_offset_half_range, max_dpb_size};
ghost use Rattle.hevc_walk.specs.Meanings.{TruncatedNalu, InvalidNaluType, OutOfBits, OutOfRange};
ghost use Rattle.hevc_walk.specs.Meanings.{MissingPps, SequenceSet, CodedSlice, EndOfSequence};
ghost use Rattle.hevc_walk.specs.Meanings.{EndOfBitstream, Other, Refused};
ghost use Rattle.hevc_walk.specs.ReferenceSets.{no_references};
ghost use Rattle.hevc_walk.specs.ReferenceLists.{DpbEntry, numbers_below};
ghost use Rattle.hevc_walk.specs.Walk.{NewSequence, NewPicture, BeginPicture, DecodeSlice};
ghost use Rattle.hevc_walk.specs.Walk.{SubmitPicture};
ghost use Rattle.hevc_walk.specs.Refusals.{ChangedMidPicture, DpbFull};
ghost use Rattle.hevc_walk.specs.Results.{calls, verdict};
ghost use Rattle.hevc_stream.specs.Options.{default_options};
ghost use Rattle.hevc_stream.specs.Stream.{meanings};
ghost use Rattle.hevc_walk_examples.specs.Streams.{plain_format, deep_format, p4, cra, dependent};
ghost use Rattle.hevc_walk_examples.specs.Streams.{plain, encoded, crowded, leading, ended_by};
ghost use Rattle.hevc_walk_examples.specs.Streams.{equal_counts, without_reference};
ghost use Rattle.hevc_walk_examples.specs.Streams.{dependent_alone, dependent_behind, told_outputs};
ghost use Rattle.hevc_walk_examples.specs.Streams.{new_pictures, idr_bytes, p4_bytes, p2_bytes};
ghost use Rattle.hevc_stream_examples.specs.Worked.{plain_stream, encoded_stream, waiting_stream};
ghost use Rattle.hevc_stream_examples.specs.Worked.{still_waiting_stream, read_later_stream};
ghost use Rattle.hevc_stream_examples.specs.Worked.{in_order_stream, cut_sets_stream};
ghost use Rattle.hevc_stream_examples.specs.Worked.{cut_set_stream, not_read_again_stream};
ghost use Rattle.hevc_stream_examples.specs.Worked.{read_again_stream, resized_stream};
ghost use Rattle.hevc_stream_examples.specs.Worked.{mid_picture_stream, ended_within_stream};
ghost use Rattle.hevc_stream_examples.specs.Worked.{later_idr_bytes, crowded_stream};
ghost use Rattle.hevc_stream_examples.specs.Worked.{ends_early_stream, missing_set_stream};
ghost use Rattle.hevc_stream_examples.specs.Worked.{no_sets_yet_stream, truncated_stream};
ghost use Rattle.hevc_stream_examples.specs.Worked.{unspecified_stream, no_temporal_id_stream};
ghost use Rattle.hevc_stream_examples.specs.Worked.{end_cut_stream, many_sub_layers_stream};
ghost use Rattle.hevc_stream_examples.specs.Worked.{no_level_stream, long_latency_stream};
ghost use Rattle.hevc_stream_examples.specs.Worked.{leading_stream, sequence_ends_stream};
ghost use Rattle.hevc_stream_examples.specs.Worked.{bitstream_ends_stream, equal_counts_stream};
ghost use Rattle.hevc_stream_examples.specs.Worked.{without_reference_stream};
ghost use Rattle.hevc_stream_examples.specs.Worked.{dependent_alone_stream};
ghost use Rattle.hevc_stream_examples.specs.Worked.{dependent_behind_stream, before_sets_stream};
ghost use Rattle.hevc_stream_examples.specs.Worked.{cut_video_set_stream, two_layers_stream};
ghost use Rattle.hevc_stream_examples.specs.Worked.{large_stream, screen_stream, referring_stream};
ghost use Rattle.hevc_stream_examples.specs.Worked.{referring_slices, cra_within_stream};
ghost use Rattle.hevc_stream_examples.specs.Worked.{sub_layers_stream, cut_pps_bytes};
ghost use Rattle.hevc_stream_examples.specs.Worked.{other_pps_bytes, idr_of, sets_then};
ghost use Rattle.hevc_stream_examples.specs.Worked.{waiting_behind, video_set_stream};
ghost use Rattle.hevc_stream_examples.specs.Worked.{has_video_set, wide_format, large_format};
ghost use Rattle.hevc_stream_examples.specs.Worked.{screen_format, idr_under, later_idr_at_1};
ghost use Rattle.hevc_stream_examples.specs.Worked.{sub_layer_p2, handled, cra_as_bla, up_to};

/// An IDR picture and two P pictures: what the units mean, and what the walk makes of it.
pub fn plain_pictures()
    ensures plain { meanings default_options plain_stream ≡ plain }
    ensures calls { calls (meanings default_options plain_stream)
        ≡ (0, NewSequence plain_format) ∷ (2, NewPicture 0 19 (pos 0) true 0)
        ∷ (2, BeginPicture 0 no_references) ∷ (2, DecodeSlice 0 0 idr_bytes [] [])
        ∷ (3, SubmitPicture 0) ∷ (3, NewPicture 1 1 (pos 4) true 0)
        ∷ (3, BeginPicture 1 (record no_references { st_curr_before = Some 0 ∷ [] }))
        ∷ (3, DecodeSlice 1 0 p4_bytes (Some (DpbEntry 0) ∷ []) []) ∷ (4, SubmitPicture 1)
        ∷ (4, NewPicture 2 1 (pos 2) true 0)
        ∷ (
          4,
          BeginPicture 2 (record no_references {
            st_curr_before = Some 0 ∷ [];
            st_curr_after = Some 1 ∷ [];
          }),
        )
        ∷ (4, DecodeSlice 2 0 p2_bytes (Some (DpbEntry 0) ∷ []) []) ∷ (5, SubmitPicture 2) ∷ [] }
    ensures outputs { told_outputs (meanings default_options plain_stream)
        ≡ (0, pos 0, 4) ∷ (2, pos 2, 5) ∷ (1, pos 4, 5) ∷ [] }
    ensures verdict { verdict (meanings default_options plain_stream) ≡ Ok 3 }
{}

/// As an encoder writes it, with a video set, a message and a B slice, and a zero byte before each
/// start code.
pub fn encoder_stream()
    ensures encoded { meanings default_options encoded_stream ≡ encoded }
    ensures outputs { told_outputs (meanings default_options encoded_stream)
        ≡ (0, pos 0, 6) ∷ (2, pos 2, 7) ∷ (1, pos 4, 7) ∷ [] }
    ensures verdict { verdict (meanings default_options encoded_stream) ≡ Ok 3 }
{}

/// A stream without units, and units before the first sequence set, which ask for nothing.
pub fn beginnings()
    ensures empty { meanings default_options [] ≡ [] }
    ensures before_sets { meanings default_options before_sets_stream
        ≡ Other ∷ Other ∷ SequenceSet plain_format ∷ Other ∷ idr_of plain_format ∷ [] }
{}

/// A picture set that comes before its sequence set waits for it; of two with one id the later one
/// is kept. One that names another sequence set waits on, and so does one that ends too early.
pub fn waiting_sets()
    ensures waiting { meanings default_options waiting_stream
        ≡ Other ∷ SequenceSet plain_format ∷ idr_of plain_format ∷ [] }
    ensures still_waiting { meanings default_options still_waiting_stream
        ≡ Other ∷ SequenceSet plain_format ∷ Refused (MissingPps 0) ∷ [] }
    ensures read_later { meanings default_options read_later_stream
        ≡ Other ∷ SequenceSet plain_format ∷ SequenceSet plain_format ∷ idr_of plain_format ∷ [] }
    ensures in_order { meanings default_options in_order_stream
        ≡ Other ∷ Other ∷ SequenceSet plain_format ∷ idr_of plain_format ∷ dependent ∷ [] }
    ensures waits { waiting_behind cut_sets_stream ≡ cut_pps_bytes ∷ other_pps_bytes ∷ [] }
    ensures leaves { waiting_behind cut_set_stream ≡ cut_pps_bytes ∷ [] }
    ensures verdict { verdict (meanings default_options waiting_stream) ≡ Ok 1 }
{}

/// A video set is kept by its own id.
pub fn kept_video_sets()
    ensures { map (has_video_set video_set_stream) (0 ∷ 5 ∷ []) ≡ false ∷ true ∷ [] }
{}

/// A picture set stays as it was read where its sequence set is replaced: the bounds of quantisers
/// are still those of 8 bits, until it comes again.
pub fn replaced_sets()
    ensures not_read_again { meanings default_options not_read_again_stream
        ≡ sets_then plain_format (SequenceSet deep_format ∷ Refused (OutOfRange 14 36) ∷ []) }
    ensures read_again { meanings default_options read_again_stream
        ≡ sets_then plain_format (sets_then deep_format (idr_of deep_format ∷ [])) }
{}

/// A sequence set of another size: it is negotiated as a picture begins by it, and refused within a
/// picture.
pub fn changed_sizes()
    ensures resized { meanings default_options resized_stream
        ≡ sets_then plain_format
        (idr_of plain_format ∷ sets_then wide_format (idr_of wide_format ∷ [])) }
    ensures mid_picture { meanings default_options mid_picture_stream
        ≡ sets_then plain_format
        (idr_of plain_format ∷ sets_then wide_format (later_idr_at_1 wide_format ∷ [])) }
    ensures outputs { told_outputs (meanings default_options resized_stream)
        ≡ (0, pos 0, 5) ∷ (1, pos 0, 6) ∷ [] }
    ensures mid_picture_verdict { verdict (meanings default_options mid_picture_stream)
        ≡ Err (record { unit = 5; cause = ChangedMidPicture plain_format wide_format }) }
{}

/// An end of sequence between two slices of a picture doesn't end it: the later slice is decoded as
/// one of the same picture.
pub fn ends_within_pictures()
    ensures meant { meanings default_options ended_within_stream
        ≡ sets_then wide_format
        (idr_of wide_format ∷ EndOfSequence ∷ later_idr_at_1 wide_format ∷ []) }
    ensures calls { calls (meanings default_options ended_within_stream)
        ≡ (0, NewSequence wide_format)
        ∷ (2, NewPicture 0 19 (pos 0) true 0) ∷ (2, BeginPicture 0 no_references)
        ∷ (2, DecodeSlice 0 0 idr_bytes [] [])
        ∷ (4, DecodeSlice 0 1 later_idr_bytes [] [])
        ∷ (5, SubmitPicture 0) ∷ [] }
{}

/// A sequence set declares its numbers for each sub-layer: those of the highest that is wanted are
/// meant.
pub fn sub_layers()
    ensures lowest { meanings (up_to 0) two_layers_stream
        ≡ sets_then plain_format (idr_under 0 0 1 ∷ []) }
    ensures highest { meanings default_options two_layers_stream
        ≡ sets_then plain_format (idr_under 2 3 4 ∷ []) }
{}

/// MaxDpbSize falls from four times what the profile has to once as the picture has more than a
/// quarter, half and three quarters of the samples of the level's largest, and is at most 16. A
/// profile has six, one of screen content seven.
pub fn buffer_sizes()
    ensures large { meanings default_options large_stream ≡ SequenceSet large_format ∷ [] }
    ensures screen_content { meanings default_options screen_stream
        ≡ SequenceSet screen_format ∷ [] }
    ensures at { map (max_dpb_size 122880 6) (30720 ∷ 61440 ∷ 92160 ∷ 122880 ∷ [])
        ≡ 16 ∷ 12 ∷ 8 ∷ 6 ∷ [] }
    ensures above { map (max_dpb_size 122880 6) (30721 ∷ 61441 ∷ 92161 ∷ []) ≡ 12 ∷ 8 ∷ 6 ∷ [] }
    ensures screen { map (max_dpb_size 122880 7) (30720 ∷ 61440 ∷ 92160 ∷ 122880 ∷ [])
        ≡ 16 ∷ 14 ∷ 9 ∷ 7 ∷ [] }
{}

/// An end of sequence has its header alone, a start code has two zeros, and zeros at the end are no
/// part of a unit; a 03 after two zeros is dropped, and the zeros are counted anew after it.
pub fn bytes_of_units()
    ensures units { units (0 ∷ 0 ∷ 0 ∷ 1 ∷ 72 ∷ 1 ∷ 128 ∷ 0 ∷ 0 ∷ 1 ∷ 2 ∷ 1 ∷ 7 ∷ 0 ∷ 1 ∷ 0 ∷ 5 ∷ 1 ∷ 0 ∷ 0 ∷ [])
        ≡ record { offset = 4; bytes = 72 ∷ 1 ∷ [] }
        ∷ record { offset = 10; bytes = 2 ∷ 1 ∷ 7 ∷ 0 ∷ 1 ∷ 0 ∷ 5 ∷ 1 ∷ [] } ∷ [] }
    ensures payload { payload_after 0 (0 ∷ 0 ∷ 3 ∷ 0 ∷ 3 ∷ 0 ∷ 0 ∷ 3 ∷ [])
        ≡ 0 ∷ 0 ∷ 0 ∷ 3 ∷ 0 ∷ 0 ∷ [] }
{}

/// The header of a unit has six bits of the type after one that isn't looked at, six of the layer
/// and three of the temporal id; types from 48 on are unspecified.
pub fn headers_of_units()
    ensures fields { unit_header (221 ∷ 250 ∷ 7 ∷ [])
        ≡ Ok (record { nal_unit_type = 46; nuh_layer_id = 63; nuh_temporal_id_plus1 = 2 }) }
    ensures base_layer { unit_header (38 ∷ 1 ∷ [])
        ≡ Ok (record { nal_unit_type = 19; nuh_layer_id = 0; nuh_temporal_id_plus1 = 1 }) }
    ensures last { map is_ok (map (λ first. unit_header (first ∷ 1 ∷ [])) (94 ∷ 96 ∷ []))
        ≡ true ∷ false ∷ [] }
    ensures types { map nal_unit_type ([] ∷ (223 ∷ []) ∷ []) ≡ 0 ∷ 47 ∷ [] }
{}

/// By ChromaArrayType: the luma samples for a chroma sample across and down, and windows that just
/// leave something or don't; and the range of offsets of weights.
pub fn sizes_of_samples()
    ensures across { map sub_width_c (0 ∷ 1 ∷ 2 ∷ 3 ∷ []) ≡ 1 ∷ 2 ∷ 2 ∷ 1 ∷ [] }
    ensures down { map sub_height_c (0 ∷ 1 ∷ 2 ∷ 3 ∷ []) ≡ 1 ∷ 2 ∷ 1 ∷ 1 ∷ [] }
    ensures width { map (λ left. leaves_some 1 16 8 left 3 1 1) (4 ∷ 5 ∷ []) ≡ true ∷ false ∷ [] }
    ensures height { map (λ top. leaves_some 1 16 8 3 4 top 1) (2 ∷ 3 ∷ []) ≡ true ∷ false ∷ [] }
    ensures offsets { map (λ depth. wp_offset_half_range true depth) (0 ∷ 4 ∷ [])
        ≡ 128 ∷ 2048 ∷ [] }
    ensures low_offsets { wp_offset_half_range false 4 ≡ 128 }
{}

/// The kinds of unit types (Table 7-1), each with the types beside it.
pub fn kinds_of_units()
    ensures idr { filter is_idr (18 ∷ 19 ∷ 20 ∷ 21 ∷ []) ≡ 19 ∷ 20 ∷ [] }
    ensures bla { filter is_bla (15 ∷ 16 ∷ 17 ∷ 18 ∷ 19 ∷ []) ≡ 16 ∷ 17 ∷ 18 ∷ [] }
    ensures cra { filter is_cra (20 ∷ 21 ∷ 22 ∷ []) ≡ 21 ∷ [] }
    ensures irap { filter is_irap (15 ∷ 16 ∷ 22 ∷ 23 ∷ 24 ∷ []) ≡ 16 ∷ 22 ∷ 23 ∷ [] }
    ensures leading { filter is_radl (5 ∷ 6 ∷ 7 ∷ 8 ∷ []) ≡ 6 ∷ 7 ∷ [] }
    ensures skipped { filter is_rasl (7 ∷ 8 ∷ 9 ∷ 10 ∷ []) ≡ 8 ∷ 9 ∷ [] }
    ensures sub_layer { filter is_slnr (numbers_below 18)
        ≡ 0 ∷ 2 ∷ 4 ∷ 6 ∷ 8 ∷ 10 ∷ 12 ∷ 14 ∷ [] }
    ensures slices { filter is_slice (0 ∷ 9 ∷ 10 ∷ 15 ∷ 16 ∷ 21 ∷ 22 ∷ []) ≡ 0 ∷ 9 ∷ 16 ∷ 21 ∷ [] }
    ensures ends { filter is_end (35 ∷ 36 ∷ 37 ∷ 38 ∷ []) ≡ 36 ∷ 37 ∷ [] }
{}

/// Seven pictures that are needed for output in a buffer of six.
pub fn full_buffer()
    ensures crowded { meanings default_options crowded_stream ≡ crowded }
    ensures verdict { verdict (meanings default_options crowded_stream)
        ≡ Err (record { unit = 9; cause = DpbFull }) }
{}

/// A slice that ends too early, that names no kept picture set, or that takes a short-term set
/// where the sequence set has none.
pub fn refused_slices()
    ensures ends_early { meanings default_options ends_early_stream
        ≡ sets_then plain_format (idr_of plain_format ∷ Refused OutOfBits ∷ []) }
    ensures missing_set { meanings default_options missing_set_stream
        ≡ sets_then plain_format (Refused (MissingPps 5) ∷ []) }
    ensures no_sets_yet { meanings default_options no_sets_yet_stream
        ≡ sets_then plain_format (Refused (OutOfRange 14 11) ∷ []) }
{}

/// Faults of the headers of units. The two bytes that an end keeps are looked at only once its
/// header is read.
pub fn refused_headers()
    ensures truncated { meanings default_options truncated_stream ≡ Refused TruncatedNalu ∷ [] }
    ensures unspecified { meanings default_options unspecified_stream
        ≡ Refused (InvalidNaluType 62) ∷ [] }
    ensures no_temporal_id { meanings default_options no_temporal_id_stream
        ≡ Refused (OutOfRange 0 1) ∷ [] }
    ensures end_cut { meanings default_options end_cut_stream ≡ Refused (OutOfRange 0 1) ∷ [] }
{}

/// Sequence sets of eight sub-layers, of a level that there is none of, and of a latency above 255;
/// a video set that ends too early.
pub fn refused_sets()
    ensures cut_video_set { meanings default_options cut_video_set_stream ≡ Refused OutOfBits ∷ [] }
    ensures many_sub_layers { meanings default_options many_sub_layers_stream
        ≡ Refused (OutOfRange 5 2) ∷ [] }
    ensures no_level { meanings default_options no_level_stream ≡ Refused (OutOfRange 2 27) ∷ [] }
    ensures long_latency { meanings default_options long_latency_stream
        ≡ Refused (OutOfRange 5 19) ∷ [] }
{}

/// A stream that begins at a CRA picture, and CRA pictures after ends.
pub fn random_access()
    ensures leading { meanings default_options leading_stream ≡ leading }
    ensures sequence_ends { meanings default_options sequence_ends_stream ≡ ended_by EndOfSequence }
    ensures bitstream_ends { meanings default_options bitstream_ends_stream
        ≡ ended_by EndOfBitstream }
    ensures outputs { told_outputs (meanings default_options leading_stream) ≡ (0, pos 8, 6) ∷ [] }
{}

/// Pictures of one order count, and a P slice without a reference picture.
pub fn references()
    ensures equal_counts { meanings default_options equal_counts_stream ≡ equal_counts }
    ensures without_reference { meanings default_options without_reference_stream
        ≡ without_reference }
{}

/// Slices with all that a header says of references, by sets of other ids.
pub fn long_term_references()
    ensures { meanings default_options referring_stream
        ≡ sets_then wide_format referring_slices }
{}

/// A dependent slice alone, and after an independent one.
pub fn dependent_slices()
    ensures dependent_alone { meanings default_options dependent_alone_stream ≡ dependent_alone }
    ensures dependent_behind { meanings default_options dependent_behind_stream ≡ dependent_behind }
{}

/// A CRA picture handled as a BLA picture discards what is needed for output; a unit above the
/// wanted sub-layers is passed over.
pub fn options()
    ensures as_cra { meanings default_options cra_within_stream
        ≡ sets_then plain_format (idr_of plain_format ∷ p4 ∷ cra ∷ []) }
    ensures as_bla { meanings cra_as_bla cra_within_stream
        ≡ map handled (sets_then plain_format (idr_of plain_format ∷ p4 ∷ cra ∷ [])) }
    ensures lowest { meanings (up_to 0) sub_layers_stream
        ≡ sets_then plain_format (idr_of plain_format ∷ p4 ∷ Other ∷ []) }
    ensures with_sub_layer { meanings (up_to 1) sub_layers_stream
        ≡ sets_then plain_format (idr_of plain_format ∷ p4 ∷ CodedSlice sub_layer_p2 ∷ []) }
    ensures as_cra_outputs { told_outputs (meanings default_options cra_within_stream)
        ≡ (0, pos 0, 4) ∷ (1, pos 4, 5) ∷ (2, pos 8, 5) ∷ [] }
    ensures as_bla_outputs { told_outputs (meanings cra_as_bla cra_within_stream)
        ≡ (0, pos 0, 4) ∷ (2, pos 8, 5) ∷ [] }
    ensures as_bla_verdict { verdict (meanings cra_as_bla cra_within_stream) ≡ Ok 3 }
    ensures lowest_outputs { told_outputs (meanings (up_to 0) sub_layers_stream)
        ≡ (0, pos 0, 5) ∷ (1, pos 4, 5) ∷ [] }
    ensures lowest_verdict { verdict (meanings (up_to 0) sub_layers_stream) ≡ Ok 2 }
    ensures with_sub_layer_pictures { new_pictures (meanings (up_to 1) sub_layers_stream)
        ≡ (0, 19, pos 0, true) ∷ (1, 1, pos 4, true) ∷ (2, 2, pos 2, true) ∷ [] }
{}
