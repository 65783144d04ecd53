//! The names of SEI messages (D.2.1).

/// The place of the name of each payloadType in the names, and at last their length.
pub static SPANS: [u16; 207] = [
    0, 16, 26, 39, 53, 83, 105, 119, 119, 119, 129, 129, 129, 129, 129, 129, 145, 181, 215, 215,
    241, 241, 241, 257, 274, 274, 274, 274, 274, 274, 274, 274, 274, 274, 274, 274, 274, 274, 274,
    274, 274, 274, 274, 274, 274, 274, 299, 299, 318, 318, 318, 318, 318, 318, 318, 318, 318, 332,
    332, 332, 332, 332, 332, 332, 332, 332, 332, 332, 332, 332, 332, 332, 332, 332, 332, 332, 332,
    332, 332, 332, 332, 332, 332, 332, 332, 332, 332, 332, 332, 332, 332, 332, 332, 332, 332, 332,
    332, 332, 332, 332, 332, 332, 332, 332, 332, 332, 332, 332, 332, 332, 332, 332, 332, 332, 332,
    332, 332, 332, 332, 332, 332, 332, 332, 332, 332, 332, 332, 332, 332, 358, 379, 397, 424, 444,
    460, 479, 489, 498, 529, 569, 606, 635, 653, 674, 707, 731, 755, 778, 814, 841, 862, 888, 906,
    906, 906, 921, 939, 952, 968, 993, 1021, 1039, 1072, 1083, 1107, 1129, 1147, 1159, 1193, 1209,
    1209, 1209, 1209, 1209, 1209, 1209, 1209, 1250, 1275, 1295, 1321, 1344, 1366, 1366, 1366, 1366,
    1366, 1366, 1366, 1366, 1366, 1366, 1366, 1366, 1366, 1366, 1366, 1366, 1366, 1366, 1366, 1378,
    1399, 1416, 1416, 1416, 1437,
];

/// The names.
pub static NAMES: [u8; 1437] = *b"\
    buffering_period\
    pic_timing\
    pan_scan_rect\
    filler_payload\
    user_data_registered_itu_t_t35\
    user_data_unregistered\
    recovery_point\
    scene_info\
    picture_snapshot\
    progressive_refinement_segment_start\
    progressive_refinement_segment_end\
    film_grain_characteristics\
    post_filter_hint\
    tone_mapping_info\
    frame_packing_arrangement\
    display_orientation\
    green_metadata\
    structure_of_pictures_info\
    active_parameter_sets\
    decoding_unit_info\
    temporal_sub_layer_zero_idx\
    decoded_picture_hash\
    scalable_nesting\
    region_refresh_info\
    no_display\
    time_code\
    mastering_display_colour_volume\
    segmented_rect_frame_packing_arrangement\
    temporal_motion_constrained_tile_sets\
    chroma_resampling_filter_hint\
    knee_function_info\
    colour_remapping_info\
    deinterlaced_field_identification\
    content_light_level_info\
    dependent_rap_indication\
    coded_region_completion\
    alternative_transfer_characteristics\
    ambient_viewing_environment\
    content_colour_volume\
    equirectangular_projection\
    cubemap_projection\
    sphere_rotation\
    regionwise_packing\
    omni_viewport\
    regional_nesting\
    mcts_extraction_info_sets\
    mcts_extraction_info_nesting\
    layers_not_present\
    inter_layer_constrained_tile_sets\
    bsp_nesting\
    bsp_initial_arrival_time\
    sub_bitstream_property\
    alpha_channel_info\
    overlay_info\
    temporal_mv_prediction_constraints\
    frame_field_info\
    three_dimensional_reference_displays_info\
    depth_representation_info\
    multiview_scene_info\
    multiview_acquisition_info\
    multiview_view_position\
    alternative_depth_info\
    sei_manifest\
    sei_prefix_indication\
    annotated_regions\
    shutter_interval_info\
    ";
