//! Scaling lists in raster order.
ghost use Rattle.std.specs.Prelude.{◌≡◌, map, nat_lt, IsTrue};
ghost use Rattle.std.specs.List.{list_all};
ghost use Rattle.hevc_events.specs.Scan.{in_raster_order};

/// A list in raster order, by where each place of the block is on the scan.
pub fn raster_list<const N: usize>(entries: &[u8; N], scan_places: &[u8; N]) -> [u8; N]
    requires { IsTrue (list_all (λ place. nat_lt place N) scan_places.now) }
    ensures { result ≡ in_raster_order scan_places.now entries.now }
{
    let mut ordered = [0; N];
    for i in 0..N {
        ordered[i] = entries[scan_places[i] as usize];
    }
    ordered
}

/// Each of the six lists of a size in raster order.
pub fn raster_lists<const N: usize>(lists: &[[u8; N]; 6], scan_places: &[u8; N]) -> [[u8; N]; 6]
    requires { IsTrue (list_all (λ place. nat_lt place N) scan_places.now) }
    ensures { result ≡ map (in_raster_order scan_places.now) lists.now }
{
    let mut ordered = *lists;
    for list in ordered.iter_mut() {
        *list = raster_list(list, scan_places);
    }
    ordered
}
